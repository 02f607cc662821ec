// What a call answered, in words; the session that it handed back; and a number mixed from every word of memory.
ghost use Rattle.std.specs.Prelude.{◌≡◌, MatchResult};

use fst::Refusal;
use lazy_fst::{Answer, PartAnswer, Session, WeightAnswer};

fn put(n: u32) {
    io::write_all(1, b" ");
    io::print_decimal(1, n as u64);
}

pub fn words(slice: &[u32]) {
    for w in slice {
        put(*w);
    }
}

pub fn end() {
    io::write_all(1, b"\n");
}

fn session(s: Session) {
    io::write_all(1, b" /");
    words(&[
        s.settings.kind,
        s.settings.filter,
        s.settings.sigma1.0,
        s.settings.mode1,
        s.settings.sigma2.0,
        s.settings.mode2,
        s.side,
        s.used.states,
        s.used.trs,
    ]);
}

fn mix(sum: u32, w: u32) -> u32 {
    sum.wrapping_mul(31).wrapping_add(w).wrapping_add(1)
}

fn mixed(slice: &[u32], start: u32) -> u32 {
    slice.iter().fold(start, |sum, w| mix(sum, *w))
}

// The session, then memory.
pub fn left(s: Session, heads: &[u32], states: &[u32], trs: &[u32]) {
    session(s);
    io::write_all(1, b" /");
    put(mixed(trs, mixed(states, mixed(heads, 0))));
    end();
}

// All of memory, a line for each slice.
pub fn memory(heads: &[u32], states: &[u32], trs: &[u32]) {
    io::write_all(1, b"h");
    words(heads);
    end();
    io::write_all(1, b"s");
    words(states);
    end();
    io::write_all(1, b"t");
    words(trs);
    end();
}

// The number of the refusal.
fn refused(refusal: Refusal) {
    put(u32::from(refusal));
}

// The number, 0 where the call is accepted. Each of these three answers the session that the call handed back.
pub fn answer(a: Answer) -> Session
    ensures { MatchResult a (λ s. result ≡ s) (λ e. result ≡ e.1) }
{
    match a {
        Ok(s) => {
            put(0);
            s
        }
        Err((refusal, s)) => {
            refused(refusal);
            s
        }
    }
}

// The number, then the count of matches.
pub fn count(a: Result<u32, Refusal>) {
    match a {
        Ok(n) => {
            put(0);
            put(n);
        }
        Err(refusal) => refused(refusal),
    }
}

// The number, then the first and the count.
pub fn part(a: PartAnswer) -> Session
    ensures { MatchResult a (λ p. result ≡ p.1) (λ e. result ≡ e.1) }
{
    match a {
        Ok((p, s)) => {
            put(0);
            put(p.first);
            put(p.count);
            s
        }
        Err((refusal, s)) => {
            refused(refusal);
            s
        }
    }
}

// The number, then 1 and the weight, or 0 where the state is not final.
pub fn weight(a: WeightAnswer) -> Session
    ensures { MatchResult a (λ p. result ≡ p.1) (λ e. result ≡ e.1) }
{
    match a {
        Ok((Some(w), s)) => {
            put(0);
            put(1);
            put(w);
            s
        }
        Ok((None, s)) => {
            put(0);
            put(0);
            s
        }
        Err((refusal, s)) => {
            refused(refusal);
            s
        }
    }
}
