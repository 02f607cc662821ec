// The final weights of all found states: whether each is answered, and two words for each, where all are. The checks 1 to 8 pass, and are not made.
#![tactic(auto)]

ghost use Rattle.std.specs.Prelude.{◌≡◌, [], ◌∷◌, ◌+◌, ◌*◌, ◌≤◌, length};
ghost use Rattle.lists.specs.Lists.{put};
ghost use Rattle.calls.specs.Store.{Memory};
ghost use Rattle.calls.specs.Checks.{Passes};
ghost use Rattle.calls.specs.Owned.{weights_from, final_weights_of};
ghost use Rattle.fst.specs.Refusals.{checked_by};
ghost use Rattle.store_records.specs.Meaning.{memory_of};
ghost use Rattle.lazy_fst.specs.Meaning.{lent_with, session_means, weight_left};
ghost use Rattle.final_weights.specs.Weights.{verdict, given_weight, weight_words, weights_words, words_from};

use fst::{Refusal, StateId};
use lazy_fst::{AllowedLists, Session, WeightAnswer};

// Whether a final weight was answered; else its refusal.
fn judged(weight: WeightAnswer) -> Result<(), Refusal>
    ensures { (m : Memory) → checked_by (λ answered. answered) result ≡ verdict (weight_left weight m).answer }
{
    match weight {
        Ok(_) => Ok(()),
        Err((refusal, _)) => Err(refusal),
    }
}

// How many states are found.
pub fn found(session: Session) -> u32
    ensures { result ≡ session.used.states }
{
    session.used.states
}

// Takes the final weight of each found state, in number order: whether all were answered, else the first refusal.
pub fn take_weights(
    session: Session,
    m1: &[u32],
    m2: &[u32],
    allowed1: &[u32],
    allowed2: &[u32],
    ignored: &[u32],
    listed: AllowedLists,
    heads: &[u32],
    states: &[u32],
    trs: &[u32],
) -> Result<(), Refusal>
    requires { let l = lent_with m1.now m2.now allowed1.now allowed2.now ignored.now listed in
        Passes l (session_means session) (memory_of heads.now states.now trs.now) }
    ensures { let l = lent_with m1.now m2.now allowed1.now allowed2.now ignored.now listed in
        let m = memory_of heads.now states.now trs.now in
        checked_by (λ answered. answered) result ≡ verdict (weights_from l (session_means session) m 0 session.used.states) }
{
    for n in 0..session.used.states {
        let s = StateId(n);
        let weight = session.trusted_final_weight(
            m1, m2, allowed1, allowed2, ignored, listed, heads, states, trs, s,
        );
        judged(weight)?;
    }
    Ok(())
}

// Two words at a place.
fn put_two(out: &mut [u32], at: usize, a: u32, b: u32)
    requires { at + 2 ≤ length out.old }
    ensures { out.new ≡ put out.old at (a ∷ b ∷ []) }
{
    out[at] = a;
    out[at + 1] = b;
}

// The words of a weight at a place. One that was refused would stand as that of a state that is not final; none such is put.
pub fn put_weight(out: &mut [u32], at: usize, weight: WeightAnswer)
    requires { at + 2 ≤ length out.old }
    ensures { (m : Memory) → out.new ≡ put out.old at (weight_words (given_weight (weight_left weight m).answer)) }
{
    match weight {
        Ok((Some(w), _)) => put_two(out, at, 1, w),
        Ok((None, _)) | Err(_) => put_two(out, at, 0, 0),
    }
}

// The words of every found state, those of state n at 2 n.
fn put_weights(
    session: Session,
    m1: &[u32],
    m2: &[u32],
    allowed1: &[u32],
    allowed2: &[u32],
    ignored: &[u32],
    listed: AllowedLists,
    heads: &[u32],
    states: &[u32],
    trs: &[u32],
    out: &mut [u32],
)
    requires fact { let l = lent_with m1.now m2.now allowed1.now allowed2.now ignored.now listed in
        Passes l (session_means session) (memory_of heads.now states.now trs.now) }
    requires sized { length out.old ≡ 2 * session.used.states }
    ensures { let l = lent_with m1.now m2.now allowed1.now allowed2.now ignored.now listed in
        let m = memory_of heads.now states.now trs.now in
        out.new ≡ words_from l (session_means session) m 0 session.used.states }
{
    for n in 0..session.used.states {
        let s = StateId(n);
        let weight = session.trusted_final_weight(
            m1, m2, allowed1, allowed2, ignored, listed, heads, states, trs, s,
        );
        put_weight(out, 2 * (n as usize), weight);
    }
}

// Takes all final weights, and writes their words, two for each found state in number order; where one is refused, nothing is written.
pub fn write_weights(
    session: Session,
    m1: &[u32],
    m2: &[u32],
    allowed1: &[u32],
    allowed2: &[u32],
    ignored: &[u32],
    listed: AllowedLists,
    heads: &[u32],
    states: &[u32],
    trs: &[u32],
    out: &mut [u32],
) -> Result<(), Refusal>
    requires fact { let l = lent_with m1.now m2.now allowed1.now allowed2.now ignored.now listed in
        Passes l (session_means session) (memory_of heads.now states.now trs.now) }
    requires sized { length out.old ≡ 2 * session.used.states }
    ensures result_value { let l = lent_with m1.now m2.now allowed1.now allowed2.now ignored.now listed in
        let m = memory_of heads.now states.now trs.now in
        checked_by (λ answered. answered) result ≡ verdict (final_weights_of l (session_means session) m) }
    ensures words { let l = lent_with m1.now m2.now allowed1.now allowed2.now ignored.now listed in
        let m = memory_of heads.now states.now trs.now in
        out.new ≡ weights_words out.old (final_weights_of l (session_means session) m) }
{
    take_weights(
        session, m1, m2, allowed1, allowed2, ignored, listed, heads, states, trs,
    )?;
    put_weights(
        session, m1, m2, allowed1, allowed2, ignored, listed, heads, states, trs, out,
    );
    Ok(())
}
