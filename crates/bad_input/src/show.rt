// What each public function answers, in lines of numbers.
use compose_filters::{Facts, MoveKind};
use fst::{Label, Machines, MatchType, Matched, NO_LABEL, Refusal, Sigmas, StateId, Tr};
use match_type::Side;

// Each side is asked, inputs first.
const SIDES: [MatchType; 2] = [MatchType::MatchInput, MatchType::MatchOutput];

fn put(n: u32) {
    io::write_all(1, b" ");
    io::print_decimal(1, n as u64);
}

fn flag(b: bool) {
    put(b as u32);
}

// 1 and the number, or 0.
fn optional(n: Option<u32>) {
    flag(n.is_some());
    if let Some(n) = n {
        put(n);
    }
}

fn end() {
    io::write_all(1, b"\n");
}

// Machine 1 has a sigma label, which some of the lists below hold.
fn sigmas() -> Sigmas {
    Sigmas {
        first: Label(5),
        second: NO_LABEL,
    }
}

// A machine that is matched on a side, with those labels and a list.
fn matched_on<'a>(words: &'a [u32], on: MatchType, ignored: &'a [u32]) -> Matched<'a> {
    Matched {
        words,
        on,
        sigmas: sigmas(),
        ignored,
    }
}

fn properties(m: &[u32], ignored: &[u32]) {
    io::write_all(1, b"p");
    flag(fst_properties::well_formed(m));
    for on in SIDES {
        flag(fst_properties::sorted(matched_on(m, on, ignored)));
    }
    for on in SIDES {
        flag(fst_properties::acceptor(matched_on(m, on, ignored)));
    }
    end();
}

// Each mark as it stands, and as a machine that is matched on a side has it read.
fn marks(m: &[u32], ignored: &[u32]) {
    for on in SIDES {
        put(fst::side_mark(m, on));
    }
    for on in SIDES {
        put(fst::inner_mark(m, on, ignored));
    }
    put(fst::acceptor_mark(m));
    for on in SIDES {
        put(fst_properties::inner_acceptor_mark(matched_on(m, on, ignored)));
    }
}

fn header(m: &[u32], ignored: &[u32]) {
    io::write_all(1, b"h");
    put(fst::word(m, usize::MAX));
    put(fst::num_states(m));
    put(fst::num_records(m));
    put(fst::start_word(m));
    marks(m, ignored);
    optional(fst::start(m).map(|s| s.0));
    end();
}

fn epsilons(m: &[u32], ignored: &[u32], s: StateId) {
    for on in SIDES {
        flag(compose_filters::no_eps(matched_on(m, on, ignored), s));
    }
    for on in SIDES {
        flag(compose_filters::all_eps(matched_on(m, on, ignored), s));
    }
}

fn list(m: &[u32], s: StateId) {
    put(fst::state_word(m, s, 0));
    put(fst::state_word(m, s, u32::MAX));
    put(fst::first_tr(m, s));
    put(fst::num_trs(m, s));
}

fn state(m: &[u32], ignored: &[u32], s: StateId) {
    io::write_all(1, b"s");
    list(m, s);
    flag(fst::is_final(m, s));
    put(fst::final_weight(m, s));
    epsilons(m, ignored, s);
    end();
}

fn label(x: Label) {
    put(x.0);
}

fn transition(tr: Tr) {
    put(tr.ilabel.0);
    put(tr.olabel.0);
    put(tr.weight);
    put(tr.nextstate.0);
}

// Record t in a machine that is matched on a side.
fn matched(m: &[u32], on: MatchType, ignored: &[u32], t: u32) {
    label(fst::label_on(m, on, t));
    label(fst::inner_label(matched_on(m, on, ignored), t));
    transition(fst::get_tr(matched_on(m, on, ignored), t));
}

fn record(m: &[u32], ignored: &[u32], t: u32) {
    io::write_all(1, b"r");
    put(fst::tr_word(m, t, 4));
    put(fst::tr_word(m, t, u32::MAX));
    put(fst::next_tr(m, t));
    for on in SIDES {
        matched(m, on, ignored, t);
    }
    end();
}

fn facts(m: &[u32], ignored: &[u32]) {
    io::write_all(1, b"f");
    let two = Machines {
        m1: m,
        m2: m,
        sigmas: sigmas(),
        ignored,
    };
    let f = compose_filters::facts_at(two, StateId(u32::MAX), StateId(0));
    flag(f.none1);
    flag(f.all1);
    flag(f.none2);
    flag(f.all2);
    end();
}

// 1 input, 2 output, 3 both; else the refusal.
fn chosen(side: Result<Side, Refusal>) {
    put(match side {
        Ok(Side::Only(MatchType::MatchInput)) => 1,
        Ok(Side::Only(MatchType::MatchOutput)) => 2,
        Ok(Side::Both) => 3,
        Err(refusal) => u32::from(refusal),
    });
}

// The choice of the side is for well-formed machines.
fn side(m: &[u32], ignored: &[u32], first: Label, second: Label) {
    if fst_properties::well_formed(m) {
        chosen(match_type::match_type(Machines {
            m1: m,
            m2: m,
            sigmas: Sigmas { first, second },
            ignored,
        }));
    }
}

fn sides(m: &[u32], ignored: &[u32]) {
    io::write_all(1, b"m");
    side(m, ignored, NO_LABEL, NO_LABEL);
    side(m, ignored, Label(5), NO_LABEL);
    side(m, ignored, NO_LABEL, Label(5));
    side(m, ignored, Label(5), Label(0));
    end();
}

fn under(m: &[u32], ignored: &[u32]) {
    properties(m, ignored);
    header(m, ignored);
    for s in [0, u32::MAX] {
        state(m, ignored, StateId(s));
    }
    for t in [0, 1, u32::MAX] {
        record(m, ignored, t);
    }
    facts(m, ignored);
    sides(m, ignored);
}

// With no label ignored, with some, and with a list that every call refuses.
pub fn machine(m: &[u32]) {
    under(m, &[]);
    under(m, &[5, 1, 9, 5]);
    under(m, &[u32::MAX, 0]);
}

// Each product and 1 before it, or 0 where it is too large.
fn products(kind: u32) {
    let factors = [
        (u32::MAX, u32::MAX),
        (u32::MAX, 1),
        (2147483647, 2147483647),
        (2147483648, 2147483647),
        (65535, 65537),
        (65536, 65536),
    ];
    for (a, b) in factors {
        optional(semirings::times(kind, a, b));
    }
}

pub fn weights(kind: u32) {
    io::write_all(1, b"w");
    put(semirings::one(kind));
    put(semirings::zero(kind));
    flag(semirings::is_zero(kind, 0));
    flag(semirings::is_zero(kind, u32::MAX));
    products(kind);
    end();
}

// The four rows at one filter and one f, each 1 and the next f, or 0; both facts hold, as in an empty state that is not final.
fn rows(filter: u32, f: u32) {
    let facts = Facts {
        none1: true,
        all1: true,
        none2: true,
        all2: true,
    };
    let kinds = [
        MoveKind::Lone1,
        MoveKind::Lone2,
        MoveKind::BothEpsilon,
        MoveKind::ALabel,
    ];
    for kind in kinds {
        optional(compose_filters::filter_tr(filter, kind, facts, f));
    }
}

pub fn cells(filter: u32) {
    io::write_all(1, b"c");
    for f in [0, 1, 2, u32::MAX] {
        rows(filter, f);
    }
    end();
}
