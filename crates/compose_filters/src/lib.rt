// The composition filters (compose_filters/mod.rs): what a filter sees of the two states, and the table.
#![tactic(auto)]

mod alt_sequence_compose_filter;
mod match_compose_filter;
mod no_match_compose_filter;
mod null_compose_filter;
mod sequence_compose_filter;
mod trivial_compose_filter;

ghost use Rattle.std.specs.Prelude.{◌≡◌};
ghost use Rattle.words.specs.Labels.{no_label};
ghost use Rattle.words.specs.Matches.{inputs, outputs};
ghost use Rattle.words.specs.Filters.{none_at, all_at, facts_at, all_first, none_first, filter_of};
ghost use Rattle.fst.specs.Meaning.{on_of, as_operand, words_as_read, first_of_two, second_of_two};
ghost use Rattle.compose_filters.specs.Meaning.{move_means, facts_mean, wanted_eps, epsilons_are};

use fst::{EPS_LABEL, Machines, Matched, StateId, first_tr, inner_label, is_final, next_tr};

// The row of the table: which of the machines moves, and by what label.
#[derive(Clone, Copy)]
pub enum MoveKind {
    Lone1,
    Lone2,
    BothEpsilon,
    ALabel,
}

// For each machine: no epsilon on its inner side; only epsilons there, and the state not final.
#[derive(Clone, Copy)]
pub struct Facts {
    pub none1: bool,
    pub all1: bool,
    pub none2: bool,
    pub all2: bool,
}

// Whether record t has the inner label epsilon, or, where wanted is false, has not.
fn eps_is(m: Matched<'_>, t: u32, wanted: bool) -> bool
    ensures { result ≡ wanted_eps wanted (on_of m.entry.on) (words_as_read m.entry) t }
{
    (inner_label(m, t) == EPS_LABEL) == wanted
}

// Whether the state's list has only epsilons on a side, or, where wanted is false, none. Left at the first record that is otherwise.
fn epsilons_are(m: Matched<'_>, s: StateId, wanted: bool) -> bool
    ensures { result ≡ epsilons_are wanted (on_of m.entry.on) (words_as_read m.entry) s.0 }
{
    let mut ok = true;
    let mut t = first_tr(m.words, s);
    'list: while t != 0 {
        if !eps_is(m, t, wanted) {
            ok = false;
            break 'list;
        }
        t = next_tr(m.words, t);
    }
    ok
}

// "none" of a state.
pub fn no_eps(m: Matched<'_>, s: StateId) -> bool
    ensures { result ≡ none_at (as_operand (on_of m.entry.on) (words_as_read m.entry) no_label) s.0 }
{
    epsilons_are(m, s, false)
}

// "all" of a state.
pub fn all_eps(m: Matched<'_>, s: StateId) -> bool
    ensures { result ≡ all_at (as_operand (on_of m.entry.on) (words_as_read m.entry) no_label) s.0 }
{
    !is_final(m.words, s) && epsilons_are(m, s, true)
}

// What a filter sees of a pair of states.
pub fn facts_at(two: Machines<'_>, s1: StateId, s2: StateId) -> Facts
    ensures { let words1 = words_as_read (first_of_two two.entry) in
        let words2 = words_as_read (second_of_two two.entry) in
        facts_mean result ≡ facts_at (as_operand outputs words1 no_label) (as_operand inputs words2 no_label) s1.0 s2.0 }
{
    Facts {
        none1: no_eps(two.first(), s1),
        all1: all_eps(two.first(), s1),
        none2: no_eps(two.second(), s2),
        all2: all_eps(two.second(), s2),
    }
}

// A cell of the table: the next filter state; none: the move is dropped. This one asks for "all" first.
fn all_first(all: bool, none: bool, g: u32) -> Option<u32>
    ensures { result ≡ all_first all none g }
{
    if all {
        return None;
    }
    if none {
        return Some(0);
    }
    Some(g)
}

// A cell that asks for "none" first.
fn none_first(none: bool, all: bool, g: u32) -> Option<u32>
    ensures { result ≡ none_first none all g }
{
    if none {
        return Some(0);
    }
    if all {
        return None;
    }
    Some(g)
}

// The table: filter 0 sequence, 1 alternate, 2 match, 3 null, 4 trivial, 5 no-match. A larger number is refused before it comes here.
pub fn filter_tr(filter: u32, kind: MoveKind, facts: Facts, f: u32) -> Option<u32>
    ensures { result ≡ filter_of filter (move_means kind) (facts_mean facts) f }
{
    match filter {
        0 => sequence_compose_filter::filter_tr(kind, facts, f),
        1 => alt_sequence_compose_filter::filter_tr(kind, facts, f),
        2 => match_compose_filter::filter_tr(kind, facts, f),
        3 => null_compose_filter::filter_tr(kind),
        4 => trivial_compose_filter::filter_tr(),
        _ => no_match_compose_filter::filter_tr(kind),
    }
}
