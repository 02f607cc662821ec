// A machine's words, read by number on every slice: a word past the end is 0, and a first or next that breaks its rule ends the list.
ghost use Rattle.std.specs.Prelude.{◌≡◌, length, get_or};
ghost use Rattle.words.specs.Machines.{state_count, tr_count, start_word, side_mark, acceptor_mark, state_word, tr_word, first_of, next_of, list_of, machine_of};
ghost use Rattle.words.specs.Matches.{label_on, tr_of};
ghost use Rattle.words.specs.Ignored.{otherwise};
ghost use Rattle.fst.specs.Meaning.{on_of, number_if, tr_means, read_as, words_as_read};

use crate::ignored::heard;
use crate::{
    FINAL, FINAL_WEIGHT, FIRST, HEADER_WORDS, INPUT, Label, MatchType, Matched, NEXT, OUTPUT,
    STATE_WORDS, Sigmas, StateId, TARGET, TR_WORDS, Tr, WEIGHT,
};

// Word i, and 0 past the end.
pub fn word(m: &[u32], i: usize) -> u32
    ensures { result ≡ get_or m.now i 0 }
{
    if i < m.len() { m[i] } else { 0 }
}

pub fn num_states(m: &[u32]) -> u32
    ensures { result ≡ state_count m.now }
{
    word(m, 0)
}

// The number of transition records, in a state's list or not.
pub fn num_records(m: &[u32]) -> u32
    ensures { result ≡ tr_count m.now }
{
    word(m, 1)
}

// The start plus one; 0: no start.
pub fn start_word(m: &[u32]) -> u32
    ensures { result ≡ start_word m.now }
{
    word(m, 2)
}

pub fn start(m: &[u32]) -> Option<StateId>
    ensures { number_if result ≡ (machine_of m.now).start }
{
    let n = start_word(m);
    if n == 0 {
        return None;
    }
    Some(StateId(n - 1))
}

// The mark of a side as it is lent: what the check of a machine holds to the fact.
pub fn side_mark(m: &[u32], on: MatchType) -> u32
    ensures { result ≡ side_mark (on_of on) m.now }
{
    match on {
        MatchType::MatchInput => word(m, 3),
        MatchType::MatchOutput => word(m, 4),
    }
}

// The mark of the side on which a machine is matched: what the choice of the side goes by. A list of ignored labels makes it 0.
#[tactic(auto, using(words::proofs::ReplacedLaws::otherwise_none, words::proofs::ReplacedLaws::otherwise_some))]
pub fn inner_mark(m: &[u32], on: MatchType, ignored: &[u32]) -> u32
    ensures { result ≡ otherwise ignored.now (side_mark (on_of on) m.now) 0 }
{
    if ignored.is_empty() {
        return side_mark(m, on);
    }
    0
}

pub fn acceptor_mark(m: &[u32]) -> u32
    ensures { result ≡ acceptor_mark m.now }
{
    word(m, 5)
}

// Word k of the record of state s; 0 where there is no such state.
pub fn state_word(m: &[u32], s: StateId, k: u32) -> u32
    ensures { result ≡ state_word m.now s.0 k }
{
    if num_states(m) <= s.0 {
        return 0;
    }
    word(
        m,
        HEADER_WORDS + STATE_WORDS * (s.0 as usize) + (k as usize),
    )
}

// Word k of the transition record t; records count from 1, and number 0 has words 0.
pub fn tr_word(m: &[u32], t: u32, k: u32) -> u32
    ensures { result ≡ tr_word m.now t k }
{
    if t == 0 {
        return 0;
    }
    let n = num_states(m);
    word(
        m,
        HEADER_WORDS - TR_WORDS
            + STATE_WORDS * (n as usize)
            + TR_WORDS * (t as usize)
            + (k as usize),
    )
}

// The first record of a state's list; 0: the list is empty.
pub fn first_tr(m: &[u32], s: StateId) -> u32
    ensures { result ≡ first_of m.now s.0 }
{
    let first = state_word(m, s, FIRST);
    if first <= num_records(m) { first } else { 0 }
}

// The record after t in its list; 0: none.
pub fn next_tr(m: &[u32], t: u32) -> u32
    ensures { result ≡ next_of m.now t }
{
    let next = tr_word(m, t, NEXT);
    if t < next && next <= num_records(m) {
        next
    } else {
        0
    }
}

// The label of record t on a side as it is lent: for the check of a record, and for the outer label of a transition.
pub fn label_on(m: &[u32], on: MatchType, t: u32) -> Label
    ensures { result.0 ≡ label_on (on_of on) (machine_of m.now) t }
{
    match on {
        MatchType::MatchInput => Label(tr_word(m, t, INPUT)),
        MatchType::MatchOutput => Label(tr_word(m, t, OUTPUT)),
    }
}

// The label of record t on the side on which the machine is matched. Sortedness, the facts of the filters, the walk and the look-up see labels through here alone.
#[inline(always)]
pub fn inner_label(m: Matched<'_>, t: u32) -> Label
    ensures { result.0 ≡ label_on (on_of m.entry.on) (machine_of (words_as_read m.entry)) t }
{
    heard(m.sigmas, m.ignored, label_on(m.words, m.on, t))
}

// The transition of record t in a machine that is matched on a side. Its outer label is as lent. Inlined, so that the machine is not copied for it.
#[inline(always)]
pub fn get_tr(m: Matched<'_>, t: u32) -> Tr
    ensures { tr_means result ≡ tr_of (machine_of (words_as_read m.entry)) t }
{
    let inner = inner_label(m, t);
    let weight = tr_word(m.words, t, WEIGHT);
    let nextstate = StateId(tr_word(m.words, t, TARGET));
    match m.on {
        MatchType::MatchInput => Tr {
            ilabel: inner,
            olabel: label_on(m.words, MatchType::MatchOutput, t),
            weight,
            nextstate,
        },
        MatchType::MatchOutput => Tr {
            ilabel: label_on(m.words, MatchType::MatchInput, t),
            olabel: inner,
            weight,
            nextstate,
        },
    }
}

// Whether the state has a final weight, be it the kind's zero.
pub fn is_final(m: &[u32], s: StateId) -> bool
    ensures { result ≡ (machine_of m.now).is_final s.0 }
{
    state_word(m, s, FINAL) == 1
}

pub fn final_weight(m: &[u32], s: StateId) -> u32
    ensures { result ≡ (machine_of m.now).final_weight s.0 }
{
    state_word(m, s, FINAL_WEIGHT)
}

// The length of a state's list.
pub fn num_trs(m: &[u32], s: StateId) -> u32
    ensures { result ≡ length (list_of m.now s.0) }
{
    let mut n: u32 = 0;
    let mut t = first_tr(m, s);
    while t != 0 {
        n += 1;
        t = next_tr(m, t);
    }
    n
}
