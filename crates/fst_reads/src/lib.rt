// The words of a machine that is known to be well formed (fst_traits/fst.rs): every place is in range, and no first or next breaks its rule, so nothing is tested. Where the records begin is
// computed once. A word of a state and a word of a record can be read as soon as the size is known to be good: the check of a machine reads so.
#![tactic(auto)]

ghost use Rattle.std.specs.Prelude.{◌≡◌, true, ◌<◌};
ghost use Rattle.words.specs.Machines.{word_on, state_words, tr_words, state_count, state_word, tr_word, first_of, next_of, machine_of, size_ok, well_formed};
ghost use Rattle.words.specs.Matches.{tr_of};
ghost use Rattle.fst.specs.Meaning.{on_of, tr_means};
ghost use Rattle.fst_reads.specs.Places.{record_base, IsRecord};

use fst::{HEADER_WORDS, Label, MatchType, STATE_WORDS, StateId, TR_WORDS, Tr, num_states};

// The words of a state's record by their place.
pub const FIRST: usize = fst::FIRST as usize;

pub const FINAL: usize = fst::FINAL as usize;

pub const FINAL_WEIGHT: usize = fst::FINAL_WEIGHT as usize;

// The words of a transition's record by their place.
pub const INPUT: usize = fst::INPUT as usize;

pub const OUTPUT: usize = fst::OUTPUT as usize;

pub const WEIGHT: usize = fst::WEIGHT as usize;

pub const TARGET: usize = fst::TARGET as usize;

pub const NEXT: usize = fst::NEXT as usize;

// Where record 0 would begin.
pub fn record_base(m: &[u32]) -> usize
    ensures { result ≡ record_base m.now }
{
    let states = num_states(m);
    HEADER_WORDS - TR_WORDS + STATE_WORDS * (states as usize)
}

// The word of a record that holds its label on a side.
pub fn word_on(on: MatchType) -> usize
    ensures { result ≡ word_on (on_of on) }
{
    match on {
        MatchType::MatchInput => INPUT,
        MatchType::MatchOutput => OUTPUT,
    }
}

// Word k of the record of state s; the size alone is known to be good.
#[tactic(auto, using(crate::proofs::Inside::sized, words::proofs::FormLaws::state_at_lem))]
pub fn sized_state_word(m: &[u32], s: StateId, k: usize) -> u32
    requires { (size_ok m.now ≡ true) × (s.0 < state_count m.now) × (k < state_words) }
    ensures { result ≡ state_word m.now s.0 k }
{
    m[HEADER_WORDS + STATE_WORDS * (s.0 as usize) + k]
}

// Word k of record t; the size alone is known to be good.
#[tactic(auto, using(crate::proofs::Inside::sized, words::proofs::FormLaws::tr_at_lem))]
pub fn sized_word(m: &[u32], base: usize, t: u32, k: usize) -> u32
    requires { (size_ok m.now ≡ true) × (base ≡ record_base m.now) × IsRecord m.now t × (k < tr_words) }
    ensures { result ≡ tr_word m.now t k }
{
    m[base + TR_WORDS * (t as usize) + k]
}

// Word k of record t.
#[tactic(auto, using(crate::proofs::Inside::well_sized))]
pub fn word_at(m: &[u32], base: usize, t: u32, k: usize) -> u32
    requires { (well_formed m.now ≡ true) × (base ≡ record_base m.now) × IsRecord m.now t × (k < tr_words) }
    ensures { result ≡ tr_word m.now t k }
{
    sized_word(m, base, t, k)
}

// The record after t in its list; 0: none.
#[tactic(auto, using(words::proofs::FormLaws::form))]
pub fn next_at(m: &[u32], base: usize, t: u32) -> u32
    requires { (well_formed m.now ≡ true) × (base ≡ record_base m.now) × IsRecord m.now t }
    ensures { result ≡ next_of m.now t }
{
    word_at(m, base, t, NEXT)
}

// The transition of record t.
pub fn tr_at(m: &[u32], base: usize, t: u32) -> Tr
    requires { (well_formed m.now ≡ true) × (base ≡ record_base m.now) × IsRecord m.now t }
    ensures { tr_means result ≡ tr_of (machine_of m.now) t }
{
    Tr {
        ilabel: Label(word_at(m, base, t, INPUT)),
        olabel: Label(word_at(m, base, t, OUTPUT)),
        weight: word_at(m, base, t, WEIGHT),
        nextstate: StateId(word_at(m, base, t, TARGET)),
    }
}

// The first record of a state's list; 0: the list is empty.
#[tactic(auto, using(crate::proofs::Inside::well_sized, words::proofs::FormLaws::form))]
pub fn first_at(m: &[u32], s: StateId) -> u32
    requires { (well_formed m.now ≡ true) × (s.0 < state_count m.now) }
    ensures { result ≡ first_of m.now s.0 }
{
    sized_state_word(m, s, FIRST)
}
