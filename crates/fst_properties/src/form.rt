// The form of a machine: its size, its start, its states and its transition records. Once the size is known to be good, words are read with no test. The one pass over the
// records also sees, on the sides that are asked for, whether a label falls from a record to its next.
ghost use Rattle.std.specs.Prelude.{◌≡◌, true, ◌&&◌, ◌+◌, ◌*◌, ◌<◌, ltb, leb};
ghost use Rattle.lists.specs.Lists.{every, interval};
ghost use Rattle.words.specs.Labels.{no_label};
ghost use Rattle.words.specs.Matches.{inputs as onInputs, outputs as onOutputs};
ghost use Rattle.words.specs.Machines.{tr_words, state_count, tr_count, start_word, tr_word, next_ok, next_of, state_ok, size_ok};
ghost use Rattle.fst.specs.Meaning.{on_of};
ghost use Rattle.fst_reads.specs.Places.{record_base, IsRecord};
ghost use Rattle.fst_properties.specs.RecordTests.{rises_if, fits as fits_of, form_fits, AskedOf};

use fst::{
    HEADER_WORDS, LIMIT, MatchType, NO_LABEL, STATE_WORDS, StateId, TR_WORDS, num_records,
    num_states, start_word,
};
use fst_reads::{
    FINAL, FINAL_WEIGHT, FIRST, INPUT, NEXT, OUTPUT, TARGET, record_base, sized_state_word,
    sized_word, word_on,
};

// What the records are held to: where record 0 would begin, S, T, and the sides on which no label may fall to the next.
#[derive(Clone, Copy)]
struct Asked {
    base: usize,
    states: u32,
    records: u32,
    inputs: bool,
    outputs: bool,
}

#[tactic(auto, unfolding(words::specs::Machines::size_up_to))]
fn size_ok(m: &[u32]) -> bool
    ensures { result ≡ size_ok m.now }
{
    let s = num_states(m);
    let t = num_records(m);
    s <= LIMIT
        && t <= LIMIT
        && m.len() == HEADER_WORDS + STATE_WORDS * (s as usize) + TR_WORDS * (t as usize)
}

fn start_ok(m: &[u32]) -> bool
    ensures { result ≡ leb (start_word m.now) (state_count m.now) }
{
    start_word(m) <= num_states(m)
}

// A first at most T; final 0 or 1, and 0 with the weight 0.
#[tactic(auto, unfolding(words::specs::Machines::state_ok, words::specs::Machines::first_ok))]
fn state_ok(m: &[u32], s: StateId) -> bool
    requires { (size_ok m.now ≡ true) × (s.0 < state_count m.now) }
    ensures { result ≡ state_ok m.now s.0 }
{
    sized_state_word(m, s, FIRST) <= num_records(m)
        && match sized_state_word(m, s, FINAL) {
            0 => sized_state_word(m, s, FINAL_WEIGHT) == 0,
            1 => true,
            _ => false,
        }
}

// Left by the label at the first bad record of a state.
#[tactic(auto, using(lists::proofs::Runs::run_turn, lists::proofs::Runs::run_end))]
fn states_ok(m: &[u32]) -> bool
    requires { size_ok m.now ≡ true }
    ensures { result ≡ every (state_ok m.now) (interval 0 (state_count m.now)) }
{
    let mut ok = true;
    'states: for s in 0..num_states(m) {
        if !state_ok(m, StateId(s)) {
            ok = false;
            break 'states;
        }
    }
    ok
}

// No label MAX, a target below S.
fn ends_ok(m: &[u32], asked: Asked, t: u32) -> bool
    requires { (size_ok m.now ≡ true) × AskedOf m.now asked × IsRecord m.now t }
    ensures { result ≡ (ltb (tr_word m.now t 0) no_label && (ltb (tr_word m.now t 1) no_label && ltb (tr_word m.now t 3) (state_count m.now))) }
{
    sized_word(m, asked.base, t, INPUT) < NO_LABEL.0
        && sized_word(m, asked.base, t, OUTPUT) < NO_LABEL.0
        && sized_word(m, asked.base, t, TARGET) < asked.states
}

// Where it is asked: the label of t on a side is not above that of its next.
#[tactic(auto, unfolding(crate::specs::RecordTests::rises), using(crate::proofs::Fits::word_small, words::proofs::ListLaws::link))]
fn rises_if(m: &[u32], base: usize, asked: bool, on: MatchType, t: u32, next: u32) -> bool
    requires { (size_ok m.now ≡ true) × (base ≡ record_base m.now) × IsRecord m.now t × (0 < next) × (next ≡ next_of m.now t) }
    ensures { result ≡ rises_if asked (on_of on) m.now t }
{
    let k = word_on(on);
    !asked || sized_word(m, base, t, k) <= sized_word(m, base, next, k)
}

// The next of t, which is not 0, is up to T and above t, and no label falls to it on the sides that are asked for. A record is above another if it begins after it, which costs less to ask than
// their numbers.
#[tactic(auto, unfolding(words::specs::Machines::next_ok, words::specs::Machines::next_of))]
fn link_ok(m: &[u32], asked: Asked, t: u32, place: usize, next: u32) -> bool
    requires { (size_ok m.now ≡ true) × AskedOf m.now asked × IsRecord m.now t × (place ≡ record_base m.now + tr_words * t) × (0 < next) × (next ≡ tr_word m.now t 4) }
    ensures { result ≡ (next_ok m.now t && (rises_if asked.inputs onInputs m.now t && rises_if asked.outputs onOutputs m.now t)) }
{
    next <= asked.records
        && place < asked.base + TR_WORDS * (next as usize)
        && rises_if(m, asked.base, asked.inputs, MatchType::MatchInput, t, next)
        && rises_if(
            m,
            asked.base,
            asked.outputs,
            MatchType::MatchOutput,
            t,
            next,
        )
}

// Record t, which begins at `place`, has a good form, and no label falls from it on the sides that are asked for.
#[tactic(auto, unfolding(crate::specs::RecordTests::fits, crate::specs::RecordTests::rises, words::specs::Machines::tr_ok, words::specs::Machines::next_ok, words::specs::Machines::next_of))]
fn fits(m: &[u32], asked: Asked, t: u32, place: usize) -> bool
    requires { (size_ok m.now ≡ true) × AskedOf m.now asked × IsRecord m.now t × (place ≡ record_base m.now + tr_words * t) }
    ensures { result ≡ fits_of asked.inputs asked.outputs m.now t }
{
    if !ends_ok(m, asked, t) {
        return false;
    }
    let next = sized_word(m, asked.base, t, NEXT);
    next == 0 || link_ok(m, asked, t, place, next)
}

// Whether all records fit. Left by the label at the first that does not.
#[tactic(auto, using(lists::proofs::Runs::run_turn, lists::proofs::Runs::run_end, fst_reads::proofs::Inside::sized))]
fn all_fit(m: &[u32], inputs: bool, outputs: bool) -> bool
    requires { size_ok m.now ≡ true }
    ensures { result ≡ every (fits_of inputs outputs m.now) (interval 1 (tr_count m.now)) }
{
    let asked = Asked {
        base: record_base(m),
        states: num_states(m),
        records: num_records(m),
        inputs,
        outputs,
    };
    let mut ok = true;
    let mut place = asked.base + TR_WORDS;
    'records: for done in 0..asked.records {
        if !fits(m, asked, done + 1, place) {
            ok = false;
            break 'records;
        }
        place += TR_WORDS;
    }
    ok
}

// Whether the form is good, and no label falls from a record to its next on the sides that are asked for.
#[tactic(auto, unfolding(crate::specs::RecordTests::form_fits))]
pub fn form_fits(m: &[u32], inputs: bool, outputs: bool) -> bool
    ensures { result ≡ form_fits inputs outputs m.now }
{
    size_ok(m) && start_ok(m) && states_ok(m) && all_fit(m, inputs, outputs)
}
