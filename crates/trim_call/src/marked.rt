// A store whose final states are marked in the work words: its useful states are found and numbered, and their machine is written.
ghost use Rattle.std.specs.Prelude.{◌≡◌, true, cond, List, ℕ, suc, ◌+◌, ◌*◌, ◌≤◌, ◌<◌, length};
ghost use Rattle.words.specs.Labels.{good, refuse_if};
ghost use Rattle.words.specs.Machines.{limit, header_words, state_words, tr_words};
ghost use Rattle.words.specs.Steps.{Composition};
ghost use Rattle.calls.specs.Forms.{form_ok};
ghost use Rattle.calls.specs.Checks.{Passes, entered};
ghost use Rattle.graphs.specs.Walks.{useful};
ghost use Rattle.graphs.specs.StoreMachine.{store_machine};
ghost use Rattle.searches.specs.UsefulSearch.{status_in};
ghost use Rattle.trims.specs.Trims.{useful_states, number, lacks_room, trimmed, written};
ghost use Rattle.store_records.specs.Meaning.{memory_of, store_in};
ghost use Rattle.lazy_fst.specs.Meaning.{lent_with, session_means};
ghost use Rattle.trim_passes.specs.Passes.{number_in};
ghost use Rattle.trim_call.specs.Meaning.{trim_left, handed_back};

use crate::TrimAnswer;
use fst::{HEADER_WORDS, LIMIT, Refusal, STATE_WORDS, TR_WORDS};
use lazy_fst::{AllowedLists, Session};
use store_records::Used;
use trim_passes::{count_kept, number_states};
use trim_rows::write_machine;
use useful_states::find_useful;

// Finds and numbers the useful states, and says how many they are.
fn number_useful(states: &[u32], trs: &[u32], used: Used, work: &mut [u64]) -> u32
    requires { (used.states ≤ limit) × (used.trs ≤ limit) × (2 * used.states ≤ length work.old) }
    ensures { (heads : List ℕ) (c : Composition) (S1 S2 : ℕ) →
        let d = store_in heads states.now trs.now used in
        let M = store_machine c d in
        form_ok S1 S2 d ≡ true
        → ((x : ℕ) → x < used.states → status_in work.old x ≡ cond (M.is_final x) 4 0)
        → (result ≡ length (useful_states M)) × ((x : ℕ) → x < used.states → number_in work.new x ≡ cond (useful M x) (suc (number M x)) 0) }
{
    find_useful(states, trs, used, work);
    number_states(work, used.states)
}

// How many words a machine of so many states and transitions has.
fn words_of(rows: u32, arcs: u64) -> u64
    requires { (rows ≤ limit) × (arcs ≤ limit) }
    ensures { result ≡ header_words + state_words * rows + tr_words * arcs }
{
    HEADER_WORDS as u64 + STATE_WORDS as u64 * (rows as u64) + TR_WORDS as u64 * arcs
}

// The trimmed machine, if there is room for it.
pub fn trim_marked(
    session: Session,
    m1: &[u32],
    m2: &[u32],
    allowed1: &[u32],
    allowed2: &[u32],
    ignored: &[u32],
    listed: AllowedLists,
    heads: &[u32],
    states: &[u32],
    trs: &[u32],
    out: &mut [u32],
    work: &mut [u64],
) -> TrimAnswer
    requires fact { let l = lent_with m1.now m2.now allowed1.now allowed2.now ignored.now listed in
        Passes l (session_means session) (memory_of heads.now states.now trs.now) }
    requires marked { let l = lent_with m1.now m2.now allowed1.now allowed2.now ignored.now listed in
        let m = memory_of heads.now states.now trs.now in
        let d = store_in heads.now states.now trs.now session.used in
        (length work.old ≡ 2 * session.used.states)
        × ((c : Composition) → entered l (session_means session) m ≡ good c → (x : ℕ) → x < session.used.states → status_in work.old x ≡ cond ((store_machine c d).is_final x) 4 0) }
    ensures w_after { let l = lent_with m1.now m2.now allowed1.now allowed2.now ignored.now listed in
        let m = memory_of heads.now states.now trs.now in
        let d = store_in heads.now states.now trs.now session.used in
        let o = out.old in
        (c : Composition) (w : List ℕ) → entered l (session_means session) m ≡ good c
        → trim_left result out.new w ≡ written o w (refuse_if (lacks_room (store_machine c d) o) 13 (good (trimmed (store_machine c d)))) }
    ensures session { handed_back result ≡ session }
{
    let used = session.used;
    let rows = number_useful(states, trs, used, work);
    let arcs = count_kept(states, trs, used, work);
    if arcs > LIMIT as u64 {
        return Err((Refusal::NoRoom, session));
    }
    let need = words_of(rows, arcs);
    if (out.len() as u64) < need {
        return Err((Refusal::NoRoom, session));
    }
    write_machine(
        session,
        m1,
        m2,
        allowed1,
        allowed2,
        ignored,
        listed,
        heads,
        states,
        trs,
        work,
        out,
        rows,
        arcs as u32,
    );
    Ok((need as u32, session))
}
