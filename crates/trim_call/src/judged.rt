// Whether each used state is expanded, and whether each has a final weight that is answered.
ghost use Rattle.std.specs.Prelude.{◌≡◌, true, cond, List, ℕ, ◌*◌, ◌≤◌, ◌<◌, length};
ghost use Rattle.words.specs.Labels.{good};
ghost use Rattle.words.specs.Steps.{Composition};
ghost use Rattle.calls.specs.Store.{Memory};
ghost use Rattle.calls.specs.Checks.{Passes, entered};
ghost use Rattle.graphs.specs.StoreMachine.{answered, store_machine};
ghost use Rattle.searches.specs.WorkWords.{with_high};
ghost use Rattle.searches.specs.UsefulSearch.{status_in};
ghost use Rattle.trims.specs.Trims.{all_expanded, is_good, all_weighed};
ghost use Rattle.store_records.specs.Meaning.{memory_of, stored, store_in};
ghost use Rattle.lazy_fst.specs.Meaning.{lent_with, session_means, weight_left};

use fst::StateId;
use lazy_fst::{AllowedLists, Session, WeightAnswer};
use store_records::is_expanded;
use work_words::set_high;

// The status of a state that is final and not seen by the search.
const FINAL: u32 = 4;

// Whether so many states are expanded.
pub fn all_expanded(states: &[u32], count: u32) -> bool
    ensures { (heads trs : List ℕ) (k : ℕ) → result ≡ all_expanded (stored heads states.now trs count k) }
{
    for n in 0..count {
        if !is_expanded(states, StateId(n)) {
            return false;
        }
    }
    true
}

// Marks state n where it is final, and says whether its weight was answered.
fn mark_final(work: &mut [u64], n: u32, weight: WeightAnswer) -> bool
    ensures value { (m : Memory) → result ≡ is_good (weight_left weight m).answer }
    ensures marks { (m : Memory) → work.new ≡ cond (answered (weight_left weight m).answer) (with_high work.old (2 * n) 4) work.old }
{
    match weight {
        Ok((Some(_), _)) => {
            set_high(work, 2 * (n as usize), FINAL);
            true
        }
        Ok((None, _)) => true,
        Err(_) => false,
    }
}

// Marks every used state that is final, and says whether no final weight is too large. No state is marked before.
pub fn mark_finals(
    session: Session,
    m1: &[u32],
    m2: &[u32],
    allowed1: &[u32],
    allowed2: &[u32],
    ignored: &[u32],
    listed: AllowedLists,
    heads: &[u32],
    states: &[u32],
    trs: &[u32],
    work: &mut [u64],
) -> bool
    requires fact { let l = lent_with m1.now m2.now allowed1.now allowed2.now ignored.now listed in
        Passes l (session_means session) (memory_of heads.now states.now trs.now) }
    requires unmarked { (2 * session.used.states ≤ length work.old) × ((x : ℕ) → status_in work.old x ≡ 0) }
    ensures value { let l = lent_with m1.now m2.now allowed1.now allowed2.now ignored.now listed in
        let m = memory_of heads.now states.now trs.now in
        let d = store_in heads.now states.now trs.now session.used in
        (c : Composition) → entered l (session_means session) m ≡ good c → result ≡ all_weighed c d }
    ensures marks { let l = lent_with m1.now m2.now allowed1.now allowed2.now ignored.now listed in
        let m = memory_of heads.now states.now trs.now in
        let d = store_in heads.now states.now trs.now session.used in
        (c : Composition) → entered l (session_means session) m ≡ good c → result ≡ true
        → (x : ℕ) → x < session.used.states → status_in work.new x ≡ cond ((store_machine c d).is_final x) 4 0 }
{
    for n in 0..session.used.states {
        let s = StateId(n);
        let weight = session.trusted_final_weight(
            m1, m2, allowed1, allowed2, ignored, listed, heads, states, trs, s,
        );
        if !mark_final(work, n, weight) {
            return false;
        }
    }
    true
}
