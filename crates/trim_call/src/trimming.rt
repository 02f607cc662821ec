// The call: checks 1 to 8, the work slice, and then what the store holds.
ghost use Rattle.std.specs.Prelude.{◌≡◌, List, ℕ, ◌*◌, length, replicate};
ghost use Rattle.lists.specs.Lists.{put};
ghost use Rattle.words.specs.Labels.{good};
ghost use Rattle.words.specs.Steps.{Composition};
ghost use Rattle.calls.specs.Checks.{Passes, entered};
ghost use Rattle.trims.specs.Trims.{trimmed_of, written, trim_of};
ghost use Rattle.store_records.specs.Meaning.{memory_of, store_in};
ghost use Rattle.lazy_fst.specs.Meaning.{lent_with, session_means};
ghost use Rattle.trim_call.specs.Meaning.{trim_left, handed_back};

use crate::TrimAnswer;
use crate::judged::{all_expanded, mark_finals};
use crate::marked::trim_marked;
use fst::Refusal;
use lazy_fst::{AllowedLists, Session};
use session_checks::enter;
use work_words::clear;

// Past the check of the work slice, whose words are 0.
fn trim_cleared(
    session: Session,
    m1: &[u32],
    m2: &[u32],
    allowed1: &[u32],
    allowed2: &[u32],
    ignored: &[u32],
    listed: AllowedLists,
    heads: &[u32],
    states: &[u32],
    trs: &[u32],
    out: &mut [u32],
    work: &mut [u64],
) -> TrimAnswer
    requires fact { let l = lent_with m1.now m2.now allowed1.now allowed2.now ignored.now listed in
        Passes l (session_means session) (memory_of heads.now states.now trs.now) }
    requires clean { work.old ≡ replicate (2 * session.used.states) 0 }
    ensures w_after { let l = lent_with m1.now m2.now allowed1.now allowed2.now ignored.now listed in
        let m = memory_of heads.now states.now trs.now in
        let d = store_in heads.now states.now trs.now session.used in
        (c : Composition) (w : List ℕ) → entered l (session_means session) m ≡ good c
        → trim_left result out.new w ≡ written out.old w (trimmed_of c d out.old) }
    ensures session { handed_back result ≡ session }
{
    if !all_expanded(states, session.used.states) {
        return Err((Refusal::NotExpanded, session));
    }
    if !mark_finals(
        session, m1, m2, allowed1, allowed2, ignored, listed, heads, states, trs, work,
    ) {
        return Err((Refusal::TooLarge, session));
    }
    trim_marked(
        session, m1, m2, allowed1, allowed2, ignored, listed, heads, states, trs, out, work,
    )
}

// The same on work words that are not 0 before; afterwards they are.
fn trim_in(
    session: Session,
    m1: &[u32],
    m2: &[u32],
    allowed1: &[u32],
    allowed2: &[u32],
    ignored: &[u32],
    listed: AllowedLists,
    heads: &[u32],
    states: &[u32],
    trs: &[u32],
    out: &mut [u32],
    work: &mut [u64],
) -> TrimAnswer
    requires fact { let l = lent_with m1.now m2.now allowed1.now allowed2.now ignored.now listed in
        Passes l (session_means session) (memory_of heads.now states.now trs.now) }
    requires sized { length work.old ≡ 2 * session.used.states }
    ensures w_after { let l = lent_with m1.now m2.now allowed1.now allowed2.now ignored.now listed in
        let m = memory_of heads.now states.now trs.now in
        let d = store_in heads.now states.now trs.now session.used in
        (c : Composition) (w : List ℕ) → entered l (session_means session) m ≡ good c
        → trim_left result out.new w ≡ written out.old w (trimmed_of c d out.old) }
    ensures session { (handed_back result ≡ session) × (work.new ≡ put work.old 0 (replicate (2 * session.used.states) 0)) }
{
    let need = work.len();
    clear(work, need);
    let answer = trim_cleared(
        session, m1, m2, allowed1, allowed2, ignored, listed, heads, states, trs, out, work,
    );
    clear(work, need);
    answer
}

// Trims without the checks 1 to 8, for a caller that knows that they pass.
pub fn trusted_trim(
    session: Session,
    m1: &[u32],
    m2: &[u32],
    allowed1: &[u32],
    allowed2: &[u32],
    ignored: &[u32],
    listed: AllowedLists,
    heads: &[u32],
    states: &[u32],
    trs: &[u32],
    out: &mut [u32],
    work: &mut [u64],
) -> TrimAnswer
    requires { let l = lent_with m1.now m2.now allowed1.now allowed2.now ignored.now listed in
        Passes l (session_means session) (memory_of heads.now states.now trs.now) }
    ensures work_after { let l = lent_with m1.now m2.now allowed1.now allowed2.now ignored.now listed in
        let m = memory_of heads.now states.now trs.now in
        trim_left result out.new work.new ≡ trim_of l (session_means session) m out.old work.old }
    ensures session { handed_back result ≡ session }
{
    let need = 2 * (session.used.states as usize);
    if work.len() < need {
        return Err((Refusal::NoRoom, session));
    }
    trim_in(
        session,
        m1,
        m2,
        allowed1,
        allowed2,
        ignored,
        listed,
        heads,
        states,
        trs,
        out,
        &mut work[0..need],
    )
}

// Trims: any session, slices and words are answered.
pub fn trim(
    session: Session,
    m1: &[u32],
    m2: &[u32],
    allowed1: &[u32],
    allowed2: &[u32],
    ignored: &[u32],
    listed: AllowedLists,
    heads: &[u32],
    states: &[u32],
    trs: &[u32],
    out: &mut [u32],
    work: &mut [u64],
) -> TrimAnswer
    ensures work_after { let l = lent_with m1.now m2.now allowed1.now allowed2.now ignored.now listed in
        let m = memory_of heads.now states.now trs.now in
        trim_left result out.new work.new ≡ trim_of l (session_means session) m out.old work.old }
    ensures session { handed_back result ≡ session }
{
    let entered = enter(
        session.settings,
        session.side,
        session.used,
        m1,
        m2,
        ignored,
        heads,
        states,
        trs,
    );
    match entered {
        Ok(_) => trusted_trim(
            session, m1, m2, allowed1, allowed2, ignored, listed, heads, states, trs, out, work,
        ),
        Err(refusal) => Err((refusal, session)),
    }
}
