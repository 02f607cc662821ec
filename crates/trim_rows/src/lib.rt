// The trimmed machine as words: a header, the records of its states, and behind them their lists. The checks 1 to 8 pass, and are not made.
#![tactic(auto)]

ghost use Rattle.std.specs.Prelude.{◌≡◌, cond, List, [], ◌∷◌, ℕ, suc, ◌+◌, ◌*◌, ◌≤◌, ◌<◌, ltb, length};
ghost use Rattle.lists.specs.Lists.{put};
ghost use Rattle.words.specs.Labels.{good};
ghost use Rattle.words.specs.Machines.{limit, header_words, state_words, tr_words};
ghost use Rattle.words.specs.Steps.{Composition};
ghost use Rattle.calls.specs.Store.{Memory};
ghost use Rattle.calls.specs.Checks.{Passes, entered};
ghost use Rattle.graphs.specs.StoreMachine.{given_weight};
ghost use Rattle.machine_words.specs.MachineWords.{Row, list_words, row_words, trs_in, machine_words};
ghost use Rattle.store_records.specs.Meaning.{memory_of, stored, store_in};
ghost use Rattle.lazy_fst.specs.Meaning.{lent_with, session_means, weight_left};
ghost use Rattle.trim_passes.specs.Passes.{number_in, kept_from, new_list, rows_from};
ghost use Rattle.trim_rows.specs.Rows.{done_means, nothing, counted, state_place, list_place, filled, Fits};

use final_weights::put_weight;
use fst::{HEADER_WORDS, STATE_WORDS, StateId, TR_WORDS};
use lazy_fst::{AllowedLists, Session, WeightAnswer};
use store_links::first_record;
use trim_lists::write_list;
use trim_passes::number_of;

// How many states, and how many transitions, are written.
#[derive(Clone, Copy)]
pub struct Done {
    pub rows: u32,
    pub trs: u32,
}

// The header; all marks are 0.
#[tactic(auto, unfolding(lists::specs::Lists::put))]
fn write_header(out: &mut [u32], rows: u32, trs: u32, start: u32)
    requires { header_words ≤ length out.old }
    ensures { out.new ≡ put out.old 0 (rows ∷ trs ∷ start ∷ 0 ∷ 0 ∷ 0 ∷ []) }
{
    out[0] = rows;
    out[1] = trs;
    out[2] = start;
    out[3] = 0;
    out[4] = 0;
    out[5] = 0;
}

// The first record of a list that stands behind so many others and ends behind so many.
fn first_in(before: u32, after: u32) -> u32
    requires { before ≤ limit }
    ensures { result ≡ cond (ltb before after) (suc before) 0 }
{
    if before < after { before + 1 } else { 0 }
}

// The record of a state with this final weight, and its list from record `first` on, behind what is done.
fn put_row(
    out: &mut [u32],
    trs: &[u32],
    used: u32,
    work: &[u64],
    first: u32,
    weight: WeightAnswer,
    rows: u32,
    done: Done,
) -> Done
    requires rows_lt_rows { (done.rows < rows) × (rows ≤ limit) }
    requires room { (heads states : List ℕ) (u : ℕ) →
        let k = done.trs + length (kept_from (stored heads states trs.now u used) work.now first) in
        (k ≤ limit) × (header_words + state_words * rows + tr_words * k ≤ length out.old) }
    ensures by_index { (heads states : List ℕ) (u : ℕ) →
        let k = length (kept_from (stored heads states trs.now u used) work.now first) in
        done_means result ≡ record { rows = done.rows + 1; trs = done.trs + k } }
    ensures words { (
        (heads states : List ℕ) (u : ℕ) (m : Memory) →
        let list = new_list (stored heads states trs.now u used) work.now first in
        let row : Row = record { final = given_weight (weight_left weight m).answer; list = list } in
        out.new
        ≡ put (put out.old (list_place rows (done_means done)) (list_words done.trs list)) (state_place (done_means done)) (row_words done.trs row)
        ) }
{
    let before = done.trs;
    let at = HEADER_WORDS + STATE_WORDS * (done.rows as usize);
    let here = HEADER_WORDS + STATE_WORDS * (rows as usize) + TR_WORDS * (before as usize);
    let after = write_list(out, here, trs, used, work, first, before);
    out[at] = first_in(before, after);
    put_weight(out, at + 1, weight);
    Done {
        rows: done.rows + 1,
        trs: after,
    }
}

// The record of state n and its list, if it is kept, behind what is done.
fn write_row(
    session: Session,
    m1: &[u32],
    m2: &[u32],
    allowed1: &[u32],
    allowed2: &[u32],
    ignored: &[u32],
    listed: AllowedLists,
    heads: &[u32],
    states: &[u32],
    trs: &[u32],
    work: &[u64],
    out: &mut [u32],
    rows: u32,
    n: u32,
    done: Done,
) -> Done
    requires fact { let l = lent_with m1.now m2.now allowed1.now allowed2.now ignored.now listed in
        Passes l (session_means session) (memory_of heads.now states.now trs.now) }
    requires room { let l = lent_with m1.now m2.now allowed1.now allowed2.now ignored.now listed in
        let m = memory_of heads.now states.now trs.now in
        let d = store_in heads.now states.now trs.now session.used in
        (n < session.used.states)
        × ((c : Composition) → entered l (session_means session) m ≡ good c → Fits rows (length out.old) (done_means done) (rows_from c d work.now n)) }
    ensures n_value { let d = store_in heads.now states.now trs.now session.used in
        let w = work.now in
        (c : Composition) → counted (done_means result) (rows_from c d w (n + 1)) ≡ counted (done_means done) (rows_from c d w n) }
    ensures words { let l = lent_with m1.now m2.now allowed1.now allowed2.now ignored.now listed in
        let m = memory_of heads.now states.now trs.now in
        let d = store_in heads.now states.now trs.now session.used in
        let w = work.now in
        (c : Composition) → entered l (session_means session) m ≡ good c
        → filled rows (done_means result) (rows_from c d w (n + 1)) out.new ≡ filled rows (done_means done) (rows_from c d w n) out.old }
{
    if number_of(work, n) == 0 {
        return done;
    }
    let weight = session.trusted_final_weight(
        m1,
        m2,
        allowed1,
        allowed2,
        ignored,
        listed,
        heads,
        states,
        trs,
        StateId(n),
    );
    let last = session.used.trs;
    let first = first_record(states, last, n);
    put_row(out, trs, last, work, first, weight, rows, done)
}

// The records of all kept states, and their lists.
fn write_rows(
    session: Session,
    m1: &[u32],
    m2: &[u32],
    allowed1: &[u32],
    allowed2: &[u32],
    ignored: &[u32],
    listed: AllowedLists,
    heads: &[u32],
    states: &[u32],
    trs: &[u32],
    work: &[u64],
    out: &mut [u32],
    rows: u32,
)
    requires fact { let l = lent_with m1.now m2.now allowed1.now allowed2.now ignored.now listed in
        Passes l (session_means session) (memory_of heads.now states.now trs.now) }
    requires room { let l = lent_with m1.now m2.now allowed1.now allowed2.now ignored.now listed in
        let m = memory_of heads.now states.now trs.now in
        let d = store_in heads.now states.now trs.now session.used in
        (c : Composition) → entered l (session_means session) m ≡ good c → Fits rows (length out.old) nothing (rows_from c d work.now 0) }
    ensures { let l = lent_with m1.now m2.now allowed1.now allowed2.now ignored.now listed in
        let m = memory_of heads.now states.now trs.now in
        let d = store_in heads.now states.now trs.now session.used in
        (c : Composition) → entered l (session_means session) m ≡ good c
        → out.new ≡ filled rows nothing (rows_from c d work.now 0) out.old }
{
    let mut done = Done { rows: 0, trs: 0 };
    for n in 0..session.used.states {
        done = write_row(
            session, m1, m2, allowed1, allowed2, ignored, listed, heads, states, trs, work, out,
            rows, n, done,
        );
    }
}

// The whole machine, of so many states and transitions. It starts with the new number of state 0.
pub fn write_machine(
    session: Session,
    m1: &[u32],
    m2: &[u32],
    allowed1: &[u32],
    allowed2: &[u32],
    ignored: &[u32],
    listed: AllowedLists,
    heads: &[u32],
    states: &[u32],
    trs: &[u32],
    work: &[u64],
    out: &mut [u32],
    rows: u32,
    arcs: u32,
)
    requires fact { let l = lent_with m1.now m2.now allowed1.now allowed2.now ignored.now listed in
        Passes l (session_means session) (memory_of heads.now states.now trs.now) }
    requires room { let l = lent_with m1.now m2.now allowed1.now allowed2.now ignored.now listed in
        let m = memory_of heads.now states.now trs.now in
        let d = store_in heads.now states.now trs.now session.used in
        (c : Composition) → entered l (session_means session) m ≡ good c
        → Fits rows (length out.old) nothing (rows_from c d work.now 0) × (arcs ≡ trs_in (rows_from c d work.now 0)) }
    ensures { let l = lent_with m1.now m2.now allowed1.now allowed2.now ignored.now listed in
        let m = memory_of heads.now states.now trs.now in
        let d = store_in heads.now states.now trs.now session.used in
        let w = work.now in
        (c : Composition) → entered l (session_means session) m ≡ good c
        → out.new ≡ put out.old 0 (machine_words (number_in w 0) (rows_from c d w 0)) }
{
    write_header(out, rows, arcs, number_of(work, 0));
    write_rows(
        session, m1, m2, allowed1, allowed2, ignored, listed, heads, states, trs, work, out, rows,
    );
}
