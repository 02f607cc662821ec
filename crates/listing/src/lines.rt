// The lines of the listing. Each function puts its lines into the buffer from a place on, and answers the place after them; no line is longer than 64 bytes.
ghost use Rattle.std.specs.Prelude.{◌+◌, ◌*◌, ◌/◌, ◌≤◌, [], ◌∷◌, ◌++◌, length};
ghost use Rattle.calls.specs.Store.{Memory, tr_size};
ghost use Rattle.calls.specs.Checks.{Passes};
ghost use Rattle.calls.specs.Listing.{state_line, side_line, end_line, tr_lines};
ghost use Rattle.compose_state_tuple.specs.Meaning.{tuple_means};
ghost use Rattle.store_records.specs.Meaning.{memory_of};
ghost use Rattle.lazy_fst.specs.Meaning.{lent_with, session_means, weight_left};
ghost use Rattle.listing_text.specs.Printing.{line_bytes, bytes_of};
ghost use Rattle.listing_write.specs.Written.{Written};
ghost use Rattle.final_weights.specs.Weights.{given_weight};
ghost use Rattle.listing.specs.Stages.{lines_at, lines_from, Room};

use compose_state_tuple::ComposeStateTuple;
use fst::StateId;
use lazy_fst::{AllowedLists, Session, WeightAnswer};
use listing_write::{put_end, put_side, put_state, put_tr};
use store_records::{TR_SIZE, get_tuple, stored_tr};

// A line for each of the records that were handed back.
pub fn put_trs(out: &mut [u8], to: usize, records: &[u32]) -> usize
    requires { Room out.old to (length records.now / tr_size) }
    ensures written { Written out.old to (bytes_of (tr_lines records.now)) out.new result }
    ensures near { result ≤ to + 64 * (length records.now / tr_size) }
{
    let mut at = to;
    for i in 0..records.len() / TR_SIZE {
        let tr = stored_tr(records, i);
        at = put_tr(out, at, tr.ilabel.0, tr.olabel.0, tr.weight, tr.nextstate.0);
    }
    at
}

// A state's own line, with the final weight that was answered.
fn put_weighed(
    out: &mut [u8],
    to: usize,
    n: StateId,
    tuple: ComposeStateTuple,
    weight: WeightAnswer,
) -> usize
    requires { to + 64 ≤ length out.old }
    ensures written { (m : Memory) →
        Written out.old to (line_bytes (state_line n.0 (tuple_means tuple) (given_weight (weight_left weight m).answer))) out.new result }
    ensures near { result ≤ to + 64 }
{
    let given = match weight {
        Ok((given, _)) => given,
        Err(_) => None,
    };
    put_state(out, to, n.0, tuple.s1.0, tuple.s2.0, tuple.fs, given)
}

// State n and its transitions.
fn put_one(
    session: Session,
    m1: &[u32],
    m2: &[u32],
    allowed1: &[u32],
    allowed2: &[u32],
    ignored: &[u32],
    listed: AllowedLists,
    heads: &[u32],
    states: &[u32],
    trs: &[u32],
    n: StateId,
    out: &mut [u8],
    to: usize,
) -> usize
    requires fact { let l = lent_with m1.now m2.now allowed1.now allowed2.now ignored.now listed in
        let m = memory_of heads.now states.now trs.now in
        Room out.old to (length (lines_at l (session_means session) m n.0)) }
    requires passes { let l = lent_with m1.now m2.now allowed1.now allowed2.now ignored.now listed in
        Passes l (session_means session) (memory_of heads.now states.now trs.now) }
    ensures fact_2 { let l = lent_with m1.now m2.now allowed1.now allowed2.now ignored.now listed in
        let m = memory_of heads.now states.now trs.now in
        Written out.old to (bytes_of (lines_at l (session_means session) m n.0)) out.new result }
    ensures near { let l = lent_with m1.now m2.now allowed1.now allowed2.now ignored.now listed in
        let m = memory_of heads.now states.now trs.now in
        result ≤ to + 64 * length (lines_at l (session_means session) m n.0) }
{
    let weight = session.trusted_final_weight(
        m1, m2, allowed1, allowed2, ignored, listed, heads, states, trs, n,
    );
    let at = put_weighed(out, to, n, get_tuple(states, n), weight);
    let records = session.trusted_records(
        m1, m2, allowed1, allowed2, ignored, listed, heads, states, trs, n,
    );
    put_trs(out, at, records)
}

// Every found state, in number order.
fn put_states(
    session: Session,
    m1: &[u32],
    m2: &[u32],
    allowed1: &[u32],
    allowed2: &[u32],
    ignored: &[u32],
    listed: AllowedLists,
    heads: &[u32],
    states: &[u32],
    trs: &[u32],
    out: &mut [u8],
    to: usize,
) -> usize
    requires fact { let l = lent_with m1.now m2.now allowed1.now allowed2.now ignored.now listed in
        let m = memory_of heads.now states.now trs.now in
        Room out.old to (length (lines_from l (session_means session) m 0 session.used.states)) }
    requires passes { let l = lent_with m1.now m2.now allowed1.now allowed2.now ignored.now listed in
        Passes l (session_means session) (memory_of heads.now states.now trs.now) }
    ensures fact_2 { let l = lent_with m1.now m2.now allowed1.now allowed2.now ignored.now listed in
        let m = memory_of heads.now states.now trs.now in
        Written out.old to (bytes_of (lines_from l (session_means session) m 0 session.used.states)) out.new result }
    ensures near { let l = lent_with m1.now m2.now allowed1.now allowed2.now ignored.now listed in
        let m = memory_of heads.now states.now trs.now in
        result ≤ to + 64 * length (lines_from l (session_means session) m 0 session.used.states) }
{
    let mut at = to;
    for n in 0..session.used.states {
        at = put_one(
            session,
            m1,
            m2,
            allowed1,
            allowed2,
            ignored,
            listed,
            heads,
            states,
            trs,
            StateId(n),
            out,
            at,
        );
    }
    at
}

// The whole listing of a store that was run to its end: the side, the states, the counts.
pub fn put_listing(
    session: Session,
    m1: &[u32],
    m2: &[u32],
    allowed1: &[u32],
    allowed2: &[u32],
    ignored: &[u32],
    listed: AllowedLists,
    heads: &[u32],
    states: &[u32],
    trs: &[u32],
    out: &mut [u8],
) -> usize
    requires fact { let l = lent_with m1.now m2.now allowed1.now allowed2.now ignored.now listed in
        let m = memory_of heads.now states.now trs.now in
        Room out.old 128 (length (lines_from l (session_means session) m 0 session.used.states)) }
    requires passes { let l = lent_with m1.now m2.now allowed1.now allowed2.now ignored.now listed in
        Passes l (session_means session) (memory_of heads.now states.now trs.now) }
    ensures fact_2 { let l = lent_with m1.now m2.now allowed1.now allowed2.now ignored.now listed in
        let m = memory_of heads.now states.entry.now trs.now in
        let states = lines_from l (session_means session) m 0 session.used.states in
        let lines = side_line session.side ∷ states ++ (end_line session.used.states session.used.trs ∷ []) in
        Written out.old 0 (bytes_of lines) out.new result }
    ensures counts { result ≤ length out.new }
{
    let a = put_side(out, 0, session.side);
    let b = put_states(
        session, m1, m2, allowed1, allowed2, ignored, listed, heads, states, trs, out, a,
    );
    put_end(out, b, session.used.states, session.used.trs)
}
