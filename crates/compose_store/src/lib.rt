// The expansion of a composed state (compose_fst_op.rs, `compute_trs`) where a refusal may stand: first weighed, then stored. The second pass cannot fail: each kept move's record goes through the lent tail, and a
// target that the table lacks becomes a state.
#![tactic(auto)]

ghost use Rattle.std.specs.Prelude.{◌≡◌, List, ℕ, ◌+◌, ◌^◌, ◌≤◌, ◌<◌};
ghost use Rattle.words.specs.Labels.{good, and_then};
ghost use Rattle.words.specs.Steps.{Composition, steps_at};
ghost use Rattle.calls.specs.Store.{triple_at};
ghost use Rattle.calls.specs.Checks.{entered};
ghost use Rattle.calls.specs.Calls.{reach as reachOf, next_for, store_step, store_steps, new_part, settle, expansion};
ghost use Rattle.compose_state_tuple.specs.Meaning.{tuple_means};
ghost use Rattle.store_records.specs.Meaning.{stored, store_in, memory_of};
ghost use Rattle.state_table.specs.Meaning.{reached_means};
ghost use Rattle.tr_lists.specs.Meaning.{part_means};
ghost use Rattle.compose_fst_op.specs.Composing.{lent_of, composing};
ghost use Rattle.compose_moves.specs.Moves.{compose_tr_means};
ghost use Rattle.compose_weigh.specs.Weigh.{weigh_of};
ghost use Rattle.compose_weigh.specs.Meaning.{steps_from};
ghost use Rattle.compose_store.specs.Meaning.{Accepted, goes_on, session_under, left_by};

use compose_fst_op::ComposeFstOpOptions;
use compose_moves::{ComposeTr, MoveCursor, NextStep, moves_start, next_step};
use compose_state_tuple::ComposeStateTuple;
use compose_weigh::weigh;
use fst::{Refusal, StateId, Tr};
use state_table::{Reached, add_state, find_id};
use store_records::{Used, get_tuple, mark_expanded, push_tr};
use tr_lists::Part;

// The new records of a state's list with the used counts after it, or the refusal.
pub type Expansion = Result<(Part, Used), Refusal>;

// The state found, else a new one.
fn reach(heads: &mut [u32], states: &mut [u32], used: u32, tuple: ComposeStateTuple) -> Reached
    requires { (trs : List ℕ) (k : ℕ) → Accepted (reachOf (stored heads.old states.old trs used k) (tuple_means tuple)) }
    ensures { (trs : List ℕ) (k : ℕ) →
        let d = stored heads.old states.old trs used k in
        good (reached_means heads.new states.new trs k result) ≡ reachOf d (tuple_means tuple) }
{
    if let Some(state) = find_id(heads, states, used, tuple) {
        return Reached { state, used };
    }
    add_state(heads, states, used, tuple);
    Reached {
        state: StateId(used),
        used: used + 1,
    }
}

// The link of the first unused record: the record after it, or 0 at the end of a list.
fn link(used: u32, follows: bool) -> u32
    requires { used + 2 < 2 ^ 32 }
    ensures { (heads states trs : List ℕ) (n : ℕ) → result ≡ next_for (stored heads states trs n used) follows }
{
    if follows { used + 2 } else { 0 }
}

// A kept move's transition record, with the state of its target. Answers the used counts after it.
fn store_step(
    heads: &mut [u32],
    states: &mut [u32],
    trs: &mut [u32],
    used: Used,
    tr: ComposeTr,
    follows: bool,
) -> Used
    requires { let d = store_in heads.old states.old trs.old used in
        Accepted (store_step d (next_for d follows) (compose_tr_means tr)) }
    ensures { let d = store_in heads.old states.old trs.old used in
        let d' = store_in heads.new states.new trs.new result in
        good d' ≡ store_step d (next_for d follows) (compose_tr_means tr) }
{
    let next = link(used.trs, follows);
    let reached = reach(heads, states, used.states, tr.tuple);
    push_tr(
        trs,
        used.trs,
        Tr {
            ilabel: tr.ilabel,
            olabel: tr.olabel,
            weight: tr.weight,
            nextstate: reached.state,
        },
        next,
    );
    Used {
        states: reached.used,
        trs: used.trs + 1,
    }
}

// Whether a move cursor's answer is not the end.
fn goes_on(next: NextStep) -> bool
    ensures { result ≡ goes_on next }
{
    !matches!(next, Ok(None))
}

// The steps from a cursor on, each with the next one asked before it is stored: a record's link says whether another follows. Answers the used counts after them.
fn store_steps(
    m1: &[u32],
    m2: &[u32],
    a1: &[u32],
    a2: &[u32],
    ignored: &[u32],
    options: ComposeFstOpOptions,
    heads: &mut [u32],
    states: &mut [u32],
    trs: &mut [u32],
    used: Used,
    start: MoveCursor,
) -> Used
    requires { let d = store_in heads.old states.old trs.old used in
        let steps = steps_from options m1.now m2.now a1.now a2.now ignored.now start in
        Accepted (store_steps d steps) }
    ensures { let d = store_in heads.old states.old trs.old used in
        let d' = store_in heads.new states.new trs.new result in
        let steps = steps_from options m1.now m2.now a1.now a2.now ignored.now start in
        good d' ≡ store_steps d steps }
{
    let mut grown = used;
    let mut ahead = next_step(m1, m2, a1, a2, ignored, options, start);
    loop {
        match ahead {
            Ok(Some((tr, after))) => {
                ahead = next_step(m1, m2, a1, a2, ignored, options, after);
                grown = store_step(heads, states, trs, grown, tr, goes_on(ahead));
            }
            Ok(None) => return grown,
            Err(_) => return grown,
        }
    }
}

// The records from the first unused one on, where `before` and then `after` are used.
pub fn new_part(before: u32, after: u32) -> Part
    requires { before ≤ after }
    ensures { (n k : ℕ) → part_means result ≡ new_part (record { states = n; trs = before }) (record { states = k; trs = after }) }
{
    if after == before {
        return Part { first: 0, count: 0 };
    }
    Part {
        first: before + 1,
        count: after - before,
    }
}

// The expansion of state n, whose steps a cursor gives. Nothing is written where the weighing refuses.
fn expand_from(
    m1: &[u32],
    m2: &[u32],
    a1: &[u32],
    a2: &[u32],
    ignored: &[u32],
    options: ComposeFstOpOptions,
    heads: &mut [u32],
    states: &mut [u32],
    trs: &mut [u32],
    used: Used,
    n: StateId,
    start: MoveCursor,
) -> Expansion
    requires { let d = store_in heads.old states.old trs.old used in
        let steps = steps_from options m1.now m2.now a1.now a2.now ignored.now start in
        weigh_of d steps ≡ and_then (store_steps d steps) (λ e. good tt) }
    ensures { (c : Composition) →
        let m = memory_of heads.old states.old trs.old in
        let m' = memory_of heads.new states.new trs.new in
        let steps = steps_from options m1.now m2.now a1.now a2.now ignored.now start in
        steps_at c (triple_at states.old n.0) ≡ steps → left_by options used m' result
        ≡ settle (session_under options used) m (expansion c (session_under options used) m n.0) }
{
    weigh(
        m1, m2, a1, a2, ignored, options, heads, states, trs, used, start,
    )?;
    let after = store_steps(
        m1, m2, a1, a2, ignored, options, heads, states, trs, used, start,
    );
    let part = new_part(used.trs, after.trs);
    mark_expanded(states, n, part.first);
    Ok((part, after))
}

// The expansion of state n, a found one, where the checks 1 to 8 passed: weighed, then stored.
pub fn expand_weighed(
    m1: &[u32],
    m2: &[u32],
    a1: &[u32],
    a2: &[u32],
    ignored: &[u32],
    options: ComposeFstOpOptions,
    heads: &mut [u32],
    states: &mut [u32],
    trs: &mut [u32],
    used: Used,
    n: StateId,
) -> Expansion
    requires { let l = lent_of options m1.now m2.now a1.now a2.now ignored.now in
        let m = memory_of heads.old states.old trs.old in
        let c = composing options m1.now m2.now a1.now a2.now ignored.now in
        (entered l (session_under options used) m ≡ good c) × (n.0 < used.states) }
    ensures { let m = memory_of heads.old states.old trs.old in
        let m' = memory_of heads.new states.new trs.new in
        let c = composing options m1.now m2.now a1.now a2.now ignored.now in
        left_by options used m' result ≡ settle (session_under options used) m (expansion c (session_under options used) m n.0) }
{
    let start = moves_start(m1, m2, ignored, options, get_tuple(states, n))?;
    expand_from(
        m1, m2, a1, a2, ignored, options, heads, states, trs, used, n, start,
    )
}
