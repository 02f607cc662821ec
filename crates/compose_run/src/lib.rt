// What a lazy composition does below the checks of a session: the expansion of a found state, and `compute`, which expands in number order.
#![tactic(auto)]

ghost use Rattle.std.specs.Prelude.{◌≡◌, ◌<◌};
ghost use Rattle.words.specs.Labels.{good};
ghost use Rattle.words.specs.Matches.{inputs, outputs};
ghost use Rattle.calls.specs.Store.{Memory, state_room};
ghost use Rattle.calls.specs.Checks.{entered};
ghost use Rattle.calls.specs.Calls.{expand_of, run_from};
ghost use Rattle.calls.specs.Owned.{stop_from};
ghost use Rattle.compose_fst_op.specs.Composing.{lent_of, composing};
ghost use Rattle.store_records.specs.Meaning.{memory_of};
ghost use Rattle.compose_expand.specs.Memos.{Remembered};
ghost use Rattle.compose_store.specs.Meaning.{session_under, left_by};
ghost use Rattle.compose_run.specs.Meaning.{ran_left, turn_of};
ghost use Rattle.compose_run.specs.Memos.{memo_at, memo_from};

use compose_expand::{expand_state, expand_tight, plain_labels};
use compose_fst_op::ComposeFstOpOptions;
use compose_store::{Expansion, expand_weighed, new_part};
use fst::{Refusal, StateId};
use list_facts::MEMO_WORDS;
use store_records::{Used, is_expanded, state_room};
use tr_lists::part_of;

// The used counts after all expansions; or the refusal of one, and the used counts of the expansions before it.
pub type Ran = Result<Used, (Refusal, Used)>;

// What one turn of a run leaves: the list of the state is not asked for.
fn turn(used: Used, expanded: Expansion) -> Ran
    ensures { (o : ComposeFstOpOptions) (m : Memory) → ran_left o m result ≡ turn_of (left_by o used m expanded) }
{
    match expanded {
        Ok((_, after)) => Ok(after),
        Err(refusal) => Err((refusal, used)),
    }
}

// One turn of a run: state n is expanded, if it is not yet. What is remembered of the two machines' lists stays true.
#[tactic(auto, using(crate::proofs::RunTurns::expand_listed, crate::proofs::RunTurns::expand_new), unfolding(crate::specs::Memos::memo_at))]
fn compute_state(
    m1: &[u32],
    m2: &[u32],
    a1: &[u32],
    a2: &[u32],
    ignored: &[u32],
    options: ComposeFstOpOptions,
    heads: &mut [u32],
    states: &mut [u32],
    trs: &mut [u32],
    memo1: &mut [u32; MEMO_WORDS],
    memo2: &mut [u32; MEMO_WORDS],
    used: Used,
    n: StateId,
) -> Ran
    requires { let l = lent_of options m1.now m2.now a1.now a2.now ignored.now in
        let m = memory_of heads.old states.old trs.old in
        let c = composing options m1.now m2.now a1.now a2.now ignored.now in
        let s = session_under options used in
        (entered l s m ≡ good c) × (n.0 < used.states) × Remembered outputs l s memo1.old × Remembered inputs l s memo2.old }
    ensures result_after { let l = lent_of options m1.now m2.now a1.now a2.now ignored.now in
        let m = memory_of heads.old states.old trs.old in
        let m' = memory_of heads.new states.new trs.new in
        ran_left options m' result ≡ turn_of (expand_of l (session_under options used) m n.0) }
    ensures asked { let l = lent_of options m1.now m2.now a1.now a2.now ignored.now in
        let m = memory_of heads.old states.old trs.old in
        let s = session_under options used in
        (memo1.new ≡ memo_at outputs l s m n.0 memo1.old) × (memo2.new ≡ memo_at inputs l s m n.0 memo2.old) }
    ensures remembered { let l = lent_of options m1.now m2.now a1.now a2.now ignored.now in
        let s = session_under options used in
        Remembered outputs l s memo1.new × Remembered inputs l s memo2.new }
{
    if is_expanded(states, n) {
        return Ok(used);
    }
    let expanded = expand_state(
        m1, m2, a1, a2, ignored, options, heads, states, trs, memo1, memo2, used, n,
    );
    turn(used, expanded)
}

// Where a run stands when it ends: the state with which the next one goes on, which is the refused one where one is refused.
#[derive(Clone, Copy)]
pub struct Stopped {
    pub next: StateId,
    pub ran: Ran,
}

// A piece of a run, where the checks 1 to 8 pass: from a state on, in number order, so many states at most, until none is left or one is refused. After an accepted expansion the
// checks pass again: they are not made again. What is remembered of the two machines' lists stays true.
pub fn compute_from(
    m1: &[u32],
    m2: &[u32],
    a1: &[u32],
    a2: &[u32],
    ignored: &[u32],
    options: ComposeFstOpOptions,
    heads: &mut [u32],
    states: &mut [u32],
    trs: &mut [u32],
    memo1: &mut [u32; MEMO_WORDS],
    memo2: &mut [u32; MEMO_WORDS],
    used: Used,
    from: StateId,
    count: u32,
) -> Stopped
    requires { let l = lent_of options m1.now m2.now a1.now a2.now ignored.now in
        let m = memory_of heads.old states.old trs.old in
        let s = session_under options used in
        (entered l s m ≡ good (composing options m1.now m2.now a1.now a2.now ignored.now))
        × Remembered outputs l s memo1.old × Remembered inputs l s memo2.old }
    ensures ran_after { let l = lent_of options m1.now m2.now a1.now a2.now ignored.now in
        let m = memory_of heads.old states.old trs.old in
        let m' = memory_of heads.new states.new trs.new in
        ran_left options m' result.ran ≡ run_from l count from.0 (session_under options used) m }
    ensures next { let l = lent_of options m1.now m2.now a1.now a2.now ignored.now in
        let m = memory_of heads.old states.old trs.old in
        result.next.0 ≡ stop_from l count from.0 (session_under options used) m }
    ensures asked { let l = lent_of options m1.now m2.now a1.now a2.now ignored.now in
        let m = memory_of heads.old states.old trs.old in
        let s = session_under options used in
        (memo1.new ≡ memo_from outputs l count from.0 s m memo1.old)
        × (memo2.new ≡ memo_from inputs l count from.0 s m memo2.old) }
    ensures remembered { let l = lent_of options m1.now m2.now a1.now a2.now ignored.now in
        let s = session_under options used in
        Remembered outputs l s memo1.new × Remembered inputs l s memo2.new }
{
    let mut latest = used;
    let mut next = from;
    for _ in 0..count {
        if latest.states <= next.0 {
            return Stopped {
                next,
                ran: Ok(latest),
            };
        }
        let turn = compute_state(
            m1, m2, a1, a2, ignored, options, heads, states, trs, memo1, memo2, latest, next,
        );
        match turn {
            Ok(after) => latest = after,
            Err(refused) => return Stopped {
                next,
                ran: Err(refused),
            },
        }
        next = StateId(next.0 + 1);
    }
    Stopped {
        next,
        ran: Ok(latest),
    }
}

// The list of a found state, where the checks 1 to 9 pass: as stored, with the used counts as they are, or expanded, by a piece of one state.
#[tactic(auto, using(crate::proofs::RunTurns::expand_listed, crate::proofs::MemoTurns::memo_one), unfolding(crate::specs::Memos::memo_at))]
pub fn expand_found(
    m1: &[u32],
    m2: &[u32],
    a1: &[u32],
    a2: &[u32],
    ignored: &[u32],
    options: ComposeFstOpOptions,
    heads: &mut [u32],
    states: &mut [u32],
    trs: &mut [u32],
    memo1: &mut [u32; MEMO_WORDS],
    memo2: &mut [u32; MEMO_WORDS],
    used: Used,
    n: StateId,
) -> Expansion
    requires { let l = lent_of options m1.now m2.now a1.now a2.now ignored.now in
        let m = memory_of heads.old states.old trs.old in
        let c = composing options m1.now m2.now a1.now a2.now ignored.now in
        let s = session_under options used in
        (entered l s m ≡ good c) × (n.0 < used.states) × Remembered outputs l s memo1.old × Remembered inputs l s memo2.old }
    ensures result_after { let l = lent_of options m1.now m2.now a1.now a2.now ignored.now in
        let m = memory_of heads.old states.old trs.old in
        let m' = memory_of heads.new states.new trs.new in
        left_by options used m' result ≡ expand_of l (session_under options used) m n.0 }
    ensures asked { let l = lent_of options m1.now m2.now a1.now a2.now ignored.now in
        let m = memory_of heads.old states.old trs.old in
        let s = session_under options used in
        (memo1.new ≡ memo_at outputs l s m n.0 memo1.old) × (memo2.new ≡ memo_at inputs l s m n.0 memo2.old) }
    ensures remembered { let l = lent_of options m1.now m2.now a1.now a2.now ignored.now in
        let s = session_under options used in
        Remembered outputs l s memo1.new × Remembered inputs l s memo2.new }
{
    if is_expanded(states, n) {
        return Ok((part_of(states, trs, used.trs, n), used));
    }
    let stopped = compute_from(
        m1, m2, a1, a2, ignored, options, heads, states, trs, memo1, memo2, used, n, 1,
    );
    match stopped.ran {
        Ok(after) => Ok((new_part(used.trs, after.trs), after)),
        Err((refusal, _)) => Err(refusal),
    }
}

// The same where no memo is lent: the facts of the state's two lists are told anew.
#[tactic(auto, using(crate::proofs::RunTurns::expand_listed, crate::proofs::RunTurns::expand_new))]
pub fn expand_alone(
    m1: &[u32],
    m2: &[u32],
    a1: &[u32],
    a2: &[u32],
    ignored: &[u32],
    options: ComposeFstOpOptions,
    heads: &mut [u32],
    states: &mut [u32],
    trs: &mut [u32],
    used: Used,
    n: StateId,
) -> Expansion
    requires { let l = lent_of options m1.now m2.now a1.now a2.now ignored.now in
        let m = memory_of heads.old states.old trs.old in
        let c = composing options m1.now m2.now a1.now a2.now ignored.now in
        (entered l (session_under options used) m ≡ good c) × (n.0 < used.states) }
    ensures { let l = lent_of options m1.now m2.now a1.now a2.now ignored.now in
        let m = memory_of heads.old states.old trs.old in
        let m' = memory_of heads.new states.new trs.new in
        left_by options used m' result ≡ expand_of l (session_under options used) m n.0 }
{
    if is_expanded(states, n) {
        return Ok((part_of(states, trs, used.trs, n), used));
    }
    if !plain_labels(options, ignored) {
        return expand_weighed(
            m1, m2, a1, a2, ignored, options, heads, states, trs, used, n,
        );
    }
    expand_tight(
        m1, m2, a1, a2, ignored, options, heads, states, trs, used, n,
    )
}

// Expands in number order, where the checks 1 to 8 pass, until none is left or one is refused. No more states are found than there is room for.
#[tactic(auto, unfolding(calls::specs::Store::state_room_with))]
pub fn compute(
    m1: &[u32],
    m2: &[u32],
    a1: &[u32],
    a2: &[u32],
    ignored: &[u32],
    options: ComposeFstOpOptions,
    heads: &mut [u32],
    states: &mut [u32],
    trs: &mut [u32],
    used: Used,
) -> Ran
    requires { let l = lent_of options m1.now m2.now a1.now a2.now ignored.now in
        let m = memory_of heads.old states.old trs.old in
        entered l (session_under options used) m ≡ good (composing options m1.now m2.now a1.now a2.now ignored.now) }
    ensures { let l = lent_of options m1.now m2.now a1.now a2.now ignored.now in
        let m = memory_of heads.old states.old trs.old in
        let m' = memory_of heads.new states.new trs.new in
        ran_left options m' result ≡ run_from l (state_room m) 0 (session_under options used) m }
{
    let mut memo1 = [0u32; MEMO_WORDS];
    let mut memo2 = [0u32; MEMO_WORDS];
    let most = state_room(states);
    let stopped = compute_from(
        m1,
        m2,
        a1,
        a2,
        ignored,
        options,
        heads,
        states,
        trs,
        &mut memo1,
        &mut memo2,
        used,
        StateId(0),
        most,
    );
    stopped.ran
}
