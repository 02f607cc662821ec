// The first pass of an expansion (compose_fst_op.rs, `compute_trs`): whether it succeeds, decided without writing.
#![tactic(auto)]

ghost use Rattle.std.specs.Prelude.{◌≡◌, Bool, not, ◌&&◌, List, ℕ, ◌+◌, ◌-◌, ◌^◌, ◌≤◌, ◌<◌};
ghost use Rattle.words.specs.Labels.{Checked};
ghost use Rattle.words.specs.Steps.{Triple, Step};
ghost use Rattle.calls.specs.Store.{room_of, state_size, find};
ghost use Rattle.compose_state_tuple.specs.Meaning.{tuple_means};
ghost use Rattle.fst.specs.Refusals.{checked_by};
ghost use Rattle.store_records.specs.Meaning.{store_in};
ghost use Rattle.triple_set.specs.Sets.{set_of, Headed};
ghost use Rattle.compose_weigh.specs.Weigh.{reached_within, missing, is_new, count_state, weigh_of};
ghost use Rattle.compose_weigh.specs.Windows.{set_room, new_within, Filled};
ghost use Rattle.compose_weigh.specs.Meaning.{steps_from, counted_means, Tells, KeptAt, Spans};

use compose_fst_op::ComposeFstOpOptions;
use compose_moves::{MoveCursor, next_step};
use compose_state_tuple::ComposeStateTuple;
use fst::Refusal;
use state_table::find_id;
use store_records::{Used, state_room, tr_room};
use triple_set::{SET_HEADS, SET_WORDS, mark, take};

// The triples that the set of a window holds at most.
const SET_ROOM: usize = 2048;

// No refusal stands, or the first.
pub type Weighed = Result<(), Refusal>;

// A step that has a transition record: its target, and the cursor after it. Else what the weighing ends with there.
type Kept = Result<(ComposeStateTuple, MoveCursor), Weighed>;

// What a walk over the steps met; None: it was left before their end.
type Ending = Option<Weighed>;

// What stays the same through a weighing: the steps are those from the cursor `start` on.
#[derive(Clone, Copy)]
struct Weighing {
    options: ComposeFstOpOptions,
    used: Used,
    start: MoveCursor,
}

// A number of states for some steps, the number of steps up to the cursor after them, and why they end there.
#[derive(Clone, Copy)]
struct Passed {
    states: u32,
    count: u32,
    cursor: MoveCursor,
    ending: Ending,
}

// The next step of a cursor, where its transition record is there; `count` steps came before it.
fn kept_step(
    m1: &[u32],
    m2: &[u32],
    a1: &[u32],
    a2: &[u32],
    ignored: &[u32],
    trs: &[u32],
    w: Weighing,
    cursor: MoveCursor,
    count: u32,
) -> Kept
    requires { w.used.trs + count < 2 ^ 32 }
    ensures { (heads states : List ℕ) →
        KeptAt w.options m1.now m2.now a1.now a2.now ignored.now (store_in heads states trs.now w.used) count cursor result }
{
    match next_step(m1, m2, a1, a2, ignored, w.options, cursor) {
        Err(refusal) => Err(Err(refusal)),
        Ok(None) => Err(Ok(())),
        Ok(Some((tr, after))) => {
            if tr_room(trs) <= w.used.trs + count {
                return Err(Err(Refusal::NoRoom));
            }
            Ok((tr.tuple, after))
        }
    }
}

// Whether the table lacks a triple.
pub fn lacks(heads: &[u32], states: &[u32], used: Used, tuple: ComposeStateTuple) -> bool
    ensures { (trs : List ℕ) → result ≡ missing (find (store_in heads.now states.now trs used) (tuple_means tuple)) }
{
    find_id(heads, states, used.states, tuple).is_none()
}

// The used states with a new one; None: there is no record for it.
#[tactic(auto, unfolding(crate::specs::Weigh::count_state))]
fn count_state(new: bool, room: u32, states: u32) -> Option<u32>
    ensures { counted_means result ≡ count_state new room states }
{
    if !new {
        return Some(states);
    }
    if room <= states {
        return None;
    }
    Some(states + 1)
}

// What the steps meet where every target that the table lacks is counted as a new state; None where a state's record is lacking then.
fn weigh_quickly(
    m1: &[u32],
    m2: &[u32],
    a1: &[u32],
    a2: &[u32],
    ignored: &[u32],
    heads: &[u32],
    states: &[u32],
    trs: &[u32],
    w: Weighing,
) -> Ending
    ensures { let d = store_in heads.now states.now trs.now w.used in
        let steps = steps_from w.options m1.now m2.now a1.now a2.now ignored.now w.start in
        Tells (weigh_of d steps) result }
{
    let mut cursor = w.start;
    let mut count: u32 = 0;
    let mut grown = w.used.states;
    loop {
        match kept_step(m1, m2, a1, a2, ignored, trs, w, cursor, count) {
            Err(weighed) => return Some(weighed),
            Ok((to, after)) => {
                let new = lacks(heads, states, w.used, to);
                grown = count_state(new, state_room(states), grown)?;
                count += 1;
                cursor = after;
            }
        }
    }
}

// The targets that the table lacks of the steps from a cursor on, taken into an empty set until it is full.
fn fill(
    m1: &[u32],
    m2: &[u32],
    a1: &[u32],
    a2: &[u32],
    ignored: &[u32],
    heads: &[u32],
    states: &[u32],
    trs: &[u32],
    w: Weighing,
    chains: &mut [u32],
    records: &mut [u32],
    from: MoveCursor,
    before: u32,
) -> Passed
    requires small { w.used.trs + before < 2 ^ 32 }
    requires empty { Headed (set_of chains.old records.old 0) }
    requires room { 0 < room_of state_size records.old }
    ensures { let d = store_in heads.now states.now trs.now w.used in
        let steps = steps_from w.options m1.now m2.now a1.now a2.now ignored.now from in
        let rest = steps_from w.options m1.now m2.now a1.now a2.now ignored.now result.cursor in
        (k : ℕ) × Spans d before k steps rest result.count result.ending
        × Filled (λ t. missing (find d t)) k steps (room_of state_size records.old) (set_of chains.new records.new result.states) }
{
    let mut cursor = from;
    let mut count = before;
    let mut held: u32 = 0;
    loop {
        match kept_step(m1, m2, a1, a2, ignored, trs, w, cursor, count) {
            Err(weighed) => {
                return Passed {
                    states: held,
                    count,
                    cursor,
                    ending: Some(weighed),
                };
            }
            Ok((to, after)) => {
                let new = lacks(heads, states, w.used, to);
                let taken = take(chains, records, held, new, to);
                if taken.full {
                    return Passed {
                        states: taken.held,
                        count,
                        cursor,
                        ending: None,
                    };
                }
                held = taken.held;
                count += 1;
                cursor = after;
            }
        }
    }
}

// How many triples of a set the first `count` steps from a cursor on go to.
fn count_earlier(
    m1: &[u32],
    m2: &[u32],
    a1: &[u32],
    a2: &[u32],
    ignored: &[u32],
    options: ComposeFstOpOptions,
    start: MoveCursor,
    count: u32,
    chains: &[u32],
    records: &[u32],
    held: u32,
) -> u32
    ensures { let all = steps_from options m1.now m2.now a1.now a2.now ignored.now start in
        (P : Triple → Bool) (k : ℕ) (steps : List (Checked Step)) (room : ℕ) → room ≤ set_room
        → Filled P k steps room (set_of chains.now records.now held)
        → result + new_within (λ t. P t && not (reached_within t count all)) k steps ≡ held }
{
    let mut marks = [0u32; SET_ROOM];
    let mut cursor = start;
    let mut old: u32 = 0;
    for _ in 0..count {
        match next_step(m1, m2, a1, a2, ignored, options, cursor) {
            Ok(Some((tr, after))) => {
                old += mark(chains, records, held, &mut marks, tr.tuple);
                cursor = after;
            }
            Ok(None) => return old,
            Err(_) => return old,
        }
    }
    old
}

// The new states of the steps from a cursor on, as many steps as one set takes; `before` steps came before them.
fn weigh_window(
    m1: &[u32],
    m2: &[u32],
    a1: &[u32],
    a2: &[u32],
    ignored: &[u32],
    heads: &[u32],
    states: &[u32],
    trs: &[u32],
    w: Weighing,
    from: MoveCursor,
    before: u32,
) -> Passed
    requires { w.used.trs + before < 2 ^ 32 }
    ensures { let d = store_in heads.now states.now trs.now w.used in
        let all = steps_from w.options m1.now m2.now a1.now a2.now ignored.now w.start in
        let steps = steps_from w.options m1.now m2.now a1.now a2.now ignored.now from in
        let rest = steps_from w.options m1.now m2.now a1.now a2.now ignored.now result.cursor in
        (k : ℕ) × Spans d before k steps rest result.count result.ending × (result.states ≡ new_within (is_new d all before) k steps) }
{
    let mut chains = [0u32; SET_HEADS];
    let mut records = [0u32; SET_WORDS];
    let window = fill(
        m1,
        m2,
        a1,
        a2,
        ignored,
        heads,
        states,
        trs,
        w,
        &mut chains,
        &mut records,
        from,
        before,
    );
    let old = count_earlier(
        m1,
        m2,
        a1,
        a2,
        ignored,
        w.options,
        w.start,
        before,
        &chains,
        &records,
        window.states,
    );
    Passed {
        states: window.states - old,
        ..window
    }
}

// The records that are not used.
pub fn spare(room: u32, used: u32) -> u32
    ensures { result ≡ room - used }
{
    room.saturating_sub(used)
}

// The first refusal that storing the steps meets, the new states counted window by window.
fn weigh_exactly(
    m1: &[u32],
    m2: &[u32],
    a1: &[u32],
    a2: &[u32],
    ignored: &[u32],
    heads: &[u32],
    states: &[u32],
    trs: &[u32],
    w: Weighing,
) -> Weighed
    ensures { let d = store_in heads.now states.now trs.now w.used in
        let steps = steps_from w.options m1.now m2.now a1.now a2.now ignored.now w.start in
        checked_by (λ w. w) result ≡ weigh_of d steps }
{
    let mut cursor = w.start;
    let mut before: u32 = 0;
    let mut left = spare(state_room(states), w.used.states);
    loop {
        let passed = weigh_window(
            m1, m2, a1, a2, ignored, heads, states, trs, w, cursor, before,
        );
        if left < passed.states {
            return Err(Refusal::NoRoom);
        }
        left -= passed.states;
        if let Some(weighed) = passed.ending {
            return weighed;
        }
        before = passed.count;
        cursor = passed.cursor;
    }
}

// The first refusal that storing the steps from a cursor on meets. The new states are counted exactly only where counting every target that the table lacks meets a lacking record.
pub fn weigh(
    m1: &[u32],
    m2: &[u32],
    a1: &[u32],
    a2: &[u32],
    ignored: &[u32],
    options: ComposeFstOpOptions,
    heads: &[u32],
    states: &[u32],
    trs: &[u32],
    used: Used,
    start: MoveCursor,
) -> Weighed
    ensures { let d = store_in heads.now states.now trs.now used in
        let steps = steps_from options m1.now m2.now a1.now a2.now ignored.now start in
        checked_by (λ w. w) result ≡ weigh_of d steps }
{
    let w = Weighing {
        options,
        used,
        start,
    };
    match weigh_quickly(m1, m2, a1, a2, ignored, heads, states, trs, w) {
        Some(weighed) => weighed,
        None => weigh_exactly(m1, m2, a1, a2, ignored, heads, states, trs, w),
    }
}
