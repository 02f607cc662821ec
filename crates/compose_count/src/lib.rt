// The weighing of a composed state none of whose steps is a refusal: whether there is room for them, by plain loops and a set of fixed size, class by class of a hash.
#![tactic(auto)]

mod notes;

ghost use Rattle.std.specs.Prelude.{◌≡◌, false, List, ℕ, ◌<◌, ◌≤◌, min, length};
ghost use Rattle.words.specs.Labels.{MAX};
ghost use Rattle.words.specs.Machines.{limit};
ghost use Rattle.calls.specs.Store.{find};
ghost use Rattle.store_records.specs.Meaning.{store_in};
ghost use Rattle.stored_steps.specs.Storing.{AllGood};
ghost use Rattle.compose_walk.specs.Plans.{plan_steps, Planned};
ghost use Rattle.compose_weigh.specs.Weigh.{missing, weigh_of};
ghost use Rattle.compose_weigh.specs.Windows.{new_within};
ghost use Rattle.compose_count.specs.Notes.{wanted_by};
ghost use Rattle.compose_count.specs.Room.{EnoughFor, RoomTells};

use compose_walk::Plan;
use compose_weigh::spare;
use notes::{Counting, Noted, note_list};
use store_records::{Used, state_room, tr_room};
use triple_set::{SET_HEADS, SET_WORDS};

// About so many of the new triples fall to a class: fewer than a set holds.
const CLASS_STEPS: u32 = 1536;

// Whether there is a record for all that the steps store; unknown: a class has more than its set has room for, and what the sets hold does not pass what is left.
#[derive(Clone, Copy)]
pub enum Room {
    Suffices,
    Lacks,
    Unknown,
}

// The targets of one class, in an empty set: where it was full it holds some of them.
fn count_class(mw: &[u32], mm: &[u32], heads: &[u32], states: &[u32], c: Counting) -> Noted
    requires { (0 < c.classes) × Planned c.plan mw.now mm.now × AllGood (plan_steps c.plan mw.now mm.now) }
    ensures { (trs : List ℕ) →
        let d = store_in heads.now states.now trs c.used in
        let steps = plan_steps c.plan mw.now mm.now in
        let n = new_within (wanted_by d c.classes c.class) (length steps) steps in
        (result.held ≤ n) × (result.full ≡ false → result.held ≡ n) × (result.moves ≡ min (length steps) MAX) }
{
    let mut chains = [0u32; SET_HEADS];
    let mut records = [0u32; SET_WORDS];
    let nothing = Noted {
        held: 0,
        full: false,
        moves: 0,
    };
    note_list(mw, mm, heads, states, &mut chains, &mut records, c, nothing)
}

// The new states that the steps need, class by class, against the state records that are left.
fn count_new(
    mw: &[u32],
    mm: &[u32],
    heads: &[u32],
    states: &[u32],
    plan: Plan,
    used: Used,
    left: u32,
    classes: u32,
) -> Room
    requires { (0 < classes) × Planned plan mw.now mm.now × AllGood (plan_steps plan mw.now mm.now) × (length (plan_steps plan mw.now mm.now) ≤ limit) }
    ensures { (trs : List ℕ) →
        let d = store_in heads.now states.now trs used in
        let steps = plan_steps plan mw.now mm.now in
        EnoughFor (new_within (λ t. missing (find d t)) (length steps) steps) left result }
{
    let mut sum: u32 = 0;
    let mut full = false;
    for class in 0..classes {
        let counting = Counting {
            plan,
            used,
            classes,
            class,
        };
        let noted = count_class(mw, mm, heads, states, counting);
        sum += noted.held;
        if left < sum {
            return Room::Lacks;
        }
        full |= noted.full;
    }
    if full { Room::Unknown } else { Room::Suffices }
}

// The same: all in one set where that tells, else class by class.
fn count_all(
    mw: &[u32],
    mm: &[u32],
    heads: &[u32],
    states: &[u32],
    plan: Plan,
    used: Used,
    left: u32,
    noted: Noted,
) -> Room
    requires { let steps = plan_steps plan mw.now mm.now in
        Planned plan mw.now mm.now × AllGood steps × (length steps ≤ limit)
        × ((trs : List ℕ) → let n = new_within (wanted_by (store_in heads.now states.now trs used) 1 0) (length steps) steps in (noted.held ≤ n) × (noted.full ≡ false → noted.held ≡ n)) }
    ensures { (trs : List ℕ) →
        let d = store_in heads.now states.now trs used in
        let steps = plan_steps plan mw.now mm.now in
        EnoughFor (new_within (λ t. missing (find d t)) (length steps) steps) left result }
{
    if left < noted.held {
        return Room::Lacks;
    }
    if noted.full {
        let classes = left.min(noted.moves) / CLASS_STEPS + 1;
        return count_new(mw, mm, heads, states, plan, used, left, classes);
    }
    Room::Suffices
}

// Whether there is room for the steps of a plan, none of which is a refusal.
pub fn weigh_plain(
    mw: &[u32],
    mm: &[u32],
    heads: &[u32],
    states: &[u32],
    trs: &[u32],
    plan: Plan,
    used: Used,
) -> Room
    requires { Planned plan mw.now mm.now × AllGood (plan_steps plan mw.now mm.now) }
    ensures { let d = store_in heads.now states.now trs.now used in
        RoomTells (weigh_of d (plan_steps plan mw.now mm.now)) result }
{
    let noted = count_class(
        mw,
        mm,
        heads,
        states,
        Counting {
            plan,
            used,
            classes: 1,
            class: 0,
        },
    );
    if spare(tr_room(trs), used.trs) < noted.moves {
        return Room::Lacks;
    }
    let left = spare(state_room(states), used.states);
    count_all(mw, mm, heads, states, plan, used, left, noted)
}
