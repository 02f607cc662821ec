// Whether no refusal can stand at a composed state.
ghost use Rattle.std.specs.Prelude.{◌≡◌, List, ℕ, ◌+◌, leb};
ghost use Rattle.words.specs.Weights.{kind_of};
ghost use Rattle.fst.specs.Meaning.{on_of};
ghost use Rattle.store_records.specs.Meaning.{stored};
ghost use Rattle.compose_bounds.specs.Serving.{weights_fit};
ghost use Rattle.compose_fst_op.specs.Composing.{option_settings};
ghost use Rattle.compose_plan.specs.Serves.{no_sigma, most_moves, most_by, room_for, serves_of};

use compose_fst_op::ComposeFstOpOptions;
use fst::{MatchType, NO_LABEL};
use list_facts::ListFacts;
use store_records::{Used, state_room, tr_room};

const MAX: u64 = 4294967295;

// Neither machine has a sigma label.
pub fn no_sigma(options: ComposeFstOpOptions) -> bool
    ensures { result ≡ no_sigma (option_settings options) }
{
    options.sigma1.label == NO_LABEL && options.sigma2.label == NO_LABEL
}

// No product of a weight up to a and one up to b is too large.
pub fn weights_fit(kind: u32, a: u32, b: u32) -> bool
    ensures { result ≡ weights_fit (kind_of kind) a b }
{
    if kind == 0 {
        (a as u64) + (b as u64) < MAX
    } else {
        (a as u64) * (b as u64) <= MAX
    }
}

// The most moves that a walk can have.
fn most_moves(walked: ListFacts, looked: ListFacts) -> u64
    ensures { result ≡ most_moves walked looked }
{
    (looked.eps as u64) + (walked.len as u64) * ((looked.run as u64) + 1)
}

fn most_by(on: MatchType, facts1: ListFacts, facts2: ListFacts) -> u64
    ensures { result ≡ most_by (on_of on) facts1 facts2 }
{
    match on {
        MatchType::MatchInput => most_moves(facts1, facts2),
        MatchType::MatchOutput => most_moves(facts2, facts1),
    }
}

// Whether n records are left of so many.
fn left(room: u32, used: u32, n: u64) -> bool
    ensures { result ≡ leb (used + n) room }
{
    used <= room && n <= ((room - used) as u64)
}

// Whether there is a record of each sort for each of n moves.
#[tactic(auto, unfolding(crate::specs::Serves::room_for, calls::specs::Store::state_room_with, calls::specs::Store::tr_room_with))]
fn room_for(states: &[u32], trs: &[u32], used: Used, n: u64) -> bool
    ensures { (heads : List ℕ) → result ≡ room_for (stored heads states.now trs.now used.states used.trs) n }
{
    left(state_room(states), used.states, n) && left(tr_room(trs), used.trs, n)
}

// Whether the bounds shut out every refusal of an expansion in this direction.
#[tactic(auto, unfolding(crate::specs::Serves::serves_of))]
pub fn serves(
    states: &[u32],
    trs: &[u32],
    options: ComposeFstOpOptions,
    used: Used,
    on: MatchType,
    facts1: ListFacts,
    facts2: ListFacts,
) -> bool
    ensures { (heads : List ℕ) →
        let d = stored heads states.now trs.now used.states used.trs in
        result ≡ serves_of (option_settings options) (on_of on) d facts1 facts2 }
{
    no_sigma(options)
        && weights_fit(options.kind, facts1.most, facts2.most)
        && room_for(states, trs, used, most_by(on, facts1, facts2))
}
