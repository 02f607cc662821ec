// The direction at a pair of states (compose_fst_op.rs, `match_input`): which machine is walked, and which is looked up.
#![tactic(auto)]

ghost use Rattle.std.specs.Prelude.{◌≡◌, leb, length};
ghost use Rattle.words.specs.Machines.{list_of};
ghost use Rattle.words.specs.Sides.{both, direction_at};
ghost use Rattle.fst.specs.Meaning.{on_of, first_operand, second_operand};
ghost use Rattle.fst.specs.Refusals.{checked_by};
ghost use Rattle.match_type.specs.Chosen.{side_means};

use fst::{Machines, MatchType, Refusal, StateId, first_tr, next_tr};
use match_type::Side;
use matchers::has_sigma;

// Whether the list of s1 in machine 1 is at most as long as the list of s2 in machine 2. Both are walked together, up to the end of the shorter.
#[tactic(auto, unfolding(words::specs::Machines::list_of), using(words::proofs::ListLaws::list_turn, words::proofs::ListLaws::list_end_lem, words::proofs::ListLaws::link, words::proofs::ListLaws::first_inside))]
pub fn not_longer(m1: &[u32], s1: StateId, m2: &[u32], s2: StateId) -> bool
    ensures { result ≡ leb (length (list_of m1.now s1.0)) (length (list_of m2.now s2.0)) }
{
    let mut t1 = first_tr(m1, s1);
    let mut t2 = first_tr(m2, s2);
    while t1 != 0 {
        if t2 == 0 {
            return false;
        }
        t1 = next_tr(m1, t1);
        t2 = next_tr(m2, t2);
    }
    true
}

// By the states' sigma transitions, or refusal 10; where neither has one, by the lengths of their lists.
#[tactic(auto, unfolding(words::specs::Sides::direction_at), using(words::proofs::ReplacedLaws::read_list))]
fn by_states(two: Machines<'_>, s1: StateId, s2: StateId) -> Result<MatchType, Refusal>
    ensures { checked_by on_of result ≡ direction_at both (first_operand two.entry) (second_operand two.entry) s1.0 s2.0 }
{
    let sigma_at_1 = has_sigma(two.first(), two.sigmas.first, s1);
    let sigma_at_2 = has_sigma(two.second(), two.sigmas.second, s2);
    if sigma_at_1 && sigma_at_2 {
        return Err(Refusal::BothMatch);
    }
    if sigma_at_1 {
        return Ok(MatchType::MatchOutput);
    }
    if sigma_at_2 || not_longer(two.m1, s1, two.m2, s2) {
        Ok(MatchType::MatchInput)
    } else {
        Ok(MatchType::MatchOutput)
    }
}

// The direction at the states s1 and s2, or refusal 10. Machine 1 is matched on outputs, 2 on inputs; a sigma label NO_LABEL means none.
#[tactic(auto, unfolding(words::specs::Sides::direction_at))]
pub fn direction_at(
    side: Side,
    two: Machines<'_>,
    s1: StateId,
    s2: StateId,
) -> Result<MatchType, Refusal>
    ensures { checked_by on_of result ≡ direction_at (side_means side) (first_operand two.entry) (second_operand two.entry) s1.0 s2.0 }
{
    match side {
        Side::Only(on) => Ok(on),
        Side::Both => by_states(two, s1, s2),
    }
}
