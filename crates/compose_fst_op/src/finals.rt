// The final weight of a composed state (`compute_final_weight`).
ghost use Rattle.std.specs.Prelude.{◌≡◌, List, ℕ};
ghost use Rattle.words.specs.Weights.{kind_of, times as timesOf};
ghost use Rattle.words.specs.Steps.{unless_zero, final_at};
ghost use Rattle.fst.specs.Refusals.{checked_by};
ghost use Rattle.compose_state_tuple.specs.Meaning.{tuple_means};
ghost use Rattle.compose_fst_op.specs.Composing.{composition_for};

use crate::ComposeFstOpOptions;
use compose_state_tuple::ComposeStateTuple;
use fst::{Refusal, final_weight, is_final};
use semirings::{is_zero, times};

// The product of two final weights, or refusal 12. The kind's zero makes the composed state not final.
fn times_final(kind: u32, w1: u32, w2: u32) -> Result<Option<u32>, Refusal>
    ensures { checked_by (λ w. w) result ≡ unless_zero (kind_of kind) (timesOf (kind_of kind) w1 w2) }
{
    let w = times(kind, w1, w2).ok_or(Refusal::TooLarge)?;
    Ok(if is_zero(kind, w) { None } else { Some(w) })
}

// The final weight of a composed state; None: it is not final. It does not depend on the allowed lists, nor on the ignored labels.
#[tactic(auto, unfolding(words::specs::Steps::final_at))]
pub fn compute_final_weight(
    m1: &[u32],
    m2: &[u32],
    options: ComposeFstOpOptions,
    tuple: ComposeStateTuple,
) -> Result<Option<u32>, Refusal>
    ensures { (a1 a2 ignored : List ℕ) → checked_by (λ w. w) result ≡ final_at (composition_for options m1.now m2.now a1 a2 ignored) (tuple_means tuple) }
{
    if !is_final(m1, tuple.s1) || !is_final(m2, tuple.s2) {
        return Ok(None);
    }
    times_final(
        options.kind,
        final_weight(m1, tuple.s1),
        final_weight(m2, tuple.s2),
    )
}
