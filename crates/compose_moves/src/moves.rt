// One move: what the filter says of it, and the composed transition that it makes.
ghost use Rattle.std.specs.Prelude.{◌≡◌, Some};
ghost use Rattle.words.specs.Weights.{kind_of};
ghost use Rattle.fst.specs.Meaning.{on_of, tr_means};
ghost use Rattle.matchers.specs.Meaning.{match_means};
ghost use Rattle.compose_filters.specs.Meaning.{move_means};
ghost use Rattle.compose_moves.specs.Moves.{present_of, as_tr, row_of, step_if, steps_of, pair_steps, made_means};

use compose_filters::{Facts, MoveKind, filter_tr};
use compose_state_tuple::ComposeStateTuple;
use fst::{EPS_LABEL, Label, MatchType, Refusal, Sigmas, StateId, Tr};
use matchers::{IterItemMatcher, Sigma};
use semirings::{one, times};

// A composed transition. Its target is not numbered yet.
#[derive(Clone, Copy)]
pub struct ComposeTr {
    pub ilabel: Label,
    pub olabel: Label,
    pub weight: u32,
    pub tuple: ComposeStateTuple,
}

// What stays the same while the moves of a composed state are given.
#[derive(Clone, Copy)]
pub struct Walk {
    pub kind: u32,
    pub filter: u32,
    pub facts: Facts,
    pub tuple: ComposeStateTuple,
    // The side on which the machine that is looked up is matched.
    pub on: MatchType,
    // The sigma settings of that machine.
    pub sigma: Sigma,
    // The sigma labels of both machines: with the list of ignored labels they say which labels are replaced.
    pub labels: Sigmas,
}

// What a move makes: a transition, or none where the filter drops it.
pub type Made = Result<Option<ComposeTr>, Refusal>;

// A match as a transition: the resting machine supplies label 0, weight one and its own state.
fn into_tr(item: IterItemMatcher, kind: u32, s: StateId) -> Tr
    ensures { tr_means result ≡ as_tr (kind_of kind) s.0 (match_means item) }
{
    match item {
        IterItemMatcher::EpsLoop => Tr {
            ilabel: EPS_LABEL,
            olabel: EPS_LABEL,
            weight: one(kind),
            nextstate: s,
        },
        IterItemMatcher::Tr(tr) => tr,
    }
}

// The row of the filters' table, by machine 1's match and machine 2's. The label that it looks at is an inner one: `get_tr` has read it by `inner_label`.
fn move_kind(first: IterItemMatcher, second: IterItemMatcher) -> MoveKind
    ensures { move_means result ≡ row_of (match_means first) (match_means second) }
{
    match (first, second) {
        (_, IterItemMatcher::EpsLoop) => MoveKind::Lone1,
        (IterItemMatcher::EpsLoop, IterItemMatcher::Tr(_)) => MoveKind::Lone2,
        (IterItemMatcher::Tr(tr), IterItemMatcher::Tr(_)) => {
            if tr.olabel == EPS_LABEL {
                MoveKind::BothEpsilon
            } else {
                MoveKind::ALabel
            }
        }
    }
}

// The composed transition of a kept move, or refusal 12.
fn add_tr(kind: u32, tr1: Tr, tr2: Tr, fs: u32) -> Made
    ensures { made_means result ≡ step_if (kind_of kind) (tr_means tr1) (tr_means tr2) (Some fs) }
{
    let weight = times(kind, tr1.weight, tr2.weight).ok_or(Refusal::TooLarge)?;
    Ok(Some(ComposeTr {
        ilabel: tr1.ilabel,
        olabel: tr2.olabel,
        weight,
        tuple: ComposeStateTuple {
            fs,
            s1: tr1.nextstate,
            s2: tr2.nextstate,
        },
    }))
}

// What machine 1's match and machine 2's make.
#[tactic(auto, unfolding(crate::specs::Moves::steps_of))]
fn step_of(walk: Walk, first: IterItemMatcher, second: IterItemMatcher) -> Made
    ensures { made_means result ≡ steps_of (present_of walk) (match_means first) (match_means second) }
{
    let kind = move_kind(first, second);
    let Some(fs) = filter_tr(walk.filter, kind, walk.facts, walk.tuple.fs) else {
        return Ok(None);
    };
    let tr1 = into_tr(first, walk.kind, walk.tuple.s1);
    let tr2 = into_tr(second, walk.kind, walk.tuple.s2);
    add_tr(walk.kind, tr1, tr2, fs)
}

// What a walked edge and its match make: direction input walks machine 1, direction output machine 2.
pub fn pair_step(walk: Walk, edge: IterItemMatcher, found: IterItemMatcher) -> Made
    ensures { made_means result ≡ pair_steps (on_of walk.on) (present_of walk) (match_means edge) (match_means found) }
{
    match walk.on {
        MatchType::MatchInput => step_of(walk, edge, found),
        MatchType::MatchOutput => step_of(walk, found, edge),
    }
}
