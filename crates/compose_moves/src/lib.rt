// The moves of a composed state, one at each asking (compose_fst_op.rs, `ordered_expand` and what it calls). A cursor keeps its composed state and places; no move is stored, and no memory is known here.
#![tactic(auto)]

mod moves;
mod walks;

ghost use Rattle.std.specs.Prelude.{◌≡◌, List, ℕ};
ghost use Rattle.words.specs.Labels.{no_label};
ghost use Rattle.words.specs.Steps.{steps_at};
ghost use Rattle.fst.specs.Meaning.{on_of, words_as_read, first_of_two, second_of_two};
ghost use Rattle.compose_state_tuple.specs.Meaning.{tuple_means};
ghost use Rattle.matchers.specs.Meaning.{sorted_items};
ghost use Rattle.matchers.specs.Cursors.{items_left};
ghost use Rattle.matchers.specs.Asking.{sorted_look_up, Holds};
ghost use Rattle.compose_fst_op.specs.Composing.{lent_of, composing};
ghost use Rattle.compose_moves.specs.Walks.{looked_state, looked_words, asked};
ghost use Rattle.compose_moves.specs.Cursors.{fixed_by, resumed, steps_left, moves_start_means, next_means, StaysPlaced, StartsPlaced};

use compose_filters::{Facts, facts_at};
use compose_fst_op::{ComposeFstOpOptions, sigmas_of};
use compose_state_tuple::ComposeStateTuple;
use fst::{Machines, MatchType, NO_LABEL, Refusal};
use match_input::direction_at;
use matchers::{Cursor, Sigma, sorted_iter};
pub use moves::ComposeTr;
use moves::Walk;
use walks::{Along, ordered_expand};

// How far the moves of a composed state are given.
#[derive(Clone, Copy)]
pub struct MoveCursor {
    pub tuple: ComposeStateTuple,
    // What the filter sees there.
    pub facts: Facts,
    // The direction: MatchInput walks machine 1 and looks up in machine 2, MatchOutput the other way round.
    pub on: MatchType,
    // The transition record that is walked; 0: the walked machine rests.
    pub walked: u32,
    // Its matches in the other machine.
    pub matches: Cursor,
}

// The next composed transition, with the cursor to ask on with; None: the end.
pub type NextStep = Result<Option<(ComposeTr, MoveCursor)>, Refusal>;

// The matches of a walked machine that rests: the epsilon transitions of the other.
#[tactic(auto, using(matchers::proofs::Held::first_holds))]
fn rest_matches(two: Machines<'_>, on: MatchType, tuple: ComposeStateTuple) -> Cursor
    ensures result_value { let words1 = words_as_read (first_of_two two.entry) in
        let words2 = words_as_read (second_of_two two.entry) in
        let words = looked_words (on_of on) words1 words2 in
        items_left words result ≡ sorted_items (on_of on) words (looked_state (on_of on) (tuple_means tuple)) no_label }
    ensures place { let words1 = words_as_read (first_of_two two.entry) in
        let words2 = words_as_read (second_of_two two.entry) in
        Holds (looked_words (on_of on) words1 words2) (looked_state (on_of on) (tuple_means tuple)) (sorted_look_up (on_of on) two.entry.sigmas no_label) result }
{
    match on {
        MatchType::MatchInput => sorted_iter(two.second(), tuple.s2, NO_LABEL),
        MatchType::MatchOutput => sorted_iter(two.first(), tuple.s1, NO_LABEL),
    }
}

// The cursor before the first move of a composed state, or refusal 10. It does not depend on the allowed lists.
pub fn moves_start(
    m1: &[u32],
    m2: &[u32],
    ignored: &[u32],
    options: ComposeFstOpOptions,
    tuple: ComposeStateTuple,
) -> Result<MoveCursor, Refusal>
    ensures by_index { (a1 a2 : List ℕ) →
        let l = lent_of options m1.now m2.now a1 a2 ignored.now in
        let c = composing options m1.now m2.now a1 a2 ignored.now in
        moves_start_means options l result ≡ steps_at c (tuple_means tuple) }
    ensures place { (a1 a2 : List ℕ) →
        let l = lent_of options m1.now m2.now a1 a2 ignored.now in
        StartsPlaced options l tuple result }
{
    let two = Machines {
        m1,
        m2,
        sigmas: sigmas_of(options),
        ignored,
    };
    let on = direction_at(options.side, two, tuple.s1, tuple.s2)?;
    Ok(MoveCursor {
        tuple,
        facts: facts_at(two, tuple.s1, tuple.s2),
        on,
        walked: 0,
        matches: rest_matches(two, on, tuple),
    })
}

// What stays the same while a cursor goes on, with the sigma settings of the machine that is looked up.
fn walk_of(options: ComposeFstOpOptions, sigma: Sigma, cursor: MoveCursor) -> Walk
    ensures { result ≡ fixed_by options sigma cursor }
{
    Walk {
        kind: options.kind,
        filter: options.filter,
        facts: cursor.facts,
        tuple: cursor.tuple,
        on: cursor.on,
        sigma,
        labels: sigmas_of(options),
    }
}

// The answer of a walk with the cursor to go on with.
fn resume(cursor: MoveCursor, along: Along) -> NextStep
    ensures { result ≡ resumed cursor along }
{
    Ok(along?.map(|(tr, walked, matches)| {
        let onward = MoveCursor {
            walked,
            matches,
            ..cursor
        };
        (tr, onward)
    }))
}

// The next composed transition of a state; 11 where a walked label is sigma, 12 where the weight of a kept move is too large. Dropped moves are passed over. Asked on with the cursor that
// it answers, it gives the state's transitions in their order, and then the end ever after.
pub fn next_step(
    m1: &[u32],
    m2: &[u32],
    a1: &[u32],
    a2: &[u32],
    ignored: &[u32],
    options: ComposeFstOpOptions,
    cursor: MoveCursor,
) -> NextStep
    ensures result_value { let l = lent_of options m1.now m2.now a1.now a2.now ignored.now in
        next_means options l result ≡ asked (steps_left options l cursor) }
    ensures place { let l = lent_of options m1.now m2.now a1.now a2.now ignored.now in
        StaysPlaced options l cursor result }
{
    match cursor.on {
        MatchType::MatchInput => {
            let walk = walk_of(options, options.sigma2, cursor);
            let along = ordered_expand(m1, m2, a2, ignored, walk, cursor.walked, cursor.matches);
            resume(cursor, along)
        }
        MatchType::MatchOutput => {
            let walk = walk_of(options, options.sigma1, cursor);
            let along = ordered_expand(m2, m1, a1, ignored, walk, cursor.walked, cursor.matches);
            resume(cursor, along)
        }
    }
}
