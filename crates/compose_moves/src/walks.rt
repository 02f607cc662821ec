// The walk along one machine's list, looked up in the other: mw are the words of the machine that is walked, mm those of the other, am its allowed list; ignored are the labels that
// count as 0 on both inner sides.
ghost use Rattle.std.specs.Prelude.{◌≡◌, ℕ};
ghost use mathlib.Core.List.{List, Memᴰ as In};
ghost use Rattle.words.specs.Machines.{list_of};
ghost use Rattle.fst.specs.Meaning.{on_of, words_as_read};
ghost use Rattle.compose_state_tuple.specs.Meaning.{tuple_means};
ghost use Rattle.matchers.specs.Meaning.{match_means};
ghost use Rattle.compose_moves.specs.Walks.{walk_means, walked_state, looked_state, walked_side, edge_item, edge_after, walk_left, from_tr, asked, ends, along_means, edge_answer, Placed, PlacedBy};

use crate::moves::{ComposeTr, Walk, pair_step};
use compose_state_tuple::ComposeStateTuple;
use fst::{MatchType, Matched, Refusal, StateId, first_tr, get_tr, inner_label, next_tr};
use matchers::{Cursor, IterItemMatcher, ask, sigma_iter};

// The next composed transition, with the walked record and the matches left of it; None: the end.
pub type Along = Result<Option<(ComposeTr, u32, Cursor)>, Refusal>;

// The walked edge as a match, of a machine that is matched on a side; 0: the machine rests.
#[tactic(auto, using(crate::proofs::Edges::edge_taken))]
fn edge_item(walked: Matched<'_>, t: u32) -> IterItemMatcher
    ensures { match_means result ≡ edge_item (words_as_read walked.entry) t }
{
    if t == 0 {
        return IterItemMatcher::EpsLoop;
    }
    IterItemMatcher::Tr(get_tr(walked, t))
}

fn walked_state(on: MatchType, tuple: ComposeStateTuple) -> StateId
    ensures { result.0 ≡ walked_state (on_of on) (tuple_means tuple) }
{
    match on {
        MatchType::MatchInput => tuple.s1,
        MatchType::MatchOutput => tuple.s2,
    }
}

fn looked_state(on: MatchType, tuple: ComposeStateTuple) -> StateId
    ensures { result.0 ≡ looked_state (on_of on) (tuple_means tuple) }
{
    match on {
        MatchType::MatchInput => tuple.s2,
        MatchType::MatchOutput => tuple.s1,
    }
}

// The inner side of the machine that is walked: machine 1 is matched on outputs, 2 on inputs.
fn walked_side(on: MatchType) -> MatchType
    ensures { on_of result ≡ walked_side (on_of on) }
{
    match on {
        MatchType::MatchInput => MatchType::MatchOutput,
        MatchType::MatchOutput => MatchType::MatchInput,
    }
}

// The walked edge after t: first the rest, then along the list; 0: none.
#[tactic(auto, using(crate::proofs::Edges::after_taken))]
fn edge_after(mw: &[u32], s: StateId, t: u32) -> u32
    ensures { result ≡ edge_after mw.now s.0 t }
{
    if t == 0 {
        return first_tr(mw, s);
    }
    next_tr(mw, t)
}

// The next transition that the walked edge t makes with the matches left of it; None: it makes no more.
fn match_tr_selected(
    mw: &[u32],
    mm: &[u32],
    ignored: &[u32],
    walk: Walk,
    t: u32,
    matches: Cursor,
) -> Along
    ensures by_index { (am : List ℕ) →
        let w = walk_means walk mw.now mm.now am ignored.now in
        edge_answer w t result ≡ asked (walk_left w t matches) }
    ensures place { (am : List ℕ) →
        let w = walk_means walk mw.now mm.now am ignored.now in
        Placed w t matches → PlacedBy w result }
{
    let walked = Matched {
        words: mw,
        on: walked_side(walk.on),
        sigmas: walk.labels,
        ignored,
    };
    let edge = edge_item(walked, t);
    let mut left = matches;
    while let (Some(found), rest) = ask(mm, left, ignored) {
        if let Some(tr) = pair_step(walk, edge, found)? {
            return Ok(Some((tr, t, rest)));
        }
        left = rest;
    }
    Ok(None)
}

// The same for transition t of the walked list, with all its matches, or refusal 11.
fn match_tr(mw: &[u32], mm: &[u32], am: &[u32], ignored: &[u32], walk: Walk, t: u32) -> Along
    ensures result_value { let w = walk_means walk mw.now mm.now am.now ignored.now in
        edge_answer w t result ≡ asked (from_tr w t) }
    ensures place { let w = walk_means walk mw.now mm.now am.now ignored.now in
        In t (list_of mw.now (walked_state (on_of walk.on) (tuple_means walk.tuple))) → PlacedBy w result }
{
    let looked = Matched {
        words: mm,
        on: walk.on,
        sigmas: walk.labels,
        ignored,
    };
    let walked = Matched {
        words: mw,
        on: walked_side(walk.on),
        ..looked
    };
    let label = inner_label(walked, t);
    let s = looked_state(walk.on, walk.tuple);
    let matches = sigma_iter(looked, walk.sigma, am, s, label)?;
    match_tr_selected(mw, mm, ignored, walk, t, matches)
}

// The next transition of the walk where edge `walked` has these matches left; None: the list is at its end.
pub fn ordered_expand(
    mw: &[u32],
    mm: &[u32],
    am: &[u32],
    ignored: &[u32],
    walk: Walk,
    walked: u32,
    matches: Cursor,
) -> Along
    ensures result_value { let w = walk_means walk mw.now mm.now am.now ignored.now in
        along_means w ends result ≡ asked (walk_left w walked matches) }
    ensures place { let w = walk_means walk mw.now mm.now am.now ignored.now in
        Placed w walked matches → PlacedBy w result }
{
    let mut along = match_tr_selected(mw, mm, ignored, walk, walked, matches)?;
    let mut t = edge_after(mw, walked_state(walk.on, walk.tuple), walked);
    while along.is_none() && t != 0 {
        along = match_tr(mw, mm, am, ignored, walk, t)?;
        t = next_tr(mw, t);
    }
    Ok(along)
}
