// Transition records: input, output, weight, target, next. They count from 1: record i + 1 stands at place i.
ghost use Rattle.std.specs.Prelude.{◌≡◌, List, ℕ, ◌+◌, ◌/◌, ◌≤◌, ◌<◌, length};
ghost use Rattle.lists.specs.Lists.{put};
ghost use Rattle.words.specs.Steps.{Triple};
ghost use Rattle.calls.specs.Store.{room_of, tr_size, tr_next_at, tr_at, tr_record, append};
ghost use Rattle.fst.specs.Meaning.{tr_means};
ghost use Rattle.store_records.specs.Meaning.{step_means, stored};

use crate::lent::least;
use fst::{LIMIT, Label, StateId, Tr, word};

// The words of a transition record, and the place of each.
pub const TR_SIZE: usize = 5;

pub const TR_INPUT: usize = 0;

pub const TR_OUTPUT: usize = 1;

pub const TR_WEIGHT: usize = 2;

pub const TR_TARGET: usize = 3;

pub const TR_NEXT: usize = 4;

// How many transition records there is room for.
pub fn tr_room(trs: &[u32]) -> u32
    ensures { result ≡ room_of tr_size trs.now }
{
    least(LIMIT as usize, trs.len() / TR_SIZE) as u32
}

// The record after the one at place i in its list; 0: none.
pub fn tr_next(trs: &[u32], i: u32) -> u32
    ensures { result ≡ tr_next_at trs.now i }
{
    word(trs, TR_SIZE * (i as usize) + TR_NEXT)
}

// The transition that the record at place i holds.
pub fn stored_tr(trs: &[u32], i: usize) -> Tr
    requires { i < length trs.now / tr_size }
    ensures { tr_means result ≡ tr_at trs.now i }
{
    let at = TR_SIZE * i;
    Tr {
        ilabel: Label(word(trs, at + TR_INPUT)),
        olabel: Label(word(trs, at + TR_OUTPUT)),
        weight: word(trs, at + TR_WEIGHT),
        nextstate: StateId(word(trs, at + TR_TARGET)),
    }
}

// One transition record, at the front of a lent tail.
fn write_tr(tail: &mut [u32], tr: Tr, next: u32)
    requires { tr_size ≤ length tail.old }
    ensures { (to : Triple) → tail.new ≡ put tail.old 0 (tr_record (step_means tr to) tr.nextstate.0 next) }
{
    tail[TR_INPUT] = tr.ilabel.0;
    tail[TR_OUTPUT] = tr.olabel.0;
    tail[TR_WEIGHT] = tr.weight;
    tail[TR_TARGET] = tr.nextstate.0;
    tail[TR_NEXT] = next;
}

// A new transition in the first unused record: the tail from there on is lent.
pub fn push_tr(trs: &mut [u32], used: u32, tr: Tr, next: u32)
    requires { used < room_of tr_size trs.old }
    ensures { (heads states : List ℕ) (n : ℕ) (to : Triple) →
        let d = stored heads states trs.old n used in
        stored heads states trs.new n (used + 1) ≡ append d (step_means tr to) tr.nextstate.0 next }
{
    let at = TR_SIZE * used as usize;
    write_tr(&mut trs[at..], tr, next);
}
