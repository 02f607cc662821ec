// A set of triples in lent arrays: a table of states of its own, each triple taken in once, and a mark for each that is held.
#![tactic(auto)]

ghost use Rattle.std.specs.Prelude.{◌≡◌};
ghost use Rattle.compose_state_tuple.specs.Meaning.{tuple_means};
ghost use Rattle.triple_set.specs.Sets.{set_of, taken_means, take_of, mark_of};

use compose_state_tuple::ComposeStateTuple;
use fst::word;
use state_table::{add_state, find_id};
use store_records::{state_room, store};

// The words of the records of a set that holds 2048 triples.
pub const SET_WORDS: usize = 12288;

// The heads of their chains: a prime number, so that triples on a line do not share a few of them.
pub const SET_HEADS: usize = 2039;

// How many triples are held after one was offered; full: there was no room for it.
#[derive(Clone, Copy)]
pub struct Taken {
    pub full: bool,
    pub held: u32,
}

// A triple that is wanted and not yet held is taken in, where there is room.
pub fn take(
    heads: &mut [u32],
    records: &mut [u32],
    held: u32,
    wanted: bool,
    tuple: ComposeStateTuple,
) -> Taken
    ensures { taken_means result heads.new records.new ≡ take_of wanted (set_of heads.old records.old held) (tuple_means tuple) }
{
    if !wanted || find_id(heads, records, held, tuple).is_some() {
        return Taken { full: false, held };
    }
    if state_room(records) <= held {
        return Taken { full: true, held };
    }
    add_state(heads, records, held, tuple);
    Taken {
        full: false,
        held: held + 1,
    }
}

// 1 where the triple is held and was not marked yet: then it is marked.
pub fn mark(
    heads: &[u32],
    records: &[u32],
    held: u32,
    marks: &mut [u32],
    tuple: ComposeStateTuple,
) -> u32
    ensures { (result, marks.new) ≡ mark_of (set_of heads.now records.now held) marks.old (tuple_means tuple) }
{
    let Some(n) = find_id(heads, records, held, tuple) else {
        return 0;
    };
    let at = n.0 as usize;
    if word(marks, at) != 0 {
        return 0;
    }
    store(marks, at, 1);
    1
}
