// The list of a state as stored: its first record, along the links; its records as a part of the lent slice.
#![tactic(auto)]

ghost use Rattle.std.specs.Prelude.{◌≡◌, List, ℕ, ◌+◌, ◌*◌, length};
ghost use Rattle.lists.specs.Lists.{linked};
ghost use Rattle.calls.specs.Store.{tr_next_at, part_at};
ghost use Rattle.calls.specs.Calls.{words_of_part, place_of};
ghost use Rattle.store_records.specs.Meaning.{stored};
ghost use Rattle.tr_lists.specs.Meaning.{part_means};

use fst::StateId;
use store_records::{TR_SIZE, first_of, tr_next};

// The first record and the number of records of a state's list.
#[derive(Clone, Copy)]
pub struct Part {
    pub first: u32,
    pub count: u32,
}

// How many records there are along the links from `first`, at most `most`.
fn count_links(trs: &[u32], first: u32, most: u32) -> u32
    ensures { result ≡ length (linked (tr_next_at trs.now) most first) }
{
    let mut link = first;
    for count in 0..most {
        if link == 0 {
            return count;
        }
        link = tr_next(trs, link - 1);
    }
    most
}

// The list of state n as stored.
pub fn part_of(states: &[u32], trs: &[u32], used: u32, n: StateId) -> Part
    ensures { (heads : List ℕ) (u : ℕ) → part_means result ≡ part_at (stored heads states.now trs.now u used) n.0 }
{
    let first = first_of(states, n);
    Part {
        first,
        count: count_links(trs, first, used),
    }
}

// The records of a list as a part of the lent slice, cut where the slice ends.
pub fn tr_part<'a>(trs: &'a [u32], part: Part) -> &'a [u32]
    ensures result_value { result.now ≡ words_of_part trs.now (part_means part) }
    ensures place { result.ref_ptr ≡ (trs.entry.ref_ptr.0, trs.entry.ref_ptr.1 + 4 * place_of trs.now (part_means part)) }
{
    let first = part.first as usize;
    let before = first.saturating_sub(1);
    let start = trs.len().min(TR_SIZE * before);
    let end = trs.len().min(start + TR_SIZE * part.count as usize);
    &trs[start..end]
}
