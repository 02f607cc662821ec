// What the search keeps in the work words: word 2 i holds a cursor of the path, an open state and a status, word 2 i + 1 a place among the open states and a frame's bound.
#![tactic(auto)]

ghost use Rattle.std.specs.Prelude.{◌≡◌, ◌-◌, ◌<◌};
ghost use Rattle.searches.specs.UsefulSearch.{merged_to, settled_of, opened_of, entered_of};

use work_words::{middle_of, set_high, set_low, set_middle};

// The open states from one place up to another get the status v.
pub fn settle_open(work: &mut [u64], from: u32, to: u32, v: u32)
    requires { v < 65536 }
    ensures { work.new ≡ settled_of work.old v from (to - from) }
{
    for p in from..to {
        let s = middle_of(work, 2 * (p as usize));
        set_high(work, 2 * (s as usize), v);
    }
}

// The frames up to the one that holds the place.
pub fn merge_frames(work: &[u64], b: u32, place: u32) -> u32
    ensures { result ≡ merged_to work.now place b }
{
    for f in (0..b).rev() {
        if middle_of(work, 2 * (f as usize) + 1) <= place {
            return f + 1;
        }
    }
    0
}

// State t is open, at place o and in frame b.
#[tactic(auto, unfolding(searches::specs::UsefulSearch::opened_of))]
pub fn open_state(work: &mut [u64], t: u32, o: u32, b: u32)
    ensures { work.new ≡ opened_of work.old t o b }
{
    let i = 2 * (t as usize);
    set_middle(work, 2 * (o as usize), t);
    set_high(work, i, 1);
    set_low(work, i + 1, o);
    set_middle(work, 2 * (b as usize) + 1, o);
}

// The same where record r led to it, from depth d.
#[tactic(auto, unfolding(searches::specs::UsefulSearch::entered_of))]
pub fn enter_state(work: &mut [u64], d: u32, r: u32, t: u32, o: u32, b: u32)
    ensures { work.new ≡ entered_of work.old d r t o b }
{
    set_low(work, 2 * (d as usize), r);
    open_state(work, t, o, b);
}
