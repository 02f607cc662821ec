// The whole search: its start, then step after step until it is done.
#![tactic(auto)]

ghost use Rattle.std.specs.Prelude.{◌≡◌, List, ℕ, ◌≤◌};
ghost use Rattle.words.specs.Machines.{limit};
ghost use Rattle.store_records.specs.Meaning.{stored, store_in};
ghost use Rattle.searches.specs.UsefulSearch.{start_of, run_of};
ghost use Rattle.searches.specs.StoreLinks.{links_of, turns_for};
ghost use Rattle.useful_steps.specs.Meaning.{found_means};

use store_records::Used;
use useful_steps::{Found, start, step};

// Steps until the search is done, at most so many.
fn run(states: &[u32], trs: &[u32], used: u32, work: &mut [u64], from: Found, most: u64) -> Found
    ensures { (heads : List ℕ) (u : ℕ) →
        let L = links_of (stored heads states.now trs.now u used) in
        found_means result work.new ≡ run_of L most (found_means from work.old) }
{
    let mut f = from;
    for _ in 0..most {
        if f.done {
            return f;
        }
        f = step(states, trs, used, work, f.at);
    }
    f
}

// The whole search. A state's status is 0 before, or 4 where it is final; afterwards it is 2 where the state lies on a path from state 0 to a final state.
pub fn find_useful(states: &[u32], trs: &[u32], used: Used, work: &mut [u64])
    requires { (used.states ≤ limit) × (used.trs ≤ limit) }
    ensures { (heads : List ℕ) →
        let d = store_in heads states.now trs.now used in
        work.new ≡ (run_of (links_of d) (turns_for d) (start_of (links_of d) work.old)).work }
{
    let from = start(states, used.trs, work);
    let most = (used.states as u64 + 1) * (used.trs as u64 + 2);
    run(states, trs, used.trs, work, from, most);
}
