// The links of a store as a search follows them. A link that breaks the form is read as 0, so that every list ends.
#![tactic(auto)]

ghost use Rattle.std.specs.Prelude.{◌≡◌, List, ℕ, ◌-◌};
ghost use Rattle.calls.specs.Store.{target_at};
ghost use Rattle.store_records.specs.Meaning.{stored};
ghost use Rattle.searches.specs.StoreLinks.{first_in, next_in};

use fst::{StateId, word};
use store_records::{TR_SIZE, TR_TARGET, first_of, tr_next};

// One less; 0 stays.
pub fn below(x: u32) -> u32
    ensures { result ≡ x - 1 }
{
    x.saturating_sub(1)
}

// The first record of state n's list; 0: none.
#[tactic(auto, unfolding(searches::specs::StoreLinks::first_in))]
pub fn first_record(states: &[u32], used: u32, n: u32) -> u32
    ensures { (heads trs : List ℕ) (u : ℕ) → result ≡ first_in (stored heads states.now trs u used) n }
{
    let first = first_of(states, StateId(n));
    if first <= used { first } else { 0 }
}

// The record after record r in its list; 0: none.
#[tactic(auto, unfolding(searches::specs::StoreLinks::next_in))]
pub fn next_record(trs: &[u32], used: u32, r: u32) -> u32
    ensures { (heads states : List ℕ) (u : ℕ) → result ≡ next_in (stored heads states trs.now u used) r }
{
    if r >= used || tr_next(trs, below(r)) == 0 {
        return 0;
    }
    r + 1
}

// The state that record r leads to.
#[tactic(auto, unfolding(calls::specs::Store::target_at, calls::specs::Store::field_of))]
pub fn target_record(trs: &[u32], r: u32) -> u32
    ensures { result ≡ target_at trs.now (r - 1) }
{
    word(trs, TR_SIZE * (below(r) as usize) + TR_TARGET)
}
