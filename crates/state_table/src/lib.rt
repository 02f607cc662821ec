// The table of states (state_table.rs): chains of state records, each from a head of its own, newest first.
#![tactic(auto)]

mod placing;

ghost use Rattle.std.specs.Prelude.{◌≡◌, List, map, ℕ, ◌+◌, ◌<◌};
ghost use Rattle.lists.specs.Lists.{first, linked};
ghost use Rattle.calls.specs.Store.{room_of, state_size, triple_at, next_at, slot as slot_of, same_triple, find, add};
ghost use Rattle.compose_state_tuple.specs.Meaning.{tuple_means};
ghost use Rattle.store_records.specs.Meaning.{stored};
ghost use Rattle.fst.specs.Meaning.{number_if};

use compose_state_tuple::{ComposeStateTuple, same_tuple};
use fst::{StateId, word};
pub use placing::find_or_add;
use store_records::{get_tuple, next_of, push_state, store};

// The state of a triple, and how many states are used with it.
#[derive(Clone, Copy)]
pub struct Reached {
    pub state: StateId,
    pub used: u32,
}

// The place of the head at which the chain of a triple starts. Without heads nothing stands at any place.
fn slot(heads: &[u32], tuple: ComposeStateTuple) -> usize
    ensures { result ≡ slot_of heads.now (tuple_means tuple) }
{
    let sum = tuple.s1.0 as usize + 31 * (tuple.s2.0 as usize) + tuple.fs as usize;
    if heads.len() == 0 {
        return sum;
    }
    sum % heads.len()
}

// Whether state n has the triple.
fn has_tuple(states: &[u32], n: StateId, tuple: ComposeStateTuple) -> bool
    ensures { result ≡ same_triple (triple_at states.now n.0) (tuple_means tuple) }
{
    same_tuple(get_tuple(states, n), tuple)
}

// The first state with the triple along the chain from a link, within `most` steps.
fn find_along(states: &[u32], from: u32, most: u32, tuple: ComposeStateTuple) -> Option<StateId>
    ensures { number_if result ≡ first (λ n. same_triple (triple_at states.now n) (tuple_means tuple)) (linked (next_at states.now) most from) }
{
    let mut link = from;
    for _ in 0..most {
        if link == 0 {
            return None;
        }
        let n = StateId(link - 1);
        if has_tuple(states, n, tuple) {
            return Some(n);
        }
        link = next_of(states, n);
    }
    None
}

// The number of a triple, on any memory.
pub fn find_id(
    heads: &[u32],
    states: &[u32],
    used: u32,
    tuple: ComposeStateTuple,
) -> Option<StateId>
    ensures { (trs : List ℕ) (k : ℕ) → number_if result ≡ find (stored heads.now states.now trs used k) (tuple_means tuple) }
{
    let head = word(heads, slot(heads, tuple));
    find_along(states, head, used, tuple)
}

// A new state in the first unused record, at the head of its chain.
pub fn add_state(heads: &mut [u32], states: &mut [u32], used: u32, tuple: ComposeStateTuple)
    requires { used < room_of state_size states.old }
    ensures { (trs : List ℕ) (k : ℕ) →
        let d = stored heads.old states.old trs used k in
        stored heads.new states.new trs (used + 1) k ≡ add d (tuple_means tuple) }
{
    let at = slot(heads, tuple);
    let head = word(heads, at);
    push_state(states, used, tuple, head);
    store(heads, at, used + 1);
}

// Every head is 0: no chain has a state.
pub fn clear_heads(heads: &mut [u32])
    ensures { heads.new ≡ map (λ h. 0) heads.old }
{
    heads.fill(0);
}
