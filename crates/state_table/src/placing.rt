// The state of a triple, found or new, in memory whose chains are known to stay within the used records: the place of its head is computed once, and along the chain nothing is tested.
ghost use Rattle.std.specs.Prelude.{◌≡◌, List, ℕ, ◌≤◌, ◌<◌, None};
ghost use Rattle.lists.specs.Lists.{first, linked};
ghost use Rattle.calls.specs.Store.{room_of, state_size, triple_at, next_at, same_triple, find};
ghost use Rattle.stored_steps.specs.Storing.{place};
ghost use Rattle.stored_steps.specs.Chains.{Chained};
ghost use Rattle.compose_state_tuple.specs.Meaning.{tuple_means};
ghost use Rattle.store_records.specs.Meaning.{stored};
ghost use Rattle.state_table.specs.Meaning.{link_means, placed_by};

use crate::slot;
use compose_state_tuple::ComposeStateTuple;
use fst::{StateId, word};
use store_records::{holds_tuple, next_in, push_state, store};

// The link to the first state with the triple along the chain from a link; 0: none. Each link leads to a record with a lower one.
fn link_along(states: &[u32], from: u32, tuple: ComposeStateTuple) -> u32
    requires { (from ≤ room_of state_size states.now) × ((n : ℕ) → n < from → next_at states.now n ≤ n) }
    ensures { link_means result ≡ first (λ n. same_triple (triple_at states.now n) (tuple_means tuple)) (linked (next_at states.now) from from) }
{
    let mut link = from;
    while link != 0 {
        let n = StateId(link - 1);
        if holds_tuple(states, n, tuple) {
            return link;
        }
        link = next_in(states, n);
    }
    0
}

// The link to the state with the triple; 0: there was none, and it is the state just added.
pub fn find_or_add(
    heads: &mut [u32],
    states: &mut [u32],
    used: u32,
    tuple: ComposeStateTuple,
) -> u32
    requires { (trs : List ℕ) (k : ℕ) →
        let d = stored heads.old states.old trs used k in
        Chained d × (find d (tuple_means tuple) ≡ None → used < room_of state_size states.old) }
    ensures { (trs : List ℕ) (k : ℕ) →
        let d = stored heads.old states.old trs used k in
        placed_by heads.new states.new trs used k result ≡ place d (tuple_means tuple) }
{
    let at = slot(heads, tuple);
    let head = word(heads, at);
    let link = link_along(states, head, tuple);
    if link != 0 {
        return link;
    }
    push_state(states, used, tuple, head);
    store(heads, at, used + 1);
    0
}
