// State records: s1, s2, f, expanded, first transition, next. Their places stand here alone.
ghost use Rattle.std.specs.Prelude.{◌≡◌, List, ℕ, ◌*◌, ◌≤◌, ◌<◌, eqb, length};
ghost use Rattle.lists.specs.Lists.{put};
ghost use Rattle.calls.specs.Store.{room_of, state_size, state_field, triple_at, expanded_at, first_at, next_at, same_triple, state_record, mark};
ghost use Rattle.compose_state_tuple.specs.Meaning.{tuple_means};
ghost use Rattle.store_records.specs.Meaning.{stored};

use crate::lent::{least, store};
use compose_state_tuple::ComposeStateTuple;
use fst::{LIMIT, StateId, word};

// The words of a state record, and the place of each.
pub const STATE_SIZE: usize = 6;

pub const STATE_S1: usize = 0;

pub const STATE_S2: usize = 1;

pub const STATE_F: usize = 2;

pub const STATE_EXPANDED: usize = 3;

pub const STATE_FIRST: usize = 4;

pub const STATE_NEXT: usize = 5;

// How many state records there is room for.
pub fn state_room(states: &[u32]) -> u32
    ensures { result ≡ room_of state_size states.now }
{
    least(LIMIT as usize, states.len() / STATE_SIZE) as u32
}

// Word k of the record of state n.
fn state_word(states: &[u32], n: StateId, k: usize) -> u32
    requires { k < state_size }
    ensures { result ≡ state_field states.now n.0 k }
{
    word(states, STATE_SIZE * (n.0 as usize) + k)
}

pub fn get_tuple(states: &[u32], n: StateId) -> ComposeStateTuple
    ensures { tuple_means result ≡ triple_at states.now n.0 }
{
    ComposeStateTuple {
        fs: state_word(states, n, STATE_F),
        s1: StateId(state_word(states, n, STATE_S1)),
        s2: StateId(state_word(states, n, STATE_S2)),
    }
}

pub fn expanded_word(states: &[u32], n: StateId) -> u32
    ensures { result ≡ expanded_at states.now n.0 }
{
    state_word(states, n, STATE_EXPANDED)
}

pub fn is_expanded(states: &[u32], n: StateId) -> bool
    ensures { result ≡ eqb (expanded_at states.now n.0) 1 }
{
    expanded_word(states, n) == 1
}

// The first transition record of the state's list; 0: none.
pub fn first_of(states: &[u32], n: StateId) -> u32
    ensures { result ≡ first_at states.now n.0 }
{
    state_word(states, n, STATE_FIRST)
}

// The record after it in its chain; 0: none.
pub fn next_of(states: &[u32], n: StateId) -> u32
    ensures { result ≡ next_at states.now n.0 }
{
    state_word(states, n, STATE_NEXT)
}

// Word k of the record of state n, where there is room for the record: nothing is tested.
fn word_in(states: &[u32], n: StateId, k: usize) -> u32
    requires { (n.0 < room_of state_size states.now) × (k < state_size) }
    ensures { result ≡ state_field states.now n.0 k }
{
    states[STATE_SIZE * (n.0 as usize) + k]
}

// Whether state n has the triple, where there is room for its record. A word is read only where those before it are the same.
#[tactic(auto, unfolding(words::specs::Steps::same_triple, calls::specs::Store::triple_at))]
pub fn holds_tuple(states: &[u32], n: StateId, tuple: ComposeStateTuple) -> bool
    requires { n.0 < room_of state_size states.now }
    ensures { result ≡ same_triple (triple_at states.now n.0) (tuple_means tuple) }
{
    word_in(states, n, STATE_S1) == tuple.s1.0
        && word_in(states, n, STATE_S2) == tuple.s2.0
        && word_in(states, n, STATE_F) == tuple.fs
}

// The record after it in its chain, where there is room for its own; 0: none.
pub fn next_in(states: &[u32], n: StateId) -> u32
    requires { n.0 < room_of state_size states.now }
    ensures { result ≡ next_at states.now n.0 }
{
    word_in(states, n, STATE_NEXT)
}

// The record of a state just found, at the front of a lent tail.
fn write_state(tail: &mut [u32], tuple: ComposeStateTuple, next: u32)
    requires { state_size ≤ length tail.old }
    ensures { tail.new ≡ put tail.old 0 (state_record (tuple_means tuple) next) }
{
    tail[STATE_S1] = tuple.s1.0;
    tail[STATE_S2] = tuple.s2.0;
    tail[STATE_F] = tuple.fs;
    tail[STATE_EXPANDED] = 0;
    tail[STATE_FIRST] = 0;
    tail[STATE_NEXT] = next;
}

// The same in the first unused record.
pub fn push_state(states: &mut [u32], used: u32, tuple: ComposeStateTuple, next: u32)
    requires { used < room_of state_size states.old }
    ensures { states.new ≡ put states.old (state_size * used) (state_record (tuple_means tuple) next) }
{
    let at = STATE_SIZE * used as usize;
    write_state(&mut states[at..], tuple, next);
}

// State n is expanded, and its list begins with record `first`.
pub fn mark_expanded(states: &mut [u32], n: StateId, first: u32)
    ensures { (heads trs : List ℕ) (u k : ℕ) →
        stored heads states.new trs u k ≡ mark (stored heads states.old trs u k) n.0 first }
{
    let at = STATE_SIZE * (n.0 as usize);
    store(states, at + STATE_EXPANDED, 1);
    store(states, at + STATE_FIRST, first);
}
