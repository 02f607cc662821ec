// The form of state records. What is used fits, so each word that is read lies within the slice, and its place is not tested.
ghost use Rattle.std.specs.Prelude.{◌≡◌, cond, ◌&&◌, List, ℕ, ◌+◌, ◌*◌, ◌≤◌, eqb, leb, length};
ghost use Rattle.lists.specs.Lists.{every, interval};
ghost use Rattle.calls.specs.Store.{state_size, room_of, next_at};
ghost use Rattle.calls.specs.Forms.{triple_ok, expanded_ok, state_form_ok};
ghost use Rattle.store_records.specs.Meaning.{stored};

use store_records::{
    STATE_EXPANDED, STATE_F, STATE_FIRST, STATE_NEXT, STATE_S1, STATE_S2, STATE_SIZE, Used,
};

// The record of state n: the pair in range, f at most 2.
#[tactic(auto, unfolding(calls::specs::Forms::triple_ok_with, calls::specs::Store::triple_at, calls::specs::Store::field_of))]
fn tuple_ok(states: &[u32], n: u32, s1: u32, s2: u32) -> bool
    requires { state_size * n + state_size ≤ length states.now }
    ensures { result ≡ triple_ok s1 s2 states.now n }
{
    let at = STATE_SIZE * (n as usize);
    states[at + STATE_S1] < s1 && states[at + STATE_S2] < s2 && states[at + STATE_F] <= 2
}

// The triples of the first `count` records. Left at the first bad one.
fn tuples_ok(states: &[u32], count: u32, s1: u32, s2: u32) -> bool
    requires { state_size * count ≤ length states.now }
    ensures { result ≡ every (triple_ok s1 s2 states.now) (interval 0 count) }
{
    for n in 0..count {
        if !tuple_ok(states, n, s1, s2) {
            return false;
        }
    }
    true
}

// The largest first that a state may have: 0 where it is not expanded, else the last used record.
fn most_first(expanded: u32, last: u32) -> u32
    ensures { result ≡ cond (eqb expanded 0) 0 last }
{
    if expanded == 0 { 0 } else { last }
}

// The record of state n: expanded 0 or 1, the first not too large, and the next below its own number. Its three tests are joined as values, with no jump.
#[tactic(auto, using(crate::proofs::FormLaws::expanded_test), unfolding(calls::specs::Forms::expanded_ok_with, calls::specs::Store::expanded_with, calls::specs::Store::first_with, calls::specs::Store::next_with, calls::specs::Store::field_of))]
fn links_fine(states: &[u32], n: u32, last: u32) -> bool
    requires { state_size * n + state_size ≤ length states.now }
    ensures { (heads trs : List ℕ) (u : ℕ) →
        let d = stored heads states.now trs u last in
        result ≡ (expanded_ok d n && leb (next_at states.now n) n) }
{
    let at = STATE_SIZE * (n as usize);
    let expanded = states[at + STATE_EXPANDED];
    let first = states[at + STATE_FIRST];
    (expanded <= 1) & (first <= most_first(expanded, last)) & (states[at + STATE_NEXT] <= n)
}

// The other words of the first `count` records. Each record is looked at, so that a compiler can take several at a time.
fn links_ok(states: &[u32], count: u32, last: u32) -> bool
    requires { state_size * count ≤ length states.now }
    ensures { (heads trs : List ℕ) (u : ℕ) →
        let d = stored heads states.now trs u last in
        result ≡ every (λ n. expanded_ok d n && leb (next_at states.now n) n) (interval 0 count) }
{
    let mut fine = true;
    for n in 0..count {
        fine &= links_fine(states, n, last);
    }
    fine
}

// All used state records.
#[tactic(auto, using(crate::proofs::RecordForms::states_both, calls::proofs::RecordLaws::room_words))]
pub fn states_ok(states: &[u32], used: Used, s1: u32, s2: u32) -> bool
    requires { used.states ≤ room_of state_size states.now }
    ensures { (heads trs : List ℕ) →
        let d = stored heads states.now trs used.states used.trs in
        result ≡ every (state_form_ok s1 s2 d) (interval 0 used.states) }
{
    tuples_ok(states, used.states, s1, s2) && links_ok(states, used.states, used.trs)
}
