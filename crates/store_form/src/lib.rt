// The form of lent memory, judged on whatever it holds, in time linear in the heads and the used records.
#![tactic(auto)]

mod state_form;
mod tr_form;

ghost use Rattle.std.specs.Prelude.{◌≡◌, true, List, ℕ, leb};
ghost use Rattle.lists.specs.Lists.{every};
ghost use Rattle.calls.specs.Forms.{fits as fits_of, heads_ok, form_ok};
ghost use Rattle.store_records.specs.Meaning.{stored};

use state_form::states_ok;
use store_records::{Used, state_room, tr_room};
use tr_form::trs_ok;

// Whether the used records are no more than there is room for.
#[tactic(auto, unfolding(calls::specs::Forms::fits_with, calls::specs::Store::state_room_with, calls::specs::Store::tr_room_with))]
pub fn fits(states: &[u32], trs: &[u32], used: Used) -> bool
    ensures { (heads : List ℕ) → result ≡ fits_of (stored heads states.now trs.now used.states used.trs) }
{
    used.states <= state_room(states) && used.trs <= tr_room(trs)
}

// Whether no head is above the used states. Every head is looked at, since in a loop that is not left early a compiler can take several words at a time.
fn heads_used(heads: &[u32], used: u32) -> bool
    ensures { result ≡ every (λ h. leb h used) heads.now }
{
    let mut fine = true;
    for &head in heads {
        fine &= head <= used;
    }
    fine
}

// Heads at most the used states, and not empty if any is used.
#[tactic(auto, using(crate::proofs::FormLaws::non_empty_lem), unfolding(calls::specs::Forms::heads_ok))]
fn heads_ok(heads: &[u32], used: u32) -> bool
    ensures { (states trs : List ℕ) (k : ℕ) → result ≡ heads_ok (stored heads.now states trs used k) }
{
    heads_used(heads, used) && (used == 0 || !heads.is_empty())
}

// The form of the used records, which fit: s1 and s2 are the numbers of states of the two machines.
#[tactic(auto, unfolding(calls::specs::Forms::form_ok_with))]
pub fn form_ok(heads: &[u32], states: &[u32], trs: &[u32], used: Used, s1: u32, s2: u32) -> bool
    requires { fits_of (stored heads.now states.now trs.now used.states used.trs) ≡ true }
    ensures { result ≡ form_ok s1 s2 (stored heads.now states.now trs.now used.states used.trs) }
{
    heads_ok(heads, used.states) && states_ok(states, used, s1, s2) && trs_ok(trs, used)
}
