// The form of transition records. What is used fits, so each word that is read lies within the slice, and its place is not tested.
ghost use Rattle.std.specs.Prelude.{◌≡◌, ◌&&◌, ◌||◌, List, ℕ, ◌+◌, ◌-◌, ◌*◌, ◌≤◌, ◌<◌, eqb, ltb, length};
ghost use Rattle.lists.specs.Lists.{every, interval};
ghost use Rattle.words.specs.Machines.{limit};
ghost use Rattle.calls.specs.Store.{tr_size, room_of, target_at, tr_next_at};
ghost use Rattle.calls.specs.Forms.{tr_form_ok};
ghost use Rattle.store_records.specs.Meaning.{stored};

use store_records::{TR_NEXT, TR_SIZE, TR_TARGET, Used};

// The record at place i: the target used, and the next 0 or the record after it. Its tests are joined as values, with no jump.
#[tactic(auto, unfolding(calls::specs::Store::target_at, calls::specs::Store::tr_next_at, calls::specs::Store::field_of))]
fn tr_fine(trs: &[u32], i: u32, states: u32) -> bool
    requires { (tr_size * i + tr_size ≤ length trs.now) × (i < limit) }
    ensures { let t = trs.now in
        result ≡ (ltb (target_at t i) states && (eqb (tr_next_at t i) 0 || eqb (tr_next_at t i) (i + 2))) }
{
    let at = TR_SIZE * (i as usize);
    let next = trs[at + TR_NEXT];
    (trs[at + TR_TARGET] < states) & ((next == 0) | (next == i + 2))
}

// The used records, wherever the last one leads. Each is looked at, so that a compiler can take several at a time.
fn all_linked(trs: &[u32], used: Used) -> bool
    requires { (used.trs ≤ limit) × (tr_size * used.trs ≤ length trs.now) }
    ensures { let t = trs.now in
        result ≡ every (λ i. ltb (target_at t i) used.states && (eqb (tr_next_at t i) 0 || eqb (tr_next_at t i) (i + 2))) (interval 0 used.trs) }
{
    let mut fine = true;
    for i in 0..used.trs {
        fine &= tr_fine(trs, i, used.states);
    }
    fine
}

// The last of the first `count` records ends in 0.
#[tactic(auto, unfolding(calls::specs::Store::tr_next_at, calls::specs::Store::field_of))]
fn last_ends(trs: &[u32], count: u32) -> bool
    requires { tr_size * count ≤ length trs.now }
    ensures { result ≡ (eqb count 0 || eqb (tr_next_at trs.now (count - 1)) 0) }
{
    count == 0 || trs[TR_SIZE * (count as usize - 1) + TR_NEXT] == 0
}

// All used transition records: with the last ending in 0, no other leads past it.
#[tactic(auto, using(crate::proofs::RecordForms::trs_both, calls::proofs::RecordLaws::room_words))]
pub fn trs_ok(trs: &[u32], used: Used) -> bool
    requires { used.trs ≤ room_of tr_size trs.now }
    ensures { (heads states : List ℕ) →
        let d = stored heads states trs.now used.states used.trs in
        result ≡ every (tr_form_ok d) (interval 0 used.trs) }
{
    all_linked(trs, used) && last_ends(trs, used.trs)
}
