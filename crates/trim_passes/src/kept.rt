// The records between kept states.
ghost use Rattle.std.specs.Prelude.{◌≡◌, cond, List, ℕ, ◌≤◌, length};
ghost use Rattle.words.specs.Machines.{limit};
ghost use Rattle.words.specs.Steps.{Composition};
ghost use Rattle.searches.specs.StoreLinks.{first_in};
ghost use Rattle.machine_words.specs.MachineWords.{trs_in};
ghost use Rattle.store_records.specs.Meaning.{stored, store_in};
ghost use Rattle.trim_passes.specs.Passes.{is_kept, kept_from, kept_at, rows_from};

use crate::numbers::number_of;
use store_links::{first_record, next_record, target_record};
use store_records::Used;

// The first record from `from` on that leads to a kept state; 0: none.
pub fn next_kept(trs: &[u32], used: u32, work: &[u64], from: u32) -> u32
    ensures { (heads states : List ℕ) (u : ℕ) →
        let d = stored heads states trs.now u used in
        let w = work.now in
        kept_from d w from ≡ kept_at d w result }
{
    let mut r = from;
    while r > 0 {
        if number_of(work, target_record(trs, r)) > 0 {
            return r;
        }
        r = next_record(trs, used, r);
    }
    0
}

// How many kept records there are from `from` on.
fn count_list(trs: &[u32], used: u32, work: &[u64], from: u32) -> u64
    ensures { (heads states : List ℕ) (u : ℕ) → result ≡ length (kept_from (stored heads states trs.now u used) work.now from) }
{
    let mut count: u64 = 0;
    let mut r = next_kept(trs, used, work, from);
    while r > 0 {
        count += 1;
        r = next_kept(trs, used, work, next_record(trs, used, r));
    }
    count
}

// How many kept records state n has; none where it is not kept.
fn count_of(states: &[u32], trs: &[u32], used: u32, work: &[u64], n: u32) -> u64
    ensures { (heads : List ℕ) (u : ℕ) →
        let d = stored heads states.now trs.now u used in
        result ≡ cond (is_kept work.now n) (length (kept_from d work.now (first_in d n))) 0 }
{
    if number_of(work, n) == 0 {
        return 0;
    }
    count_list(trs, used, work, first_record(states, used, n))
}

// How many records there are between kept states.
pub fn count_kept(states: &[u32], trs: &[u32], used: Used, work: &[u64]) -> u64
    requires { (used.states ≤ limit) × (used.trs ≤ limit) }
    ensures { (heads : List ℕ) (c : Composition) → result ≡ trs_in (rows_from c (store_in heads states.now trs.now used) work.now 0) }
{
    let mut total: u64 = 0;
    for n in 0..used.states {
        total += count_of(states, trs, used.trs, work, n);
    }
    total
}
