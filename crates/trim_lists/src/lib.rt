// The list of a kept state as words.
#![tactic(auto)]

ghost use Rattle.std.specs.Prelude.{◌≡◌, cond, List, [], ◌∷◌, ℕ, ◌+◌, ◌*◌, ◌≤◌, eqb, length};
ghost use Rattle.lists.specs.Lists.{put};
ghost use Rattle.words.specs.Machines.{limit, tr_words};
ghost use Rattle.machine_words.specs.MachineWords.{words_of_tr, list_words};
ghost use Rattle.store_records.specs.Meaning.{stored};
ghost use Rattle.trim_passes.specs.Passes.{kept_from, new_tr, new_list};

use fst::{TR_WORDS, word};
use store_links::{below, next_record};
use store_records::{TR_INPUT, TR_OUTPUT, TR_SIZE, TR_TARGET, TR_WEIGHT};
use trim_passes::{next_kept, number_of};

// Five words at a place.
#[tactic(auto, using(crate::proofs::ListTurns::five))]
fn put_five(out: &mut [u32], at: usize, a: u32, b: u32, c: u32, d: u32, e: u32)
    requires { at + tr_words ≤ length out.old }
    ensures { out.new ≡ put out.old at (a ∷ b ∷ c ∷ d ∷ e ∷ []) }
{
    out[at] = a;
    out[at + 1] = b;
    out[at + 2] = c;
    out[at + 3] = d;
    out[at + 4] = e;
}

// Record r of the store as a record of the trimmed machine, whose target has a new number.
#[tactic(auto, unfolding(trim_passes::specs::Passes::new_tr, calls::specs::Store::target_at, calls::specs::Store::field_of))]
fn write_tr(out: &mut [u32], at: usize, trs: &[u32], work: &[u64], r: u32, next: u32)
    requires { at + tr_words ≤ length out.old }
    ensures { (heads states : List ℕ) (u used : ℕ) →
        let d = stored heads states trs.now u used in
        out.new ≡ put out.old at (words_of_tr (new_tr d work.now r) next) }
{
    let i = TR_SIZE * (below(r) as usize);
    let input = word(trs, i + TR_INPUT);
    let output = word(trs, i + TR_OUTPUT);
    let weight = word(trs, i + TR_WEIGHT);
    let target = below(number_of(work, word(trs, i + TR_TARGET)));
    put_five(out, at, input, output, weight, target, next);
}

// The link of a record behind n others, where record q of the store comes next in its list; 0: none does.
fn link_to(n: u32, q: u32) -> u32
    requires { n ≤ limit }
    ensures { result ≡ cond (eqb q 0) 0 (n + 2) }
{
    if q == 0 { 0 } else { n + 2 }
}

// The kept records from `from` on, behind so many others; says how many there are then.
pub fn write_list(
    out: &mut [u32],
    at: usize,
    trs: &[u32],
    used: u32,
    work: &[u64],
    from: u32,
    before: u32,
) -> u32
    requires { (heads states : List ℕ) (u : ℕ) →
        let k = length (kept_from (stored heads states trs.now u used) work.now from) in
        (at + tr_words * k ≤ length out.old) × (before + k ≤ limit) }
    ensures by_index { (heads states : List ℕ) (u : ℕ) → result ≡ before + length (kept_from (stored heads states trs.now u used) work.now from) }
    ensures words { (heads states : List ℕ) (u : ℕ) →
        out.new ≡ put out.old at (list_words before (new_list (stored heads states trs.now u used) work.now from)) }
{
    let mut here = at;
    let mut n = before;
    let mut r = next_kept(trs, used, work, from);
    while r > 0 {
        let q = next_kept(trs, used, work, next_record(trs, used, r));
        write_tr(out, here, trs, work, r, link_to(n, q));
        here += TR_WORDS;
        n += 1;
        r = q;
    }
    n
}
