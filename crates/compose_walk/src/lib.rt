// The moves of a composed state as plain loops, each stored as it is met (compose_fst_op.rs, `ordered_expand` and what it calls). It serves where no refusal can stand and no label is sigma: nothing
// is weighed before, and a record's link says that another follows until the last one is ended.
#![tactic(auto)]

mod pairs;

ghost use Rattle.std.specs.Prelude.{◌≡◌, true, List, ℕ, ◌≤◌, length, Some};
ghost use Rattle.words.specs.Labels.{eps_label};
ghost use Rattle.words.specs.Weights.{kind_of};
ghost use Rattle.words.specs.Machines.{tr_count, well_formed};
ghost use Rattle.fst.specs.Meaning.{on_of, tr_means};
ghost use Rattle.fst_reads.specs.Places.{record_base};
ghost use Rattle.matchers.specs.Cursors.{with_label};
ghost use Rattle.sorted_lists.specs.Runs.{rising};
ghost use Rattle.sorted_lists.specs.Known.{Known};
ghost use Rattle.store_records.specs.Meaning.{stored, store_in};
ghost use Rattle.stored_steps.specs.Storing.{store_all, end_from, Fits};
ghost use Rattle.stored_steps.specs.Chains.{Chained};
ghost use Rattle.compose_walk.specs.Plans.{with_records, eps_by, edge_by, rest_by, walked_label, plan_steps, Planned};

use fst::{EPS_LABEL, Label, MatchType, StateId, Tr};
use fst_reads::{first_at, next_at, record_base, tr_at, word_at, word_on};
use pairs::{joined, push, resting};
use sorted_lists::{SortedList, find};
use store_records::{TR_SIZE, Used, store};

// How the moves of a composed state are gone through: one machine's list is walked, and each label is looked up in the other's.
#[derive(Clone, Copy)]
pub struct Plan {
    // 0: cost; 1: count.
    pub kind: u32,
    // What the filter says of a lone move of the walked machine, of a lone move of the other, and of a pair of epsilons.
    pub lone_walked: Option<u32>,
    pub lone_looked: Option<u32>,
    pub both: Option<u32>,
    // The states of the two machines.
    pub walked: StateId,
    pub looked: StateId,
    // The list that is looked up. Matched on inputs, it is machine 2's, and machine 1 is walked.
    pub list: SortedList,
}

// A walked transition with each record that has the label x, from the first of them on: they stand together.
fn with_label(
    mm: &[u32],
    heads: &mut [u32],
    states: &mut [u32],
    trs: &mut [u32],
    kind: u32,
    on: MatchType,
    base: usize,
    used: Used,
    edge: Tr,
    x: Label,
    from: u32,
) -> Used
    requires { let d = store_in heads.old states.old trs.old used in
        (well_formed mm.now ≡ true) × (base ≡ record_base mm.now) × (from ≤ tr_count mm.now) × (rising (on_of on) mm.now x.0 from ≡ true)
        × Fits d (with_records (on_of on) (kind_of kind) mm.now (tr_means edge) (Some 0) (with_label (on_of on) mm.now x.0 from)) × Chained d }
    ensures { let d = store_in heads.old states.old trs.old used in
        store_in heads.new states.new trs.new result
        ≡ store_all d (with_records (on_of on) (kind_of kind) mm.now (tr_means edge) (Some 0) (with_label (on_of on) mm.now x.0 from)) }
{
    let k = word_on(on);
    let mut grown = used;
    let mut u = from;
    while u != 0 && word_at(mm, base, u, k) == x.0 {
        let found = tr_at(mm, base, u);
        grown = push(heads, states, trs, grown, joined(kind, on, edge, found, 0));
        u = next_at(mm, base, u);
    }
    grown
}

// A walked transition, or the rest, with each of the `count` epsilons, from the first on: they stand together.
fn with_eps(
    mm: &[u32],
    heads: &mut [u32],
    states: &mut [u32],
    trs: &mut [u32],
    kind: u32,
    on: MatchType,
    base: usize,
    used: Used,
    edge: Tr,
    fs: u32,
    first: u32,
    count: u32,
) -> Used
    requires { let d = store_in heads.old states.old trs.old used in
        (well_formed mm.now ≡ true) × (base ≡ record_base mm.now) × (first ≤ tr_count mm.now) × (rising (on_of on) mm.now eps_label first ≡ true)
        × (count ≡ length (with_label (on_of on) mm.now eps_label first))
        × Fits d (with_records (on_of on) (kind_of kind) mm.now (tr_means edge) (Some fs) (with_label (on_of on) mm.now eps_label first)) × Chained d }
    ensures { let d = store_in heads.old states.old trs.old used in
        store_in heads.new states.new trs.new result
        ≡ store_all d (with_records (on_of on) (kind_of kind) mm.now (tr_means edge) (Some fs) (with_label (on_of on) mm.now eps_label first)) }
{
    let mut grown = used;
    let mut u = first;
    for _ in 0..count {
        let found = tr_at(mm, base, u);
        grown = push(heads, states, trs, grown, joined(kind, on, edge, found, fs));
        u = next_at(mm, base, u);
    }
    grown
}

// A walked epsilon: alone, and then with each epsilon of the list.
fn eps_moves(
    mm: &[u32],
    heads: &mut [u32],
    states: &mut [u32],
    trs: &mut [u32],
    plan: Plan,
    used: Used,
    edge: Tr,
) -> Used
    requires { let d = store_in heads.old states.old trs.old used in
        Known mm.now plan.list × Fits d (eps_by plan mm.now (tr_means edge)) × Chained d }
    ensures { let d = store_in heads.old states.old trs.old used in
        store_in heads.new states.new trs.new result ≡ store_all d (eps_by plan mm.now (tr_means edge)) }
{
    let list = plan.list;
    let mut grown = used;
    if let Some(fs) = plan.lone_walked {
        let rest = resting(plan.kind, plan.looked);
        let tr = joined(plan.kind, list.on, edge, rest, fs);
        grown = push(heads, states, trs, grown, tr);
    }
    match plan.both {
        Some(fs) => with_eps(
            mm, heads, states, trs, plan.kind, list.on, list.base, grown, edge, fs, list.first,
            list.eps,
        ),
        None => grown,
    }
}

// All that a walked transition with the inner label x makes.
fn edge_moves(
    mm: &[u32],
    heads: &mut [u32],
    states: &mut [u32],
    trs: &mut [u32],
    plan: Plan,
    used: Used,
    edge: Tr,
    x: Label,
) -> Used
    requires { let d = store_in heads.old states.old trs.old used in
        Known mm.now plan.list × Fits d (edge_by plan mm.now (tr_means edge) x.0) × Chained d }
    ensures { let d = store_in heads.old states.old trs.old used in
        store_in heads.new states.new trs.new result ≡ store_all d (edge_by plan mm.now (tr_means edge) x.0) }
{
    if x == EPS_LABEL {
        return eps_moves(mm, heads, states, trs, plan, used, edge);
    }
    let list = plan.list;
    let from = find(mm, list, x);
    if from == 0 {
        return used;
    }
    with_label(
        mm, heads, states, trs, plan.kind, list.on, list.base, used, edge, x, from,
    )
}

// The moves while the walked machine rests: each epsilon of the list alone.
fn rest_moves(
    mm: &[u32],
    heads: &mut [u32],
    states: &mut [u32],
    trs: &mut [u32],
    plan: Plan,
    used: Used,
) -> Used
    requires { let d = store_in heads.old states.old trs.old used in
        Known mm.now plan.list × Fits d (rest_by plan mm.now) × Chained d }
    ensures { let d = store_in heads.old states.old trs.old used in
        store_in heads.new states.new trs.new result ≡ store_all d (rest_by plan mm.now) }
{
    let list = plan.list;
    if list.eps == 0 {
        return used;
    }
    match plan.lone_looked {
        Some(fs) => {
            let rest = resting(plan.kind, plan.walked);
            with_eps(
                mm, heads, states, trs, plan.kind, list.on, list.base, used, rest, fs, list.first,
                list.eps,
            )
        }
        None => used,
    }
}

// The inner label of a walked transition, where the other machine is matched on a side.
pub fn walked_label(on: MatchType, edge: Tr) -> Label
    ensures { result.0 ≡ walked_label (on_of on) (tr_means edge) }
{
    match on {
        MatchType::MatchInput => edge.olabel,
        MatchType::MatchOutput => edge.ilabel,
    }
}

// All moves of a composed state, stored in their order; each link says that another follows.
pub fn walk_list(
    mw: &[u32],
    mm: &[u32],
    heads: &mut [u32],
    states: &mut [u32],
    trs: &mut [u32],
    plan: Plan,
    used: Used,
) -> Used
    requires { let d = store_in heads.old states.old trs.old used in
        Planned plan mw.now mm.now × Fits d (plan_steps plan mw.now mm.now) × Chained d }
    ensures { let d = store_in heads.old states.old trs.old used in
        store_in heads.new states.new trs.new result ≡ store_all d (plan_steps plan mw.now mm.now) }
{
    let base = record_base(mw);
    let mut grown = rest_moves(mm, heads, states, trs, plan, used);
    let mut t = first_at(mw, plan.walked);
    while t != 0 {
        let edge = tr_at(mw, base, t);
        let x = walked_label(plan.list.on, edge);
        grown = edge_moves(mm, heads, states, trs, plan, grown, edge, x);
        t = next_at(mw, base, t);
    }
    grown
}

// The link of the last stored record becomes the end of the list, where any was stored.
pub fn end_list(trs: &mut [u32], before: u32, after: u32)
    requires { before ≤ after }
    ensures { (heads states : List ℕ) (n : ℕ) →
        stored heads states trs.new n after ≡ end_from before (stored heads states trs.old n after) }
{
    if after != before {
        store(trs, TR_SIZE * after as usize - 1, 0);
    }
}
