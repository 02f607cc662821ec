// The steps of a plan gone through as plain loops, each target noted where it is looked for; nothing is stored.
ghost use Rattle.std.specs.Prelude.{◌≡◌, true, List, ℕ, ◌+◌, ◌<◌, ◌≤◌, min, Some};
ghost use Rattle.words.specs.Labels.{MAX};
ghost use Rattle.words.specs.Weights.{Kind};
ghost use Rattle.words.specs.Matches.{Tr as Transition};
ghost use Rattle.words.specs.Machines.{tr_count, well_formed};
ghost use Rattle.fst.specs.Meaning.{on_of, tr_means};
ghost use Rattle.fst_reads.specs.Places.{record_base};
ghost use Rattle.matchers.specs.Cursors.{with_label};
ghost use Rattle.sorted_lists.specs.Runs.{rising};
ghost use Rattle.sorted_lists.specs.Known.{Known};
ghost use Rattle.compose_state_tuple.specs.Meaning.{tuple_means};
ghost use Rattle.store_records.specs.Meaning.{store_in};
ghost use Rattle.stored_steps.specs.Storing.{AllGood};
ghost use Rattle.compose_walk.specs.Plans.{side_by, with_records, eps_by, edge_by, rest_by, plan_steps, Planned};
ghost use Rattle.compose_count.specs.Notes.{notes_means, class_of, wanted_by, target_by, note_to, note_all};

use compose_state_tuple::ComposeStateTuple;
use compose_walk::{Plan, walked_label};
use compose_weigh::lacks;
use fst::{EPS_LABEL, Label, MatchType, StateId, Tr};
use fst_reads::{first_at, next_at, record_base, tr_at, word_at, word_on};
use sorted_lists::find;
use store_records::Used;
use triple_set::take;

// Whose steps are gone through, and which targets are looked for: those that the table lacks, of one class of a hash.
#[derive(Clone, Copy)]
pub struct Counting {
    pub plan: Plan,
    pub used: Used,
    pub classes: u32,
    pub class: u32,
}

// What was noted so far: the triples held, whether one found no room, and the steps, counted up to MAX.
#[derive(Clone, Copy)]
pub struct Noted {
    pub held: u32,
    pub full: bool,
    pub moves: u32,
}

// The class of a triple, one of so many.
#[tactic(auto, unfolding(crate::specs::Notes::class_of))]
fn class_of(classes: u32, tuple: ComposeStateTuple) -> u32
    requires { 0 < classes }
    ensures { result ≡ class_of classes (tuple_means tuple) }
{
    let hash = (40503 * (tuple.s1.0 as u64) + 30011 * (tuple.s2.0 as u64) + (tuple.fs as u64))
        % 65521;
    (hash % (classes as u64)) as u32
}

// Whether a triple is looked for.
#[tactic(auto, unfolding(crate::specs::Notes::wanted_by))]
fn wanted(heads: &[u32], states: &[u32], c: Counting, tuple: ComposeStateTuple) -> bool
    requires { 0 < c.classes }
    ensures { (trs : List ℕ) → result ≡ wanted_by (store_in heads.now states.now trs c.used) c.classes c.class (tuple_means tuple) }
{
    class_of(c.classes, tuple) == c.class && lacks(heads, states, c.used, tuple)
}

// A step to a triple.
fn note(
    heads: &[u32],
    states: &[u32],
    chains: &mut [u32],
    records: &mut [u32],
    c: Counting,
    seen: Noted,
    tuple: ComposeStateTuple,
) -> Noted
    requires { 0 < c.classes }
    ensures { (trs : List ℕ) →
        let d = store_in heads.now states.now trs c.used in
        notes_means chains.new records.new result
        ≡ note_to (wanted_by d c.classes c.class) (notes_means chains.old records.old seen) (tuple_means tuple) }
{
    let taken = take(
        chains,
        records,
        seen.held,
        wanted(heads, states, c, tuple),
        tuple,
    );
    Noted {
        held: taken.held,
        full: seen.full | taken.full,
        moves: seen.moves.saturating_add(1),
    }
}

// The composed state of a walked transition's target and a looked-up one's.
fn target(on: MatchType, fs: u32, walked: StateId, looked: StateId) -> ComposeStateTuple
    ensures { tuple_means result ≡ target_by (on_of on) fs walked.0 looked.0 }
{
    match on {
        MatchType::MatchInput => ComposeStateTuple {
            fs,
            s1: walked,
            s2: looked,
        },
        MatchType::MatchOutput => ComposeStateTuple {
            fs,
            s1: looked,
            s2: walked,
        },
    }
}

// A walked transition to state s with each record that has the label x, from the first of them on: they stand together.
fn note_records(
    mm: &[u32],
    heads: &[u32],
    states: &[u32],
    chains: &mut [u32],
    records: &mut [u32],
    c: Counting,
    seen: Noted,
    s: StateId,
    fs: u32,
    x: Label,
    from: u32,
) -> Noted
    requires { let on = side_by c.plan in
        (0 < c.classes) × (well_formed mm.now ≡ true) × (c.plan.list.base ≡ record_base mm.now) × (from ≤ tr_count mm.now) × (rising on mm.now x.0 from ≡ true) }
    ensures { (trs : List ℕ) (k : Kind) (w : Transition) → w.target ≡ s.0
        → let on = side_by c.plan in
        let d = store_in heads.now states.now trs c.used in
        let steps = with_records on k mm.now w (Some fs) (with_label on mm.now x.0 from) in
        AllGood steps
        → notes_means chains.new records.new result ≡ note_all (wanted_by d c.classes c.class) (notes_means chains.old records.old seen) steps }
{
    let list = c.plan.list;
    let k = word_on(list.on);
    let mut noted = seen;
    let mut u = from;
    while u != 0 && word_at(mm, list.base, u, k) == x.0 {
        let found = tr_at(mm, list.base, u);
        let tuple = target(list.on, fs, s, found.nextstate);
        noted = note(heads, states, chains, records, c, noted, tuple);
        u = next_at(mm, list.base, u);
    }
    noted
}

// A walked epsilon: alone, and then with each epsilon of the list.
fn note_eps(
    mm: &[u32],
    heads: &[u32],
    states: &[u32],
    chains: &mut [u32],
    records: &mut [u32],
    c: Counting,
    seen: Noted,
    s: StateId,
) -> Noted
    requires { (0 < c.classes) × Known mm.now c.plan.list }
    ensures { (trs : List ℕ) (w : Transition) → w.target ≡ s.0 → AllGood (eps_by c.plan mm.now w)
        → let d = store_in heads.now states.now trs c.used in
        notes_means chains.new records.new result
        ≡ note_all (wanted_by d c.classes c.class) (notes_means chains.old records.old seen) (eps_by c.plan mm.now w) }
{
    let plan = c.plan;
    let list = plan.list;
    let mut noted = seen;
    if let Some(fs) = plan.lone_walked {
        let tuple = target(list.on, fs, s, plan.looked);
        noted = note(heads, states, chains, records, c, noted, tuple);
    }
    match plan.both {
        Some(fs) => note_records(
            mm, heads, states, chains, records, c, noted, s, fs, EPS_LABEL, list.first,
        ),
        None => noted,
    }
}

// All that a walked transition with the inner label x makes.
fn note_edge(
    mm: &[u32],
    heads: &[u32],
    states: &[u32],
    chains: &mut [u32],
    records: &mut [u32],
    c: Counting,
    seen: Noted,
    edge: Tr,
    x: Label,
) -> Noted
    requires { (0 < c.classes) × Known mm.now c.plan.list × AllGood (edge_by c.plan mm.now (tr_means edge) x.0) }
    ensures { (trs : List ℕ) →
        let d = store_in heads.now states.now trs c.used in
        notes_means chains.new records.new result
        ≡ note_all (wanted_by d c.classes c.class) (notes_means chains.old records.old seen) (edge_by c.plan mm.now (tr_means edge) x.0) }
{
    let s = edge.nextstate;
    if x == EPS_LABEL {
        return note_eps(mm, heads, states, chains, records, c, seen, s);
    }
    let from = find(mm, c.plan.list, x);
    note_records(mm, heads, states, chains, records, c, seen, s, 0, x, from)
}

// The moves while the walked machine rests: each epsilon of the list alone.
fn note_rest(
    mm: &[u32],
    heads: &[u32],
    states: &[u32],
    chains: &mut [u32],
    records: &mut [u32],
    c: Counting,
    seen: Noted,
) -> Noted
    requires { (0 < c.classes) × Known mm.now c.plan.list × AllGood (rest_by c.plan mm.now) }
    ensures { (trs : List ℕ) →
        let d = store_in heads.now states.now trs c.used in
        notes_means chains.new records.new result
        ≡ note_all (wanted_by d c.classes c.class) (notes_means chains.old records.old seen) (rest_by c.plan mm.now) }
{
    let list = c.plan.list;
    let s = c.plan.walked;
    match c.plan.lone_looked {
        Some(fs) => note_records(
            mm, heads, states, chains, records, c, seen, s, fs, EPS_LABEL, list.first,
        ),
        None => seen,
    }
}

// All moves of a composed state.
pub fn note_list(
    mw: &[u32],
    mm: &[u32],
    heads: &[u32],
    states: &[u32],
    chains: &mut [u32],
    records: &mut [u32],
    c: Counting,
    seen: Noted,
) -> Noted
    requires { (0 < c.classes) × Planned c.plan mw.now mm.now × AllGood (plan_steps c.plan mw.now mm.now) }
    ensures { (trs : List ℕ) →
        let d = store_in heads.now states.now trs c.used in
        notes_means chains.new records.new result
        ≡ note_all (wanted_by d c.classes c.class) (notes_means chains.old records.old seen) (plan_steps c.plan mw.now mm.now) }
{
    let plan = c.plan;
    let base = record_base(mw);
    let mut noted = note_rest(mm, heads, states, chains, records, c, seen);
    let mut t = first_at(mw, plan.walked);
    while t != 0 {
        let edge = tr_at(mw, base, t);
        let x = walked_label(plan.list.on, edge);
        noted = note_edge(mm, heads, states, chains, records, c, noted, edge, x);
        t = next_at(mw, base, t);
    }
    noted
}
