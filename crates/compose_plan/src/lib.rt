// What the facts of the two lists of a composed state tell: whether no refusal can stand, and how its moves are gone through as plain loops, counted before where room alone may lack.
#![tactic(auto)]

mod bounds;

ghost use Rattle.std.specs.Prelude.{◌≡◌, true, List, ℕ, ◌<◌};
ghost use Rattle.words.specs.Labels.{no_label};
ghost use Rattle.words.specs.Weights.{Kind};
ghost use Rattle.words.specs.Matches.{inputs, outputs};
ghost use Rattle.words.specs.Machines.{state_count, first_of, machine_of, sorted, well_formed};
ghost use Rattle.words.specs.Filters.{facts_at};
ghost use Rattle.words.specs.Steps.{steps_at};
ghost use Rattle.fst.specs.Meaning.{on_of, as_operand};
ghost use Rattle.match_type.specs.Chosen.{side_means};
ghost use Rattle.compose_state_tuple.specs.Meaning.{tuple_means};
ghost use Rattle.compose_filters.specs.Meaning.{facts_mean};
ghost use Rattle.store_records.specs.Meaning.{store_in};
ghost use Rattle.compose_fst_op.specs.Composing.{option_settings, composing_words};
ghost use Rattle.stored_steps.specs.Storing.{store_all, Fits};
ghost use Rattle.stored_steps.specs.Chains.{Chained};
ghost use Rattle.compose_bounds.specs.Serving.{plain_direction};
ghost use Rattle.sorted_lists.specs.Known.{Known};
ghost use Rattle.compose_walk.specs.Plans.{plan_steps, Planned};
ghost use Rattle.list_facts.specs.Facts.{TrueOf};
ghost use Rattle.compose_plan.specs.Serves.{no_sigma};
ghost use Rattle.compose_plan.specs.Planning.{all_by, Present, PlanOf};
ghost use Rattle.compose_plan.specs.Storing.{StoredIs, Weighable};

pub use bounds::{no_sigma, serves, weights_fit};
use compose_count::{Room, weigh_plain};
use compose_filters::{Facts, MoveKind, filter_tr};
use compose_fst_op::ComposeFstOpOptions;
use compose_state_tuple::ComposeStateTuple;
use compose_walk::{Plan, walk_list};
use fst::{MatchType, Refusal, StateId, is_final};
use fst_reads::{first_at, record_base};
use list_facts::ListFacts;
use match_type::Side;
use sorted_lists::SortedList;
use store_records::Used;

// The direction where no label is sigma: the shorter list is walked where both may be looked up.
pub fn direction(side: Side, len1: u32, len2: u32) -> MatchType
    ensures { on_of result ≡ plain_direction (side_means side) len1 len2 }
{
    match side {
        Side::Only(on) => on,
        Side::Both if len1 <= len2 => MatchType::MatchInput,
        Side::Both => MatchType::MatchOutput,
    }
}

// "all" of a state: only epsilons, and the state not final.
fn all_eps(m: &[u32], s: StateId, facts: ListFacts) -> bool
    ensures { result ≡ all_by ((machine_of m.now).is_final s.0) facts }
{
    facts.eps == facts.len && !is_final(m, s)
}

// What a filter sees of a pair of states, by the facts of their lists.
fn seen(
    m1: &[u32],
    m2: &[u32],
    s1: StateId,
    s2: StateId,
    facts1: ListFacts,
    facts2: ListFacts,
) -> Facts
    requires { ((k : Kind) × TrueOf outputs k m1.now s1.0 facts1) × ((k : Kind) × TrueOf inputs k m2.now s2.0 facts2) }
    ensures { facts_mean result ≡ facts_at (as_operand outputs m1.now no_label) (as_operand inputs m2.now no_label) s1.0 s2.0 }
{
    Facts {
        none1: facts1.eps == 0,
        all1: all_eps(m1, s1, facts1),
        none2: facts2.eps == 0,
        all2: all_eps(m2, s2, facts2),
    }
}

// The list of state s as one that is looked up.
fn looked_up(m: &[u32], on: MatchType, s: StateId, facts: ListFacts) -> SortedList
    requires { (well_formed m.now ≡ true) × (s.0 < state_count m.now) × (sorted (on_of on) (machine_of m.now) ≡ true)
        × ((k : Kind) × TrueOf (on_of on) k m.now s.0 facts) }
    ensures { Known m.now result × (result.on ≡ on) × (result.first ≡ first_of m.now s.0) }
{
    SortedList {
        on,
        base: record_base(m),
        first: first_at(m, s),
        len: facts.len,
        eps: facts.eps,
        straight: facts.straight,
    }
}

// The plan of a walk, each cell of the filters' table asked once.
fn plan_of(
    options: ComposeFstOpOptions,
    facts: Facts,
    tuple: ComposeStateTuple,
    list: SortedList,
) -> Plan
    ensures { PlanOf options (facts_mean facts) (tuple_means tuple) list result }
{
    let lone1 = filter_tr(options.filter, MoveKind::Lone1, facts, tuple.fs);
    let lone2 = filter_tr(options.filter, MoveKind::Lone2, facts, tuple.fs);
    let both = filter_tr(options.filter, MoveKind::BothEpsilon, facts, tuple.fs);
    let first_walked = Plan {
        kind: options.kind,
        lone_walked: lone1,
        lone_looked: lone2,
        both,
        walked: tuple.s1,
        looked: tuple.s2,
        list,
    };
    match list.on {
        MatchType::MatchInput => first_walked,
        MatchType::MatchOutput => Plan {
            lone_walked: lone2,
            lone_looked: lone1,
            walked: tuple.s2,
            looked: tuple.s1,
            ..first_walked
        },
    }
}

// The moves of a composed state, stored as they are met, where no refusal can stand.
pub fn store_plain(
    m1: &[u32],
    m2: &[u32],
    options: ComposeFstOpOptions,
    heads: &mut [u32],
    states: &mut [u32],
    trs: &mut [u32],
    used: Used,
    on: MatchType,
    tuple: ComposeStateTuple,
    facts1: ListFacts,
    facts2: ListFacts,
) -> Used
    requires { let d = store_in heads.old states.old trs.old used in
        (no_sigma (option_settings options) ≡ true) × (on_of on ≡ plain_direction (side_means options.side) facts1.len facts2.len)
        × ((a1 a2 : List ℕ) → Present options m1.now m2.now a1 a2 (tuple_means tuple) facts1 facts2)
        × ((a1 a2 : List ℕ) → Fits d (steps_at (composing_words options m1.now m2.now a1 a2) (tuple_means tuple))) × Chained d }
    ensures { (a1 a2 : List ℕ) →
        let d = store_in heads.old states.old trs.old used in
        store_in heads.new states.new trs.new result
        ≡ store_all d (steps_at (composing_words options m1.now m2.now a1 a2) (tuple_means tuple)) }
{
    let facts = seen(m1, m2, tuple.s1, tuple.s2, facts1, facts2);
    match on {
        MatchType::MatchInput => {
            let list = looked_up(m2, MatchType::MatchInput, tuple.s2, facts2);
            let plan = plan_of(options, facts, tuple, list);
            walk_list(m1, m2, heads, states, trs, plan, used)
        }
        MatchType::MatchOutput => {
            let list = looked_up(m1, MatchType::MatchOutput, tuple.s1, facts1);
            let plan = plan_of(options, facts, tuple, list);
            walk_list(m2, m1, heads, states, trs, plan, used)
        }
    }
}

// What became of the steps of a composed state: stored, with the used counts after them; or nothing, and nothing is told; or refused for lack of room.
pub type Stored = Result<Option<Used>, Refusal>;

// The steps of a plan, none of which is a refusal: counted where their room is not sure, and stored where it suffices.
fn count_and_walk(
    mw: &[u32],
    mm: &[u32],
    heads: &mut [u32],
    states: &mut [u32],
    trs: &mut [u32],
    plan: Plan,
    used: Used,
    sure: bool,
) -> Stored
    requires { let d = store_in heads.old states.old trs.old used in
        let steps = plan_steps plan mw.now mm.now in
        Planned plan mw.now mm.now × Weighable d sure steps }
    ensures { let d = store_in heads.old states.old trs.old used in
        StoredIs d used (plan_steps plan mw.now mm.now) heads.new states.new trs.new result }
{
    if sure {
        return Ok(Some(walk_list(mw, mm, heads, states, trs, plan, used)));
    }
    match weigh_plain(mw, mm, heads, states, trs, plan, used) {
        Room::Suffices => Ok(Some(walk_list(mw, mm, heads, states, trs, plan, used))),
        Room::Lacks => Err(Refusal::NoRoom),
        Room::Unknown => Ok(None),
    }
}

// The same of a composed state. It stands beside `store_plain`, so that a run has that one to itself.
pub fn store_tight(
    m1: &[u32],
    m2: &[u32],
    options: ComposeFstOpOptions,
    heads: &mut [u32],
    states: &mut [u32],
    trs: &mut [u32],
    used: Used,
    on: MatchType,
    tuple: ComposeStateTuple,
    facts1: ListFacts,
    facts2: ListFacts,
    sure: bool,
) -> Stored
    requires { let d = store_in heads.old states.old trs.old used in
        (no_sigma (option_settings options) ≡ true) × (on_of on ≡ plain_direction (side_means options.side) facts1.len facts2.len)
        × ((a1 a2 : List ℕ) → Present options m1.now m2.now a1 a2 (tuple_means tuple) facts1 facts2)
        × ((a1 : List ℕ) × (a2 : List ℕ) × Weighable d sure (steps_at (composing_words options m1.now m2.now a1 a2) (tuple_means tuple))) }
    ensures { (a1 a2 : List ℕ) →
        let d = store_in heads.old states.old trs.old used in
        let steps = steps_at (composing_words options m1.now m2.now a1 a2) (tuple_means tuple) in
        StoredIs d used steps heads.new states.new trs.new result }
{
    let facts = seen(m1, m2, tuple.s1, tuple.s2, facts1, facts2);
    match on {
        MatchType::MatchInput => {
            let list = looked_up(m2, MatchType::MatchInput, tuple.s2, facts2);
            let plan = plan_of(options, facts, tuple, list);
            count_and_walk(m1, m2, heads, states, trs, plan, used, sure)
        }
        MatchType::MatchOutput => {
            let list = looked_up(m1, MatchType::MatchOutput, tuple.s1, facts1);
            let plan = plan_of(options, facts, tuple, list);
            count_and_walk(m2, m1, heads, states, trs, plan, used, sure)
        }
    }
}
