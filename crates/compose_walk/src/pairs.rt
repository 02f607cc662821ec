// One composed transition: made of a walked transition and a looked-up one, and stored with the state of its target.
ghost use Rattle.std.specs.Prelude.{◌≡◌, List, [], ◌∷◌, ℕ, ◌<◌, None, Some};
ghost use Rattle.words.specs.Labels.{good};
ghost use Rattle.words.specs.Weights.{kind_of, times as timesOf};
ghost use Rattle.calls.specs.Store.{find, state_size, room_of};
ghost use Rattle.fst.specs.Meaning.{on_of, tr_means};
ghost use Rattle.matchers.specs.Meaning.{the_loop};
ghost use Rattle.compose_state_tuple.specs.Meaning.{tuple_means};
ghost use Rattle.store_records.specs.Meaning.{stored, store_in};
ghost use Rattle.state_table.specs.Meaning.{reached_means};
ghost use Rattle.compose_moves.specs.Moves.{as_tr, compose_tr_means};
ghost use Rattle.stored_steps.specs.Storing.{place as place_of, store_one, Room};
ghost use Rattle.stored_steps.specs.Chains.{Chained};
ghost use Rattle.compose_walk.specs.Plans.{joined_by};

use compose_moves::ComposeTr;
use compose_state_tuple::ComposeStateTuple;
use fst::{EPS_LABEL, MatchType, StateId, Tr};
use semirings::{one, times};
use state_table::{Reached, find_or_add};
use store_records::{Used, push_tr};

// The state found, else a new one, for which there is room.
fn place(heads: &mut [u32], states: &mut [u32], used: u32, tuple: ComposeStateTuple) -> Reached
    requires { (trs : List ℕ) (k : ℕ) →
        let d = stored heads.old states.old trs used k in
        Chained d × (find d (tuple_means tuple) ≡ None → used < room_of state_size states.old) }
    ensures { (trs : List ℕ) (k : ℕ) →
        let d = stored heads.old states.old trs used k in
        reached_means heads.new states.new trs k result ≡ place_of d (tuple_means tuple) }
{
    let link = find_or_add(heads, states, used, tuple);
    if link == 0 {
        return Reached {
            state: StateId(used),
            used: used + 1,
        };
    }
    Reached {
        state: StateId(link - 1),
        used,
    }
}

// One composed transition; its link says that another follows.
pub fn push(
    heads: &mut [u32],
    states: &mut [u32],
    trs: &mut [u32],
    used: Used,
    tr: ComposeTr,
) -> Used
    requires { let d = store_in heads.old states.old trs.old used in Room d (compose_tr_means tr) × Chained d }
    ensures { let d = store_in heads.old states.old trs.old used in
        store_in heads.new states.new trs.new result ≡ store_one d (compose_tr_means tr) }
{
    let reached = place(heads, states, used.states, tr.tuple);
    push_tr(
        trs,
        used.trs,
        Tr {
            ilabel: tr.ilabel,
            olabel: tr.olabel,
            weight: tr.weight,
            nextstate: reached.state,
        },
        used.trs + 2,
    );
    Used {
        states: reached.used,
        trs: used.trs + 1,
    }
}

// The resting machine as a transition: label 0, weight one and its own state.
pub fn resting(kind: u32, s: StateId) -> Tr
    ensures { tr_means result ≡ as_tr (kind_of kind) s.0 the_loop }
{
    Tr {
        ilabel: EPS_LABEL,
        olabel: EPS_LABEL,
        weight: one(kind),
        nextstate: s,
    }
}

// What a walked transition and a looked-up one make, where their product is not too large: machine 1's input and machine 2's output.
pub fn joined(kind: u32, on: MatchType, walked: Tr, looked: Tr, fs: u32) -> ComposeTr
    requires { (w : ℕ) × (timesOf (kind_of kind) walked.weight looked.weight ≡ Some w) }
    ensures { joined_by (on_of on) (kind_of kind) (tr_means walked) (tr_means looked) (Some fs) ≡ good (compose_tr_means result) ∷ [] }
{
    let weight = times(kind, walked.weight, looked.weight).unwrap();
    match on {
        MatchType::MatchInput => ComposeTr {
            ilabel: walked.ilabel,
            olabel: looked.olabel,
            weight,
            tuple: ComposeStateTuple {
                fs,
                s1: walked.nextstate,
                s2: looked.nextstate,
            },
        },
        MatchType::MatchOutput => ComposeTr {
            ilabel: looked.ilabel,
            olabel: walked.olabel,
            weight,
            tuple: ComposeStateTuple {
                fs,
                s1: looked.nextstate,
                s2: walked.nextstate,
            },
        },
    }
}
