// The expansion of a composed state (compose_fst_op.rs, `compute_trs`): as plain loops where the facts of its two lists shut out every refusal, counted before where room alone may lack,
// else weighed and then stored.
#![tactic(auto)]

ghost use Rattle.std.specs.Prelude.{◌≡◌, true, ◌<◌, length};
ghost use Rattle.words.specs.Labels.{good};
ghost use Rattle.words.specs.Weights.{kind_of};
ghost use Rattle.words.specs.Matches.{inputs, outputs};
ghost use Rattle.calls.specs.Store.{triple_at};
ghost use Rattle.calls.specs.Checks.{entered};
ghost use Rattle.calls.specs.Calls.{settle, expansion};
ghost use Rattle.fst.specs.Meaning.{on_of};
ghost use Rattle.match_type.specs.Chosen.{side_means};
ghost use Rattle.compose_state_tuple.specs.Meaning.{tuple_means};
ghost use Rattle.store_records.specs.Meaning.{store_in, memory_of};
ghost use Rattle.compose_fst_op.specs.Composing.{option_settings, lent_of, composing};
ghost use Rattle.compose_bounds.specs.Serving.{weights_fit, plain_direction};
ghost use Rattle.list_facts.specs.Facts.{TrueOf};
ghost use Rattle.compose_plan.specs.Serves.{serves_of};
ghost use Rattle.compose_store.specs.Meaning.{session_under, left_by};
ghost use Rattle.compose_expand.specs.Memos.{plain_labels, Remembered, asked_at};

use compose_fst_op::ComposeFstOpOptions;
use compose_plan::{direction, no_sigma, serves, store_plain, store_tight, weights_fit};
use compose_state_tuple::ComposeStateTuple;
use compose_store::{Expansion, expand_weighed, new_part};
use compose_walk::end_list;
use fst::{MatchType, StateId};
use list_facts::{ListFacts, MEMO_WORDS, list_facts, remembered};
use store_records::{Used, get_tuple, mark_expanded};

// Whether labels are taken as they stand: none is ignored, and none is sigma.
#[tactic(auto, unfolding(crate::specs::Memos::plain_labels))]
pub fn plain_labels(options: ComposeFstOpOptions, ignored: &[u32]) -> bool
    ensures { result ≡ plain_labels (option_settings options) ignored.now }
{
    ignored.is_empty() && no_sigma(options)
}

// The expansion of state n with this triple, in this direction, where no refusal can stand: each move is stored as it is met, and then the last link is ended.
fn expand_plain(
    m1: &[u32],
    m2: &[u32],
    a1: &[u32],
    a2: &[u32],
    ignored: &[u32],
    options: ComposeFstOpOptions,
    heads: &mut [u32],
    states: &mut [u32],
    trs: &mut [u32],
    used: Used,
    n: StateId,
    on: MatchType,
    tuple: ComposeStateTuple,
    facts1: ListFacts,
    facts2: ListFacts,
) -> Expansion
    requires { let l = lent_of options m1.now m2.now a1.now a2.now ignored.now in
        let m = memory_of heads.old states.old trs.old in
        let c = composing options m1.now m2.now a1.now a2.now ignored.now in
        let t = triple_at states.old n.0 in
        (entered l (session_under options used) m ≡ good c) × (n.0 < used.states) × (tuple_means tuple ≡ t) × (length ignored.now ≡ 0)
        × TrueOf outputs (kind_of options.kind) m1.now t.s1 facts1
        × TrueOf inputs (kind_of options.kind) m2.now t.s2 facts2
        × (on_of on ≡ plain_direction (side_means options.side) facts1.len facts2.len)
        × (serves_of (option_settings options) (on_of on) (store_in heads.old states.old trs.old used) facts1 facts2 ≡ true) }
    ensures { let m = memory_of heads.old states.old trs.old in
        let m' = memory_of heads.new states.new trs.new in
        let c = composing options m1.now m2.now a1.now a2.now ignored.now in
        left_by options used m' result ≡ settle (session_under options used) m (expansion c (session_under options used) m n.0) }
{
    let after = store_plain(
        m1, m2, options, heads, states, trs, used, on, tuple, facts1, facts2,
    );
    end_list(trs, used.trs, after.trs);
    let part = new_part(used.trs, after.trs);
    mark_expanded(states, n, part.first);
    Ok((part, after))
}

// The expansion of state n, a found one, where no label is ignored or sigma and the largest weights of its two lists fit: its steps are counted where their room is not sure, and weighed one by one
// where the count tells nothing.
fn expand_counted(
    m1: &[u32],
    m2: &[u32],
    a1: &[u32],
    a2: &[u32],
    ignored: &[u32],
    options: ComposeFstOpOptions,
    heads: &mut [u32],
    states: &mut [u32],
    trs: &mut [u32],
    used: Used,
    n: StateId,
    tuple: ComposeStateTuple,
    facts1: ListFacts,
    facts2: ListFacts,
) -> Expansion
    requires { let l = lent_of options m1.now m2.now a1.now a2.now ignored.now in
        let m = memory_of heads.old states.old trs.old in
        let c = composing options m1.now m2.now a1.now a2.now ignored.now in
        let t = triple_at states.old n.0 in
        (entered l (session_under options used) m ≡ good c) × (n.0 < used.states) × (tuple_means tuple ≡ t) × (plain_labels (option_settings options) ignored.now ≡ true)
        × TrueOf outputs (kind_of options.kind) m1.now t.s1 facts1
        × TrueOf inputs (kind_of options.kind) m2.now t.s2 facts2
        × (weights_fit (kind_of options.kind) facts1.most facts2.most ≡ true) }
    ensures { let m = memory_of heads.old states.old trs.old in
        let m' = memory_of heads.new states.new trs.new in
        let c = composing options m1.now m2.now a1.now a2.now ignored.now in
        left_by options used m' result ≡ settle (session_under options used) m (expansion c (session_under options used) m n.0) }
{
    let on = direction(options.side, facts1.len, facts2.len);
    let sure = serves(states, trs, options, used, on, facts1, facts2);
    let stored = store_tight(
        m1, m2, options, heads, states, trs, used, on, tuple, facts1, facts2, sure,
    )?;
    let Some(after) = stored else {
        return expand_weighed(
            m1, m2, a1, a2, ignored, options, heads, states, trs, used, n,
        );
    };
    end_list(trs, used.trs, after.trs);
    let part = new_part(used.trs, after.trs);
    mark_expanded(states, n, part.first);
    Ok((part, after))
}

// The expansion of state n, a found one, where the checks 1 to 8 passed and no label is ignored or sigma. The facts of its two lists are told here. Where a weight may be too large, its steps are weighed
// one by one.
pub fn expand_tight(
    m1: &[u32],
    m2: &[u32],
    a1: &[u32],
    a2: &[u32],
    ignored: &[u32],
    options: ComposeFstOpOptions,
    heads: &mut [u32],
    states: &mut [u32],
    trs: &mut [u32],
    used: Used,
    n: StateId,
) -> Expansion
    requires { let l = lent_of options m1.now m2.now a1.now a2.now ignored.now in
        let m = memory_of heads.old states.old trs.old in
        let c = composing options m1.now m2.now a1.now a2.now ignored.now in
        (entered l (session_under options used) m ≡ good c) × (n.0 < used.states) × (plain_labels (option_settings options) ignored.now ≡ true) }
    ensures { let m = memory_of heads.old states.old trs.old in
        let m' = memory_of heads.new states.new trs.new in
        let c = composing options m1.now m2.now a1.now a2.now ignored.now in
        left_by options used m' result ≡ settle (session_under options used) m (expansion c (session_under options used) m n.0) }
{
    let tuple = get_tuple(states, n);
    let facts1 = list_facts(m1, MatchType::MatchOutput, options.kind, tuple.s1);
    let facts2 = list_facts(m2, MatchType::MatchInput, options.kind, tuple.s2);
    if !weights_fit(options.kind, facts1.most, facts2.most) {
        return expand_weighed(
            m1, m2, a1, a2, ignored, options, heads, states, trs, used, n,
        );
    }
    expand_counted(
        m1, m2, a1, a2, ignored, options, heads, states, trs, used, n, tuple, facts1, facts2,
    )
}

// The expansion of state n, a found one, where the checks 1 to 8 passed and the facts are those of its two lists.
#[tactic(auto, using(crate::proofs::Asked::none_ignored))]
fn expand_known(
    m1: &[u32],
    m2: &[u32],
    a1: &[u32],
    a2: &[u32],
    ignored: &[u32],
    options: ComposeFstOpOptions,
    heads: &mut [u32],
    states: &mut [u32],
    trs: &mut [u32],
    used: Used,
    n: StateId,
    tuple: ComposeStateTuple,
    facts1: ListFacts,
    facts2: ListFacts,
) -> Expansion
    requires { let l = lent_of options m1.now m2.now a1.now a2.now ignored.now in
        let m = memory_of heads.old states.old trs.old in
        let c = composing options m1.now m2.now a1.now a2.now ignored.now in
        let t = triple_at states.old n.0 in
        (entered l (session_under options used) m ≡ good c) × (n.0 < used.states) × (tuple_means tuple ≡ t) × (plain_labels (option_settings options) ignored.now ≡ true)
        × TrueOf outputs (kind_of options.kind) m1.now t.s1 facts1
        × TrueOf inputs (kind_of options.kind) m2.now t.s2 facts2 }
    ensures { let m = memory_of heads.old states.old trs.old in
        let m' = memory_of heads.new states.new trs.new in
        let c = composing options m1.now m2.now a1.now a2.now ignored.now in
        left_by options used m' result ≡ settle (session_under options used) m (expansion c (session_under options used) m n.0) }
{
    let on = direction(options.side, facts1.len, facts2.len);
    if !serves(states, trs, options, used, on, facts1, facts2) {
        return expand_tight(
            m1, m2, a1, a2, ignored, options, heads, states, trs, used, n,
        );
    }
    expand_plain(
        m1, m2, a1, a2, ignored, options, heads, states, trs, used, n, on, tuple, facts1, facts2,
    )
}

// The expansion of state n, a found one, where the checks 1 to 8 passed, by the facts that are remembered of its two lists. Where a label is ignored or a sigma label is set, they are not asked for. What is
// remembered of the two machines' lists stays true.
#[tactic(auto, unfolding(crate::specs::Memos::asked_at))]
pub fn expand_state(
    m1: &[u32],
    m2: &[u32],
    a1: &[u32],
    a2: &[u32],
    ignored: &[u32],
    options: ComposeFstOpOptions,
    heads: &mut [u32],
    states: &mut [u32],
    trs: &mut [u32],
    memo1: &mut [u32; MEMO_WORDS],
    memo2: &mut [u32; MEMO_WORDS],
    used: Used,
    n: StateId,
) -> Expansion
    requires { let l = lent_of options m1.now m2.now a1.now a2.now ignored.now in
        let m = memory_of heads.old states.old trs.old in
        let c = composing options m1.now m2.now a1.now a2.now ignored.now in
        let s = session_under options used in
        (entered l s m ≡ good c) × (n.0 < used.states) × Remembered outputs l s memo1.old × Remembered inputs l s memo2.old }
    ensures result_after { let m = memory_of heads.old states.old trs.old in
        let m' = memory_of heads.new states.new trs.new in
        let c = composing options m1.now m2.now a1.now a2.now ignored.now in
        left_by options used m' result ≡ settle (session_under options used) m (expansion c (session_under options used) m n.0) }
    ensures asked { let l = lent_of options m1.now m2.now a1.now a2.now ignored.now in
        let m = memory_of heads.old states.old trs.old in
        let s = session_under options used in
        (memo1.new ≡ asked_at outputs l s m n.0 memo1.old) × (memo2.new ≡ asked_at inputs l s m n.0 memo2.old) }
    ensures remembered { let l = lent_of options m1.now m2.now a1.now a2.now ignored.now in
        let s = session_under options used in
        Remembered outputs l s memo1.new × Remembered inputs l s memo2.new }
{
    if !plain_labels(options, ignored) {
        return expand_weighed(
            m1, m2, a1, a2, ignored, options, heads, states, trs, used, n,
        );
    }
    let tuple = get_tuple(states, n);
    let facts1 = remembered(m1, MatchType::MatchOutput, options.kind, memo1, tuple.s1);
    let facts2 = remembered(m2, MatchType::MatchInput, options.kind, memo2, tuple.s2);
    expand_known(
        m1, m2, a1, a2, ignored, options, heads, states, trs, used, n, tuple, facts1, facts2,
    )
}
