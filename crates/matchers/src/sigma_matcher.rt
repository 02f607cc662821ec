// The sigma look-up (sigma_matcher.rs): a label's own matches, and after them each sigma transition, rewritten.
ghost use Rattle.std.specs.Prelude.{◌≡◌, not, ◌&&◌, cond, eqb, None, IfOk};
ghost use Rattle.words.specs.Labels.{no_label};
ghost use Rattle.words.specs.Machines.{first_of};
ghost use Rattle.words.specs.Sides.{non_empty};
ghost use Rattle.words.specs.Sigmas.{is_allowed, rewrites_both, sigma_trs};
ghost use Rattle.words.specs.Settings.{operand_of};
ghost use Rattle.fst.specs.Meaning.{on_of, words_as_read};
ghost use Rattle.fst.specs.Refusals.{checked_by};
ghost use Rattle.matchers.specs.Meaning.{allowed_of, operand_in, lookup_items, stands_for};
ghost use Rattle.matchers.specs.Cursors.{items_left, first_cursor};

use crate::{Cursor, Phase, looked, seek};
use fst::{EPS_LABEL, Label, Matched, NO_LABEL, Refusal, StateId, first_tr, has};

// The sigma settings of a machine. The allowed list is lent beside them.
#[derive(Clone, Copy)]
pub struct Sigma {
    // NO_LABEL: none.
    pub label: Label,
    // 0: each side that holds sigma is rewritten if the acceptor mark is 1, else the matched side alone; 1: each side that holds it; 2: the matched side alone.
    pub mode: u32,
    // Whether there is an allowed list; without one, every label is allowed.
    pub listed: bool,
    // The acceptor mark of the machine as it is read.
    pub acceptor: u32,
}

// Sigma is set, and is the label.
fn is_sigma(sigma: Label, label: Label) -> bool
    ensures { result ≡ (not (eqb sigma.0 no_label) && eqb label.0 sigma.0) }
{
    sigma != NO_LABEL && label == sigma
}

// The list holds the label, or there is no list.
fn is_match_label_allowed(listed: bool, allowed: &[u32], label: Label) -> bool
    ensures { result ≡ is_allowed (allowed_of listed allowed.now) label.0 }
{
    !listed || has(allowed, label)
}

// Sigma is set, and may stand for the label.
#[tactic(auto, unfolding(crate::specs::Meaning::stands_for))]
fn stands_for(sigma: Sigma, allowed: &[u32], label: Label) -> bool
    ensures { result ≡ stands_for sigma.label.0 (allowed_of sigma.listed allowed.now) label.0 }
{
    sigma.label != NO_LABEL
        && label != EPS_LABEL
        && label != NO_LABEL
        && is_match_label_allowed(sigma.listed, allowed, label)
}

// Where the sigma matches begin: at the state's first record; 0: there are none.
fn sigma_from(sigma: Sigma, allowed: &[u32], label: Label, first: u32) -> u32
    ensures { result ≡ cond (stands_for sigma.label.0 (allowed_of sigma.listed allowed.now) label.0) first 0 }
{
    if stands_for(sigma, allowed, label) {
        first
    } else {
        0
    }
}

// Whether sigma is set, and is rewritten on each side that holds it.
fn rewrites_both(sigma: Sigma) -> bool
    ensures { result ≡ (not (eqb sigma.label.0 no_label) && rewrites_both sigma.mode sigma.acceptor) }
{
    if sigma.label == NO_LABEL {
        return false;
    }
    match sigma.mode {
        0 => sigma.acceptor == 1,
        1 => true,
        _ => false,
    }
}

// The matches of a label at a state, or refusal 11 where the label is sigma. Inlined, so that the machine is not copied for it.
#[inline(always)]
pub fn sigma_iter(
    m: Matched<'_>,
    sigma: Sigma,
    allowed: &[u32],
    s: StateId,
    label: Label,
) -> Result<Cursor, Refusal>
    ensures result_value { let words = words_as_read m.entry in
        let allowed = allowed_of sigma.listed allowed.entry.now in
        let operand = operand_in (on_of m.entry.on) words sigma allowed in
        checked_by (items_left words) result ≡ lookup_items operand s.0 label.0 }
    ensures place { let words = words_as_read m.entry in
        let both = (operand_in (on_of m.entry.on) words sigma None).sigma.rewrite_both in
        let from = cond (stands_for sigma.label.0 (allowed_of sigma.listed allowed.now) label.0) (first_of words s.0) 0 in
        IfOk result (λ cursor. cursor ≡ first_cursor words m.entry.on m.entry.sigmas s label sigma.label both from) }
{
    if is_sigma(sigma.label, label) {
        return Err(Refusal::WalkedSigma);
    }
    let first = first_tr(m.words, s);
    let tr = seek(m, looked(label), first);
    let from = sigma_from(sigma, allowed, label, first);
    Ok(Cursor {
        on: m.on,
        label,
        sigma: sigma.label,
        labels: m.sigmas,
        both: rewrites_both(sigma),
        phase: Phase::Own,
        loops: label == EPS_LABEL,
        tr,
        sigmas: from,
    })
}

// Whether a state has a sigma transition, by matched label.
pub fn has_sigma(m: Matched<'_>, sigma: Label, s: StateId) -> bool
    ensures { let words = words_as_read m.entry in
        result ≡ non_empty (sigma_trs (operand_of (on_of m.entry.on) words sigma.0 0 None) s.0) }
{
    sigma != NO_LABEL && seek(m, sigma, first_tr(m.words, s)) != 0
}
