// The six settings, and the one order of checks 1 to 8 before a call.
#![tactic(auto)]

ghost use Rattle.std.specs.Prelude.{◌≡◌, List, ℕ, Option};
ghost use Rattle.words.specs.Ignored.{ignored_ok};
ghost use Rattle.words.specs.Settings.{Settings as Six, settings_ok};
ghost use Rattle.calls.specs.Listing.{settings_of};
ghost use Rattle.calls.specs.Checks.{side_number, side_for, session_ok, entered};
ghost use Rattle.fst.specs.Refusals.{checked_by};
ghost use Rattle.match_type.specs.Chosen.{side_means};
ghost use Rattle.store_records.specs.Meaning.{memory_of};
ghost use Rattle.session_checks.specs.Meaning.{settings_means, lent_slices, session_of, composed_by, side_numbered};

use fst::{
    EPS_LABEL, Label, Machines, MatchType, NO_LABEL, Refusal, Sigmas, has, num_states, word,
};
use fst_properties::well_formed;
use match_type::{Side, match_type};
use store_form::{fits, form_ok};
use store_records::Used;

// What a session is opened with. A sigma label NO_LABEL means none.
#[derive(Clone, Copy)]
pub struct Settings {
    // 0: cost, 1: count.
    pub kind: u32,
    // 0: sequence, 1: alternate, 2: match, 3: null, 4: trivial, 5: no-match.
    pub filter: u32,
    pub sigma1: Label,
    pub mode1: u32,
    pub sigma2: Label,
    pub mode2: u32,
}

// The words of the settings.
pub const SETTINGS_WORDS: usize = 6;

// The six settings from words, in their order.
pub fn read_settings(words: &[u32]) -> Settings
    ensures { settings_means result ≡ settings_of words.now }
{
    Settings {
        kind: word(words, 0),
        filter: word(words, 1),
        sigma1: Label(word(words, 2)),
        mode1: word(words, 3),
        sigma2: Label(word(words, 4)),
        mode2: word(words, 5),
    }
}

const LAST_KIND: u32 = 1;

const LAST_FILTER: u32 = 5;

const LAST_MODE: u32 = 2;

// Whether kind, filter and rewrite modes are in their ranges.
#[tactic(auto, unfolding(words::specs::Settings::settings_ok))]
pub fn settings_ok(settings: Settings) -> bool
    ensures { result ≡ settings_ok (settings_means settings) }
{
    settings.kind <= LAST_KIND
        && settings.filter <= LAST_FILTER
        && settings.mode1 <= LAST_MODE
        && settings.mode2 <= LAST_MODE
}

// The number of a side in a session.
pub fn side_number(side: Side) -> u32
    ensures { result ≡ side_number (side_means side) }
{
    match side {
        Side::Only(MatchType::MatchInput) => 0,
        Side::Only(MatchType::MatchOutput) => 1,
        Side::Both => 2,
    }
}

// The side with a number: that of a session whose checks passed.
pub fn side_of(number: u32) -> Side
    ensures { side_means result ≡ side_numbered number }
{
    match number {
        0 => Side::Only(MatchType::MatchInput),
        1 => Side::Only(MatchType::MatchOutput),
        _ => Side::Both,
    }
}

// Whether the list of ignored labels holds neither 0 nor MAX.
#[tactic(auto, unfolding(words::specs::Ignored::ignored_ok))]
fn ignored_ok(ignored: &[u32]) -> bool
    ensures { result ≡ ignored_ok ignored.now }
{
    !has(ignored, EPS_LABEL) && !has(ignored, NO_LABEL)
}

// Checks 1 to 7 in their order, with 18 after 3; where none stands, the side of the rule. Allowed lists play no part.
#[tactic(auto, unfolding(calls::specs::Checks::side_for_with))]
pub fn side_for(
    settings: Settings,
    m1: &[u32],
    m2: &[u32],
    ignored: &[u32],
) -> Result<Side, Refusal>
    ensures { (allowed1 allowed2 : Option (List ℕ)) →
        let l = lent_slices m1.now m2.now allowed1 allowed2 ignored.now in
        checked_by side_means result ≡ side_for (settings_means settings) l }
{
    if !settings_ok(settings) {
        return Err(Refusal::Settings);
    }
    if !well_formed(m1) {
        return Err(Refusal::Machine1);
    }
    if !well_formed(m2) {
        return Err(Refusal::Machine2);
    }
    if !ignored_ok(ignored) {
        return Err(Refusal::Ignored);
    }
    match_type(Machines {
        m1,
        m2,
        sigmas: Sigmas {
            first: settings.sigma1,
            second: settings.sigma2,
        },
        ignored,
    })
}

// Check 8: the session's side is that of the rule, what is used fits, and memory is in form.
#[tactic(auto, unfolding(calls::specs::Checks::session_ok_with))]
fn session_ok(
    rule: Side,
    side: u32,
    used: Used,
    m1: &[u32],
    m2: &[u32],
    heads: &[u32],
    states: &[u32],
    trs: &[u32],
) -> bool
    ensures { (six : Six) (allowed1 allowed2 : Option (List ℕ)) (ignored : List ℕ) →
        let l = lent_slices m1.now m2.now allowed1 allowed2 ignored in
        let m = memory_of heads.now states.now trs.now in
        result ≡ session_ok l (session_of six side used) m (side_means rule) }
{
    side == side_number(rule)
        && fits(states, trs, used)
        && form_ok(heads, states, trs, used, num_states(m1), num_states(m2))
}

// Checks 1 to 8 of a later call, with 18 after 3, by the session's own settings; where none stands, the side that it goes on with.
#[tactic(auto, unfolding(calls::specs::Checks::entered_with))]
pub fn enter(
    settings: Settings,
    side: u32,
    used: Used,
    m1: &[u32],
    m2: &[u32],
    ignored: &[u32],
    heads: &[u32],
    states: &[u32],
    trs: &[u32],
) -> Result<Side, Refusal>
    ensures { (allowed1 allowed2 : Option (List ℕ)) →
        let l = lent_slices m1.now m2.now allowed1 allowed2 ignored.now in
        let m = memory_of heads.now states.now trs.now in
        checked_by (composed_by settings l) result ≡ entered l (session_of (settings_means settings) side used) m }
{
    let rule = side_for(settings, m1, m2, ignored)?;
    if !session_ok(rule, side, used, m1, m2, heads, states, trs) {
        return Err(Refusal::Session);
    }
    Ok(rule)
}
