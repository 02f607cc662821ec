// Matchers (matchers/mod.rs): a match, and a look-up of a label as a cursor over the machine's words. A cursor keeps what was asked and places; no match is stored.
#![tactic(auto)]

mod sigma_matcher;
mod sorted_matcher;

ghost use Rattle.std.specs.Prelude.{◌≡◌};
ghost use Rattle.words.specs.Sigmas.{replace as replaced, rewrite as rewritten};
ghost use Rattle.fst.specs.Meaning.{on_of, tr_means, words_as_read};
ghost use Rattle.matchers.specs.Cursors.{looked as lookedFor, held_words, with_label, head0, moved_to, own_left, sigma_left, items_of, items_left, asked, step_means, cursor_of, moved_past, cursor_after};

use fst::{
    EPS_LABEL, Label, MatchType, Matched, NO_LABEL, Sigmas, Tr, get_tr, inner_label, next_tr,
    num_records,
};
pub use sigma_matcher::{Sigma, has_sigma, sigma_iter};
pub use sorted_matcher::sorted_iter;

// A match: the loop, or one whole transition.
#[derive(Clone, Copy)]
pub enum IterItemMatcher {
    EpsLoop,
    Tr(Tr),
}

// The transitions with the label itself; then the sigma transitions.
#[derive(Clone, Copy)]
pub enum Phase {
    Own,
    Sigmas,
}

// What was asked, and how far the answer is given.
#[derive(Clone, Copy)]
pub struct Cursor {
    // The side on which the machine is matched.
    pub on: MatchType,
    pub label: Label,
    // The sigma label; NO_LABEL: none.
    pub sigma: Label,
    // Those of both machines: with the list of ignored labels they say which labels are replaced.
    pub labels: Sigmas,
    // Sigma is rewritten on each side that holds it (rewrite_both of the Rust), or on the matched side alone.
    pub both: bool,
    pub phase: Phase,
    // The loop comes next (current_loop of the Rust).
    pub loops: bool,
    // The record from which the phase goes on; 0: its end.
    pub tr: u32,
    // The record from which phase Sigmas goes on after phase Own; 0: nothing comes after it.
    pub sigmas: u32,
}

// The next match, None at the end; with the cursor to ask on with.
pub type Step = (Option<IterItemMatcher>, Cursor);

// The label that the transitions must have: NO_LABEL asks for the epsilon transitions.
pub fn looked(label: Label) -> Label
    ensures { result.0 ≡ lookedFor label.0 }
{
    if label == NO_LABEL { EPS_LABEL } else { label }
}

// The first record from t on that has the label on a side; 0: none. Inlined, so that the machine is not copied for it.
#[inline(always)]
fn seek(m: Matched<'_>, label: Label, t: u32) -> u32
    ensures { result ≡ head0 (with_label (on_of m.entry.on) (words_as_read m.entry) label.0 t) }
{
    if num_records(m.words) < t {
        return 0;
    }
    let mut at = t;
    while at != 0 {
        if inner_label(m, at) == label {
            return at;
        }
        at = next_tr(m.words, at);
    }
    0
}

// x in the place of sigma.
fn replace(sigma: Label, x: Label, l: Label) -> Label
    ensures { result.0 ≡ replaced sigma.0 x.0 l.0 }
{
    if l == sigma { x } else { l }
}

// A sigma transition rewritten for the label that the cursor was asked.
fn rewrite(cursor: Cursor, t: Tr) -> Tr
    ensures { tr_means result ≡ rewritten cursor.both (on_of cursor.on) cursor.sigma.0 cursor.label.0 (tr_means t) }
{
    let x = cursor.label;
    if cursor.both {
        return Tr {
            ilabel: replace(cursor.sigma, x, t.ilabel),
            olabel: replace(cursor.sigma, x, t.olabel),
            ..t
        };
    }
    match cursor.on {
        MatchType::MatchInput => Tr { ilabel: x, ..t },
        MatchType::MatchOutput => Tr { olabel: x, ..t },
    }
}

// The cursor in a phase, past the loop, at place tr.
fn moved(cursor: Cursor, phase: Phase, tr: u32) -> Cursor
    ensures { result ≡ moved_to cursor phase tr }
{
    Cursor {
        phase,
        loops: false,
        tr,
        ..cursor
    }
}

// A machine's words as a cursor reads them.
fn read_by<'a>(m: &'a [u32], cursor: Cursor, ignored: &'a [u32]) -> Matched<'a>
    ensures { result ≡ record { words = m.entry; on = cursor.on; sigmas = cursor.labels; ignored = ignored.entry } }
{
    Matched {
        words: m,
        on: cursor.on,
        sigmas: cursor.labels,
        ignored,
    }
}

// Phase Sigmas, from the cursor's place on.
fn sigma_next(m: &[u32], cursor: Cursor, ignored: &[u32]) -> Step
    ensures result_value { let words = held_words cursor ignored.now m.now in
        step_means words result ≡ asked (items_of words cursor (sigma_left words cursor cursor.tr)) }
    ensures place { let words = held_words cursor ignored.now m.now in
        cursor_of result ≡ moved_past words cursor (sigma_left words cursor cursor.tr) }
{
    let read = read_by(m, cursor, ignored);
    let t = seek(read, cursor.sigma, cursor.tr);
    if t == 0 {
        return (None, moved(cursor, Phase::Sigmas, 0));
    }
    let found = rewrite(cursor, get_tr(read, t));
    (
        Some(IterItemMatcher::Tr(found)),
        moved(cursor, Phase::Sigmas, next_tr(m, t)),
    )
}

// Phase Own, from the cursor's place on; where it gives nothing more, phase Sigmas.
fn own_next(m: &[u32], cursor: Cursor, ignored: &[u32]) -> Step
    ensures result_value { let words = held_words cursor ignored.now m.now in
        step_means words result ≡ asked (items_of words cursor (own_left words cursor cursor.tr)) }
    ensures place { let words = held_words cursor ignored.now m.now in
        cursor_of result ≡ moved_past words cursor (own_left words cursor cursor.tr) }
{
    let read = read_by(m, cursor, ignored);
    let t = seek(read, looked(cursor.label), cursor.tr);
    if t == 0 {
        return sigma_next(m, moved(cursor, Phase::Sigmas, cursor.sigmas), ignored);
    }
    let found = get_tr(read, t);
    (
        Some(IterItemMatcher::Tr(found)),
        moved(cursor, Phase::Own, next_tr(m, t)),
    )
}

// The next match of a look-up, or the end. Asked on with the cursor that it answers, it gives each match once, in order, and then the end ever after.
pub fn next_match(m: &[u32], cursor: Cursor, ignored: &[u32]) -> Step
    ensures result_value { let words = held_words cursor ignored.now m.now in
        step_means words result ≡ asked (items_left words cursor) }
    ensures place { cursor_of result ≡ cursor_after (held_words cursor ignored.now m.now) cursor }
{
    let phase = cursor.phase;
    if cursor.loops {
        return (
            Some(IterItemMatcher::EpsLoop),
            moved(cursor, phase, cursor.tr),
        );
    }
    match phase {
        Phase::Own => own_next(m, cursor, ignored),
        Phase::Sigmas => sigma_next(m, cursor, ignored),
    }
}

// A look-up together with the words that it reads.
#[derive(Clone, Copy)]
pub struct Matcher<'a> {
    pub words: &'a [u32],
    pub cursor: Cursor,
}

pub fn open<'a>(words: &'a [u32], cursor: Cursor) -> Matcher<'a>
    ensures { (result.words ≡ words.entry) × (result.cursor ≡ cursor) }
{
    Matcher { words, cursor }
}

// `next_match` of what the reader holds: the answer has the next cursor, and not the next reader. The list of ignored labels is lent beside it.
pub fn next<'a, 'b>(r: Matcher<'a>, ignored: &'b [u32]) -> Step
    ensures result_value { let words = held_words r.entry.cursor ignored.now r.entry.words.now in
        step_means words result ≡ asked (items_left words r.entry.cursor) }
    ensures place { let words = held_words r.entry.cursor ignored.now r.entry.words.now in
        cursor_of result ≡ cursor_after words r.entry.cursor }
{
    next_match(r.words, r.cursor, ignored)
}

// The same with plain parameters, for the walk over the matches, whose own cursor outlives the reader.
pub fn ask(words: &[u32], cursor: Cursor, ignored: &[u32]) -> Step
    ensures result_value { let held = held_words cursor ignored.now words.now in
        step_means held result ≡ asked (items_left held cursor) }
    ensures place { cursor_of result ≡ cursor_after (held_words cursor ignored.now words.now) cursor }
{
    next(open(words, cursor), ignored)
}
