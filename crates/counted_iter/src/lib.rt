// The look-up of a label with its fan-out (02, 2.6): the matches are counted along the list, and their number is stated with the first. The expansion takes `sigma_iter`, which does not count.
#![tactic(auto)]

ghost use Rattle.std.specs.Prelude.{◌≡◌, ◌+◌, ◌≤◌, cond, length, None, IfOk};
ghost use Rattle.words.specs.Labels.{MAX, good, and_then};
ghost use Rattle.words.specs.Machines.{first_of};
ghost use Rattle.fst.specs.Meaning.{on_of, words_as_read};
ghost use Rattle.fst.specs.Refusals.{checked_by};
ghost use Rattle.fan_outs.specs.FanOut.{fan_out};
ghost use Rattle.matchers.specs.Meaning.{allowed_of, operand_in, lookup_items, stands_for};
ghost use Rattle.matchers.specs.Cursors.{held_words, with_label, in_phase, matches_left, items_left, asked, cursor_after, first_cursor};
ghost use Rattle.counted_iter.specs.Counted.{count_of, first_asked};

use fst::{Label, Matched, Refusal, StateId, inner_label, next_tr, num_records};
use matchers::{Cursor, IterItemMatcher, Phase, Sigma, looked, next_match, sigma_iter};

// What a look-up states of its matches: how many there are and the first of them, None where there is none; with the cursor to ask on with.
pub type Counted = (Option<(u64, IterItemMatcher)>, Cursor);

// The same, or the refusal of the look-up.
pub type CountedIter = Result<Counted, Refusal>;

// How many records from t on have the label on a side.
fn count_label(m: Matched<'_>, label: Label, t: u32) -> u64
    ensures value { result ≡ length (with_label (on_of m.entry.on) (words_as_read m.entry) label.0 t) }
    ensures few { result ≤ MAX }
{
    if num_records(m.words) < t {
        return 0;
    }
    let mut n: u64 = 0;
    let mut at = t;
    while at != 0 {
        n += u64::from(inner_label(m, at) == label);
        at = next_tr(m.words, at);
    }
    n
}

// How many matches a cursor has still to give, the loop left out: by its phase.
fn count_phase(m: &[u32], cursor: Cursor, ignored: &[u32]) -> u64
    ensures value { result ≡ length (in_phase cursor.phase (held_words cursor ignored.now m.now) cursor) }
    ensures few { result ≤ MAX + MAX }
{
    let read = Matched {
        words: m,
        on: cursor.on,
        sigmas: cursor.labels,
        ignored,
    };
    match cursor.phase {
        Phase::Own => {
            let own = count_label(read, looked(cursor.label), cursor.tr);
            own + count_label(read, cursor.sigma, cursor.sigmas)
        }
        Phase::Sigmas => count_label(read, cursor.sigma, cursor.tr),
    }
}

// How many matches a cursor has still to give.
pub fn count_left(m: &[u32], cursor: Cursor, ignored: &[u32]) -> u64
    ensures { result ≡ length (matches_left (held_words cursor ignored.now m.now) cursor) }
{
    count_phase(m, cursor, ignored) + u64::from(cursor.loops)
}

// The number of a cursor's matches with the first of them.
fn counted(m: &[u32], cursor: Cursor, ignored: &[u32]) -> Counted
    ensures result_value { count_of result ≡ length (matches_left (held_words cursor ignored.now m.now) cursor) }
    ensures first { let words = held_words cursor ignored.now m.now in
        first_asked words result ≡ asked (items_left words cursor) }
    ensures place { result.1 ≡ cursor_after (held_words cursor ignored.now m.now) cursor }
{
    let n = count_left(m, cursor, ignored);
    let (found, next) = next_match(m, cursor, ignored);
    (found.map(|first| (n, first)), next)
}

// The matches of a label at a state: how many, and the first; or refusal 11 where the label is sigma.
pub fn counted_iter(
    m: Matched<'_>,
    sigma: Sigma,
    allowed: &[u32],
    s: StateId,
    label: Label,
) -> CountedIter
    ensures result_value { let words = words_as_read m.entry in
        let allowed = allowed_of sigma.listed allowed.entry.now in
        let operand = operand_in (on_of m.entry.on) words sigma allowed in
        checked_by count_of result ≡ fan_out operand s.0 label.0 }
    ensures first { let words = words_as_read m.entry in
        let allowed = allowed_of sigma.listed allowed.entry.now in
        let operand = operand_in (on_of m.entry.on) words sigma allowed in
        checked_by (first_asked words) result ≡ and_then (lookup_items operand s.0 label.0) (λ items. good (asked items)) }
    ensures place { let words = words_as_read m.entry in
        let both = (operand_in (on_of m.entry.on) words sigma None).sigma.rewrite_both in
        let from = cond (stands_for sigma.label.0 (allowed_of sigma.listed allowed.now) label.0) (first_of words s.0) 0 in
        IfOk result (λ counted. counted.1 ≡ cursor_after words (first_cursor words m.entry.on m.entry.sigmas s label sigma.label both from)) }
{
    let cursor = sigma_iter(m, sigma, allowed, s, label)?;
    Ok(counted(m.words, cursor, m.ignored))
}
