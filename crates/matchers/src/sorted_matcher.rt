// The sorted look-up (sorted_matcher.rs), on any list: what it gives does not depend on the order of labels.
ghost use Rattle.std.specs.Prelude.{◌≡◌, false};
ghost use Rattle.words.specs.Labels.{no_label};
ghost use Rattle.fst.specs.Meaning.{on_of, words_as_read};
ghost use Rattle.matchers.specs.Meaning.{sorted_items};
ghost use Rattle.matchers.specs.Cursors.{items_left, first_cursor};

use crate::{Cursor, Phase, looked, seek};
use fst::{EPS_LABEL, Label, Matched, NO_LABEL, StateId, first_tr};

// The matches of a label at a state.
pub fn sorted_iter(m: Matched<'_>, s: StateId, label: Label) -> Cursor
    ensures result_value { let words = words_as_read m.entry in
        items_left words result ≡ sorted_items (on_of m.entry.on) words s.0 label.0 }
    ensures place { result ≡ first_cursor (words_as_read m.entry) m.entry.on m.entry.sigmas s label (record { 0 = no_label }) false 0 }
{
    let tr = seek(m, looked(label), first_tr(m.words, s));
    Cursor {
        on: m.on,
        label,
        sigma: NO_LABEL,
        labels: m.sigmas,
        both: false,
        phase: Phase::Own,
        loops: label == EPS_LABEL,
        tr,
        sigmas: 0,
    }
}
