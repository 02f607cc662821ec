// Labels that count as 0 (document 02, 2.7 and 2.8).
ghost use Rattle.std.specs.Prelude.{◌≡◌, ◌||◌, eqb};
ghost use Rattle.words.specs.Sigmas.{has as hasLabel};
ghost use Rattle.words.specs.Ignored.{heard as heardAs};
ghost use Rattle.fst.specs.Meaning.{ignored_under};

use crate::{EPS_LABEL, Label, Sigmas};

// So many items are asked item by item: a list of no more, and the first ones of a longer list.
const FEW: usize = 8;

// Whether the label stands in the list, item by item.
fn in_turn(list: &[u32], label: Label) -> bool
    ensures { result ≡ hasLabel label.0 list.now }
{
    for &x in list {
        if x == label.0 {
            return true;
        }
    }
    false
}

// The same, eight items at once, and four of those that are left. Not inlined: the loops that read labels mostly have no list or a short one.
#[inline(never)]
fn at_once(list: &[u32], label: Label) -> bool
    ensures { result ≡ hasLabel label.0 list.now }
{
    let (eights, rest) = list.as_chunks::<8>();
    for eight in eights {
        if eight.contains(&label.0) {
            return true;
        }
    }
    match rest.split_first_chunk::<4>() {
        Some((four, last)) => four.contains(&label.0) || in_turn(last, label),
        None => in_turn(rest, label),
    }
}

// Whether the label stands in the list: any words, in any order. Inlined into the loops that read labels, as are `heard` and `inner_label`.
#[inline(always)]
pub fn has(list: &[u32], label: Label) -> bool
    ensures { result ≡ hasLabel label.0 list.now }
{
    if list.len() <= FEW {
        return in_turn(list, label);
    }
    let (early, late) = list.split_at(FEW);
    in_turn(early, label) || at_once(late, label)
}

// Whether the label is a sigma label, of either machine: such a label is never replaced.
fn is_sigma(sigmas: Sigmas, label: Label) -> bool
    ensures { result ≡ (eqb label.0 sigmas.first.0 || eqb label.0 sigmas.second.0) }
{
    label == sigmas.first || label == sigmas.second
}

// An inner label as the composition reads it: 0 where the list holds it and it is no sigma label.
#[inline(always)]
pub fn heard(sigmas: Sigmas, ignored: &[u32], label: Label) -> Label
    ensures { result.0 ≡ heardAs (ignored_under sigmas ignored.now) label.0 }
{
    if !has(ignored, label) {
        return label;
    }
    if is_sigma(sigmas, label) {
        label
    } else {
        EPS_LABEL
    }
}
