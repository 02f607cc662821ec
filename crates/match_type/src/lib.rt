// The choice of the side (compose_fst_op.rs, `match_type`), with refusals 4 to 7 in their order.
#![tactic(auto)]

ghost use Rattle.std.specs.Prelude.{◌≡◌, true, false, not, ◌&&◌, ◌||◌, eqb};
ghost use Rattle.words.specs.Labels.{eps_label, no_label};
ghost use Rattle.words.specs.Matches.{inputs, outputs};
ghost use Rattle.words.specs.Machines.{side_mark, sorted as sortedOf, machine_of, well_formed};
ghost use Rattle.words.specs.Sides.{side_by, side_of};
ghost use Rattle.fst.specs.Meaning.{on_of, words_as_read, first_of_two, second_of_two, first_operand, second_operand};
ghost use Rattle.fst.specs.Refusals.{checked_by};
ghost use Rattle.fst.specs.declared.MatchType.TheVariants.{MatchInput, MatchOutput};
ghost use Rattle.match_type.specs.Chosen.{side_means};

use fst::{EPS_LABEL, Label, Machines, MatchType, Matched, NO_LABEL, Refusal, inner_mark};
use fst_properties::sorted;

// One direction in every state, or both.
#[derive(Clone, Copy)]
pub enum Side {
    Only(MatchType),
    Both,
}

fn has_eps(a: Label, b: Label) -> bool
    ensures { result ≡ (eqb a.0 eps_label || eqb b.0 eps_label) }
{
    a == EPS_LABEL || b == EPS_LABEL
}

// Whether a side of a well-formed machine is sorted as it is read. A mark of 1 or 2 is true of it: the lists are looked at where the mark is read as 0.
fn known_sorted(m: Matched<'_>) -> bool
    requires { well_formed m.words.now ≡ true }
    ensures { result ≡ sortedOf (on_of m.entry.on) (machine_of (words_as_read m.entry)) }
{
    match inner_mark(m.words, m.on, m.ignored) {
        1 => true,
        2 => false,
        _ => sorted(m),
    }
}

// A sigma label is set, and the side on which the machine is matched is not sorted.
fn lacks_order(m: Matched<'_>, sigma: Label) -> bool
    requires { well_formed m.words.now ≡ true }
    ensures { result ≡ (not (eqb sigma.0 no_label) && not (sortedOf (on_of m.entry.on) (machine_of (words_as_read m.entry)))) }
{
    sigma != NO_LABEL && !known_sorted(m)
}

// By the lists, machine 1 first; else refusal 7.
fn side_by_lists(two: Machines<'_>) -> Result<Side, Refusal>
    requires { (well_formed two.m1.now ≡ true) × (well_formed two.m2.now ≡ true) }
    ensures { let words1 = words_as_read (first_of_two two.entry) in
        let words2 = words_as_read (second_of_two two.entry) in
        checked_by side_means result ≡ side_by false false (sortedOf outputs (machine_of words1)) (sortedOf inputs (machine_of words2)) }
{
    if known_sorted(two.first()) {
        return Ok(Side::Only(MatchType::MatchOutput));
    }
    if known_sorted(two.second()) {
        return Ok(Side::Only(MatchType::MatchInput));
    }
    Err(Refusal::NoSide)
}

// By the marks; where none is 1, by the lists.
fn side_by_marks(two: Machines<'_>) -> Result<Side, Refusal>
    requires { (well_formed two.m1.now ≡ true) × (well_formed two.m2.now ≡ true) }
    ensures { let words1 = words_as_read (first_of_two two.entry) in
        let words2 = words_as_read (second_of_two two.entry) in
        let mark1 = eqb (side_mark outputs words1) 1 in
        let mark2 = eqb (side_mark inputs words2) 1 in
        checked_by side_means result ≡ side_by mark1 mark2 (sortedOf outputs (machine_of words1)) (sortedOf inputs (machine_of words2)) }
{
    let mark1 = inner_mark(two.m1, MatchType::MatchOutput, two.ignored);
    let mark2 = inner_mark(two.m2, MatchType::MatchInput, two.ignored);
    if mark1 == 1 {
        if mark2 == 1 {
            return Ok(Side::Both);
        }
        return Ok(Side::Only(MatchType::MatchOutput));
    }
    if mark2 == 1 {
        return Ok(Side::Only(MatchType::MatchInput));
    }
    side_by_lists(two)
}

// The side of a composition of well-formed machines. Machine 1 is matched on outputs, 2 on inputs; a sigma label NO_LABEL means none.
pub fn match_type(two: Machines<'_>) -> Result<Side, Refusal>
    requires { (well_formed two.m1.now ≡ true) × (well_formed two.m2.now ≡ true) }
    ensures { checked_by side_means result ≡ side_of (first_operand two.entry) (second_operand two.entry) }
{
    if has_eps(two.sigmas.first, two.sigmas.second) {
        return Err(Refusal::SigmaEps);
    }
    if lacks_order(two.first(), two.sigmas.first) {
        return Err(Refusal::Unsorted1);
    }
    if lacks_order(two.second(), two.sigmas.second) {
        return Err(Refusal::Unsorted2);
    }
    side_by_marks(two)
}
