// The check of a machine: it refuses exactly what document 01 calls malformed.
ghost use Rattle.std.specs.Prelude.{◌≡◌, true, eqb, []};
ghost use Rattle.words.specs.Matches.{MatchType as Side, inputs, outputs};
ghost use Rattle.words.specs.Machines.{side_mark, acceptor_mark, machine_of, sorted as sortedOf, acceptor as acceptorOf, side_mark_ok, acceptor_mark_ok, marks_ok, well_formed};
ghost use Rattle.fst.specs.Meaning.{on_of};
ghost use Rattle.fst_properties.specs.RecordTests.{form_fits};

use crate::form::form_fits;
use crate::properties::{acceptor, sorted};
use fst::{MatchType, Matched, NO_SIGMAS, acceptor_mark, side_mark};

// "Malformed is judged on the machines as lent": no label is ignored.
fn lent<'a>(words: &'a [u32], on: MatchType) -> Matched<'a>
    ensures words { (result.words ≡ words.entry) × (result.on ≡ on) }
    ensures ignored { (result.sigmas ≡ NO_SIGMAS) × (result.ignored.now ≡ []) }
{
    Matched {
        words,
        on,
        sigmas: NO_SIGMAS,
        ignored: &[],
    }
}

#[tactic(auto, using(words::proofs::ReplacedLaws::read_none))]
fn lent_sorted(m: &[u32], on: MatchType) -> bool
    ensures { result ≡ sortedOf (on_of on) (machine_of m.now) }
{
    sorted(lent(m, on))
}

#[tactic(auto, using(words::proofs::ReplacedLaws::read_none))]
fn lent_acceptor(m: &[u32]) -> bool
    ensures { result ≡ acceptorOf m.now }
{
    acceptor(lent(m, MatchType::MatchInput))
}

// A side whose mark is 0 is not looked at; nor one whose mark is 1, where it is known that no record falls on such a side.
fn side_mark_ok(m: &[u32], on: MatchType, rising: bool) -> bool
    requires { rising ≡ true → side_mark (on_of on) m.now ≡ 1 → sortedOf (on_of on) (machine_of m.now) ≡ true }
    ensures { result ≡ side_mark_ok (side_mark (on_of on) m.now) (sortedOf (on_of on) (machine_of m.now)) }
{
    match side_mark(m, on) {
        0 => true,
        1 => rising || lent_sorted(m, on),
        2 => !lent_sorted(m, on),
        _ => false,
    }
}

fn acceptor_mark_ok(m: &[u32]) -> bool
    ensures { result ≡ acceptor_mark_ok (acceptor_mark m.now) (acceptorOf m.now) }
{
    match acceptor_mark(m) {
        0 => true,
        1 => lent_acceptor(m),
        _ => false,
    }
}

#[tactic(auto, unfolding(words::specs::Machines::marks_ok))]
fn marks_ok(m: &[u32], rising: bool) -> bool
    requires { rising ≡ true → (on : Side) → side_mark on m.now ≡ 1 → sortedOf on (machine_of m.now) ≡ true }
    ensures { result ≡ marks_ok m.now }
{
    side_mark_ok(m, MatchType::MatchInput, rising)
        && side_mark_ok(m, MatchType::MatchOutput, rising)
        && acceptor_mark_ok(m)
}

// Whether the form is good, and no label falls from a record to its next on a side whose mark is 1.
fn formed_and_rising(m: &[u32]) -> bool
    ensures { result ≡ form_fits (eqb (side_mark inputs m.now) 1) (eqb (side_mark outputs m.now) 1) m.now }
{
    let input_mark = side_mark(m, MatchType::MatchInput);
    let output_mark = side_mark(m, MatchType::MatchOutput);
    form_fits(m, input_mark == 1, output_mark == 1)
}

// The form, then the marks. Where a label falls, the record may be in no list: then the form is looked at by itself, and sortedness is asked for on a side whose mark is 1.
#[tactic(auto, using(crate::proofs::Fits::marked_sorted, crate::proofs::Fits::marks_left, crate::proofs::Fits::form_broken))]
pub fn well_formed(m: &[u32]) -> bool
    ensures { result ≡ well_formed m.now }
{
    if formed_and_rising(m) {
        return marks_ok(m, true);
    }
    form_fits(m, false, false) && marks_ok(m, false)
}
