// Tests of one transition record, and of a run of records.
ghost use Rattle.std.specs.Prelude.{◌≡◌, eqb};
ghost use Rattle.lists.specs.Lists.{every, interval};
ghost use Rattle.words.specs.Machines.{tr_word};
ghost use Rattle.fst.specs.Meaning.{on_of, words_as_read};
ghost use Rattle.fst_properties.specs.RecordTests.{rises as risesOf, test_of};

use fst::{MatchType, Matched, inner_label, label_on, next_tr};

// What is asked of a record: input equal to output, or that no label falls from it to the next in its list.
#[derive(Clone, Copy)]
pub enum RecordTest {
    SameLabels,
    Rises,
}

#[tactic(auto, using(words::proofs::ReplacedLaws::read_word))]
fn same_labels(m: Matched<'_>, t: u32) -> bool
    ensures { let words = words_as_read m.entry in
        result ≡ eqb (tr_word words t 0) (tr_word words t 1) }
{
    let inner = inner_label(m, t);
    match m.on {
        MatchType::MatchInput => inner == label_on(m.words, MatchType::MatchOutput, t),
        MatchType::MatchOutput => inner == label_on(m.words, MatchType::MatchInput, t),
    }
}

#[tactic(auto, unfolding(crate::specs::RecordTests::rises), using(words::proofs::ReplacedLaws::read_next))]
fn rises(m: Matched<'_>, t: u32) -> bool
    ensures { result ≡ risesOf (on_of m.entry.on) (words_as_read m.entry) t }
{
    let next = next_tr(m.words, t);
    next == 0 || inner_label(m, t) <= inner_label(m, next)
}

fn passes(m: Matched<'_>, test: RecordTest, t: u32) -> bool
    ensures { result ≡ test_of test (on_of m.entry.on) (words_as_read m.entry) t }
{
    match test {
        RecordTest::SameLabels => same_labels(m, t),
        RecordTest::Rises => rises(m, t),
    }
}

// Whether the records 1 to n pass. Left by the label at the first that does not.
#[tactic(auto, using(lists::proofs::Runs::run_turn, lists::proofs::Runs::run_end))]
pub fn all_records(m: Matched<'_>, test: RecordTest, n: u32) -> bool
    ensures { result ≡ every (test_of test (on_of m.entry.on) (words_as_read m.entry)) (interval 1 n) }
{
    let mut ok = true;
    'records: for done in 0..n {
        if !passes(m, test, done + 1) {
            ok = false;
            break 'records;
        }
    }
    ok
}
