// Sortedness of a side and the acceptor property, in fact, of a machine whose labels on that side are read through a list of ignored ones: on every slice, and in time bounded
// by its length and the list's.
ghost use Rattle.std.specs.Prelude.{◌≡◌, min};
ghost use Rattle.words.specs.Machines.{acceptor_mark, sorted as sortedOf, acceptor as acceptorOf, machine_of};
ghost use Rattle.fst.specs.Meaning.{on_of, words_as_read};

use crate::records::{RecordTest, all_records};
use crate::seen::{SEEN_WORDS, is_seen, see};
use fst::{
    EPS_LABEL, Matched, STATE_WORDS, StateId, TR_WORDS, acceptor_mark, first_tr, inner_label,
    next_tr, num_records, num_states,
};

// The lesser of a count and the room for it. What lies past the end reads as 0, so that no look at it is needed, whatever the header says.
fn least(n: u32, room: usize) -> u32
    ensures { result ≡ min n room }
{
    (n as usize).min(room) as u32
}

// Walks the list of each state, down to a record that an earlier walk has seen: from there on no label falls. So each record that has a bit in `seen` is
// passed once, though lists share tails. Which have one goes by how many there are, `records`; the answer does not. Left by the label at the first label
// that falls.
fn lists_sorted(m: Matched<'_>, records: u32) -> bool
    ensures { result ≡ sortedOf (on_of m.entry.on) (machine_of (words_as_read m.entry)) }
{
    let n = least(num_states(m.words), m.words.len() / STATE_WORDS);
    let mut seen = [0u32; SEEN_WORDS];
    let mut ok = true;
    'states: for s in 0..n {
        let mut low = EPS_LABEL;
        let mut t = first_tr(m.words, StateId(s));
        'list: while t != 0 {
            let label = inner_label(m, t);
            if label < low {
                ok = false;
                break 'states;
            }
            if is_seen(&seen, records, t) {
                break 'list;
            }
            see(&mut seen, records, t);
            low = label;
            t = next_tr(m.words, t);
        }
    }
    ok
}

// Whether no label falls within any list. Where no record falls against its next, no list is walked.
#[tactic(auto, using(crate::proofs::Falls::near_sorted, words::proofs::ReplacedLaws::read_count, words::proofs::ReplacedLaws::read_length))]
pub fn sorted(m: Matched<'_>) -> bool
    ensures { result ≡ sortedOf (on_of m.entry.on) (machine_of (words_as_read m.entry)) }
{
    let n = least(num_records(m.words), m.words.len() / TR_WORDS);
    all_records(m, RecordTest::Rises, n) || lists_sorted(m, n)
}

// Whether input equals output in every record, in a list or not.
pub fn acceptor(m: Matched<'_>) -> bool
    ensures { result ≡ acceptorOf (words_as_read m.entry) }
{
    let n = least(num_records(m.words), m.words.len() / TR_WORDS);
    all_records(m, RecordTest::SameLabels, n)
}

// The acceptor mark as it is read: 0 where replaced labels make it false.
#[tactic(auto, using(words::proofs::ReplacedLaws::acceptor_mark_read, words::proofs::ReplacedLaws::otherwise_none, words::proofs::ReplacedLaws::otherwise_some))]
pub fn inner_acceptor_mark(m: Matched<'_>) -> u32
    ensures { result ≡ acceptor_mark (words_as_read m.entry) }
{
    let mark = acceptor_mark(m.words);
    if m.ignored.is_empty() || mark == 0 || acceptor(m) {
        mark
    } else {
        0
    }
}
