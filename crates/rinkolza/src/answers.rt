// What a call answered, written into the lent words; the number is returned.
ghost use Rattle.std.specs.Prelude.{◌≡◌, [], length};
ghost use Rattle.calls.specs.Store.{Memory};
ghost use Rattle.calls.specs.Sequences.{accepted, part, weight};
ghost use Rattle.lazy_fst.specs.Meaning.{left, part_left, weight_left};
ghost use Rattle.rinkolza.specs.Trusted.{piece_left};
ghost use Rattle.rinkolza.specs.Exported.{leaves, in_words, session_words, part_words, handed_part};

use crate::slices::{USED_STATES, write_answer, write_session};
use fst::{StateId, word};
use lazy_fst::{Answer, PartAnswer, WeightAnswer};
use store_records::{first_of, tr_room};

// Of open and run: the session alone. A refused run hands back the one of the expansions kept.
pub fn leave(session: &mut [u32], answer: Answer) -> u32
    requires { length session.old ≡ 9 }
    ensures { (m : Memory) → leaves result session.new [] m ≡ in_words (λ u. accepted) [] (left answer m) }
{
    match answer {
        Ok(next) => {
            write_session(session, next);
            0
        }
        Err((refusal, kept)) => {
            write_session(session, kept);
            u32::from(refusal)
        }
    }
}

// Of expand: the session, and the first and the count of the state's records.
pub fn leave_part(session: &mut [u32], words: &mut [u32], answer: PartAnswer) -> u32
    requires { (length session.old ≡ 9) × (length words.old ≡ 2) }
    ensures { (m : Memory) → leaves result session.new words.new m ≡ in_words part words.old (part_left answer m) }
{
    match answer {
        Ok((found, next)) => {
            write_session(session, next);
            write_answer(words, found.first, found.count);
            0
        }
        Err((refusal, same)) => {
            write_session(session, same);
            u32::from(refusal)
        }
    }
}

// Of a piece of a run: the session; the state with which the next piece goes on, and how many found states there are from it on.
pub fn leave_piece(session: &mut [u32], words: &mut [u32], next: StateId, answer: Answer) -> u32
    requires { (length session.old ≡ 9) × (length words.old ≡ 2) }
    ensures { (m : Memory) → leaves result session.new words.new m ≡ piece_left next.0 (left answer m) }
{
    let number = leave(session, answer);
    let found = word(session, USED_STATES);
    write_answer(words, next.0, found.saturating_sub(next.0));
    number
}

// Of final weight: whether the state is final, and its weight. The session that it hands back is the one that it got.
pub fn leave_weight(words: &mut [u32], answer: WeightAnswer) -> u32
    requires { length words.old ≡ 2 }
    ensures { (m : Memory) →
        leaves result (session_words (weight_left answer m).session) words.new m ≡ in_words weight words.old (weight_left answer m) }
{
    match answer {
        Ok((Some(w), _)) => {
            write_answer(words, 1, w);
            0
        }
        Ok((None, _)) => {
            write_answer(words, 0, 0);
            0
        }
        Err((refusal, _)) => u32::from(refusal),
    }
}

// Of handing back: the first and the count of the records that were handed back from state n's list.
pub fn leave_handed(words: &mut [u32], states: &[u32], n: StateId, handed: &[u32])
    requires { length words.old ≡ 2 }
    ensures { words.new ≡ part_words (handed_part states.now n.0 handed.now) }
{
    let count = tr_room(handed);
    let first = if count == 0 { 0 } else { first_of(states, n) };
    write_answer(words, first, count);
}
