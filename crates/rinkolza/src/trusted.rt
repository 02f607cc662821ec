// The calls without their checks 1 to 8, for a caller that owns its memory: after an accepted opening, while nobody else writes, the checks pass (`include/rinkolza.h` says what such a
// caller owes). Lengths are still looked at, 1 (of a session that has not nine words nothing is asked), and 9 to 13 answered. A run is made in pieces. The two that expand are lent a memo for
// each machine, in which what is remembered of its lists is true and stays so.
ghost use Rattle.std.specs.Prelude.{◌≡◌, true};
ghost use Rattle.words.specs.Matches.{inputs, outputs};
ghost use Rattle.calls.specs.Checks.{Passes};
ghost use Rattle.store_records.specs.Meaning.{memory_of};
ghost use Rattle.rinkolza.specs.Exported.{session_at, nine, lent_words, leaves, expand_words, final_weight_words, records_words};
ghost use Rattle.rinkolza.specs.Trusted.{piece_words, final_weights_words, Memos, expand_memo, piece_memo};

use crate::answers::{leave_handed, leave_part, leave_piece, leave_weight};
use crate::slices::{ANSWER_WORDS, SESSION_WORDS, listed_by, read_session, sized, write_answer};
use final_weights::{found, write_weights};
use fst::{Refusal, StateId};
use list_facts::MEMO_WORDS;

// Expands state n.
#[tactic(auto, unfolding(crate::specs::Exported::expand_words, crate::specs::Trusted::expand_memo))]
#[unsafe(no_mangle)]
pub extern "C" fn rinkolza_trusted_expand(
    session: &mut [u32],
    m1: &[u32],
    m2: &[u32],
    allowed1: &[u32],
    has1: u32,
    allowed2: &[u32],
    has2: u32,
    ignored: &[u32],
    heads: &mut [u32],
    states: &mut [u32],
    trs: &mut [u32],
    memo1: &mut [u32; MEMO_WORDS],
    memo2: &mut [u32; MEMO_WORDS],
    n: u32,
    answer: &mut [u32],
) -> u32
    requires { let l = lent_words m1.now m2.now allowed1.now has1 allowed2.now has2 ignored.now in
        (nine session.old ≡ true → Passes l (session_at session.old) (memory_of heads.old states.old trs.old))
        × Memos l session.old memo1.old memo2.old }
    ensures m_after { let l = lent_words m1.now m2.now allowed1.now has1 allowed2.now has2 ignored.now in
        let m = memory_of heads.old states.old trs.old in
        let m' = memory_of heads.new states.new trs.new in
        leaves result session.new answer.new m' ≡ expand_words l session.old answer.old m n }
    ensures asked { let l = lent_words m1.now m2.now allowed1.now has1 allowed2.now has2 ignored.now in
        let m = memory_of heads.old states.old trs.old in
        (memo1.new ≡ expand_memo outputs l session.old answer.old m n memo1.old)
        × (memo2.new ≡ expand_memo inputs l session.old answer.old m n memo2.old) }
    ensures remembered { let l = lent_words m1.now m2.now allowed1.now has1 allowed2.now has2 ignored.now in
        Memos l session.old memo1.new memo2.new }
{
    if !sized(session, answer) {
        return u32::from(Refusal::Settings);
    }
    let given = read_session(session);
    let listed = listed_by(has1, has2);
    let done = given.trusted_expand(
        m1,
        m2,
        allowed1,
        allowed2,
        ignored,
        listed,
        heads,
        states,
        trs,
        memo1,
        memo2,
        StateId(n),
    );
    leave_part(session, answer, done)
}

// The final weight of state n.
#[tactic(auto, unfolding(crate::specs::Exported::final_weight_words))]
#[unsafe(no_mangle)]
pub extern "C" fn rinkolza_trusted_final_weight(
    session: &[u32],
    m1: &[u32],
    m2: &[u32],
    allowed1: &[u32],
    has1: u32,
    allowed2: &[u32],
    has2: u32,
    ignored: &[u32],
    heads: &[u32],
    states: &[u32],
    trs: &[u32],
    n: u32,
    answer: &mut [u32],
) -> u32
    requires { let l = lent_words m1.now m2.now allowed1.now has1 allowed2.now has2 ignored.now in
        nine session.now ≡ true → Passes l (session_at session.now) (memory_of heads.now states.now trs.now) }
    ensures { let l = lent_words m1.now m2.now allowed1.now has1 allowed2.now has2 ignored.now in
        let m = memory_of heads.now states.now trs.now in
        leaves result session.now answer.new m ≡ final_weight_words l session.now answer.old m n }
{
    if !sized(session, answer) {
        return u32::from(Refusal::Settings);
    }
    let given = read_session(session);
    let listed = listed_by(has1, has2);
    let done = given.trusted_final_weight(
        m1,
        m2,
        allowed1,
        allowed2,
        ignored,
        listed,
        heads,
        states,
        trs,
        StateId(n),
    );
    leave_weight(answer, done)
}

// The final weights of all found states, two words for each in number order.
#[tactic(auto, unfolding(crate::specs::Trusted::final_weights_words))]
#[unsafe(no_mangle)]
pub extern "C" fn rinkolza_trusted_final_weights(
    session: &[u32],
    m1: &[u32],
    m2: &[u32],
    allowed1: &[u32],
    has1: u32,
    allowed2: &[u32],
    has2: u32,
    ignored: &[u32],
    heads: &[u32],
    states: &[u32],
    trs: &[u32],
    answer: &mut [u32],
) -> u32
    requires { let l = lent_words m1.now m2.now allowed1.now has1 allowed2.now has2 ignored.now in
        nine session.now ≡ true → Passes l (session_at session.now) (memory_of heads.now states.now trs.now) }
    ensures { let l = lent_words m1.now m2.now allowed1.now has1 allowed2.now has2 ignored.now in
        let m = memory_of heads.now states.now trs.now in
        leaves result session.now answer.new m ≡ final_weights_words l session.now answer.old m }
{
    if session.len() != SESSION_WORDS {
        return u32::from(Refusal::Settings);
    }
    let given = read_session(session);
    let count = found(given);
    if answer.len() != ANSWER_WORDS * (count as usize) {
        return u32::from(Refusal::Settings);
    }
    let listed = listed_by(has1, has2);
    let weights = write_weights(
        given, m1, m2, allowed1, allowed2, ignored, listed, heads, states, trs, answer,
    );
    match weights {
        Ok(()) => 0,
        Err(refusal) => u32::from(refusal),
    }
}

// A piece of a run: from state n on, in number order, at most k states, until none is left or one is refused.
#[tactic(auto, unfolding(crate::specs::Trusted::piece_words, crate::specs::Trusted::piece_memo))]
#[unsafe(no_mangle)]
pub extern "C" fn rinkolza_trusted_run(
    session: &mut [u32],
    m1: &[u32],
    m2: &[u32],
    allowed1: &[u32],
    has1: u32,
    allowed2: &[u32],
    has2: u32,
    ignored: &[u32],
    heads: &mut [u32],
    states: &mut [u32],
    trs: &mut [u32],
    memo1: &mut [u32; MEMO_WORDS],
    memo2: &mut [u32; MEMO_WORDS],
    n: u32,
    k: u32,
    answer: &mut [u32],
) -> u32
    requires { let l = lent_words m1.now m2.now allowed1.now has1 allowed2.now has2 ignored.now in
        (nine session.old ≡ true → Passes l (session_at session.old) (memory_of heads.old states.old trs.old))
        × Memos l session.old memo1.old memo2.old }
    ensures m_after { let l = lent_words m1.now m2.now allowed1.now has1 allowed2.now has2 ignored.now in
        let m = memory_of heads.old states.old trs.old in
        let m' = memory_of heads.new states.new trs.new in
        leaves result session.new answer.new m' ≡ piece_words l session.old answer.old m n k }
    ensures asked { let l = lent_words m1.now m2.now allowed1.now has1 allowed2.now has2 ignored.now in
        let m = memory_of heads.old states.old trs.old in
        (memo1.new ≡ piece_memo outputs l session.old answer.old m n k memo1.old)
        × (memo2.new ≡ piece_memo inputs l session.old answer.old m n k memo2.old) }
    ensures remembered { let l = lent_words m1.now m2.now allowed1.now has1 allowed2.now has2 ignored.now in
        Memos l session.old memo1.new memo2.new }
{
    if !sized(session, answer) {
        return u32::from(Refusal::Settings);
    }
    let given = read_session(session);
    let listed = listed_by(has1, has2);
    let piece = given.trusted_run(
        m1,
        m2,
        allowed1,
        allowed2,
        ignored,
        listed,
        heads,
        states,
        trs,
        memo1,
        memo2,
        StateId(n),
        k,
    );
    leave_piece(session, answer, piece.next, piece.answer)
}

// The first and the count of an expanded state's records; no number.
#[tactic(auto, unfolding(crate::specs::Exported::records_words, calls::specs::Store::room_with))]
#[unsafe(no_mangle)]
pub extern "C" fn rinkolza_trusted_records(
    session: &[u32],
    m1: &[u32],
    m2: &[u32],
    allowed1: &[u32],
    has1: u32,
    allowed2: &[u32],
    has2: u32,
    ignored: &[u32],
    heads: &[u32],
    states: &[u32],
    trs: &[u32],
    n: u32,
    answer: &mut [u32],
)
    requires { let l = lent_words m1.now m2.now allowed1.now has1 allowed2.now has2 ignored.now in
        nine session.now ≡ true → Passes l (session_at session.now) (memory_of heads.now states.now trs.now) }
    ensures { let l = lent_words m1.now m2.now allowed1.now has1 allowed2.now has2 ignored.now in
        let m = memory_of heads.now states.now trs.now in
        answer.new ≡ records_words l session.now answer.old m n }
{
    if answer.len() != ANSWER_WORDS {
        return;
    }
    if session.len() != SESSION_WORDS {
        write_answer(answer, 0, 0);
        return;
    }
    let given = read_session(session);
    let listed = listed_by(has1, has2);
    let handed = given.trusted_records(
        m1,
        m2,
        allowed1,
        allowed2,
        ignored,
        listed,
        heads,
        states,
        trs,
        StateId(n),
    );
    leave_handed(answer, states, StateId(n), handed);
}
