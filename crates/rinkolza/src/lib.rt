// The five calls for C and Rust, and in `fan_out` the look-up of 02, 2.6: `include/rinkolza.h` says what each word and number means. None of these has a precondition; those of `trusted`, for a caller
// that owns its memory, ask that the checks 1 to 8 pass.
#![tactic(auto)]

mod answers;
pub mod fan_out;
mod slices;
pub mod trusted;

ghost use Rattle.std.specs.Prelude.{◌≡◌, []};
ghost use Rattle.store_records.specs.Meaning.{memory_of};
ghost use Rattle.rinkolza.specs.Exported.{lent_words, leaves, open_words, expand_words, final_weight_words, run_words, records_words};

use answers::{leave, leave_handed, leave_part, leave_weight};
use fst::{Refusal, StateId};
use session_checks::{SETTINGS_WORDS, read_settings};
use slices::{ANSWER_WORDS, SESSION_WORDS, listed_by, read_session, sized, write_answer};

// Opens a session with six settings.
#[tactic(auto, unfolding(crate::specs::Exported::open_words))]
#[unsafe(no_mangle)]
pub extern "C" fn rinkolza_open(
    settings: &[u32],
    session: &mut [u32],
    m1: &[u32],
    m2: &[u32],
    allowed1: &[u32],
    has1: u32,
    allowed2: &[u32],
    has2: u32,
    ignored: &[u32],
    heads: &mut [u32],
    states: &mut [u32],
    trs: &mut [u32],
) -> u32
    ensures { let l = lent_words m1.now m2.now allowed1.now has1 allowed2.now has2 ignored.now in
        let m = memory_of heads.old states.old trs.old in
        let m' = memory_of heads.new states.new trs.new in
        leaves result session.new [] m' ≡ open_words settings.now l session.old m }
{
    if settings.len() != SETTINGS_WORDS || session.len() != SESSION_WORDS {
        return u32::from(Refusal::Settings);
    }
    let given = read_session(session);
    let wanted = read_settings(settings);
    let listed = listed_by(has1, has2);
    let answer = given.open(
        wanted, m1, m2, allowed1, allowed2, ignored, listed, heads, states, trs,
    );
    leave(session, answer)
}

// Expands state n.
#[tactic(auto, unfolding(crate::specs::Exported::expand_words))]
#[unsafe(no_mangle)]
pub extern "C" fn rinkolza_expand(
    session: &mut [u32],
    m1: &[u32],
    m2: &[u32],
    allowed1: &[u32],
    has1: u32,
    allowed2: &[u32],
    has2: u32,
    ignored: &[u32],
    heads: &mut [u32],
    states: &mut [u32],
    trs: &mut [u32],
    n: u32,
    answer: &mut [u32],
) -> u32
    ensures { let l = lent_words m1.now m2.now allowed1.now has1 allowed2.now has2 ignored.now in
        let m = memory_of heads.old states.old trs.old in
        let m' = memory_of heads.new states.new trs.new in
        leaves result session.new answer.new m' ≡ expand_words l session.old answer.old m n }
{
    if !sized(session, answer) {
        return u32::from(Refusal::Settings);
    }
    let given = read_session(session);
    let listed = listed_by(has1, has2);
    let done = given.expand(
        m1,
        m2,
        allowed1,
        allowed2,
        ignored,
        listed,
        heads,
        states,
        trs,
        StateId(n),
    );
    leave_part(session, answer, done)
}

// The final weight of state n.
#[tactic(auto, unfolding(crate::specs::Exported::final_weight_words))]
#[unsafe(no_mangle)]
pub extern "C" fn rinkolza_final_weight(
    session: &[u32],
    m1: &[u32],
    m2: &[u32],
    allowed1: &[u32],
    has1: u32,
    allowed2: &[u32],
    has2: u32,
    ignored: &[u32],
    heads: &[u32],
    states: &[u32],
    trs: &[u32],
    n: u32,
    answer: &mut [u32],
) -> u32
    ensures { let l = lent_words m1.now m2.now allowed1.now has1 allowed2.now has2 ignored.now in
        let m = memory_of heads.now states.now trs.now in
        leaves result session.now answer.new m ≡ final_weight_words l session.now answer.old m n }
{
    if !sized(session, answer) {
        return u32::from(Refusal::Settings);
    }
    let given = read_session(session);
    let listed = listed_by(has1, has2);
    let done = given.final_weight(
        m1,
        m2,
        allowed1,
        allowed2,
        ignored,
        listed,
        heads,
        states,
        trs,
        StateId(n),
    );
    leave_weight(answer, done)
}

// Expands in number order until none is left or one is refused.
#[tactic(auto, unfolding(crate::specs::Exported::run_words))]
#[unsafe(no_mangle)]
pub extern "C" fn rinkolza_run(
    session: &mut [u32],
    m1: &[u32],
    m2: &[u32],
    allowed1: &[u32],
    has1: u32,
    allowed2: &[u32],
    has2: u32,
    ignored: &[u32],
    heads: &mut [u32],
    states: &mut [u32],
    trs: &mut [u32],
) -> u32
    ensures { let l = lent_words m1.now m2.now allowed1.now has1 allowed2.now has2 ignored.now in
        let m = memory_of heads.old states.old trs.old in
        let m' = memory_of heads.new states.new trs.new in
        leaves result session.new [] m' ≡ run_words l session.old m }
{
    if session.len() != SESSION_WORDS {
        return u32::from(Refusal::Settings);
    }
    let given = read_session(session);
    let listed = listed_by(has1, has2);
    let answer = given.run(
        m1, m2, allowed1, allowed2, ignored, listed, heads, states, trs,
    );
    leave(session, answer)
}

// The first and the count of an expanded state's records; no number.
#[tactic(auto, unfolding(crate::specs::Exported::records_words, calls::specs::Store::room_with))]
#[unsafe(no_mangle)]
pub extern "C" fn rinkolza_records(
    session: &[u32],
    m1: &[u32],
    m2: &[u32],
    allowed1: &[u32],
    has1: u32,
    allowed2: &[u32],
    has2: u32,
    ignored: &[u32],
    heads: &[u32],
    states: &[u32],
    trs: &[u32],
    n: u32,
    answer: &mut [u32],
)
    ensures { let l = lent_words m1.now m2.now allowed1.now has1 allowed2.now has2 ignored.now in
        let m = memory_of heads.now states.now trs.now in
        answer.new ≡ records_words l session.now answer.old m n }
{
    if answer.len() != ANSWER_WORDS {
        return;
    }
    if session.len() != SESSION_WORDS {
        write_answer(answer, 0, 0);
        return;
    }
    let given = read_session(session);
    let listed = listed_by(has1, has2);
    let handed = given.records(
        m1,
        m2,
        allowed1,
        allowed2,
        ignored,
        listed,
        heads,
        states,
        trs,
        StateId(n),
    );
    leave_handed(answer, states, StateId(n), handed);
}
