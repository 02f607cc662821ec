// The fan-out of a look-up for C and Rust (02, 2.6), which is lent no session and no memory.
ghost use Rattle.std.specs.Prelude.{◌≡◌, length};
ghost use Rattle.fst.specs.Refusals.{checked_by};
ghost use Rattle.rinkolza.specs.Exported.{lent_words};
ghost use Rattle.rinkolza.specs.FanOutWords.{count_left, in_count, fan_out_words};

use crate::slices::listed_by;
use fan_out_call::fan_out;
use fst::{Label, Refusal, StateId};
use session_checks::{SETTINGS_WORDS, read_settings};

const COUNT_WORDS: usize = 1;

// The number of matches, in an answer of one word; or the refusal.
fn leave_count(answer: &mut [u32], found: Result<u32, Refusal>) -> u32
    requires { length answer.old ≡ 1 }
    ensures { count_left result answer.new ≡ in_count answer.old (checked_by (λ n. n) found) }
{
    match found {
        Ok(n) => {
            answer[0] = n;
            0
        }
        Err(refusal) => u32::from(refusal),
    }
}

// How many matches a label has at a state of machine 1 or 2.
#[tactic(auto, unfolding(crate::specs::FanOutWords::fan_out_words))]
#[unsafe(no_mangle)]
pub extern "C" fn rinkolza_fan_out(
    settings: &[u32],
    m1: &[u32],
    m2: &[u32],
    allowed1: &[u32],
    has1: u32,
    allowed2: &[u32],
    has2: u32,
    ignored: &[u32],
    machine: u32,
    state: u32,
    label: u32,
    answer: &mut [u32],
) -> u32
    ensures { let l = lent_words m1.now m2.now allowed1.now has1 allowed2.now has2 ignored.now in
        count_left result answer.new ≡ fan_out_words settings.now l machine state label answer.old }
{
    if settings.len() != SETTINGS_WORDS || answer.len() != COUNT_WORDS {
        return u32::from(Refusal::Settings);
    }
    let wanted = read_settings(settings);
    let listed = listed_by(has1, has2);
    let found = fan_out(
        wanted,
        m1,
        m2,
        allowed1,
        allowed2,
        ignored,
        listed,
        machine,
        StateId(state),
        Label(label),
    );
    leave_count(answer, found)
}
