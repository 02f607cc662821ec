// Settings, session and answers as words in lent slices.
ghost use Rattle.std.specs.Prelude.{◌≡◌, [], ◌∷◌, ◌&&◌, length};
ghost use Rattle.lazy_fst.specs.Meaning.{session_means};
ghost use Rattle.rinkolza.specs.Exported.{session_words, session_at, listed_by, nine, two};

use fst::word;
use lazy_fst::{AllowedLists, Session};
use session_checks::read_settings;
use store_records::Used;

pub const SESSION_WORDS: usize = 9;

pub const ANSWER_WORDS: usize = 2;

// The place of the used states in a session.
pub const USED_STATES: usize = 7;

// Whether session and answer have their lengths.
pub fn sized(session: &[u32], answer: &[u32]) -> bool
    ensures { result ≡ (nine session.now && two answer.now) }
{
    session.len() == SESSION_WORDS && answer.len() == ANSWER_WORDS
}

// The session of nine words.
pub fn read_session(words: &[u32]) -> Session
    ensures { session_means result ≡ session_at words.now }
{
    Session {
        settings: read_settings(words),
        side: word(words, 6),
        used: Used {
            states: word(words, USED_STATES),
            trs: word(words, 8),
        },
    }
}

// The nine words of a session.
pub fn write_session(words: &mut [u32], session: Session)
    requires { length words.old ≡ 9 }
    ensures { words.new ≡ session_words (session_means session) }
{
    let settings = session.settings;
    words.copy_from_slice(&[
        settings.kind,
        settings.filter,
        settings.sigma1.0,
        settings.mode1,
        settings.sigma2.0,
        settings.mode2,
        session.side,
        session.used.states,
        session.used.trs,
    ]);
}

// The two words of an answer.
pub fn write_answer(words: &mut [u32], first: u32, second: u32)
    requires { length words.old ≡ 2 }
    ensures { words.new ≡ first ∷ second ∷ [] }
{
    words.copy_from_slice(&[first, second]);
}

// Whether there are allowed lists.
pub fn listed_by(has1: u32, has2: u32) -> AllowedLists
    ensures { result ≡ listed_by has1 has2 }
{
    AllowedLists {
        first: has1 != 0,
        second: has2 != 0,
    }
}
