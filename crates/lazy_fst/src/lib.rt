// The session and its five calls (lazy_fst.rs). Each call takes the session by value and hands the next one back in its answer. None has a precondition: any settings, sessions, slices and
// state numbers are answered. A call checks, and goes on with its part in `trusted`, which does not.
#![tactic(auto)]

mod answers;
mod opening;
mod trusted;

ghost use Rattle.std.specs.Prelude.{◌≡◌, ◌+◌, ◌*◌};
ghost use Rattle.calls.specs.Calls.{open_of, expand_of, final_weight_of, run_of, records_of, records_place};
ghost use Rattle.store_records.specs.Meaning.{memory_of};
ghost use Rattle.session_checks.specs.Meaning.{settings_means};
ghost use Rattle.lazy_fst.specs.Meaning.{lent_with, session_means, left, part_left, weight_left};

use answers::{options_of, run_answer};
use compose_run::compute;
use fst::{Refusal, StateId};
use opening::begin;
use session_checks::{Settings, enter, side_for};
use store_records::Used;
use tr_lists::Part;

// What a call takes and hands back.
#[derive(Clone, Copy)]
pub struct Session {
    pub settings: Settings,
    // 0: input, 1: output, 2: both.
    pub side: u32,
    pub used: Used,
}

// Whether each machine has an allowed list; without one, every label is allowed. The lists are lent beside it.
#[derive(Clone, Copy)]
pub struct AllowedLists {
    pub first: bool,
    pub second: bool,
}

// What open and run answer: the next session; or the refusal, and the session that was given, for a refused run the one of the expansions kept.
pub type Answer = Result<Session, (Refusal, Session)>;

// What expand answers: the first and the count of the state's records.
pub type PartAnswer = Result<(Part, Session), (Refusal, Session)>;

// What final weight answers: a weight, or none where the composed state is not final.
pub type WeightAnswer = Result<(Option<u32>, Session), (Refusal, Session)>;

// What a piece of a run answers: as a run does; and the state with which the next piece goes on, which is the refused one where one is refused.
#[derive(Clone, Copy)]
pub struct PieceAnswer {
    pub next: StateId,
    pub answer: Answer,
}

impl Session {
    // Opens a session with the settings. The one that it is called on is not read, and handed back if refused. The allowed lists play no part yet.
    #[tactic(auto, unfolding(calls::specs::Calls::open_with))]
    pub fn open(
        self,
        settings: Settings,
        m1: &[u32],
        m2: &[u32],
        allowed1: &[u32],
        allowed2: &[u32],
        ignored: &[u32],
        listed: AllowedLists,
        heads: &mut [u32],
        states: &mut [u32],
        trs: &mut [u32],
    ) -> Answer
        ensures { let l = lent_with m1.now m2.now allowed1.now allowed2.now ignored.now listed in
            let m = memory_of heads.old states.old trs.old in
            let m' = memory_of heads.new states.new trs.new in
            left result m' ≡ open_of (settings_means settings) l (session_means self) m }
    {
        match side_for(settings, m1, m2, ignored) {
            Ok(side) => begin(self, settings, side, m1, m2, heads, states),
            Err(refusal) => Err((refusal, self)),
        }
    }

    // Expands state n; an expanded one is answered as stored.
    #[tactic(auto, unfolding(calls::specs::Calls::expand_with, calls::specs::Checks::entered_at_with))]
    pub fn expand(
        self,
        m1: &[u32],
        m2: &[u32],
        allowed1: &[u32],
        allowed2: &[u32],
        ignored: &[u32],
        listed: AllowedLists,
        heads: &mut [u32],
        states: &mut [u32],
        trs: &mut [u32],
        n: StateId,
    ) -> PartAnswer
        ensures { let l = lent_with m1.now m2.now allowed1.now allowed2.now ignored.now listed in
            let m = memory_of heads.old states.old trs.old in
            let m' = memory_of heads.new states.new trs.new in
            part_left result m' ≡ expand_of l (session_means self) m n.0 }
    {
        let entered = enter(
            self.settings,
            self.side,
            self.used,
            m1,
            m2,
            ignored,
            heads,
            states,
            trs,
        );
        match entered {
            Ok(_) => self.expand_alone(
                m1, m2, allowed1, allowed2, ignored, listed, heads, states, trs, n,
            ),
            Err(refusal) => Err((refusal, self)),
        }
    }

    // The final weight of state n.
    #[tactic(auto, unfolding(calls::specs::Calls::final_weight_with, calls::specs::Checks::entered_at_with))]
    pub fn final_weight(
        self,
        m1: &[u32],
        m2: &[u32],
        allowed1: &[u32],
        allowed2: &[u32],
        ignored: &[u32],
        listed: AllowedLists,
        heads: &[u32],
        states: &[u32],
        trs: &[u32],
        n: StateId,
    ) -> WeightAnswer
        ensures { let l = lent_with m1.now m2.now allowed1.now allowed2.now ignored.now listed in
            let m = memory_of heads.now states.now trs.now in
            weight_left result m ≡ final_weight_of l (session_means self) m n.0 }
    {
        let entered = enter(
            self.settings,
            self.side,
            self.used,
            m1,
            m2,
            ignored,
            heads,
            states,
            trs,
        );
        match entered {
            Ok(_) => self.trusted_final_weight(
                m1, m2, allowed1, allowed2, ignored, listed, heads, states, trs, n,
            ),
            Err(refusal) => Err((refusal, self)),
        }
    }

    // Expands in number order until none is left or one is refused. It checks once: after an accepted expansion the checks pass again.
    #[tactic(auto, unfolding(calls::specs::Calls::run_with))]
    pub fn run(
        self,
        m1: &[u32],
        m2: &[u32],
        allowed1: &[u32],
        allowed2: &[u32],
        ignored: &[u32],
        listed: AllowedLists,
        heads: &mut [u32],
        states: &mut [u32],
        trs: &mut [u32],
    ) -> Answer
        ensures { let l = lent_with m1.now m2.now allowed1.now allowed2.now ignored.now listed in
            let m = memory_of heads.old states.old trs.old in
            let m' = memory_of heads.new states.new trs.new in
            left result m' ≡ run_of l (session_means self) m }
    {
        let entered = enter(
            self.settings,
            self.side,
            self.used,
            m1,
            m2,
            ignored,
            heads,
            states,
            trs,
        );
        match entered {
            Ok(side) => {
                let options = options_of(self.settings, listed, side, m1, m2, ignored);
                let ran = compute(
                    m1, m2, allowed1, allowed2, ignored, options, heads, states, trs, self.used,
                );
                run_answer(self, ran)
            }
            Err(refusal) => Err((refusal, self)),
        }
    }

    // The records of an expanded state, as a part of the lent slice; none where the state is not expanded or a check from 1 to 9 refuses. The session stays the latest.
    #[tactic(auto, unfolding(calls::specs::Calls::records_with, calls::specs::Calls::records_place_with, calls::specs::Checks::entered_at_with))]
    pub fn records<'a>(
        self,
        m1: &[u32],
        m2: &[u32],
        allowed1: &[u32],
        allowed2: &[u32],
        ignored: &[u32],
        listed: AllowedLists,
        heads: &[u32],
        states: &[u32],
        trs: &'a [u32],
        n: StateId,
    ) -> &'a [u32]
        ensures result_value { let l = lent_with m1.now m2.now allowed1.now allowed2.now ignored.now listed in
            let m = memory_of heads.now states.now trs.now in
            result.now ≡ records_of l (session_means self) m n.0 }
        ensures place { let l = lent_with m1.now m2.now allowed1.now allowed2.now ignored.now listed in
            let m = memory_of heads.now states.now trs.now in
            result.ref_ptr ≡ (trs.entry.ref_ptr.0, trs.entry.ref_ptr.1 + 4 * records_place l (session_means self) m n.0) }
    {
        let entered = enter(
            self.settings,
            self.side,
            self.used,
            m1,
            m2,
            ignored,
            heads,
            states,
            trs,
        );
        match entered {
            Ok(_) => self.trusted_records(
                m1, m2, allowed1, allowed2, ignored, listed, heads, states, trs, n,
            ),
            Err(_) => &trs[0..0],
        }
    }
}
