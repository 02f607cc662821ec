// The calls without their checks 1 to 8, for a caller that knows that they pass: after an accepted opening, while nobody else writes, they do. Each answers just what the call with its
// checks answers, and 9 as well; a run is made in pieces. Those that expand are lent a memo for each machine, in which what is remembered of its lists is true and stays so.
ghost use Rattle.std.specs.Prelude.{◌≡◌, ◌+◌, ◌*◌};
ghost use Rattle.words.specs.Matches.{inputs, outputs};
ghost use Rattle.calls.specs.Checks.{Passes};
ghost use Rattle.calls.specs.Calls.{expand_of, final_weight_of, run_from, records_of, records_place};
ghost use Rattle.calls.specs.Owned.{stop_from};
ghost use Rattle.store_records.specs.Meaning.{memory_of};
ghost use Rattle.compose_expand.specs.Memos.{Remembered};
ghost use Rattle.compose_run.specs.Memos.{memo_at, memo_from};
ghost use Rattle.lazy_fst.specs.Meaning.{lent_with, session_means, left, part_left, weight_left};

use crate::answers::{final_of, options_of, options_with, part_answer, run_answer};
use crate::{AllowedLists, PartAnswer, PieceAnswer, Session, WeightAnswer};
use compose_run::{compute_from, expand_alone, expand_found};
use fst::{Refusal, StateId};
use list_facts::MEMO_WORDS;
use session_checks::side_of;
use store_records::is_expanded;
use tr_lists::{part_of, tr_part};

impl Session {
    // Expands state n; an expanded one is answered as stored.
    #[tactic(auto, unfolding(calls::specs::Calls::expand_with, compose_run::specs::Memos::memo_at, calls::specs::Checks::entered_at_with))]
    pub fn trusted_expand(
        self,
        m1: &[u32],
        m2: &[u32],
        allowed1: &[u32],
        allowed2: &[u32],
        ignored: &[u32],
        listed: AllowedLists,
        heads: &mut [u32],
        states: &mut [u32],
        trs: &mut [u32],
        memo1: &mut [u32; MEMO_WORDS],
        memo2: &mut [u32; MEMO_WORDS],
        n: StateId,
    ) -> PartAnswer
        requires { let l = lent_with m1.now m2.now allowed1.now allowed2.now ignored.now listed in
            let m = memory_of heads.old states.old trs.old in
            let s = session_means self in
            Passes l s m × Remembered outputs l s memo1.old × Remembered inputs l s memo2.old }
        ensures m_after { let l = lent_with m1.now m2.now allowed1.now allowed2.now ignored.now listed in
            let m = memory_of heads.old states.old trs.old in
            let m' = memory_of heads.new states.new trs.new in
            part_left result m' ≡ expand_of l (session_means self) m n.0 }
        ensures asked { let l = lent_with m1.now m2.now allowed1.now allowed2.now ignored.now listed in
            let m = memory_of heads.old states.old trs.old in
            let s = session_means self in
            (memo1.new ≡ memo_at outputs l s m n.0 memo1.old) × (memo2.new ≡ memo_at inputs l s m n.0 memo2.old) }
        ensures remembered { let l = lent_with m1.now m2.now allowed1.now allowed2.now ignored.now listed in
            let s = session_means self in
            Remembered outputs l s memo1.new × Remembered inputs l s memo2.new }
    {
        let used = self.used;
        if used.states <= n.0 {
            return Err((Refusal::NotFound, self));
        }
        let options = options_of(self.settings, listed, side_of(self.side), m1, m2, ignored);
        let expanded = expand_found(
            m1, m2, allowed1, allowed2, ignored, options, heads, states, trs, memo1, memo2, used, n,
        );
        part_answer(self, expanded)
    }

    // The same where no memo is lent.
    #[tactic(auto, unfolding(calls::specs::Calls::expand_with, calls::specs::Checks::entered_at_with))]
    pub fn expand_alone(
        self,
        m1: &[u32],
        m2: &[u32],
        allowed1: &[u32],
        allowed2: &[u32],
        ignored: &[u32],
        listed: AllowedLists,
        heads: &mut [u32],
        states: &mut [u32],
        trs: &mut [u32],
        n: StateId,
    ) -> PartAnswer
        requires { let l = lent_with m1.now m2.now allowed1.now allowed2.now ignored.now listed in
            let m = memory_of heads.old states.old trs.old in
            Passes l (session_means self) m }
        ensures { let l = lent_with m1.now m2.now allowed1.now allowed2.now ignored.now listed in
            let m = memory_of heads.old states.old trs.old in
            let m' = memory_of heads.new states.new trs.new in
            part_left result m' ≡ expand_of l (session_means self) m n.0 }
    {
        let used = self.used;
        if used.states <= n.0 {
            return Err((Refusal::NotFound, self));
        }
        let options = options_of(self.settings, listed, side_of(self.side), m1, m2, ignored);
        let expanded = expand_alone(
            m1, m2, allowed1, allowed2, ignored, options, heads, states, trs, used, n,
        );
        part_answer(self, expanded)
    }

    // The final weight of state n. Inlined, so that a caller who takes many does not copy the session for each.
    #[inline(always)]
    #[tactic(auto, unfolding(calls::specs::Calls::final_weight_with, calls::specs::Checks::entered_at_with))]
    pub fn trusted_final_weight(
        self,
        m1: &[u32],
        m2: &[u32],
        allowed1: &[u32],
        allowed2: &[u32],
        ignored: &[u32],
        listed: AllowedLists,
        heads: &[u32],
        states: &[u32],
        trs: &[u32],
        n: StateId,
    ) -> WeightAnswer
        requires { let l = lent_with m1.now m2.now allowed1.now allowed2.now ignored.now listed in
            let m = memory_of heads.now states.now trs.now in
            Passes l (session_means self) m }
        ensures { let l = lent_with m1.now m2.now allowed1.now allowed2.now ignored.now listed in
            let m = memory_of heads.now states.now trs.now in
            weight_left result m ≡ final_weight_of l (session_means self) m n.0 }
    {
        if self.used.states <= n.0 {
            return Err((Refusal::NotFound, self));
        }
        let options = options_with(self.settings, listed, side_of(self.side), 0, 0);
        final_of(self, options, m1, m2, states, n)
    }

    // A piece of a run: from a state on, in number order, so many states at most, until none is left or one is refused.
    pub fn trusted_run(
        self,
        m1: &[u32],
        m2: &[u32],
        allowed1: &[u32],
        allowed2: &[u32],
        ignored: &[u32],
        listed: AllowedLists,
        heads: &mut [u32],
        states: &mut [u32],
        trs: &mut [u32],
        memo1: &mut [u32; MEMO_WORDS],
        memo2: &mut [u32; MEMO_WORDS],
        from: StateId,
        count: u32,
    ) -> PieceAnswer
        requires { let l = lent_with m1.now m2.now allowed1.now allowed2.now ignored.now listed in
            let m = memory_of heads.old states.old trs.old in
            let s = session_means self in
            Passes l s m × Remembered outputs l s memo1.old × Remembered inputs l s memo2.old }
        ensures m_after { let l = lent_with m1.now m2.now allowed1.now allowed2.now ignored.now listed in
            let m = memory_of heads.old states.old trs.old in
            let m' = memory_of heads.new states.new trs.new in
            left result.answer m' ≡ run_from l count from.0 (session_means self) m }
        ensures next { let l = lent_with m1.now m2.now allowed1.now allowed2.now ignored.now listed in
            let m = memory_of heads.old states.old trs.old in
            result.next.0 ≡ stop_from l count from.0 (session_means self) m }
        ensures asked { let l = lent_with m1.now m2.now allowed1.now allowed2.now ignored.now listed in
            let m = memory_of heads.old states.old trs.old in
            let s = session_means self in
            (memo1.new ≡ memo_from outputs l count from.0 s m memo1.old)
            × (memo2.new ≡ memo_from inputs l count from.0 s m memo2.old) }
        ensures remembered { let l = lent_with m1.now m2.now allowed1.now allowed2.now ignored.now listed in
            let s = session_means self in
            Remembered outputs l s memo1.new × Remembered inputs l s memo2.new }
    {
        let options = options_of(self.settings, listed, side_of(self.side), m1, m2, ignored);
        let stopped = compute_from(
            m1, m2, allowed1, allowed2, ignored, options, heads, states, trs, memo1, memo2,
            self.used, from, count,
        );
        PieceAnswer {
            next: stopped.next,
            answer: run_answer(self, stopped.ran),
        }
    }

    // The records of an expanded state, as a part of the lent slice; none where the state is not found or not expanded.
    #[tactic(auto, unfolding(calls::specs::Calls::records_with, calls::specs::Calls::records_place_with, calls::specs::Checks::entered_at_with))]
    pub fn trusted_records<'a>(
        self,
        m1: &[u32],
        m2: &[u32],
        allowed1: &[u32],
        allowed2: &[u32],
        ignored: &[u32],
        listed: AllowedLists,
        heads: &[u32],
        states: &[u32],
        trs: &'a [u32],
        n: StateId,
    ) -> &'a [u32]
        requires { let l = lent_with m1.now m2.now allowed1.now allowed2.now ignored.now listed in
            let m = memory_of heads.now states.now trs.now in
            Passes l (session_means self) m }
        ensures result_value { let l = lent_with m1.now m2.now allowed1.now allowed2.now ignored.now listed in
            let m = memory_of heads.now states.now trs.now in
            result.now ≡ records_of l (session_means self) m n.0 }
        ensures place { let l = lent_with m1.now m2.now allowed1.now allowed2.now ignored.now listed in
            let m = memory_of heads.now states.now trs.now in
            result.ref_ptr ≡ (trs.entry.ref_ptr.0, trs.entry.ref_ptr.1 + 4 * records_place l (session_means self) m n.0) }
    {
        if self.used.states <= n.0 || !is_expanded(states, n) {
            return &trs[0..0];
        }
        tr_part(trs, part_of(states, trs, self.used.trs, n))
    }
}
