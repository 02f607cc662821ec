// The opening after its checks: the heads are cleared, and the start of the composition is the first state.
ghost use Rattle.std.specs.Prelude.{◌≡◌, not, ◌||◌, List, ℕ, eqb, Option};
ghost use Rattle.words.specs.Sides.{non_empty};
ghost use Rattle.calls.specs.Store.{room_of, state_size};
ghost use Rattle.match_type.specs.Chosen.{side_means};
ghost use Rattle.store_records.specs.Meaning.{memory_of};
ghost use Rattle.session_checks.specs.Meaning.{settings_means, lent_slices};
ghost use Rattle.lazy_fst.specs.Meaning.{session_means, left, fresh_of, opened_on};

use crate::{Answer, Session};
use compose_fst_op::compute_start;
use fst::Refusal;
use match_type::Side;
use session_checks::{Settings, side_number};
use state_table::{add_state, clear_heads};
use store_records::{Used, state_room};

// No state record, or no head.
fn lacks_room(heads: &[u32], states: &[u32]) -> bool
    ensures { result ≡ (eqb (room_of state_size states.now) 0 || not (non_empty heads.now)) }
{
    state_room(states) == 0 || heads.is_empty()
}

// A session just opened, with so many states found.
fn fresh(settings: Settings, side: Side, states: u32) -> Session
    ensures { session_means result ≡ fresh_of (settings_means settings) (side_means side) states }
{
    Session {
        settings,
        side: side_number(side),
        used: Used { states, trs: 0 },
    }
}

// The heads are cleared, and the start is the first state. `got` is the session that is handed back if refused.
#[tactic(auto, unfolding(words::specs::Steps::start_at, calls::specs::Store::state_room_with, calls::specs::Calls::cleared, calls::specs::Calls::begun_with))]
pub fn begin(
    got: Session,
    settings: Settings,
    side: Side,
    m1: &[u32],
    m2: &[u32],
    heads: &mut [u32],
    states: &mut [u32],
) -> Answer
    ensures { (allowed1 allowed2 : Option (List ℕ)) (ignored trs : List ℕ) →
        let l = lent_slices m1.now m2.now allowed1 allowed2 ignored in
        let m = memory_of heads.old states.old trs in
        let m' = memory_of heads.new states.new trs in
        left result m' ≡ opened_on (settings_means settings) l (session_means got) m (side_means side) }
{
    let Some(tuple) = compute_start(m1, m2) else {
        clear_heads(heads);
        return Ok(fresh(settings, side, 0));
    };
    if lacks_room(heads, states) {
        return Err((Refusal::NoRoom, got));
    }
    clear_heads(heads);
    add_state(heads, states, 0, tuple);
    Ok(fresh(settings, side, 1))
}
