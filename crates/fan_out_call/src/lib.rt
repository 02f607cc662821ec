// The fan-out of a look-up (02, 2.6) for a caller that is lent no memory: checks 1 to 7 with 18, then 9 for machine and state, then the look-up with its 11. No public function has a precondition.
#![tactic(auto)]

ghost use Rattle.std.specs.Prelude.{◌≡◌, List, ℕ, Option};
ghost use Rattle.fst.specs.Refusals.{checked_by};
ghost use Rattle.fan_outs.specs.FanOut.{fan_out, states_of, operand_numbered, fan_out_at, fan_out_of};
ghost use Rattle.session_checks.specs.Meaning.{settings_means, lent_slices};
ghost use Rattle.lazy_fst.specs.Meaning.{lent_with};
ghost use Rattle.counted_iter.specs.Counted.{count_of};
ghost use Rattle.fan_out_call.specs.Meaning.{Word, Limited};

use counted_iter::{CountedIter, counted_iter};
use fst::{Label, Machines, Refusal, Sigmas, StateId, num_states};
use lazy_fst::AllowedLists;
use matchers::Sigma;
use session_checks::{Settings, side_for};

// The number that a look-up states.
fn stated(found: CountedIter) -> Result<u32, Refusal>
    requires { Word (checked_by count_of found) }
    ensures { checked_by (λ n. n) result ≡ checked_by count_of found }
{
    match found?.0 {
        Some((n, _)) => Ok(n as u32),
        None => Ok(0),
    }
}

// The states of machine 1 or 2; another machine has none.
fn states_of(machine: u32, m1: &[u32], m2: &[u32]) -> u32
    ensures { (allowed1 allowed2 : Option (List ℕ)) (ignored : List ℕ) →
        result ≡ states_of (lent_slices m1.now m2.now allowed1 allowed2 ignored) machine }
{
    match machine {
        1 => num_states(m1),
        2 => num_states(m2),
        _ => 0,
    }
}

// Looks the label up: machine 1 on outputs, machine 2 on inputs, each with its own sigma. How sigma is rewritten plays no part in the number.
fn look_up(
    settings: Settings,
    m1: &[u32],
    m2: &[u32],
    allowed1: &[u32],
    allowed2: &[u32],
    ignored: &[u32],
    listed: AllowedLists,
    machine: u32,
    s: StateId,
    label: Label,
) -> Result<u32, Refusal>
    requires { Limited m1.now m2.now }
    ensures { let l = lent_with m1.now m2.now allowed1.now allowed2.now ignored.now listed in
        checked_by (λ n. n) result ≡ fan_out (operand_numbered (settings_means settings) l machine) s.0 label.0 }
{
    let two = Machines {
        m1,
        m2,
        sigmas: Sigmas {
            first: settings.sigma1,
            second: settings.sigma2,
        },
        ignored,
    };
    if machine == 1 {
        let sigma1 = Sigma {
            label: settings.sigma1,
            mode: settings.mode1,
            listed: listed.first,
            acceptor: 0,
        };
        return stated(counted_iter(two.first(), sigma1, allowed1, s, label));
    }
    let sigma2 = Sigma {
        label: settings.sigma2,
        mode: settings.mode2,
        listed: listed.second,
        acceptor: 0,
    };
    stated(counted_iter(two.second(), sigma2, allowed2, s, label))
}

// After the checks 1 to 7.
fn fan_out_at(
    settings: Settings,
    m1: &[u32],
    m2: &[u32],
    allowed1: &[u32],
    allowed2: &[u32],
    ignored: &[u32],
    listed: AllowedLists,
    machine: u32,
    s: StateId,
    label: Label,
) -> Result<u32, Refusal>
    requires { Limited m1.now m2.now }
    ensures { let l = lent_with m1.now m2.now allowed1.now allowed2.now ignored.now listed in
        checked_by (λ n. n) result ≡ fan_out_at (settings_means settings) l machine s.0 label.0 }
{
    if states_of(machine, m1, m2) <= s.0 {
        return Err(Refusal::NotFound);
    }
    look_up(
        settings, m1, m2, allowed1, allowed2, ignored, listed, machine, s, label,
    )
}

// How many matches the label has at state s of machine 1 or 2, whatever the side.
#[tactic(auto, unfolding(fan_outs::specs::FanOut::fan_out_of))]
pub fn fan_out(
    settings: Settings,
    m1: &[u32],
    m2: &[u32],
    allowed1: &[u32],
    allowed2: &[u32],
    ignored: &[u32],
    listed: AllowedLists,
    machine: u32,
    s: StateId,
    label: Label,
) -> Result<u32, Refusal>
    ensures { let l = lent_with m1.now m2.now allowed1.now allowed2.now ignored.now listed in
        checked_by (λ n. n) result ≡ fan_out_of (settings_means settings) l machine s.0 label.0 }
{
    side_for(settings, m1, m2, ignored)?;
    fan_out_at(
        settings, m1, m2, allowed1, allowed2, ignored, listed, machine, s, label,
    )
}
