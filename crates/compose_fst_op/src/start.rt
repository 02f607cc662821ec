// The start of a composition (`compute_start`).
ghost use Rattle.std.specs.Prelude.{◌≡◌, option_map};
ghost use Rattle.words.specs.Machines.{machine_of};
ghost use Rattle.words.specs.Steps.{start_of};
ghost use Rattle.compose_state_tuple.specs.Meaning.{tuple_means};

use compose_state_tuple::ComposeStateTuple;
use fst::start;

// The state where the composition starts, if both machines have a start.
pub fn compute_start(m1: &[u32], m2: &[u32]) -> Option<ComposeStateTuple>
    ensures { option_map tuple_means result ≡ start_of (machine_of m1.now).start (machine_of m2.now).start }
{
    let s1 = start(m1)?;
    let s2 = start(m2)?;
    Some(ComposeStateTuple { fs: 0, s1, s2 })
}
