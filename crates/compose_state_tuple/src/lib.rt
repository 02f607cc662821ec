// A composed state (compose_state_tuple.rs), and whether two are the same. No memory is known here.
#![tactic(auto)]

ghost use Rattle.std.specs.Prelude.{◌≡◌};
ghost use Rattle.words.specs.Steps.{same_triple};
ghost use Rattle.compose_state_tuple.specs.Meaning.{tuple_means};

use fst::StateId;

// A composed state: the filter state, and the state of each machine.
#[derive(Clone, Copy, PartialEq, Eq)]
pub struct ComposeStateTuple {
    pub fs: u32,
    pub s1: StateId,
    pub s2: StateId,
}

pub fn same_tuple(a: ComposeStateTuple, b: ComposeStateTuple) -> bool
    ensures { result ≡ same_triple (tuple_means a) (tuple_means b) }
{
    a == b
}
