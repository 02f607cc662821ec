// New numbers: word 0 of a useful state is its new number plus one, that of another state 0.
ghost use Rattle.std.specs.Prelude.{◌≡◌, cond, suc, ◌+◌, ◌*◌, ◌<◌, length, set};
ghost use Rattle.lists.specs.Lists.{keep_if, interval};
ghost use Rattle.words.specs.Labels.{MAX};
ghost use Rattle.trim_passes.specs.Passes.{is_alive, numbered_up_to, number_in};

use work_words::{high_of, low_of, store64};

// The status of a state that the search found useful.
const ALIVE: u32 = 2;

// The new number plus one of state n; 0: it is not kept.
#[tactic(auto, unfolding(crate::specs::Passes::number_in))]
pub fn number_of(work: &[u64], n: u32) -> u32
    ensures { result ≡ number_in work.now n }
{
    low_of(work, 2 * (n as usize))
}

// Writes the number of state n where so many were kept before it, and says how many are kept now.
fn number_state(work: &mut [u64], n: u32, kept: u32) -> u32
    requires { kept < MAX }
    ensures value { result ≡ kept + cond (is_alive work.old n) 1 0 }
    ensures word { work.new ≡ set work.old (2 * n) (cond (is_alive work.old n) (suc kept) 0) }
{
    let at = 2 * (n as usize);
    if high_of(work, at) == ALIVE {
        store64(work, at, kept as u64 + 1);
        return kept + 1;
    }
    store64(work, at, 0);
    kept
}

// Numbers the useful ones of so many states, in their order, and says how many they are.
pub fn number_states(work: &mut [u64], count: u32) -> u32
    ensures value { result ≡ length (keep_if (is_alive work.old) (interval 0 count)) }
    ensures words { work.new ≡ numbered_up_to work.old count }
{
    let mut kept: u32 = 0;
    for n in 0..count {
        kept = number_state(work, n, kept);
    }
    kept
}
