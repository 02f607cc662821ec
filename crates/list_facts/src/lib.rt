// What one pass over a state's list tells, by its labels on the inner side, and a memo of it.
#![tactic(auto)]

mod memo;

ghost use Rattle.std.specs.Prelude.{◌≡◌, true, ◌&&◌, ◌||◌, cond, ◌+◌, ◌<◌, ◌^◌, max, eqb};
ghost use Rattle.words.specs.Labels.{eps_label};
ghost use Rattle.words.specs.Weights.{kind_of};
ghost use Rattle.words.specs.Machines.{state_count, well_formed};
ghost use Rattle.fst.specs.Meaning.{on_of};
ghost use Rattle.list_facts.specs.Facts.{TrueOf};

use fst::{EPS_LABEL, MatchType, NO_LABEL, StateId};
use fst_reads::{WEIGHT, first_at, next_at, record_base, word_at, word_on};
pub use memo::{MEMO_WORDS, remembered};
use semirings::zero;

#[derive(Clone, Copy)]
pub struct ListFacts {
    // How many records it has, and how many of them are epsilons.
    pub len: u32,
    pub eps: u32,
    // Its records are consecutive.
    pub straight: bool,
    // The largest weight that is not the kind's zero.
    pub most: u32,
    // The longest run of one label.
    pub run: u32,
}

// 1 for an epsilon.
fn eps_of(x: u32) -> u32
    ensures { result ≡ cond (eqb x eps_label) 1 0 }
{
    u32::from(x == EPS_LABEL.0)
}

// How often the label x has come in a row, where `last` came `same` times.
fn in_a_row(x: u32, last: u32, same: u32) -> u32
    requires { same + 1 < 2 ^ 32 }
    ensures { result ≡ cond (eqb x last) (same + 1) 1 }
{
    if x == last { same + 1 } else { 1 }
}

// The larger of the largest weight so far and w; the kind's zero does not count.
fn heavier(most: u32, w: u32, none: u32) -> u32
    ensures { result ≡ max most (cond (eqb w none) 0 w) }
{
    if w == none { most } else { most.max(w) }
}

// Still consecutive, where `next` follows record t.
fn goes_on(straight: bool, t: u32, next: u32) -> bool
    requires { t + 1 < 2 ^ 32 }
    ensures { result ≡ (straight && (eqb next 0 || eqb next (t + 1))) }
{
    straight && (next == 0 || next == t + 1)
}

// The facts of the list of state s, in one pass.
pub fn list_facts(m: &[u32], on: MatchType, kind: u32, s: StateId) -> ListFacts
    requires { (well_formed m.now ≡ true) × (s.0 < state_count m.now) }
    ensures { TrueOf (on_of on) (kind_of kind) m.now s.0 result }
{
    let base = record_base(m);
    let k = word_on(on);
    let none = zero(kind);
    let mut t = first_at(m, s);
    let mut len: u32 = 0;
    let mut eps: u32 = 0;
    let mut straight = true;
    let mut most: u32 = 0;
    let mut run: u32 = 0;
    let mut same: u32 = 0;
    let mut last = NO_LABEL.0;
    while t != 0 {
        let x = word_at(m, base, t, k);
        len += 1;
        eps += eps_of(x);
        same = in_a_row(x, last, same);
        last = x;
        run = run.max(same);
        most = heavier(most, word_at(m, base, t, WEIGHT), none);
        let next = next_at(m, base, t);
        straight = goes_on(straight, t, next);
        t = next;
    }
    ListFacts {
        len,
        eps,
        straight,
        most,
        run,
    }
}
