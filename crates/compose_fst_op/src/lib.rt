// A composition (compose_fst_op.rs): its settings and side, its start, and the final weight of a composed state. The machines are lent; no memory is known here.
#![tactic(auto)]

mod finals;
mod start;

ghost use Rattle.std.specs.Prelude.{◌≡◌};
ghost use Rattle.compose_fst_op.specs.Composing.{sigmas_of};

pub use finals::compute_final_weight;
use fst::Sigmas;
use match_type::Side;
use matchers::Sigma;
pub use start::compute_start;

// The settings of a composition and its side. The machines and their allowed lists are lent beside them.
#[derive(Clone, Copy)]
pub struct ComposeFstOpOptions {
    // 0: cost; 1: count.
    pub kind: u32,
    // 0: sequence; 1: alternate; 2: match; 3: null; 4: trivial; 5: no-match.
    pub filter: u32,
    pub side: Side,
    pub sigma1: Sigma,
    pub sigma2: Sigma,
}

// The sigma labels of the two machines.
pub fn sigmas_of(options: ComposeFstOpOptions) -> Sigmas
    ensures { result ≡ sigmas_of options }
{
    Sigmas {
        first: options.sigma1.label,
        second: options.sigma2.label,
    }
}
