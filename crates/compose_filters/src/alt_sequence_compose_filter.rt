// Column 1 of the table.
ghost use Rattle.std.specs.Prelude.{◌≡◌};
ghost use Rattle.words.specs.Filters.{alternate};
ghost use Rattle.compose_filters.specs.Meaning.{move_means, facts_mean};

use crate::{Facts, MoveKind, all_first};

pub fn filter_tr(kind: MoveKind, facts: Facts, f: u32) -> Option<u32>
    ensures { result ≡ alternate (move_means kind) (facts_mean facts) f }
{
    match kind {
        MoveKind::Lone1 => all_first(facts.all2, facts.none2, 1),
        MoveKind::Lone2 => { if f == 1 { None } else { Some(0) } }
        MoveKind::BothEpsilon => None,
        MoveKind::ALabel => Some(0),
    }
}
