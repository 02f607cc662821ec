// Column 0 of the table.
ghost use Rattle.std.specs.Prelude.{◌≡◌};
ghost use Rattle.words.specs.Filters.{sequence};
ghost use Rattle.compose_filters.specs.Meaning.{move_means, facts_mean};

use crate::{Facts, MoveKind, all_first};

pub fn filter_tr(kind: MoveKind, facts: Facts, f: u32) -> Option<u32>
    ensures { result ≡ sequence (move_means kind) (facts_mean facts) f }
{
    match kind {
        MoveKind::Lone1 => { if f == 0 { Some(0) } else { None } }
        MoveKind::Lone2 => all_first(facts.all1, facts.none1, 1),
        MoveKind::BothEpsilon => None,
        MoveKind::ALabel => Some(0),
    }
}
