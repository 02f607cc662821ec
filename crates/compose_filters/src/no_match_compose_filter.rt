// Column 5 of the table: two epsilons do not move together.
ghost use Rattle.std.specs.Prelude.{◌≡◌, ℕ};
ghost use Rattle.papers.specs.Filter.{Facts};
ghost use Rattle.words.specs.Filters.{no_match};
ghost use Rattle.compose_filters.specs.Meaning.{move_means};

use crate::MoveKind;

pub fn filter_tr(kind: MoveKind) -> Option<u32>
    ensures { (φ : Facts) (f : ℕ) → result ≡ no_match (move_means kind) φ f }
{
    match kind {
        MoveKind::Lone1 => Some(0),
        MoveKind::Lone2 => Some(0),
        MoveKind::BothEpsilon => None,
        MoveKind::ALabel => Some(0),
    }
}
