// Column 3 of the table: no machine moves alone.
ghost use Rattle.std.specs.Prelude.{◌≡◌, ℕ};
ghost use Rattle.papers.specs.Filter.{Facts};
ghost use Rattle.words.specs.Filters.{null};
ghost use Rattle.compose_filters.specs.Meaning.{move_means};

use crate::MoveKind;

pub fn filter_tr(kind: MoveKind) -> Option<u32>
    ensures { (φ : Facts) (f : ℕ) → result ≡ null (move_means kind) φ f }
{
    match kind {
        MoveKind::Lone1 => None,
        MoveKind::Lone2 => None,
        MoveKind::BothEpsilon => Some(0),
        MoveKind::ALabel => Some(0),
    }
}
