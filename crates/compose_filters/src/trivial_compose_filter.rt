// Column 4 of the table: every move is kept.
ghost use Rattle.std.specs.Prelude.{◌≡◌, ℕ};
ghost use Rattle.papers.specs.Filter.{MoveKind, Facts};
ghost use Rattle.words.specs.Filters.{trivial};

pub fn filter_tr() -> Option<u32>
    ensures { (k : MoveKind) (φ : Facts) (f : ℕ) → result ≡ trivial k φ f }
{
    Some(0)
}
