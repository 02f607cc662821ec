// Column 2 of the table.
ghost use Rattle.std.specs.Prelude.{◌≡◌};
ghost use Rattle.papers.specs.Filter.{lone1, lone2};
ghost use Rattle.words.specs.Filters.{matching};
ghost use Rattle.compose_filters.specs.Meaning.{move_means, facts_mean};

use crate::{Facts, MoveKind, none_first};

fn filter_lone1(facts: Facts, f: u32) -> Option<u32>
    ensures { result ≡ matching lone1 (facts_mean facts) f }
{
    if f == 0 {
        return none_first(facts.none2, facts.all2, 1);
    }
    if f == 1 {
        return Some(1);
    }
    None
}

fn filter_lone2(facts: Facts, f: u32) -> Option<u32>
    ensures { result ≡ matching lone2 (facts_mean facts) f }
{
    if f == 0 {
        return none_first(facts.none1, facts.all1, 2);
    }
    if f == 1 {
        return None;
    }
    Some(2)
}

pub fn filter_tr(kind: MoveKind, facts: Facts, f: u32) -> Option<u32>
    ensures { result ≡ matching (move_means kind) (facts_mean facts) f }
{
    match kind {
        MoveKind::Lone1 => filter_lone1(facts, f),
        MoveKind::Lone2 => filter_lone2(facts, f),
        MoveKind::BothEpsilon => { if f == 0 { Some(0) } else { None } }
        MoveKind::ALabel => Some(0),
    }
}
