// The refusals, each with its cause, and the number of each in document 01's table of answers.
ghost use Rattle.std.specs.Prelude.{◌≡◌};
ghost use Rattle.fst.specs.Refusals.{number_of};

#[derive(Clone, Copy, PartialEq, Eq)]
pub enum Refusal {
    // kind, filter or rewrite mode outside its range
    Settings,
    // machine 1 malformed
    Machine1,
    // machine 2 malformed
    Machine2,
    // a sigma label 0
    SigmaEps,
    // sigma on 1, outputs unsorted
    Unsorted1,
    // sigma on 2, inputs unsorted
    Unsorted2,
    // no side to match
    NoSide,
    // session side differs from the rule, used above room, or form broken
    Session,
    // state not found yet
    NotFound,
    // both states need matching
    BothMatch,
    // walked label is sigma
    WalkedSigma,
    // weight too large
    TooLarge,
    // a record or, at opening, a head is lacking; a work slice or an output slice is short, or a count would pass its limit (document 02, 2.2)
    NoRoom,
    // a used state is not expanded (document 02, 2.2)
    NotExpanded,
    // the list of ignored labels holds 0 or MAX (document 02, 2.7)
    Ignored,
}

impl From<Refusal> for u32 {
    ghost from_gives = { λ refusal number. number ≡ number_of refusal };

    fn from(refusal: Refusal) -> u32 {
        match refusal {
            Refusal::Settings => 1,
            Refusal::Machine1 => 2,
            Refusal::Machine2 => 3,
            Refusal::SigmaEps => 4,
            Refusal::Unsorted1 => 5,
            Refusal::Unsorted2 => 6,
            Refusal::NoSide => 7,
            Refusal::Session => 8,
            Refusal::NotFound => 9,
            Refusal::BothMatch => 10,
            Refusal::WalkedSigma => 11,
            Refusal::TooLarge => 12,
            Refusal::NoRoom => 13,
            Refusal::NotExpanded => 14,
            Refusal::Ignored => 18,
        }
    }
}
