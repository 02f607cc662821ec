// Labels, state numbers and transitions (lib.rs, tr.rs), the refusals, and the reading of a machine's words (fst_traits/fst.rs), as they are lent and as a composition reads them.
#![tactic(auto)]

ghost use Rattle.std.specs.Prelude.{◌≡◌};
ghost use Rattle.fst.specs.Meaning.{first_of_two, second_of_two};

mod fst_traits;
mod ignored;
mod refusals;
mod tr;

pub use fst_traits::{
    acceptor_mark, final_weight, first_tr, get_tr, inner_label, inner_mark, is_final, label_on,
    next_tr, num_records, num_states, num_trs, side_mark, start, start_word, state_word, tr_word,
    word,
};
pub use ignored::{has, heard};
pub use refusals::Refusal;
pub use tr::Tr;

// A label. It cannot be given where a state number is asked.
#[derive(Clone, Copy, PartialEq, Eq, PartialOrd, Ord)]
pub struct Label(pub u32);

// The sigma labels of the two machines: with the list of ignored labels, what decides which labels are replaced.
#[derive(Clone, Copy)]
pub struct Sigmas {
    pub first: Label,
    pub second: Label,
}

// A machine as the composition reads it: its words, the side on which it is matched, and the list of labels that count as 0 there unless they are sigma labels.
#[derive(Clone, Copy)]
pub struct Matched<'a> {
    pub words: &'a [u32],
    pub on: MatchType,
    pub sigmas: Sigmas,
    pub ignored: &'a [u32],
}

// Two machines that are composed, with the labels that both are read by.
#[derive(Clone, Copy)]
pub struct Machines<'a> {
    pub m1: &'a [u32],
    pub m2: &'a [u32],
    pub sigmas: Sigmas,
    pub ignored: &'a [u32],
}

impl<'a> Machines<'a> {
    // Machine 1, matched on outputs.
    pub fn first(self) -> Matched<'a>
        ensures { result ≡ first_of_two self.entry }
    {
        Matched {
            words: self.m1,
            on: MatchType::MatchOutput,
            sigmas: self.sigmas,
            ignored: self.ignored,
        }
    }

    // Machine 2, matched on inputs.
    pub fn second(self) -> Matched<'a>
        ensures { result ≡ second_of_two self.entry }
    {
        Matched {
            words: self.m2,
            on: MatchType::MatchInput,
            sigmas: self.sigmas,
            ignored: self.ignored,
        }
    }
}

// The number of a state.
#[derive(Clone, Copy, PartialEq, Eq)]
pub struct StateId(pub u32);

// The largest number of states, of transitions, and of records of each sort.
pub const LIMIT: u32 = 16777215;

// The words of a machine's header, of a state's record, and of a transition's record.
pub const HEADER_WORDS: usize = 6;

pub const STATE_WORDS: usize = 3;

pub const TR_WORDS: usize = 5;

// The words of a state's record by their place.
pub const FIRST: u32 = 0;

pub const FINAL: u32 = 1;

pub const FINAL_WEIGHT: u32 = 2;

// The words of a transition's record by their place.
pub const INPUT: u32 = 0;

pub const OUTPUT: u32 = 1;

pub const WEIGHT: u32 = 2;

pub const TARGET: u32 = 3;

pub const NEXT: u32 = 4;

pub const EPS_LABEL: Label = Label(0);

pub const NO_LABEL: Label = Label(4294967295);

pub const NO_SIGMAS: Sigmas = Sigmas {
    first: NO_LABEL,
    second: NO_LABEL,
};

// The side of a machine (matchers/mod.rs).
#[derive(Clone, Copy, PartialEq, Eq)]
pub enum MatchType {
    MatchInput,
    MatchOutput,
}
