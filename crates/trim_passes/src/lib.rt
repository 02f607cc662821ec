// The passes over a store whose useful states are marked in the work words: their new numbers, the records between them, and how many there are.
#![tactic(auto)]

mod kept;
mod numbers;

pub use kept::{count_kept, next_kept};
pub use numbers::{number_of, number_states};
