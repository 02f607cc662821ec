// Records in lent memory: their room, the reading of their words on every memory, and the writing of one record.
#![tactic(auto)]

mod lent;
mod state_records;
mod tr_records;

pub use lent::{least, store};
pub use state_records::{
    STATE_EXPANDED, STATE_F, STATE_FIRST, STATE_NEXT, STATE_S1, STATE_S2, STATE_SIZE,
    expanded_word, first_of, get_tuple, holds_tuple, is_expanded, mark_expanded, next_in, next_of,
    push_state, state_room,
};
pub use tr_records::{
    TR_INPUT, TR_NEXT, TR_OUTPUT, TR_SIZE, TR_TARGET, TR_WEIGHT, push_tr, stored_tr, tr_next,
    tr_room,
};

// How many records of each sort are in use.
#[derive(Clone, Copy)]
pub struct Used {
    pub states: u32,
    pub trs: u32,
}
