use crate::{Label, StateId};

// A transition: labels, weight, target.
#[derive(Clone, Copy)]
pub struct Tr {
    pub ilabel: Label,
    pub olabel: Label,
    pub weight: u32,
    pub nextstate: StateId,
}
