// Trimming (document 02, 2.2): the part of a finished store that lies on paths from its start to final states, written as a machine in words into a lent slice.
#![tactic(auto)]

mod judged;
mod marked;
mod trimming;

use fst::Refusal;
use lazy_fst::Session;
pub use trimming::{trim, trusted_trim};

// How many words were written; or the refusal. The session stays as it was.
pub type TrimAnswer = Result<(u32, Session), (Refusal, Session)>;
