// What holds of a machine in fact (fst_properties): its sides sorted, input equal to output, its words well formed.
#![tactic(auto)]

mod check;
mod form;
mod properties;
mod records;
mod seen;

pub use check::well_formed;
pub use properties::{acceptor, inner_acceptor_mark, sorted};
