// One step of the written search, on a record lent for it.
#![tactic(auto)]

mod basis;
mod lent;
mod written;

pub use basis::Basis;
pub use lent::step_in;
