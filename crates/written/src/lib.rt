// A catalogue as it is written out for people: its counts, its fault and where that was met, its rules in columns, and its
// numbers as they can be given back.
#![tactic(auto)]

mod columns;
mod faults;
mod lists;
mod met;

pub use columns::catalogue;
pub use faults::{rules, sizes};
pub use lists::numbers;
