// What the console shows, short of the desk: help, the words of accepted calls and of refusals, a seat's record, a share of
// the board, and the number that tells two of them apart.
#![tactic(auto)]

mod acceptance;
mod clinic;
pub mod digest;
pub mod help;
mod refusal;

pub use acceptance::{accepted, beside, options_of, rule_met, turns_made};
pub use clinic::{nothing_left, pair, record, share};
pub use refusal::{Asked, Lengths, Reason, refused};
