// The table of refusals, walked in its order.
#![tactic(auto)]

mod table;

pub use table::{check_asking, check_open, check_turns};
