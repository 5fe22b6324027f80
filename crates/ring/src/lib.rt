// The ring: finds the seat at work that is served next, and gives it one step.
#![tactic(auto)]

mod marks;
mod turns;

pub use turns::make_turns;
