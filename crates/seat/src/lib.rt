// What an asking makes of one clinic; the candidates of a search; the clinic's share of the board.
#![tactic(auto)]

mod candidates;
mod job;
mod share;

pub use candidates::{first_candidate, next_candidate, started};
pub use job::{clinic_after, closed};
pub use search::{Place, Seat, State};
pub use share::{empty, write_example};
