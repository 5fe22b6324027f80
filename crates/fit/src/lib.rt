// Number 20, as far as it speaks of one seat.
#![tactic(auto)]

mod record;

pub use record::seat_fits;
