// What others look up in a seat's record. Of a feature or an option above 15 there is nothing: no choice, none left, no
// alternative.
#![tactic(auto)]

ghost use Rattle.std.specs.Prelude.{◌≡◌};
ghost use Rattle.search.specs.Look.{is_closed, is_at_work, has_choice, mask_of, is_left, alternatives_of};

use search::{Seat, State};

pub fn is_closed(seat: Seat) -> bool
    ensures { result ≡ is_closed seat.state }
{
    matches!(seat.state, State::Closed)
}

pub fn is_at_work(seat: Seat) -> bool
    ensures { result ≡ is_at_work seat.state }
{
    matches!(seat.state, State::AtWork(_))
}

// Whether a feature has a choice.
pub fn has_choice(seat: Seat, i: usize) -> bool
    ensures { result ≡ has_choice seat i }
{
    seat.choices.get(i).is_some_and(|choice| *choice != 255)
}

// The options left of a feature.
pub fn mask_of(seat: Seat, i: usize) -> u16
    ensures { result ≡ mask_of seat i }
{
    seat.masks.get(i).copied().unwrap_or(0)
}

// Whether an option of a feature is left.
pub fn is_left(seat: Seat, i: usize, a: usize) -> bool
    ensures { result ≡ is_left seat i a }
{
    let mask = mask_of(seat, i);
    a < 16 && (mask >> a) % 2 == 1
}

// The options that could replace the choice of a feature.
pub fn alternatives_of(seat: Seat, i: usize) -> u16
    ensures { result ≡ alternatives_of seat i }
{
    seat.alternatives.get(i).copied().unwrap_or(0)
}
