// Posting a job, and closing a seat. All that a posting keeps are the choices, as they then are.
ghost use Rattle.std.specs.Prelude.{◌≡◌, map, ◌<◌, ◌≤◌, length, get_or, set};
ghost use Rattle.search.specs.Clinic.{clinic_of, closed_clinic, closed_seat, in_force};
ghost use Rattle.search.specs.Step.{posted};
ghost use Rattle.runs.specs.Perform.{clinic_after};
ghost use Rattle.seat.specs.Inner.Placeable.{HasBit, HaveBits, Placeable};

use crate::candidates::started;
use crate::share::empty;
use runs::Asking;
use search::{Seat, State};

// What an accepted asking makes of a clinic: it posts a job, it leaves, or it reads and changes nothing.
pub fn clinic_after(asking: Asking, seat: Seat, share: &mut [u8], sizes: &[u8]) -> Seat
    requires lent_whole { (length share.old ≡ 4096) × (1 ≤ get_or sizes.now 0 0) }
    requires placeable { Placeable asking × HaveBits seat.choices }
    ensures { clinic_of result share.new
        ≡ clinic_after sizes.now asking (clinic_of seat share.old) }
{
    match asking {
        Asking::Enter => post([255u8; 16], share, sizes),
        Asking::Leave => close(share),
        Asking::Choose { feature, option } => post_with(seat, share, sizes, feature, option as u8),
        Asking::Relax { feature } => post_with(seat, share, sizes, feature, 255),
        Asking::Read(_) => seat,
    }
}

// A job under the choices with one set, or dropped.
fn post_with(seat: Seat, share: &mut [u8], sizes: &[u8], feature: usize, option: u8) -> Seat
    requires lent_whole { (length share.old ≡ 4096) × (1 ≤ get_or sizes.now 0 0) }
    requires placeable { (feature < 16) × HasBit option × HaveBits seat.choices }
    ensures { clinic_of result share.new
        ≡ posted sizes.now (set seat.choices feature option) }
{
    let mut choices = seat.choices;
    choices[feature] = option;
    post(choices, share, sizes)
}

fn close(share: &mut [u8]) -> Seat
    requires { length share.old ≡ 4096 }
    ensures { clinic_of result share.new ≡ closed_clinic }
{
    empty(share);
    closed()
}

// A closed seat has no choices, empty masks, no trial, no alternatives, and has run into no rule.
pub fn closed() -> Seat
    ensures { result ≡ closed_seat }
{
    Seat {
        state: State::Closed,
        choices: [255u8; 16],
        masks: [0u16; 16],
        trial: [255u8; 16],
        alternatives: [0u16; 16],
        broken: 255,
    }
}

// Masks emptied, but for the options in force among the alternatives; share filled with 255; no rule broken; pair (0, 0).
fn post(choices: [u8; 16], share: &mut [u8], sizes: &[u8]) -> Seat
    requires lent_whole { (length share.old ≡ 4096) × (1 ≤ get_or sizes.now 0 0) }
    requires bits { HaveBits choices }
    ensures { clinic_of result share.new ≡ posted sizes.now choices }
{
    empty(share);
    Seat {
        state: started(sizes, &choices, 0, 0),
        choices,
        alternatives: in_force(choices),
        ..closed()
    }
}

// The option in force always counts as an alternative.
fn in_force(choices: [u8; 16]) -> [u16; 16]
    requires { HaveBits choices }
    ensures { result ≡ map in_force choices }
{
    let mut bits = [0u16; 16];
    for f in 0..16 {
        bits[f] = bit_of(choices[f]);
    }
    bits
}

// The bit of an option in force; none where there is no choice.
fn bit_of(choice: u8) -> u16
    requires { HasBit choice }
    ensures { result ≡ in_force choice }
{
    if choice == 255 { 0 } else { 1u16 << choice }
}
