// Bytes and seats folded into a number.
use search::{Seat, State};

pub fn of_seat(h: u64, seat: Seat) -> u64 {
    let with_state = fold(h, &state_bytes(seat.state));
    let with_choices = fold(with_state, &seat.choices);
    let with_masks = fold_masks(with_choices, &seat.masks);
    let with_alternatives = fold_masks(with_masks, &seat.alternatives);
    let with_trial = fold(with_alternatives, &seat.trial);
    fold(with_trial, &[seat.broken])
}

// The state's number and the place.
fn state_bytes(state: State) -> [u8; 5] {
    match state {
        State::Closed => [0, 0, 0, 0, 0],
        State::Ready => [1, 0, 0, 0, 0],
        State::AtWork(place) => [2, place.feature, place.option, place.depth, place.next],
    }
}

// The low byte of each mask, then the high one.
fn fold_masks(h: u64, masks: &[u16]) -> u64 {
    masks
        .iter()
        .fold(h, |folded, mask| fold(folded, &mask.to_le_bytes()))
}

pub fn fold(h: u64, bytes: &[u8]) -> u64 {
    bytes
        .iter()
        .fold(h, |folded, byte| step(folded, u64::from(*byte)))
}

fn step(h: u64, b: u64) -> u64 {
    let sum = h.wrapping_add(b).wrapping_add(1);
    let spread = sum.wrapping_add(sum << 10);
    spread ^ (spread >> 6)
}
