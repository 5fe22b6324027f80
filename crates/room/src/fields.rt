// The fields of a seat's record, set by hand to anything.
use desk::Desk;
use lines::commands::Field;
use lines::{at, byte, two_bytes};
use seat::{Place, Seat, State};

// A seat that is not there is left out, and so is a feature.
pub fn set(desk: &mut Desk, field: Field, numbers: &[u32]) {
    if let Some(seat) = desk.seats.get_mut(at(numbers, 0) as usize) {
        set_field(seat, field, numbers);
    }
}

fn set_field(seat: &mut Seat, field: Field, numbers: &[u32]) {
    match field {
        Field::Closed => seat.state = State::Closed,
        Field::Ready => seat.state = State::Ready,
        Field::Work => seat.state = State::AtWork(place(numbers)),
        Field::Choice => put(&mut seat.choices, numbers, entry(numbers)),
        Field::Mask => put(&mut seat.masks, numbers, mask(numbers)),
        Field::Alternatives => put(&mut seat.alternatives, numbers, mask(numbers)),
        Field::Trial => put(&mut seat.trial, numbers, entry(numbers)),
        Field::Rule => seat.broken = byte(at(numbers, 1)),
    }
}

// A value of the feature that the numbers name.
fn put<T: Copy>(values: &mut [T], numbers: &[u32], value: T) {
    if let Some(old) = values.get_mut(at(numbers, 1) as usize) {
        *old = value;
    }
}

fn place(numbers: &[u32]) -> Place {
    Place {
        feature: byte(at(numbers, 1)),
        option: byte(at(numbers, 2)),
        depth: byte(at(numbers, 3)),
        next: byte(at(numbers, 4)),
    }
}

fn entry(numbers: &[u32]) -> u8 {
    byte(at(numbers, 2))
}

fn mask(numbers: &[u32]) -> u16 {
    two_bytes(at(numbers, 2))
}
