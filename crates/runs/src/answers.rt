// What the calls answer. The number is 0 for none; of a refused call all else is 0 or false, and the desk is as it came
// (a refused open's is a fresh one).
// Stays: structs with a number, and no Result: "A refusal leaves desk and board as they came, with numbers 0, no seat at work
// reported" and a refused open hands back a desk, so that a refused call answers all its fields; `ChangesTo`, `ReadsAs`, `RanAs`
// and `TurnsTo` of specs/Answers hold them.
use crate::Desk;

#[derive(Clone, Copy)]
pub struct Changed {
    pub number: u8,
    pub desk: Desk,
}

// Of options and of alternatives.
#[derive(Clone, Copy)]
pub struct Left {
    pub number: u8,
    pub mask: u16, // bit a for option a
    pub count: u32, // how many bits are set
}

// Of ran_into.
#[derive(Clone, Copy)]
pub struct Ran {
    pub number: u8,
    pub rule: u8, // counted from 0; 255 for none; 0 where the call is refused
}

#[derive(Clone, Copy)]
pub struct Turned {
    pub number: u8,
    pub made: u16,
    pub working: bool, // whether a seat is still at work
    pub desk: Desk,
}
