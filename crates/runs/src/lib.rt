// The desk, what a seat may ask of it, and what its calls answer. No code: calls, table, turns and runs stand in specs/,
// the laws about them in proofs/.
#![tactic(auto)]

mod answers;

pub use answers::{Changed, Left, Ran, Turned};
use search::Seat;

#[derive(Clone, Copy)]
pub struct Desk {
    pub seats: [Seat; 8],
    pub next: u8, // where the next turn begins to look for a seat at work
}

// What a seat asks of the desk.
#[derive(Clone, Copy)]
pub enum Asking {
    Enter,
    Leave,
    Choose { feature: usize, option: usize },
    Relax { feature: usize },
    Read(Reading),
}

// What is read of a seat: the rule that it last ran into of any open one, all else of a ready one.
#[derive(Clone, Copy)]
pub enum Reading {
    Options { feature: usize },
    Alternatives { feature: usize },
    Example { feature: usize, option: usize }, // answered by two functions: one gives the bytes, the other the number
    RanInto,
}
