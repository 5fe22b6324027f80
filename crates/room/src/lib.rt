// What the console holds, one desk with its board and catalogue, and what each command does to them.
#![tactic(auto)]

mod calls;
mod commands;
mod digest;
mod fields;
mod list;
mod parts;
mod setup;
mod showing;
mod work;

use desk::Desk;

// The lent memory has room for more than is in use: a board of `board_length` bytes, and so on.
// Stays: counts beside what is lent, and no ArrayVec: `obey` and `trolley` may not change, they take lists of any length, and
// only the program calls them.
#[derive(Clone, Copy)]
pub struct Room {
    pub desk: Desk,
    pub board_length: usize,
    pub sizes_count: usize,
    pub rules_count: usize,
    pub watched: bool, // by a person at a terminal
}

// The memory that board, sizes and rules stand in.
#[derive(Drop)]
pub struct Lent<'a> {
    pub board: &'a mut [u8],
    pub sizes: &'a mut [u8],
    pub rules: &'a mut [u16],
}
