// Looking at a seat's record and at a share of the board.
ghost use Rattle.std.specs.Prelude.{◌≤◌};

use lines::{Console, Spaced, Whole, between};
use search::{Place, Seat, State};
use std::fmt;
use std::fmt::{Display, Formatter};

pub fn record(console: &Console, seat: Seat) {
    let state = Standing(seat.state);
    let choices = Whole(Spaced::entries(&seat.choices));
    let masks = Whole(Spaced::all(&seat.masks));
    let alternatives = Whole(Spaced::all(&seat.alternatives));
    let trial = Whole(Spaced::entries(&seat.trial));
    let broken = [seat.broken];
    let rule = Whole(Spaced::entries(&broken));
    print!(console; "{state}; choices{choices}; masks{masks}");
    println!(console; "; alternatives{alternatives}; trial{trial}; rule{rule}");
}

// A seat's state in words.
#[derive(Clone, Copy)]
struct Standing(State);

impl Display for Standing {
    fn fmt<W: fmt::Write>(&self, f: &mut Formatter<W>) -> fmt::Result {
        match self.0 {
            State::Closed => f.write_str("closed"),
            State::Ready => f.write_str("ready"),
            State::AtWork(
                Place {
                    feature,
                    option,
                    depth,
                    next,
                },
            ) => {
                write!(
                    f,
                    "at work at feature {feature} option {option} depth {depth} next {next}"
                )
            }
        }
    }
}

// How far a seat at work is: which pair, counted from 1, of how many.
pub fn pair(console: &Console, seat: Seat, sizes: &[u8]) {
    if let State::AtWork(place) = seat.state {
        let before = sum(between(sizes, 0, usize::from(place.feature)));
        let pair = before.wrapping_add(u64::from(place.option)).wrapping_add(1);
        let pairs = sum(sizes);
        print!(console; "pair {pair} of {pairs}");
    }
}

fn sum(sizes: &[u8]) -> u64 {
    sizes
        .iter()
        .fold(0u64, |sum, size| sum.wrapping_add(u64::from(*size)))
}

// Whether no feature of so many has an option left.
pub fn nothing_left(seat: Seat, features: usize) -> bool {
    between(&seat.masks, 0, features)
        .iter()
        .all(|mask| *mask == 0)
}

pub fn share(console: &Console, board: &[u8], seat: u32) {
    let length = board.len();
    if length != 32768 {
        print!(console; "the board has {length} bytes, so no shares\n");
        return;
    }
    let from = (seat % 8) as usize * 4096;
    let count = examples(console, &board[from..from + 4096]);
    print!(console; "share {seat}: {count} examples\n");
}

// A line for each example; answers how many there are.
fn examples(console: &Console, share: &[u8]) -> usize {
    let (records, _) = share.as_chunks::<16>();
    let mut count = 0usize;
    for (k, record) in records.iter().enumerate() {
        count += example(console, k, record);
    }
    count
}

// Writes example k of a share, unless it is all 255; answers 1 for one, 0 for none.
fn example(console: &Console, k: usize, bytes: &[u8; 16]) -> usize
    ensures { result ≤ 1 }
{
    if *bytes == [255; 16] {
        return 0;
    }
    let feature = k / 16;
    let option = k % 16;
    let entries = Whole(Spaced::entries(bytes));
    println!(console; "option {option} of feature {feature}:{entries}");
    1
}
