// The start state, and what sets catalogue and board.
use crate::parts::in_use;
use crate::{Lent, Room};
use desk::Desk;
use lines::commands::Supply;
use lines::{Console, at, byte, fill, put_rules, put_sizes, set_byte};

// Stays: the program trolley has this catalogue too, as the desk takes it, and here it is as a line gives it. A crate that
// both stand on would be no plainer than these three lines.
const TROLLEY_SIZES: [u32; 3] = [3, 3, 2];
// rule A on features 0, 1: (0,1) (1,0) (1,2) (2,1); rule B on features 1, 2: (0,0) (1,1) (2,0) (2,1)
const TROLLEY_RULES: [u32; 24] = [
    2, 4, 0, 1, 0, 1, 1, 0, 1, 2, 2, 1, 2, 4, 1, 2, 0, 0, 1, 1, 2, 0, 2, 1,
];

impl Room {
    // The start state.
    // Stays: a closed desk is two lines here and in desk, whose function for it is private; a public one is no plainer.
    pub fn trolley(lent: &mut Lent, watched: bool) -> Room {
        fill(lent.board, 32768, 255);
        Room {
            desk: Desk {
                seats: [seat::closed(); 8],
                next: 0,
            },
            board_length: 32768,
            sizes_count: put_sizes(lent.sizes, &TROLLEY_SIZES),
            rules_count: put_rules(lent.rules, 0, &TROLLEY_RULES),
            watched,
        }
    }

    pub(crate) fn supply(
        &mut self,
        console: &Console,
        lent: &mut Lent,
        supply: Supply,
        numbers: &[u32],
    ) {
        match supply {
            Supply::Trolley => {
                print!(console; "the trolley, eight seats closed\n");
                *self = Room::trolley(lent, self.watched);
            }
            Supply::Sizes => self.set_sizes(console, lent, numbers),
            Supply::Rules => self.add_rules(console, lent, 0, numbers),
            Supply::More => self.add_rules(console, lent, self.rules_count, numbers),
            Supply::Board => self.set_board(console, lent, at(numbers, 0), at(numbers, 1)),
            Supply::SetByte => set_byte(console, lent.board, at(numbers, 0), at(numbers, 1)),
        }
    }

    fn set_sizes(&mut self, console: &Console, lent: &mut Lent, numbers: &[u32]) {
        self.sizes_count = put_sizes(lent.sizes, numbers);
        let good = written::sizes(console, in_use(lent.sizes, self.sizes_count));
        say_open(console, self.desk, good);
    }

    // The rule list up to a place, and the numbers after it.
    fn add_rules(&mut self, console: &Console, lent: &mut Lent, from: usize, numbers: &[u32]) {
        self.rules_count = put_rules(lent.rules, from, numbers);
        let good = are_good(console, *self, lent);
        say_open(console, self.desk, good);
    }

    fn set_board(&mut self, console: &Console, lent: &mut Lent, length: u32, value: u32) {
        self.board_length = length as usize;
        fill(lent.board, self.board_length, byte(value));
        println!(console; "board: {length} bytes of {value}");
    }
}

// Writes out what the rules are, or their fault; answers whether they have none.
fn are_good(console: &Console, room: Room, lent: &Lent) -> bool {
    let sizes = &*lent.sizes;
    let rules = &*lent.rules;
    written::rules(console, &room.catalogue(sizes, rules))
}

// A new catalogue leaves the desk as it is, and one with a fault is not opened.
fn say_open(console: &Console, desk: Desk, good: bool) {
    if desk.seats.iter().all(|seat| look::is_closed(*seat)) {
        return;
    }
    print!(console; "seats are still open on the old catalogue; ");
    if !good {
        print!(console; "mend the fault, then ");
    }
    print!(console; "open begins anew\n");
}
