// What each command does.
use crate::parts::Parts;
use crate::{Lent, Room, calls, digest, fields, list, showing, work};
use desk::Desk;
use lines::commands::{Command, View};
use lines::{Console, at, byte};
use shown::{Asked, help};

impl Room {
    // A number that is no command does nothing.
    // Stays: a number, and no Command: `obey` may not change, it takes any number, and only the program calls it.
    pub fn obey(&mut self, console: &Console, lent: &mut Lent, command: usize, numbers: &[u32]) {
        match Command::try_from(command) {
            Ok(Command::Supply(supply)) => self.supply(console, lent, supply, numbers),
            Ok(command) => {
                let room = *self;
                self.desk = answer(
                    console, room, lent.board, lent.sizes, lent.rules, command, numbers,
                );
            }
            Err(_) => {}
        }
    }
}

// Answers with the parts of what is lent that are in use, and hands back the desk.
// Stays: three slices. Tried with a Lent, and the proof didn't close where one field is lent to be written, others to be read.
fn answer(
    console: &Console,
    room: Room,
    board: &mut [u8],
    sizes: &mut [u8],
    rules: &mut [u16],
    command: Command,
    numbers: &[u32],
) -> Desk {
    let length = room.board_length.min(board.len());
    let mut parts = Parts {
        desk: room.desk,
        board: &mut board[..length],
        catalogue: room.catalogue(sizes, rules),
    };
    perform(console, &mut parts, command, numbers, room.watched);
    parts.desk
}

// To what is supplied the room itself has seen.
fn perform(console: &Console, parts: &mut Parts, command: Command, numbers: &[u32], watched: bool) {
    let asked = Asked {
        seat: at(numbers, 0),
        feature: at(numbers, 1),
        option: at(numbers, 2),
    };
    match command {
        Command::Change(change) => calls::change(console, parts, change, asked),
        Command::Question(question) => calls::question(console, parts, question, asked),
        Command::Turns => calls::turns(console, parts, asked),
        Command::Work => work::make_ready(console, parts, asked, watched),
        Command::SetNext => {
            parts.desk.next = byte(asked.seat);
            print!(console; "set\n");
        }
        Command::SetSeat(field) => {
            fields::set(&mut parts.desk, field, numbers);
            print!(console; "set\n");
        }
        Command::View(view) => show(console, parts, view, asked.seat),
        Command::Supply(_) | Command::Quit | Command::Exit => {}
    }
}

fn show(console: &Console, parts: &Parts, view: View, seat: u32) {
    let desk = parts.desk;
    match view {
        View::Seat => showing::seat(console, desk, seat as usize),
        View::Desk => showing::desk(console, desk),
        View::Share => shown::share(console, parts.board, seat),
        View::List => list::list(console, parts, seat),
        View::Catalogue => written::catalogue(console, &parts.catalogue),
        View::Numbers => written::numbers(console, &parts.catalogue),
        View::Digest => digest::digest(console, desk, parts.board),
        View::Help => help::help(console),
    }
}
