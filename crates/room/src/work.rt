// Turns in portions until a seat is ready.
use crate::parts::Parts;
use lines::{Console, Counted, asked_to_stop, report};
use look::is_at_work;
use numbers::Refusal;
use seat::Seat;
use shown::{Asked, nothing_left, pair, refused};

// The most turns that one call makes.
const PORTION: u16 = 65535;

// The work for one seat so far.
#[derive(Clone, Copy)]
struct Work {
    seat: u32,
    turns: u64,
    portions: u64,
    watched: bool, // by a person
    shown: bool, // whether a line says how far it is
}

pub fn make_ready(console: &Console, parts: &mut Parts, asked: Asked, watched: bool) {
    match parts.unreadable(asked.seat) {
        None | Some(Refusal::SeatAtWork) => {}
        Some(refusal) => {
            refused(console, refusal.number(), parts.lengths(), asked);
            println!(console);
            return;
        }
    }
    let mut work = Work {
        seat: asked.seat,
        turns: 0,
        portions: 0,
        watched,
        shown: false,
    };
    work.run(console, parts);
    work.end(console, parts);
}

impl Work {
    // A stop that was asked for before is none of this work's.
    fn run(&mut self, console: &Console, parts: &mut Parts) {
        if self.watched {
            asked_to_stop(console);
        }
        report(console, b"working\n");
        self.until_ready(console, parts);
        report(console, b"resting\n");
    }

    // No count is known beforehand, so the loop has a number of turns that no run uses up.
    fn until_ready(&mut self, console: &Console, parts: &mut Parts) {
        for _ in 0..u64::MAX {
            if !is_at_work(parts.record(self.seat)) {
                return;
            }
            let refused = self.is_refused(parts);
            if self.is_stopped(console, parts) || refused {
                return;
            }
        }
    }

    // Makes a portion of turns. After the first look nothing refuses them; if something did, it would be the end.
    fn is_refused(&mut self, parts: &mut Parts) -> bool {
        let turned = parts.turn(PORTION);
        self.turns = self.turns.wrapping_add(turned.made as u64);
        self.portions = self.portions.wrapping_add(1);
        turned.number != 0
    }

    // Shows a person how far it is, and looks whether to stop.
    fn is_stopped(&mut self, console: &Console, parts: &Parts) -> bool {
        if !self.watched {
            return false;
        }
        self.show(console, parts);
        asked_to_stop(console)
    }

    // Every so often, while there is something to show.
    fn show(&mut self, console: &Console, parts: &Parts) {
        let record = parts.record(self.seat);
        if self.portions % 8 == 0 && is_at_work(record) {
            self.write_over(console);
            pair(console, record, parts.catalogue.sizes);
            print!(console; ", {} turns so far\n", self.turns);
            self.shown = true;
        }
    }

    // What was shown is a whole line, which a line editor lets through at once: one line up, and all from there on
    // erased.
    fn write_over(&self, console: &Console) {
        if self.shown {
            print!(console; "\x1b[A\r\x1b[J");
        }
    }

    fn end(&self, console: &Console, parts: &Parts) {
        let record = parts.record(self.seat);
        let seat = self.seat;
        self.write_over(console);
        if is_at_work(record) {
            print!(console; "stopped: seat {seat} is at work: ");
            pair(console, record, parts.catalogue.sizes);
        } else {
            print!(console; "seat {seat} is ready");
        }
        println!(console; " after {}", Counted(self.turns, "turn"));
        if !is_at_work(record) {
            no_product(console, record, parts.catalogue.sizes);
        }
    }
}

pub fn no_product(console: &Console, record: Seat, sizes: &[u8]) {
    if nothing_left(record, sizes.len()) {
        print!(console; "no product satisfies these rules\n");
    }
}
