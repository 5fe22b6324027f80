// A script: lines read to the end of a file, each answered as soon as it is whole.
use crate::answer::Sitting;
use arrayvec::ArrayVec;
use lines::{Console, TYPED, append_what_fits, between, read_some, report_number};
use room::{Lent, Room};
use shown::help;
use std::io::Read;

// A script as it is read: what has become of its lines, and the memory that they are answered with.
#[derive(Drop)]
struct Reading<'a> {
    sitting: Sitting,
    lent: Lent<'a>,
    numbers: &'a mut [u32], // room for those of one line, made once: a line has 9,000 at most
}

// The line so far. It has room for one byte more than a line may have: once it is full, the line is too long.
type Unfinished = ArrayVec<u8, 65537>;

pub fn script<R: Read>(console: &Console, from: &mut R, watched: bool) {
    let mut board = [0u8; 40000];
    let mut sizes = [0u8; 64];
    let mut rules = [0u16; 9000];
    let mut numbers = [0u32; 9000];
    let mut lent = Lent {
        board: &mut board,
        sizes: &mut sizes,
        rules: &mut rules,
    };
    if watched {
        help::start(console);
    }
    let room = Room::trolley(&mut lent, watched);
    let mut reading = Reading {
        sitting: Sitting {
            room,
            lines: 0,
            answered: 0,
            not_understood: 0,
            ended: false,
        },
        lent,
        numbers: &mut numbers,
    };
    reading.read_all(console, from);
    let sitting = reading.sitting;
    if watched && !sitting.ended {
        println!(console);
    }
    print!(console; "end: {} answered, ", sitting.answered);
    print!(console; "{} not understood\n", sitting.not_understood);
    report_number(console, b"end ", sitting.not_understood);
}

impl Reading<'_> {
    // The last line may lack its line feed; after quit, and where it doesn't, none of it is left.
    fn read_all<R: Read>(&mut self, console: &Console, from: &mut R) {
        let mut line = Unfinished::new();
        self.read_chunks(console, from, &mut line);
        self.end_line(console, &mut line);
    }

    // Nothing says that input ends, so the loop has a number of turns that no run uses up.
    fn read_chunks<R: Read>(&mut self, console: &Console, from: &mut R, line: &mut Unfinished) {
        let mut chunk = [0u8; 65536];
        for _ in 0..u64::MAX {
            self.prompt(console, line.is_empty());
            let count = read_some(console, from, &mut chunk);
            self.feed(console, line, between(&chunk, 0, count));
            if count == 0 || self.sitting.ended {
                return;
            }
        }
    }

    // A person is asked for each line.
    fn prompt(&self, console: &Console, at_its_start: bool) {
        if at_its_start && self.sitting.room.watched {
            print!(console; "> ");
        }
    }

    // Answers each line that these bytes end, up to quit.
    fn feed(&mut self, console: &Console, line: &mut Unfinished, bytes: &[u8]) {
        for piece in bytes.split_inclusive(|byte| *byte == b'\n') {
            let whole = piece.strip_suffix(b"\n");
            append_what_fits(line, whole.unwrap_or(piece));
            if whole.is_some() {
                self.end_line(console, line);
            }
            if self.sitting.ended {
                return;
            }
        }
    }

    fn end_line(&mut self, console: &Console, line: &mut Unfinished) {
        self.sitting.lines = self.sitting.lines.wrapping_add(1);
        if line.is_full() {
            print!(console; "not understood; a line has at most 65536 bytes\n");
            self.sitting.miss(console);
        } else if self.sitting.room.watched && TYPED <= line.len() {
            print!(console;
                "not understood; a terminal cuts a line after 4095 bytes: use more, or a script\n"
            );
            self.sitting.miss(console);
        } else {
            let numbers = &mut *self.numbers;
            self.sitting
                .answer(console, &mut self.lent, numbers, line.as_slice());
        }
        line.clear();
    }
}
