// A line as it comes in.
ghost use Rattle.std.specs.Prelude.{◌≡◌, ◌++◌, take};

use crate::console::Console;
use crate::writing::report;
use arrayvec::ArrayVec;
use std::io::{IsTerminal, Read};

// The most that a terminal hands over of one line; it drops the rest without a word.
pub const TYPED: usize = 4095;

// A read that fails counts as the end, and is reported.
pub fn read_some<R: Read>(console: &Console, from: &mut R, chunk: &mut [u8]) -> usize {
    match from.read(chunk) {
        Ok(count) => count,
        Err(_) => {
            report(console, b"unread\n");
            0
        }
    }
}

// Whether the program that runs the console asks it to stop. Takes what is there.
pub fn asked_to_stop(console: &Console) -> bool {
    let mut bytes = [0u8; 64];
    let Some(file) = &console.stops else {
        return false;
    };
    let mut from = file;
    from.read(&mut bytes).is_ok_and(|count| 0 < count)
}

// Whether a person types: standard input and what is written are a terminal's.
pub fn is_person(console: &Console) -> bool {
    console.input.is_terminal() && console.output.is_terminal()
}

// Puts bytes to the end of a line, as many as there is room for.
pub fn append_what_fits<const MOST: usize>(line: &mut ArrayVec<u8, MOST>, bytes: &[u8])
    ensures { line.new.items ≡ take MOST (line.old.items ++ bytes.now) }
{
    let count = bytes.len().min(line.remaining_capacity());
    let _ = line.try_extend_from_slice(&bytes[..count]);
}
