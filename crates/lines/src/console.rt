// Where the console's words go: standard output, and what the program that runs it opened for it.
use std::fs;
use std::fs::File;
use std::io::{Stdin, Stdout};
use std::os::fd::AsRawFd;

// The descriptor where the program that runs the console is told how it goes, if that program opened it.
const REPORT: &str = "/proc/self/fd/9";

// The descriptor where that program asks it to stop, if it opened a file there.
const STOP: &str = "/proc/self/fd/8";

#[derive(Drop)]
pub struct Console {
    pub(crate) input: Stdin,
    pub(crate) output: Stdout,
    pub(crate) reports: Option<File>,
    pub(crate) stops: Option<File>,
}

impl Console {
    pub fn new(rt: &HostRuntime) -> Console {
        Console {
            input: rt.stdin(),
            output: rt.stdout(),
            reports: reports(rt),
            stops: stops(rt),
        }
    }
}

// Each report stands after what is there.
fn reports(rt: &HostRuntime) -> Option<File> {
    let file = File::options().append(true).open(rt, REPORT).ok()?;
    raised(file, 10)
}

// Of a file a read never waits, so nothing else is looked at.
fn stops(rt: &HostRuntime) -> Option<File> {
    let about = fs::metadata(rt, STOP).ok()?;
    if !about.is_file() {
        return None;
    }
    let file = File::open(rt, STOP).ok()?;
    raised(file, 10)
}

// The same file under a number above 9. What is opened takes the least that is free: that may be the number of a standard
// stream that is closed, and what is written there would come to this file.
// Stays: a `for` is no plainer: it would have to keep all the copies open, or the next one took the same number again.
fn raised(file: File, turns: u8) -> Option<File> {
    if 9 < file.as_raw_fd() {
        return Some(file);
    }
    if turns == 0 {
        return None;
    }
    let next = file.try_clone().ok()?;
    raised(next, turns - 1)
}
