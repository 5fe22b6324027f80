// The console: lines of text in, answers out, over one desk. docs/CONSOLE.md has its lines. With no argument it reads
// standard input; else each argument names a script, and - standard input.
#![tactic(auto)]

mod answer;
mod script;

use lines::{Console, between, is_person, report, text};
use script::script;
use std::env::{Env, FillError};
use std::fs::File;

fn main(rt: HostRuntime) {
    let console = Console::new(&rt);
    if !argument(&rt, &console, 1) {
        input(&rt, &console);
        return;
    }
    scripts(&rt, &console);
}

// Argument 0 is the program's own name.
fn scripts(rt: &HostRuntime, console: &Console) {
    for i in 2..usize::MAX {
        if !argument(rt, console, i) {
            return;
        }
    }
}

// Whether there is such an argument. Linux hands over none longer than this.
fn argument(rt: &HostRuntime, console: &Console, i: usize) -> bool {
    let mut name = [0u8; 131072];
    match rt.arg(i, &mut name) {
        Ok(length) => {
            file(rt, console, between(&name, 0, length));
            true
        }
        Err(FillError::TooLong) => {
            file(rt, console, b"");
            true
        }
        Err(FillError::NotPresent) => false,
    }
}

fn file(rt: &HostRuntime, console: &Console, name: &[u8]) {
    print!(console; "script ");
    text(console, name);
    if name == b"-".as_slice() {
        println!(console);
        input(rt, console);
        return;
    }
    match opened(rt, name) {
        Some(mut from) => {
            println!(console);
            script(console, &mut from, false);
        }
        None => {
            print!(console; " can't be read\n");
            report(console, b"unread\n");
        }
    }
}

// A name that is not text names no file here.
fn opened(rt: &HostRuntime, name: &[u8]) -> Option<File> {
    let path = str::from_utf8(name).ok()?;
    File::open(rt, path).ok()
}

// Standard input, at which a person may sit.
fn input(rt: &HostRuntime, console: &Console) {
    let mut from = rt.stdin();
    script(console, &mut from, is_person(console));
}
