// What the console writes.
ghost use Rattle.std.specs.Prelude.{◌≡◌, Some, None};

use crate::console::Console;
use std::fmt;
use std::fmt::{Display, Formatter, InlineText};
use std::io::Write;

// Bytes as they are: a script's name and a remark need not be text.
pub fn text(console: &Console, words: &[u8]) {
    note(console, console.output.write_all(words));
}

// What `print!` and `println!` call. The line feed of `println!` is a piece of its own; one that belongs to the words before it
// stands in them.
impl Console {
    pub fn print<T: Display + Drop>(&self, words: T) {
        note(self, Formatter::new(Pieces(self)).write(words));
    }

    pub fn println<T: Display + Drop>(&self, words: T) {
        note(self, Formatter::new(Pieces(self)).writeln(words));
    }
}

// Standard output, to which each piece of a format, words or a number, is written alone: where one is lost, the others are not.
#[derive(Clone, Copy)]
struct Pieces<'a>(&'a Console);

impl fmt::Write for Pieces<'_> {
    fn write_str(&mut self, piece: &str) -> fmt::Result {
        text(self.0, piece.as_bytes());
        Ok(())
    }
}

// What could not be written is lost, and is reported.
fn note<E: Drop>(console: &Console, written: Result<(), E>) {
    if written.is_err() {
        report(console, b"lost\n");
    }
}

// A report that can't be written is dropped.
pub fn report(console: &Console, words: &[u8]) {
    if let Some(file) = &console.reports {
        let mut to = file;
        let _ = to.write_all(words);
    }
}

pub fn report_number(console: &Console, word: &[u8], n: u64) {
    report(console, word);
    if let Some(file) = &console.reports {
        let mut to = file;
        let _ = write!(to, "{n}");
    }
    report(console, b"\n");
}

// So many of something: `1 rule`, `2 rules`.
#[derive(Clone, Copy)]
pub struct Counted(pub u64, pub &'static str);

impl Display for Counted {
    fn fmt<W: fmt::Write>(&self, f: &mut Formatter<W>) -> fmt::Result {
        let Counted(count, what) = *self;
        let plural = if count == 1 { "" } else { "s" };
        write!(f, "{count} {what}{plural}")
    }
}

// What is written in one piece, of 128 bytes at most.
#[derive(Clone, Copy)]
pub struct Whole<T>(pub T);

impl<T: Display> Display for Whole<T> {
    fn fmt<W: fmt::Write>(&self, f: &mut Formatter<W>) -> fmt::Result {
        f.write_str(InlineText::<128>::of(&self.0).as_str())
    }
}

// Numbers as they stand in a line: a blank before each, and `-` for the one that means none.
#[derive(Clone, Copy)]
pub struct Spaced<'a, T> {
    list: &'a [T],
    none: Option<T>,
}

impl<'a, T> Spaced<'a, T> {
    pub fn all(list: &'a [T]) -> Spaced<'a, T>
        ensures whole { result.list.now ≡ list.now }
        ensures no_none { result.none ≡ None }
    {
        Spaced { list, none: None }
    }
}

impl<'a> Spaced<'a, u8> {
    pub fn entries(list: &'a [u8]) -> Spaced<'a, u8>
        ensures whole { result.list.now ≡ list.now }
        ensures none { result.none ≡ Some 255 }
    {
        Spaced {
            list,
            none: Some(255),
        }
    }
}

impl<'a, T: Copy + PartialEq + Display> Display for Spaced<'a, T> {
    fn fmt<W: fmt::Write>(&self, f: &mut Formatter<W>) -> fmt::Result {
        for number in self.list {
            if self.none == Some(*number) {
                f.write_str(" -")?;
            } else {
                write!(f, " {number}")?;
            }
        }
        Ok(())
    }
}
