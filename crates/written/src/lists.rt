// Lists of numbers, in a line as they can be given back or in columns.
use catalogue::Catalogue;
use lines::{Console, Spaced};
use std::fmt;
use std::fmt::{Display, Formatter};

// The lines that give a catalogue back.
pub fn numbers(console: &Console, catalogue: &Catalogue) {
    let sizes = Spaced::all(catalogue.sizes);
    let rules = Spaced::all(catalogue.rules);
    println!(console; "sizes{sizes}\nrules{rules}");
}

// Numbers in columns of four bytes.
#[derive(Clone, Copy)]
pub struct Columns<'a, T>(pub &'a [T]);

impl<'a, T: Copy + Into<usize>> Display for Columns<'a, T> {
    fn fmt<W: fmt::Write>(&self, f: &mut Formatter<W>) -> fmt::Result {
        for n in self.0 {
            let n: usize = (*n).into();
            write!(f, "{}{n}", Blanks(n))?;
        }
        Ok(())
    }
}

// What fills a number up to four bytes.
#[derive(Clone, Copy)]
pub struct Blanks(pub usize);

impl Display for Blanks {
    fn fmt<W: fmt::Write>(&self, f: &mut Formatter<W>) -> fmt::Result {
        f.write_str(match self.0 {
            0..=9 => "   ",
            10..=99 => "  ",
            100..=999 => " ",
            _ => "",
        })
    }
}
