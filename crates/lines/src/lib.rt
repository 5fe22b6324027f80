// The console's lines: words and numbers read and written, numbers put into the lent memory, and the commands.
#![tactic(auto)]

pub mod commands;
mod console;
mod incoming;
mod lent;
mod reading;
mod writing;

pub use console::Console;
pub use incoming::{TYPED, append_what_fits, asked_to_stop, is_person, read_some};
pub use lent::{byte, fill, put_rules, put_sizes, set_byte, two_bytes};
pub use reading::{Stretch, at, between, end_of, read_numbers};
pub use writing::{Counted, Spaced, Whole, report, report_number, text};
