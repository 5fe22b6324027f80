// One line and its answer.
use lines::commands::{Command, Form, Supply, command_of, takes, write_form};
use lines::{Console, Stretch, at, between, end_of, read_numbers, report_number, text};
use room::{Lent, Room};

// What has become of a script's lines.
#[derive(Clone, Copy)]
pub struct Sitting {
    pub room: Room,
    pub lines: u64, // read so far, the one being answered included
    pub answered: u64,
    pub not_understood: u64,
    pub ended: bool, // after quit or exit
}

// What a line is.
#[derive(Clone, Copy)]
enum Line<'a> {
    Nothing,
    Unknown,
    Misused(Form),
    Command(Form, &'a [u32]), // and its numbers
}

impl Sitting {
    // A line's numbers are put into the memory lent for them.
    pub fn answer(&mut self, console: &Console, lent: &mut Lent, numbers: &mut [u32], line: &[u8]) {
        match read(console, self.room, line, numbers) {
            Line::Nothing => {}
            Line::Unknown => {
                print!(console; "not understood; help lists the commands\n");
                self.miss(console);
            }
            Line::Misused(form) => {
                print!(console; "not understood; write: ");
                write_form(console, form);
                println!(console);
                self.miss(console);
            }
            Line::Command(form, given) => self.obey(console, lent, form, given),
        }
    }

    fn obey(&mut self, console: &Console, lent: &mut Lent, form: Form, numbers: &[u32]) {
        self.room.obey(console, lent, form.command, numbers);
        self.answered = self.answered.wrapping_add(1);
        self.ended = ends(form);
    }

    // A line that is not understood is reported and counted.
    pub fn miss(&mut self, console: &Console) {
        report_number(console, b"missed ", self.lines);
        self.not_understood = self.not_understood.wrapping_add(1);
    }
}

fn ends(form: Form) -> bool {
    matches!(
        Command::try_from(form.command),
        Ok(Command::Quit | Command::Exit)
    )
}

// A byte-order mark is passed over.
fn read<'a>(console: &Console, room: Room, line: &[u8], numbers: &'a mut [u32]) -> Line<'a> {
    let words = line.strip_prefix(b"\xef\xbb\xbf").unwrap_or(line);
    let from = end_of(words, 0, Stretch::Blanks);
    if from == words.len() {
        return Line::Nothing;
    }
    if words[from] == b'#' {
        text(console, words);
        println!(console);
        return Line::Nothing;
    }
    let to = end_of(words, from, Stretch::Word);
    match command_of(between(words, from, to)) {
        Some(form) => read_command(room, form, between(words, to, words.len()), numbers),
        None => Line::Unknown,
    }
}

fn read_command<'a>(room: Room, form: Form, rest: &[u8], numbers: &'a mut [u32]) -> Line<'a> {
    match read_numbers(rest, numbers) {
        Some(given) if takes(form, given) && has_place(room, form, given) => {
            Line::Command(form, given)
        }
        _ => Line::Misused(form),
    }
}

// Whether the board has the place and the rule list room for more.
fn has_place(room: Room, form: Form, numbers: &[u32]) -> bool {
    match Command::try_from(form.command) {
        Ok(Command::Supply(Supply::SetByte)) => (at(numbers, 0) as usize) < room.board_length,
        Ok(Command::Supply(Supply::More)) => numbers.len() <= 9000 - room.rules_count.min(9000),
        _ => true,
    }
}
