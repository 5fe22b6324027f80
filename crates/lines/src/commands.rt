// The commands: their words, their forms, and which numbers each takes.
ghost use Rattle.lines.specs.Command.{Tells};

use crate::console::Console;
use crate::reading::{Stretch, between, end_of};
use crate::writing::text;

// A command's number is its line here, and its word the line's first.
pub const FORMS: [u8; 581] = *b"open
enter SEAT
leave SEAT
choose SEAT FEATURE OPTION
relax SEAT FEATURE
options SEAT FEATURE
alternatives SEAT FEATURE
example SEAT FEATURE OPTION
ran-into SEAT
turns TURNS
work SEAT
trolley
sizes SIZE ...
rules NUMBER ...
more NUMBER ...
board LENGTH BYTE
set-byte PLACE BYTE
set-next SEAT
set-closed SEAT
set-ready SEAT
set-work SEAT FEATURE OPTION DEPTH NEXT
set-choice SEAT FEATURE OPTION
set-mask SEAT FEATURE MASK
set-alternatives SEAT FEATURE MASK
set-trial SEAT FEATURE OPTION
set-rule SEAT RULE
seat SEAT
desk
share SEAT
list SEAT
catalogue
numbers
digest
help
quit
exit
";

// What a line tells the desk to do, in the order of FORMS.
#[derive(Clone, Copy)]
pub enum Command {
    Change(Change),
    Question(Question),
    Turns,
    Work,
    Supply(Supply),
    SetNext,
    SetSeat(Field),
    View(View),
    Quit,
    Exit,
}

// The calls that answer nothing but the desk.
#[derive(Clone, Copy)]
pub enum Change {
    Open,
    Enter,
    Leave,
    Choose,
    Relax,
}

// The calls that only read.
#[derive(Clone, Copy)]
pub enum Question {
    Options,
    Alternatives,
    Example,
    RanInto,
}

// What sets catalogue and board.
#[derive(Clone, Copy)]
pub enum Supply {
    Trolley,
    Sizes,
    Rules,
    More,
    Board,
    SetByte,
}

// A field of a seat's record, set by hand.
#[derive(Clone, Copy)]
pub enum Field {
    Closed,
    Ready,
    Work,
    Choice,
    Mask,
    Alternatives,
    Trial,
    Rule,
}

// What shows desk, board or catalogue and changes nothing.
#[derive(Clone, Copy)]
pub enum View {
    Seat,
    Desk,
    Share,
    List,
    Catalogue,
    Numbers,
    Digest,
    Help,
}

const COMMANDS: [Command; 36] = [
    Command::Change(Change::Open),
    Command::Change(Change::Enter),
    Command::Change(Change::Leave),
    Command::Change(Change::Choose),
    Command::Change(Change::Relax),
    Command::Question(Question::Options),
    Command::Question(Question::Alternatives),
    Command::Question(Question::Example),
    Command::Question(Question::RanInto),
    Command::Turns,
    Command::Work,
    Command::Supply(Supply::Trolley),
    Command::Supply(Supply::Sizes),
    Command::Supply(Supply::Rules),
    Command::Supply(Supply::More),
    Command::Supply(Supply::Board),
    Command::Supply(Supply::SetByte),
    Command::SetNext,
    Command::SetSeat(Field::Closed),
    Command::SetSeat(Field::Ready),
    Command::SetSeat(Field::Work),
    Command::SetSeat(Field::Choice),
    Command::SetSeat(Field::Mask),
    Command::SetSeat(Field::Alternatives),
    Command::SetSeat(Field::Trial),
    Command::SetSeat(Field::Rule),
    Command::View(View::Seat),
    Command::View(View::Desk),
    Command::View(View::Share),
    Command::View(View::List),
    Command::View(View::Catalogue),
    Command::View(View::Numbers),
    Command::View(View::Digest),
    Command::View(View::Help),
    Command::Quit,
    Command::Exit,
];

// The number of no command.
#[derive(Clone, Copy)]
pub struct NoCommand(pub usize);

impl TryFrom<usize> for Command {
    type Error = NoCommand;

    ghost try_from_gives = { Tells };

    #[tactic(auto, using(crate::proofs::Command::looked_up))]
    fn try_from(number: usize) -> Result<Self, NoCommand> {
        COMMANDS.get(number).copied().ok_or(NoCommand(number))
    }
}

// A command's number, and where its form stands.
// Stays: a number, and no Command: `takes` and `write_form` may not change, they take any number, and outside this crate
// only the program calls them.
#[derive(Clone, Copy)]
pub struct Form {
    pub command: usize,
    pub from: usize,
    pub to: usize,
}

// The form that begins with a word, if one does.
pub fn command_of(word: &[u8]) -> Option<Form> {
    let mut from = 0;
    for command in 0..COMMANDS.len() {
        let to = end_of(&FORMS, from, Stretch::Line);
        if begins(between(&FORMS, from, to), word) {
            return Some(Form { command, from, to });
        }
        from = to + 1;
    }
    None
}

// Whether a word is the first of a form.
fn begins(form: &[u8], word: &[u8]) -> bool {
    let end = end_of(form, 0, Stretch::Word);
    between(form, 0, end) == word
}

pub fn write_form(console: &Console, form: Form) {
    text(console, between(&FORMS, form.from, form.to));
}

// Whether there are as many numbers as the command takes, and each is in its range. That a place is on the board and
// the rule list has room for more, the console's own state tells.
pub fn takes(form: Form, numbers: &[u32]) -> bool {
    let Ok(command) = Command::try_from(form.command) else {
        return numbers.len() == blanks_of(form);
    };
    takes_so_many(command, form, numbers.len()) && within(command, numbers)
}

fn takes_so_many(command: Command, form: Form, count: usize) -> bool {
    match command {
        Command::Supply(Supply::Sizes) => count <= 64,
        Command::Supply(Supply::Rules | Supply::More) => count <= 9000,
        _ => count == blanks_of(form),
    }
}

// A form has a blank before each of its numbers.
fn blanks_of(form: Form) -> usize {
    let words = between(&FORMS, form.from, form.to);
    words.iter().filter(|byte| **byte == b' ').count()
}

fn within(command: Command, numbers: &[u32]) -> bool {
    let in_range = |(i, n): (usize, &u32)| *n <= most(command, i);
    numbers.iter().enumerate().all(in_range)
}

// The greatest that a command's number i may be.
fn most(command: Command, i: usize) -> u32 {
    match command {
        Command::Turns | Command::Supply(Supply::Rules | Supply::More) => 65535,
        Command::Supply(Supply::Sizes) | Command::SetNext => 255,
        Command::Supply(Supply::Board | Supply::SetByte) => if i == 0 { 40000 } else { 255 },
        Command::SetSeat(field) => most_of_field(field, i),
        Command::View(View::Seat | View::Share) => 7,
        _ => u32::MAX,
    }
}

// Of seat, feature and what is set; the feature of a place at work may be any byte.
fn most_of_field(field: Field, i: usize) -> u32 {
    match (field, i) {
        (_, 0) | (Field::Closed | Field::Ready, _) => 7,
        (Field::Rule | Field::Work, _) => 255,
        (_, 1) => 15,
        (Field::Mask | Field::Alternatives, _) => 65535,
        _ => 255,
    }
}
