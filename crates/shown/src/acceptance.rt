// The words of an accepted call.
use crate::refusal::Asked;
use lines::Console;
use lines::commands::Change;

pub fn accepted(console: &Console, change: Change, asked: Asked) {
    let Asked {
        seat,
        feature,
        option,
    } = asked;
    match change {
        Change::Open => print!(console; "opened: eight seats, all closed\n"),
        Change::Enter => print!(console; "seat {seat} has entered and is at work\n"),
        Change::Leave => print!(console; "seat {seat} has left\n"),
        Change::Choose => {
            print!(console; "seat {seat} chose ");
            print!(console; "option {option} of feature {feature} and is at work\n");
        }
        Change::Relax => {
            print!(console; "seat {seat} dropped its choice of feature {feature} and is at work\n");
        }
    }
}

// What no refusal has beside it; a refusal that had would be seen.
pub fn beside(console: &Console, made: u16, working: bool) {
    print!(console; "; ");
    turns_made(console, made, working);
}

pub fn turns_made(console: &Console, made: u16, working: bool) {
    if working {
        print!(console; "{made} turns made, a seat is at work");
    } else {
        print!(console; "{made} turns made, no seat is at work");
    }
}

// Which rule the search of a seat ran into last; 255 is none.
// Stays: a byte, since `Ran` of runs has it so, and `RanAs` holds that answer.
pub fn rule_met(console: &Console, seat: u32, rule: u8) {
    if rule == 255 {
        print!(console; "seat {seat} has run into no rule");
    } else {
        print!(console; "seat {seat} last ran into rule {rule}");
    }
}

// The bits of a mask, rising.
pub fn options_of(console: &Console, mask: u16) {
    for a in 0..16u16 {
        if mask >> a & 1 == 1 {
            print!(console; " {a}");
        }
    }
}
