// The words of a refusal.
use lines::Console;
use numbers::Refusal;
use std::fmt;
use std::fmt::{Display, Formatter};

// What the numbers of a call were.
#[derive(Clone, Copy)]
pub struct Asked {
    pub seat: u32,
    pub feature: u32,
    pub option: u32,
}

// How long board, sizes and rule list are.
#[derive(Clone, Copy)]
pub struct Lengths {
    pub board: usize,
    pub sizes: usize,
    pub rules: usize,
}

// Stays: a number, since the answers of the desk's calls have one (`Changed` and the others of runs, held by `ChangesTo`).
pub fn refused(console: &Console, number: u8, lengths: Lengths, asked: Asked) {
    print!(console; "refused {number}: ");
    if let Ok(refusal) = Refusal::try_from(number) {
        print!(console;
            "{}",
            Reason {
                refusal,
                lengths,
                asked
            }
        );
    }
}

// A refusal in words.
#[derive(Clone, Copy)]
pub struct Reason {
    pub refusal: Refusal,
    pub lengths: Lengths,
    pub asked: Asked,
}

impl Display for Reason {
    fn fmt<W: fmt::Write>(&self, f: &mut Formatter<W>) -> fmt::Result {
        let board = self.lengths.board;
        let sizes = self.lengths.sizes;
        let rules = self.lengths.rules;
        let seat = self.asked.seat;
        let feature = self.asked.feature;
        let option = self.asked.option;
        match self.refusal {
            Refusal::WrongBoardLength => write!(f, "the board has {board} bytes, not 32768"),
            Refusal::FeatureCountOutOfRange => write!(
                f,
                "the catalogue has {sizes} features, not 1 to 16"
            ),
            Refusal::SizeOutOfRange => f.write_str("a size is 0 or above 16"),
            Refusal::RuleListTooLong => write!(f, "the rule list has {rules} numbers, above 8192"),
            Refusal::TooManyRules => f.write_str("numbers remain after 64 rules"),
            Refusal::RuleListEndsEarly => f.write_str("the rule list ends within a rule"),
            Refusal::ArityOutOfRange => f.write_str("the arity of a rule is 0 or above 6"),
            Refusal::UnknownRuleFeature => f.write_str(
                "a rule names a feature that is not in the catalogue",
            ),
            Refusal::RepeatedRuleFeature => f.write_str("a rule names a feature twice"),
            Refusal::RowOptionTooHigh => f.write_str(
                "a row has an option that is not below its feature's size",
            ),
            Refusal::DeskDoesNotFit => f.write_str("the desk does not fit the catalogue"),
            Refusal::NoSuchSeat => write!(f, "there is no seat {seat}"),
            Refusal::SeatClosed => write!(f, "seat {seat} is closed"),
            Refusal::SeatOpen => write!(f, "seat {seat} is open"),
            Refusal::SeatAtWork => write!(f, "seat {seat} is at work"),
            Refusal::NoSuchFeature => write!(f, "there is no feature {feature}"),
            Refusal::NoSuchOption => write!(f, "feature {feature} has no option {option}"),
            Refusal::FeatureHasChoice => write!(f, "feature {feature} has a choice"),
            Refusal::OptionNotLeft => write!(f, "option {option} of feature {feature} is not left"),
            Refusal::FeatureHasNoChoice => write!(f, "feature {feature} has no choice"),
        }
    }
}
