// Why a call is refused: a case for each row of the table, in its order.
ghost use Rattle.std.specs.Prelude.{◌≡◌};
ghost use Rattle.numbers.specs.Refusal.{number_of, Tells};

#[derive(Clone, Copy, PartialEq, Eq)]
pub enum Refusal {
    WrongBoardLength, // not 32,768
    FeatureCountOutOfRange, // 0 or above 16
    SizeOutOfRange, // of a feature: 0 or above 16
    RuleListTooLong, // above 8,192 numbers
    TooManyRules, // numbers remain after 64 rules
    RuleListEndsEarly, // within a rule's header, features or rows
    ArityOutOfRange, // 0 or above 6
    UnknownRuleFeature, // not in the catalogue
    RepeatedRuleFeature, // within one rule
    RowOptionTooHigh, // not below its feature's size
    DeskDoesNotFit, // the catalogue
    NoSuchSeat, // above 7
    SeatClosed,
    SeatOpen,
    SeatAtWork,
    NoSuchFeature, // not in the catalogue
    NoSuchOption, // not below the size
    FeatureHasChoice,
    OptionNotLeft,
    FeatureHasNoChoice,
}

impl Refusal {
    // The number that a caller is told, from 1 on.
    pub fn number(self) -> u8
        ensures { result ≡ number_of self }
    {
        match self {
            Refusal::WrongBoardLength => 1,
            Refusal::FeatureCountOutOfRange => 10,
            Refusal::SizeOutOfRange => 11,
            Refusal::RuleListTooLong => 12,
            Refusal::TooManyRules => 13,
            Refusal::RuleListEndsEarly => 14,
            Refusal::ArityOutOfRange => 15,
            Refusal::UnknownRuleFeature => 16,
            Refusal::RepeatedRuleFeature => 17,
            Refusal::RowOptionTooHigh => 18,
            Refusal::DeskDoesNotFit => 20,
            Refusal::NoSuchSeat => 30,
            Refusal::SeatClosed => 31,
            Refusal::SeatOpen => 32,
            Refusal::SeatAtWork => 33,
            Refusal::NoSuchFeature => 34,
            Refusal::NoSuchOption => 35,
            Refusal::FeatureHasChoice => 36,
            Refusal::OptionNotLeft => 37,
            Refusal::FeatureHasNoChoice => 38,
        }
    }
}

// A number that is no refusal's.
#[derive(Clone, Copy, PartialEq, Eq)]
pub struct NoRefusal(pub u8);

impl TryFrom<u8> for Refusal {
    type Error = NoRefusal;

    ghost try_from_gives = { Tells };

    fn try_from(number: u8) -> Result<Self, NoRefusal> {
        match number {
            1 => Ok(Refusal::WrongBoardLength),
            10 => Ok(Refusal::FeatureCountOutOfRange),
            11 => Ok(Refusal::SizeOutOfRange),
            12 => Ok(Refusal::RuleListTooLong),
            13 => Ok(Refusal::TooManyRules),
            14 => Ok(Refusal::RuleListEndsEarly),
            15 => Ok(Refusal::ArityOutOfRange),
            16 => Ok(Refusal::UnknownRuleFeature),
            17 => Ok(Refusal::RepeatedRuleFeature),
            18 => Ok(Refusal::RowOptionTooHigh),
            20 => Ok(Refusal::DeskDoesNotFit),
            30 => Ok(Refusal::NoSuchSeat),
            31 => Ok(Refusal::SeatClosed),
            32 => Ok(Refusal::SeatOpen),
            33 => Ok(Refusal::SeatAtWork),
            34 => Ok(Refusal::NoSuchFeature),
            35 => Ok(Refusal::NoSuchOption),
            36 => Ok(Refusal::FeatureHasChoice),
            37 => Ok(Refusal::OptionNotLeft),
            38 => Ok(Refusal::FeatureHasNoChoice),
            _ => Err(NoRefusal(number)),
        }
    }
}
