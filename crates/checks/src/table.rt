// The table of refusals, in its order. Of the board the checks ask the length alone.
ghost use Rattle.std.specs.Prelude.{◌≡◌, List, ℕ, length, map, IfOk};
ghost use Rattle.numbers.specs.Refusal.{number_of, refusal_number};
ghost use Rattle.builds.specs.Checks.{first};
ghost use Rattle.catalogue.specs.Lent.{catalogue_lent, refused_number};
ghost use Rattle.checks.specs.Inner.Refuses.{Refuses};
ghost use Rattle.runs.specs.Call.{asks, turns};
ghost use Rattle.runs.specs.DeskFits.{desk_fits};
ghost use Rattle.runs.specs.RefusalTable.{open_refusal, refusal, row, seat_rows, asked_rows};
ghost use Rattle.runs.specs.Room.{room_of};

use catalogue::{Accepted, Catalogue};
use look::{has_choice, is_at_work, is_closed, is_left};
use numbers::Refusal;
use numbers::Refusal::{
    FeatureHasChoice, FeatureHasNoChoice, NoSuchFeature, NoSuchOption, OptionNotLeft, SeatAtWork,
    SeatClosed, SeatOpen,
};
use runs::{Asking, Desk, Reading};
use search::Seat;

// The rows from 31 on that each call lists.
const ENTER: [Refusal; 1] = [SeatOpen];

const LEAVE: [Refusal; 1] = [SeatClosed];

const CHOOSE: [Refusal; 6] = [
    SeatClosed,
    SeatAtWork,
    NoSuchFeature,
    NoSuchOption,
    FeatureHasChoice,
    OptionNotLeft,
];

const RELAX: [Refusal; 4] = [SeatClosed, SeatAtWork, NoSuchFeature, FeatureHasNoChoice];

const OPTIONS: [Refusal; 3] = [SeatClosed, SeatAtWork, NoSuchFeature];

const ALTERNATIVES: [Refusal; 4] = [SeatClosed, SeatAtWork, NoSuchFeature, FeatureHasNoChoice];

const EXAMPLE: [Refusal; 5] = [
    SeatClosed,
    SeatAtWork,
    NoSuchFeature,
    NoSuchOption,
    OptionNotLeft,
];

const RAN_INTO: [Refusal; 1] = [SeatClosed];

// 1 and 10 to 18: what open checks. A catalogue that passes is handed on.
pub fn check_open<'a>(
    board_length: usize,
    catalogue: &Catalogue<'a>,
) -> Result<Accepted<'a>, Refusal>
    ensures this_one { IfOk result (λ accepted. accepted.catalogue ≡ catalogue.now) }
    ensures told { (board : List ℕ) → length board ≡ board_length
        → refused_number result ≡ open_refusal (catalogue_lent catalogue.now) board }
{
    if board_length != 32768 {
        return Err(Refusal::WrongBoardLength);
    }
    catalogue.accepted()
}

// 1 to 20: what every other call checks first, and all that turns checks. A catalogue that passes is handed on.
pub fn check_turns<'a>(
    desk: Desk,
    board_length: usize,
    catalogue: &Catalogue<'a>,
) -> Result<Accepted<'a>, Refusal>
    ensures this_one { IfOk result (λ accepted. accepted.catalogue ≡ catalogue.now) }
    ensures told { (board : List ℕ) → length board ≡ board_length → (w : ℕ)
        → refused_number result ≡ refusal (catalogue_lent catalogue.now) (turns w) (room_of desk board) }
{
    let accepted = check_open(board_length, catalogue)?;
    if desk_fits(desk, &accepted) {
        Ok(accepted)
    } else {
        Err(Refusal::DeskDoesNotFit)
    }
}

// The checks of an asking: 1 to 20, then 30, then the rows that it lists.
pub fn check_asking(
    asking: Asking,
    desk: Desk,
    board_length: usize,
    catalogue: &Catalogue,
    c: usize,
) -> Result<(), Refusal>
    ensures { Refuses (catalogue_lent catalogue.now) desk board_length (asks c asking) (refusal_number result) }
{
    check_turns(desk, board_length, catalogue)?;
    if 7 < c {
        return Err(Refusal::NoSuchSeat);
    }
    let seats = desk.seats;
    asked(asking, seats[c], catalogue.sizes)
}

// The rows that the call lists, of the feature and the option that it names.
fn asked(asking: Asking, seat: Seat, sizes: &[u8]) -> Result<(), Refusal>
    ensures { refusal_number result ≡ first (asked_rows sizes.now seat asking) }
{
    match asking {
        Asking::Enter => walked(&ENTER, seat, sizes, 0, 0),
        Asking::Leave => walked(&LEAVE, seat, sizes, 0, 0),
        Asking::Choose { feature, option } => walked(&CHOOSE, seat, sizes, feature, option),
        Asking::Relax { feature } => walked(&RELAX, seat, sizes, feature, 0),
        Asking::Read(reading) => match reading {
            Reading::Options { feature } => walked(&OPTIONS, seat, sizes, feature, 0),
            Reading::Alternatives { feature } => walked(&ALTERNATIVES, seat, sizes, feature, 0),
            Reading::Example { feature, option } => walked(&EXAMPLE, seat, sizes, feature, option),
            Reading::RanInto => walked(&RAN_INTO, seat, sizes, 0, 0),
        },
    }
}

// The table from row 31 on, for the rows that are listed.
fn walked(listed: &[Refusal], seat: Seat, sizes: &[u8], i: usize, a: usize) -> Result<(), Refusal>
    ensures { refusal_number result ≡ first (seat_rows (map number_of listed.now) sizes.now seat i a) }
{
    let closed = is_closed(seat);
    let chosen = has_choice(seat, i);
    row(listed, SeatClosed, closed)?;
    row(listed, SeatOpen, !closed)?;
    row(listed, SeatAtWork, is_at_work(seat))?;
    row(listed, NoSuchFeature, sizes.len() <= i)?;
    row(listed, NoSuchOption, numbers::size_at(sizes, i) <= a)?;
    row(listed, FeatureHasChoice, chosen)?;
    row(listed, OptionNotLeft, !is_left(seat, i, a))?;
    row(listed, FeatureHasNoChoice, !chosen)
}

// A row refuses where it is listed and its condition holds.
fn row(listed: &[Refusal], refusal: Refusal, condition: bool) -> Result<(), Refusal>
    ensures { refusal_number result ≡ row (map number_of listed.now) (number_of refusal) condition }
{
    if condition && listed.contains(&refusal) {
        Err(refusal)
    } else {
        Ok(())
    }
}

// Number 20: the desk fits a catalogue that has passed its check.
fn desk_fits(desk: Desk, accepted: &Accepted) -> bool
    ensures { result ≡ desk_fits (catalogue_lent accepted.now.catalogue) desk }
{
    desk.next <= 7
        && desk
            .seats
            .iter()
            .all(|seat| fit::seat_fits(*seat, accepted))
}
