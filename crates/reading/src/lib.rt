// The calls that read a seat: the rule that its search ran into of any open one, all else of a ready one.
#![tactic(auto)]

ghost use Rattle.std.specs.Prelude.{◌≡◌, MatchResult};
ghost use Rattle.numbers.specs.Refusal.{number_of};
ghost use Rattle.catalogue.specs.Lent.{catalogue_lent};
ghost use Rattle.reading.specs.Inner.SeatRead.{SeatRead};
ghost use Rattle.runs.specs.declared.Asking.TheVariants.{Read};
ghost use Rattle.runs.specs.declared.Reading.TheVariants.{Options, Alternatives, Example, RanInto};
ghost use Rattle.runs.specs.Call.{asks, refused};
ghost use Rattle.runs.specs.Answers.{left_answer, ReadsAs, RanAs, BytesAre, BeginsAt, NumberIs};
ghost use Rattle.runs.specs.Perform.{mask_answer, perform};
ghost use Rattle.runs.specs.Room.{room_of};

use catalogue::Catalogue;
use numbers::Refusal;
use runs::{Asking, Desk, Left, Ran, Reading};
use search::Seat;

// The options left of one feature, and how many they are.
pub fn options(desk: Desk, board: &[u8], catalogue: &Catalogue, c: usize, i: usize) -> Left
    ensures { ReadsAs
        (perform (catalogue_lent catalogue.now) (asks c (Read (Options i))) (room_of desk board.now))
        (room_of desk board.now) result }
{
    let reading = Reading::Options { feature: i };
    let read = seat_read(reading, desk, board, catalogue, c);
    counted(read.map(|seat| look::mask_of(seat, i)))
}

// What could replace the choice of one feature, and how many options these are.
pub fn alternatives(desk: Desk, board: &[u8], catalogue: &Catalogue, c: usize, i: usize) -> Left
    ensures { ReadsAs
        (perform (catalogue_lent catalogue.now) (asks c (Read (Alternatives i))) (room_of desk board.now))
        (room_of desk board.now) result }
{
    let reading = Reading::Alternatives { feature: i };
    let read = seat_read(reading, desk, board, catalogue, c);
    counted(read.map(|seat| look::alternatives_of(seat, i)))
}

// A mask that is read, and how many bits are set in it; refused, the number alone.
fn counted(read: Result<u16, Refusal>) -> Left
    ensures { MatchResult read
        (λ mask. left_answer result ≡ mask_answer mask)
        (λ refusal. left_answer result ≡ refused (number_of refusal)) }
{
    match read {
        Ok(mask) => Left {
            number: 0,
            mask,
            count: mask.count_ones(),
        },
        Err(refusal) => Left {
            number: refusal.number(),
            mask: 0,
            count: 0,
        },
    }
}

// The rule that the search of a seat, at work or ready, last ran into: the last one broken in this job; 255 for none.
pub fn ran_into(desk: Desk, board: &[u8], catalogue: &Catalogue, c: usize) -> Ran
    ensures { RanAs
        (perform (catalogue_lent catalogue.now) (asks c (Read RanInto)) (room_of desk board.now))
        (room_of desk board.now) result }
{
    match seat_read(Reading::RanInto, desk, board, catalogue, c) {
        Ok(seat) => Ran {
            number: 0,
            rule: seat.broken,
        },
        Err(refusal) => Ran {
            number: refusal.number(),
            rule: 0,
        },
    }
}

// The sixteen bytes themselves, as they stand in the seat's share; none where the call is refused.
pub fn example<'a>(
    desk: Desk,
    board: &'a [u8],
    catalogue: &Catalogue,
    c: usize,
    i: usize,
    a: usize,
) -> &'a [u8]
    ensures bytes { BytesAre
        (perform (catalogue_lent catalogue.now) (asks c (Read (Example i a))) (room_of desk board.now))
        result.now }
    ensures place { BeginsAt
        (perform (catalogue_lent catalogue.now) (asks c (Read (Example i a))) (room_of desk board.now))
        board.entry.ref_ptr c i a result.ref_ptr }
{
    let reading = Reading::Example {
        feature: i,
        option: a,
    };
    if seat_read(reading, desk, board, catalogue, c).is_err() {
        return &board[..0];
    }
    let from = c * 4096 + i * 256 + a * 16;
    let to = from + 16;
    &board[from..to]
}

// The refusal number of the same call, 0 for none.
// Stays: a number, and `example` with no bytes: "A second call with the same checks gives the refusal number, 0 for none";
// `NumberIs` and `BytesAre` of runs' specs/Answers hold the two.
pub fn example_number(
    desk: Desk,
    board: &[u8],
    catalogue: &Catalogue,
    c: usize,
    i: usize,
    a: usize,
) -> u8
    ensures { NumberIs
        (perform (catalogue_lent catalogue.now) (asks c (Read (Example i a))) (room_of desk board.now)) result }
{
    let reading = Reading::Example {
        feature: i,
        option: a,
    };
    match seat_read(reading, desk, board, catalogue, c) {
        Ok(_) => 0,
        Err(refusal) => refusal.number(),
    }
}

// The seat that is read of, where the call is not refused.
fn seat_read(
    reading: Reading,
    desk: Desk,
    board: &[u8],
    catalogue: &Catalogue,
    c: usize,
) -> Result<Seat, Refusal>
    ensures { SeatRead (catalogue_lent catalogue.now) c reading (room_of desk board.now) result }
{
    checks::check_asking(Asking::Read(reading), desk, board.len(), catalogue, c)?;
    let seats = desk.seats;
    Ok(seats[c])
}
