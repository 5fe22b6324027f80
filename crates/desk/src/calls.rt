// The calls that open the desk or change one seat. A call for a seat lends on that seat's 4,096 bytes alone.
ghost use Rattle.std.specs.Prelude.{◌≡◌, List, ℕ, ◌<◌, set};
ghost use Rattle.catalogue.specs.Lent.{catalogue_lent};
ghost use Rattle.search.specs.Clinic.{Clinic};
ghost use Rattle.runs.specs.declared.Asking.TheVariants.{Enter, Leave, Choose, Relax};
ghost use Rattle.runs.specs.Call.{asks, plain};
ghost use Rattle.runs.specs.Answers.{ChangesTo};
ghost use Rattle.runs.specs.Room.{fresh_desk, room_of};
ghost use Rattle.runs.specs.Perform.{kind_of, answer_by, perform, opening};

use catalogue::Catalogue;
use runs::{Asking, Changed, Desk};
use search::Seat;

// The board filled with 255, all seats closed, next seat 0.
pub fn open(board: &mut [u8], catalogue: &Catalogue) -> Changed
    ensures { ChangesTo
        (opening (catalogue_lent catalogue.now) board.old) result board.new }
{
    let number = match checks::check_open(board.len(), catalogue) {
        Ok(_) => {
            seat::empty(board);
            0
        }
        Err(refusal) => refusal.number(),
    };
    Changed {
        number,
        desk: fresh(),
    }
}

// Stays: this and the next three are calls of document 01, each with a contract of its own; `ask` carries all out.
// The closed seat gets a job.
pub fn enter(desk: Desk, board: &mut [u8], catalogue: &Catalogue, c: usize) -> Changed
    ensures { ChangesTo
        (perform (catalogue_lent catalogue.now) (asks c Enter) (room_of desk board.old))
        result board.new }
{
    ask(desk, board, catalogue, c, Asking::Enter)
}

// An open seat, ready or at work, becomes closed.
pub fn leave(desk: Desk, board: &mut [u8], catalogue: &Catalogue, c: usize) -> Changed
    ensures { ChangesTo
        (perform (catalogue_lent catalogue.now) (asks c Leave) (room_of desk board.old))
        result board.new }
{
    ask(desk, board, catalogue, c, Asking::Leave)
}

// Sets one choice.
pub fn choose(
    desk: Desk,
    board: &mut [u8],
    catalogue: &Catalogue,
    c: usize,
    i: usize,
    a: usize,
) -> Changed
    ensures { ChangesTo
        (perform (catalogue_lent catalogue.now) (asks c (Choose i a)) (room_of desk board.old))
        result board.new }
{
    let asking = Asking::Choose {
        feature: i,
        option: a,
    };
    ask(desk, board, catalogue, c, asking)
}

// Drops one choice.
pub fn relax(desk: Desk, board: &mut [u8], catalogue: &Catalogue, c: usize, i: usize) -> Changed
    ensures { ChangesTo
        (perform (catalogue_lent catalogue.now) (asks c (Relax i)) (room_of desk board.old))
        result board.new }
{
    ask(desk, board, catalogue, c, Asking::Relax { feature: i })
}

// An asking that has no more to say than its number. Accepted, it leaves its seat another record and share.
fn ask(desk: Desk, board: &mut [u8], catalogue: &Catalogue, c: usize, asking: Asking) -> Changed
    requires { (choices : List ℕ) (clinic : Clinic) → answer_by (kind_of asking choices) clinic ≡ plain }
    ensures { ChangesTo
        (perform (catalogue_lent catalogue.now) (asks c asking) (room_of desk board.old))
        result board.new }
{
    match checks::check_asking(asking, desk, board.len(), catalogue, c) {
        Ok(()) => {
            let from = c * 4096;
            let to = from + 4096;
            let seats = desk.seats;
            let seat = seat::clinic_after(asking, seats[c], &mut board[from..to], catalogue.sizes);
            Changed {
                number: 0,
                desk: with_seat(desk, c, seat),
            }
        }
        Err(refusal) => Changed {
            number: refusal.number(),
            desk,
        },
    }
}

// One seat's record replaced.
fn with_seat(desk: Desk, c: usize, seat: Seat) -> Desk
    requires { c < 8 }
    ensures { result ≡ record { seats = set desk.seats c seat; next = desk.next } }
{
    let mut seats = desk.seats;
    seats[c] = seat;
    Desk {
        seats,
        next: desk.next,
    }
}

fn fresh() -> Desk
    ensures { result ≡ fresh_desk }
{
    let closed = seat::closed();
    Desk {
        seats: [closed; 8],
        next: 0,
    }
}
