// Turns: the ring gives one waiting seat one step.
ghost use Rattle.std.specs.Prelude.{◌≡◌, true, ◌<◌, length};
ghost use Rattle.catalogue.specs.Lent.{catalogue_lent};
ghost use Rattle.search.specs.Clinic.{clinic_of};
ghost use Rattle.step.specs.Inner.StepContracts.{catalogue_in, StepNeeds, Stepped};
ghost use Rattle.ring.specs.Inner.Marks.{marks_of, true_from};
ghost use Rattle.runs.specs.Call.{turns};
ghost use Rattle.runs.specs.Answers.{TurnsTo};
ghost use Rattle.runs.specs.DeskFits.{desk_fits};
ghost use Rattle.runs.specs.Perform.{done};
ghost use Rattle.runs.specs.Room.{room_of};
ghost use Rattle.runs.specs.Turn.{is_some};

use crate::marks::{first_at_work, seats_at_work, with_mark};
use catalogue::Accepted;
use look::is_at_work;
use runs::{Desk, Turned};
use search::Seat;
use step::Basis;

// On a board and a desk that passed the checks with this catalogue.
pub fn make_turns(desk: Desk, board: &mut [u8], accepted: &Accepted, w: u16) -> Turned
    requires whole_board { length board.old ≡ 32768 }
    requires fits { desk_fits (catalogue_lent accepted.now.catalogue) desk ≡ true }
    ensures { TurnsTo
        (done (catalogue_lent accepted.now.catalogue) (turns w) (room_of desk board.old))
        result board.new }
{
    let mut places = [0u16; 1024];
    let mut counts = [0u8; 1040];
    placed::starts_of(accepted.catalogue.rules, &mut places, &mut counts);
    let edge = arrays::edge();
    let basis = Basis {
        accepted: *accepted,
        places: &places,
        counts: &counts,
        edge: &edge,
    };
    let mut seats = desk.seats;
    let mut next = desk.next;
    let mut working = seats_at_work(seats);
    for made in 0..w {
        let Some(c) = first_at_work(working, next as usize) else {
            return turned(made, working, Desk { seats, next });
        };
        let from = c * 4096;
        let share = &mut board[from..from + 4096];
        let seat = stepped(seats[c], share, &basis);
        let after = (c + 1) % 8;
        seats[c] = seat;
        next = after as u8;
        // A mark is touched only where a job has ended: made anew at every step, it would keep the next turn waiting.
        if is_at_work(seat) {
            continue;
        }
        working = with_mark(working, c, false);
    }
    turned(w, working, Desk { seats, next })
}

// The answer of an accepted call.
fn turned(made: u16, working: u8, desk: Desk) -> Turned
    requires { desk.next < 8 }
    ensures { result ≡ record {
      number = 0;
      made = made;
      working = is_some (true_from 8 (marks_of working) desk.next);
      desk = desk;
    } }
{
    let found = first_at_work(working, desk.next as usize);
    Turned {
        number: 0,
        made,
        working: found.is_some(),
        desk,
    }
}

// One step for the seat that is served: its record is lent for the step, and handed back as the step left it.
fn stepped(mut seat: Seat, share: &mut [u8], basis: &Basis) -> Seat
    requires { StepNeeds basis.now seat share.old }
    ensures { Stepped (catalogue_in basis.now)
        (clinic_of seat share.old) (clinic_of result share.new) }
{
    step::step_in(&mut seat, share, basis);
    seat
}
