// Turns: checked, then made by the ring.
ghost use Rattle.std.specs.Prelude.{◌≡◌};
ghost use Rattle.catalogue.specs.Lent.{catalogue_lent};
ghost use Rattle.runs.specs.Call.{turns};
ghost use Rattle.runs.specs.Answers.{TurnsTo};
ghost use Rattle.runs.specs.Perform.{perform};
ghost use Rattle.runs.specs.Room.{room_of};

use catalogue::Catalogue;
use checks::check_turns;
use ring::make_turns;
use runs::{Desk, Turned};

// w turns, or fewer when no seat is at work.
pub fn turns(desk: Desk, board: &mut [u8], catalogue: &Catalogue, w: u16) -> Turned
    ensures { TurnsTo
        (perform (catalogue_lent catalogue.now) (turns w) (room_of desk board.old))
        result board.new }
{
    match check_turns(desk, board.len(), catalogue) {
        Ok(accepted) => make_turns(desk, board, &accepted, w),
        Err(refusal) => Turned {
            number: refusal.number(),
            made: 0,
            working: false,
            desk,
        },
    }
}
