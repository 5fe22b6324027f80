// A script of any numbers, played from an opening: its calls one after another, each on desk and board as the one before
// left them. At the end they are those of the run that the promises speak of.
#![tactic(auto)]

ghost use Rattle.std.specs.Prelude.{◌≡◌};
ghost use Rattle.catalogue.specs.Lent.{catalogue_lent};
ghost use Rattle.runs.specs.Room.{room_of};
ghost use Rattle.runs.specs.Perform.{perform, opening};
ghost use Rattle.promises.specs.Moment.{moment};
ghost use Rattle.play.specs.Script.{call_meant, calls_meant};

use desk::{Catalogue, Changed, Desk};

// Answered: the number of the opening, and the desk at the end. The calls are made after a refused opening too.
pub fn play(board: &mut [u8], catalogue: &Catalogue, script: &[u16]) -> Changed
    ensures run { room_of result.desk board.new
        ≡ moment (catalogue_lent catalogue.now) board.old
        (calls_meant script.now) }
    ensures number { result.number
        ≡ (opening (catalogue_lent catalogue.now) board.old).answer.number }
{
    let opened = desk::open(board, catalogue);
    let mut desk = opened.desk;
    for call in script.chunks_exact(4) {
        desk = one_call(desk, board, catalogue, call[0], call[1], call[2], call[3]);
    }
    Changed {
        number: opened.number,
        desk,
    }
}

// One call of the script; only the desk of its answer is kept.
// Stays: the call's kind is a number, since a script is any numbers and `call_meant` says what each of them calls.
fn one_call(
    desk: Desk,
    board: &mut [u8],
    catalogue: &Catalogue,
    kind: u16,
    who: u16,
    feature: u16,
    option: u16,
) -> Desk
    ensures { room_of result board.new
        ≡ (perform (catalogue_lent catalogue.now) (call_meant kind who feature option) (room_of desk board.old)).room }
{
    let c = usize::from(who);
    let i = usize::from(feature);
    let a = usize::from(option);
    match kind {
        0 => desk::enter(desk, board, catalogue, c).desk,
        1 => desk::leave(desk, board, catalogue, c).desk,
        2 => desk::choose(desk, board, catalogue, c, i, a).desk,
        3 => desk::relax(desk, board, catalogue, c, i).desk,
        4 => {
            desk::options(desk, board, catalogue, c, i);
            desk
        }
        5 => {
            desk::example_number(desk, board, catalogue, c, i, a);
            desk
        }
        6 => {
            desk::alternatives(desk, board, catalogue, c, i);
            desk
        }
        7 => {
            desk::ran_into(desk, board, catalogue, c);
            desk
        }
        _ => desk::turns(desk, board, catalogue, who).desk,
    }
}
