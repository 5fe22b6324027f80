// Which seats are at work, and which of them is served.
ghost use Rattle.std.specs.Prelude.{◌≡◌, map, ◌<◌, set, MatchOption};
ghost use Rattle.std.proofs.Math.Option.{none, some};
ghost use Rattle.search.specs.declared.Seat.{Seat};
ghost use Rattle.search.specs.Look.{is_at_work};
ghost use Rattle.ring.specs.Inner.Marks.{marks_of, true_from};

use look::is_at_work;
use search::Seat;

// Which of the eight seats are at work: the bits of a byte, that of seat 0 lowest.
pub fn seats_at_work(seats: [Seat; 8]) -> u8
    ensures { marks_of result ≡ map (λ (seat : Seat). is_at_work seat.state) seats }
{
    let mut working = 0u8;
    for (c, seat) in seats.iter().enumerate() {
        working = with_mark(working, c, is_at_work(*seat));
    }
    working
}

// The marks with that of one seat made anew.
pub fn with_mark(working: u8, c: usize, mark: bool) -> u8
    requires { c < 8 }
    ensures { marks_of result ≡ set (marks_of working) c mark }
{
    let bit = 1u8 << c;
    if mark {
        return working | bit;
    }
    working & (255 - bit)
}

// The first seat at work from `next` upward around the ring, if there is one. The marks are put twice, so that the seats
// from `next` on stand in one row, and the first is as far ahead as there are zeros below it.
pub fn first_at_work(working: u8, next: usize) -> Option<usize>
    requires { next < 8 }
    ensures { MatchOption result (true_from 8 (marks_of working) next ≡ none)
        (λ c. true_from 8 (marks_of working) next ≡ some c) }
{
    if working == 0 {
        return None;
    }
    let twice = u32::from(working) * 257;
    let ahead = u32::trailing_zeros(twice >> next) as usize;
    Some((next + ahead) % 8)
}
