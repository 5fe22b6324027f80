// The desk's answers as the host gets them. Refused, it gets its own desk back and not the converted one.
ghost use Rattle.std.specs.Prelude.{◌≡◌};
ghost use Rattle.host.specs.Door.{desk_back};

use crate::records::{HostChanged, HostDesk, HostLeft, HostRan, HostTurned};
use desk::{Changed, Desk, Left, Ran, Turned};

pub fn changed_back(given: HostDesk, changed: Changed) -> HostChanged
    ensures { result
        ≡ record { number = changed.number; desk = desk_back changed.number given changed.desk } }
{
    let number = changed.number;
    let desk = changed.desk;
    HostChanged {
        number,
        desk: desk_back(number, given, desk),
    }
}

impl From<Left> for HostLeft {
    ghost from_gives = { λ left host. host
        ≡ record { number = left.number; mask = left.mask; count = left.count } };

    fn from(left: Left) -> HostLeft {
        HostLeft {
            number: left.number,
            mask: left.mask,
            count: left.count,
        }
    }
}

impl From<Ran> for HostRan {
    ghost from_gives = { λ ran host. host ≡ record { number = ran.number; rule = ran.rule } };

    fn from(ran: Ran) -> HostRan {
        HostRan {
            number: ran.number,
            rule: ran.rule,
        }
    }
}

pub fn turned_back(given: HostDesk, turned: Turned) -> HostTurned
    ensures { result ≡ record {
      number = turned.number;
      made = turned.made;
      working = turned.working;
      desk = desk_back turned.number given turned.desk;
    } }
{
    let number = turned.number;
    let desk = turned.desk;
    HostTurned {
        number,
        made: turned.made,
        working: turned.working,
        desk: desk_back(number, given, desk),
    }
}

// Stays: tests the number, and no Result: it is what the desk's answers hold and the records hand on (`desk_back` of
// specs/Door is by the number too).
fn desk_back(number: u8, given: HostDesk, desk: Desk) -> HostDesk
    ensures { result ≡ desk_back number given desk }
{
    if number != 0 {
        return given;
    }
    HostDesk::from(desk)
}
