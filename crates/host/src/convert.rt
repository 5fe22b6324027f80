// A host's records and the desk's own, one into the other.
ghost use Rattle.std.specs.Prelude.{◌≡◌};
ghost use Rattle.host.specs.Records.{desk_state_of, desk_seat_of, host_seat, host_seat_of, desk_of, host_desk_of};

use crate::records::{HostDesk, HostSeat};
use desk::Desk;
use seat::{Place, Seat, State};

// A desk in which some seat's state has no meaning fits no catalogue: its next seat is 255, which number 20 refuses.
impl From<HostDesk> for Desk {
    ghost from_gives = { λ given desk. desk ≡ desk_of given };

    fn from(given: HostDesk) -> Desk {
        let mut seats = [seat::closed(); 8];
        for (c, seat) in given.seats.iter().enumerate() {
            seats[c] = Seat::from(*seat);
        }
        let all_known = given.seats.iter().all(|seat| seat.state <= 2);
        let next = if all_known { given.next } else { 255 };
        Desk { seats, next }
    }
}

impl From<Desk> for HostDesk {
    ghost from_gives = { λ desk host. host ≡ host_desk_of desk };

    fn from(desk: Desk) -> HostDesk {
        let mut seats = [HostSeat::from(seat::closed()); 8];
        for (c, seat) in desk.seats.iter().enumerate() {
            seats[c] = HostSeat::from(*seat);
        }
        HostDesk {
            seats,
            next: desk.next,
        }
    }
}

impl From<HostSeat> for Seat {
    ghost from_gives = { λ given seat. seat ≡ desk_seat_of given };

    fn from(given: HostSeat) -> Seat {
        let state = desk_state_of(given);
        let choices = given.choices;
        let masks = given.masks;
        let trial = given.trial;
        let alternatives = given.alternatives;
        Seat {
            state,
            choices,
            masks,
            trial,
            alternatives,
            broken: given.broken,
        }
    }
}

// A greater number than the three is read as at work.
fn desk_state_of(given: HostSeat) -> State
    ensures { result ≡ desk_state_of given }
{
    match given.state {
        0 => State::Closed,
        1 => State::Ready,
        _ => State::AtWork(Place {
            feature: given.feature,
            option: given.option,
            depth: given.depth,
            next: given.next,
        }),
    }
}

impl From<Seat> for HostSeat {
    ghost from_gives = { λ seat host. host ≡ host_seat_of seat };

    fn from(seat: Seat) -> HostSeat {
        let nowhere = Place {
            feature: 0,
            option: 0,
            depth: 0,
            next: 0,
        };
        let state = seat.state;
        match state {
            State::Closed => host_seat(0, nowhere, seat),
            State::Ready => host_seat(1, nowhere, seat),
            State::AtWork(place) => host_seat(2, place, seat),
        }
    }
}

// The state's number and place as given, all else the seat's.
fn host_seat(state: u8, place: Place, seat: Seat) -> HostSeat
    ensures { result ≡ host_seat state place seat }
{
    let choices = seat.choices;
    let masks = seat.masks;
    let trial = seat.trial;
    let alternatives = seat.alternatives;
    HostSeat {
        state,
        feature: place.feature,
        option: place.option,
        depth: place.depth,
        next: place.next,
        broken: seat.broken,
        choices,
        masks,
        trial,
        alternatives,
    }
}
