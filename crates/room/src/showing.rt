// Looking at the desk.
use desk::Desk;
use lines::Console;
use shown::record;

pub fn desk(console: &Console, desk: Desk) {
    println!(console; "next {}", desk.next);
    for c in 0..desk.seats.len() {
        seat(console, desk, c);
    }
}

// Nothing where there is no such seat.
pub fn seat(console: &Console, desk: Desk, c: usize) {
    if let Some(seat) = desk.seats.get(c) {
        print!(console; "seat {c}: ");
        record(console, *seat);
    }
}
