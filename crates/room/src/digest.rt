// A number that tells two desks or boards apart: sixteen hexadecimal digits.
use desk::Desk;
use lines::{Console, Whole};
use shown::digest::{fold, of_seat};

pub fn digest(console: &Console, desk: Desk, board: &[u8]) {
    let with_desk = fold(of_seats(desk), &[desk.next]);
    let number = fold(with_desk, board);
    println!(console; "digest {}", Whole(format_args!("{number:016x}")));
}

fn of_seats(desk: Desk) -> u64 {
    desk.seats.iter().fold(0, |h, seat| of_seat(h, *seat))
}
