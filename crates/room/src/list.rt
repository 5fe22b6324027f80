// What a seat shows, for people.
use crate::calls::{options_of_feature, ran_into};
use crate::parts::Parts;
use crate::work::no_product;
use desk::Desk;
use lines::{Console, Spaced, Whole, between};
use numbers::Refusal;
use shown::{Asked, options_of, pair, refused};

pub fn list(console: &Console, parts: &Parts, seat: u32) {
    let asked = Asked {
        seat,
        feature: 0,
        option: 0,
    };
    match parts.unreadable(seat) {
        None => {
            print!(console; "seat {seat} is ready\n");
            no_product(console, parts.record(seat), parts.catalogue.sizes);
            features(console, parts, seat);
        }
        Some(Refusal::SeatAtWork) => {
            print!(console; "seat {seat} is at work: ");
            pair(console, parts.record(seat), parts.catalogue.sizes);
            println!(console);
            ran_into(console, parts, asked);
        }
        Some(refusal) => {
            refused(console, refusal.number(), parts.lengths(), asked);
            println!(console);
        }
    }
    at_work(console, parts.desk);
}

fn features(console: &Console, parts: &Parts, seat: u32) {
    for i in 0..parts.catalogue.sizes.len().min(16) {
        feature(console, parts, seat, i as u32);
    }
}

// Asks with the least option left.
fn feature(console: &Console, parts: &Parts, seat: u32, feature: u32) {
    let left = parts.left(seat, feature);
    options_of_feature(console, left, feature, " left");
    let asked = Asked {
        seat,
        feature,
        option: left.mask.trailing_zeros(),
    };
    if left.mask != 0 {
        example(console, parts, asked);
    }
    if look::has_choice(parts.record(seat), feature as usize) {
        chosen(console, parts, asked);
    }
    println!(console);
}

// The build beside the option asked for.
fn example(console: &Console, parts: &Parts, asked: Asked) {
    let build = Spaced::entries(between(parts.example(asked), 0, parts.catalogue.sizes.len()));
    print!(console; "; with {}:{}", asked.option, Whole(build));
}

// What could stand there instead.
fn chosen(console: &Console, parts: &Parts, asked: Asked) {
    print!(console; "; chosen; alternatives:");
    options_of(console, parts.alternatives(asked).mask);
}

// The seats at work, rising.
fn at_work(console: &Console, desk: Desk) {
    print!(console; "at work:");
    for (c, seat) in desk.seats.iter().enumerate() {
        if look::is_at_work(*seat) {
            print!(console; " {c}");
        }
    }
    if !desk.seats.iter().any(|seat| look::is_at_work(*seat)) {
        print!(console; " none");
    }
    println!(console);
}
