// The desk's calls, and what they are answered by.
ghost use Rattle.std.specs.Prelude.{◌≡◌};
ghost use Rattle.lines.specs.declared.commands.Change.TheVariants.{Open};

use crate::parts::Parts;
use desk::{Changed, Desk, Left};
use lines::commands::{Change, Question};
use lines::{Console, Spaced, Whole, two_bytes};
use shown::{Asked, Lengths, accepted, beside, options_of, refused, rule_met, turns_made};

pub fn change(console: &Console, parts: &mut Parts, change: Change, asked: Asked) {
    let changed = parts.change(change, asked);
    parts.desk = kept(parts.desk, change, changed);
    if changed.number == 0 {
        accepted(console, change, asked);
    } else {
        refused(console, changed.number, parts.lengths(), asked);
        println!(console);
    }
}

// A refused open hands back a closed desk, which is not kept; any other call the desk as it came, and that is kept.
fn kept(before: Desk, change: Change, changed: Changed) -> Desk
    ensures accepted { changed.number ≡ 0 → result ≡ changed.desk }
    ensures handed_back { (change ≡ Open → ⊥) → result ≡ changed.desk }
    ensures refused_open { (changed.number ≡ 0 → ⊥) → change ≡ Open → result ≡ before }
{
    if changed.number != 0 && matches!(change, Change::Open) {
        before
    } else {
        changed.desk
    }
}

pub fn question(console: &Console, parts: &Parts, question: Question, asked: Asked) {
    match question {
        Question::Options => {
            let left = parts.left(asked.seat, asked.feature);
            mask_answered(console, left, parts.lengths(), asked, " left");
        }
        Question::Alternatives => {
            let others = parts.alternatives(asked);
            mask_answered(console, others, parts.lengths(), asked, " alternatives");
        }
        Question::Example => example(console, parts, asked),
        Question::RanInto => ran_into(console, parts, asked),
    }
}

pub fn turns(console: &Console, parts: &mut Parts, asked: Asked) {
    let turned = parts.turn(two_bytes(asked.seat));
    if turned.number == 0 {
        turns_made(console, turned.made, turned.working);
    } else {
        refused(console, turned.number, parts.lengths(), asked);
        if turned.made != 0 || turned.working {
            beside(console, turned.made, turned.working);
        }
    }
    println!(console);
}

// A refusal answers no mask; were there one, it would be seen.
fn mask_answered(console: &Console, left: Left, lengths: Lengths, asked: Asked, what: &str) {
    if left.number == 0 {
        options_of_feature(console, left, asked.feature, what);
    } else {
        refused(console, left.number, lengths, asked);
        if left.mask != 0 || left.count != 0 {
            print!(console; "; ");
            options_of_feature(console, left, asked.feature, what);
        }
    }
    println!(console);
}

// How many options of a feature, what they are, and which.
pub fn options_of_feature(console: &Console, left: Left, feature: u32, what: &str) {
    let count = left.count;
    print!(console; "feature {feature}: {count}{what}");
    if left.mask != 0 {
        print!(console; ":");
        options_of(console, left.mask);
    }
}

fn example(console: &Console, parts: &Parts, asked: Asked) {
    match parts.no_example(asked) {
        None => print!(console; "option {} of feature {}:", asked.option, asked.feature),
        Some(refusal) => refused(console, refusal.number(), parts.lengths(), asked),
    }
    println!(console; "{}", Whole(Spaced::entries(parts.example(asked))));
}

// A refusal answers rule 0; were it another, it would be seen.
pub fn ran_into(console: &Console, parts: &Parts, asked: Asked) {
    let ran = parts.ran_into(asked.seat);
    if ran.number == 0 {
        rule_met(console, asked.seat, ran.rule);
    } else {
        refused(console, ran.number, parts.lengths(), asked);
        if ran.rule != 0 {
            print!(console; "; ");
            rule_met(console, asked.seat, ran.rule);
        }
    }
    println!(console);
}
