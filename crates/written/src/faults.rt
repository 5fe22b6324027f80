// The lines that answer new sizes and new rules: how many numbers, and what they make or which fault they have. Both answer
// whether there is none.
use crate::met::{Met, feature_met, first_rule, meet, row_met};
use catalogue::Catalogue;
use lines::{Console, Counted};
use numbers::Refusal;
use shown::{Asked, Lengths, Reason};

// The sizes are looked at alone, as if there were no rule.
pub fn sizes(console: &Console, sizes: &[u8]) -> bool {
    count_of_numbers(console, sizes.len());
    made_or_fault(
        console,
        meet(&Catalogue { sizes, rules: &[] }),
        sizes.len(),
        "feature",
    )
}

pub fn rules(console: &Console, catalogue: &Catalogue) -> bool {
    let found = meet(catalogue);
    count_of_numbers(console, catalogue.rules.len());
    made_or_fault(console, found, found.whole, "rule")
}

fn count_of_numbers(console: &Console, n: usize) {
    print!(console; "{}: ", Counted(n as u64, "number"));
}

fn made_or_fault(console: &Console, found: Met, count: usize, what: &'static str) -> bool {
    match found.fault {
        None => println!(console; "{}", Counted(count as u64, what)),
        Some(refusal) => fault(console, refusal, found),
    }
    found.fault.is_none()
}

// A fault, where it was met, and its words. No board and no call were looked at, and the words of these faults name none.
pub fn fault(console: &Console, refusal: Refusal, found: Met) {
    let number = refusal.number();
    print!(console; "fault {number}");
    place(console, refusal, found);
    let reason = Reason {
        refusal,
        lengths: Lengths {
            board: 0,
            sizes: found.catalogue.sizes.len(),
            rules: found.catalogue.rules.len(),
        },
        asked: Asked {
            seat: 0,
            feature: 0,
            option: 0,
        },
    };
    println!(console; ": {reason}");
}

fn place(console: &Console, refusal: Refusal, found: Met) {
    let rule = found.whole;
    match refusal {
        Refusal::SizeOutOfRange => {
            let feature = feature_met(found.catalogue.sizes);
            print!(console; " in feature {feature}");
        }
        Refusal::RuleListEndsEarly
        | Refusal::ArityOutOfRange
        | Refusal::UnknownRuleFeature
        | Refusal::RepeatedRuleFeature => print!(console; " in rule {rule}"),
        Refusal::RowOptionTooHigh => {
            let (broken, _) = first_rule(found.rest);
            let row = row_met(found.catalogue.sizes, broken);
            print!(console; " in rule {rule}, row {row}");
        }
        _ => {}
    }
}
