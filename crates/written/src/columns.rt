// A catalogue in columns: what a line begins with takes 8 bytes, each number 4.
use crate::faults::fault;
use crate::lists::{Blanks, Columns};
use crate::met::{Met, arity, cut, features_and_rows, first_rule, meet, row_count};
use catalogue::Catalogue;
use lines::{Console, Counted};

// The features, the rules that stand before the fault met first, and that fault.
pub fn catalogue(console: &Console, catalogue: &Catalogue) {
    let found = meet(catalogue);
    let sizes = catalogue.sizes;
    let features = Counted(sizes.len() as u64, "feature");
    let whole = Counted(found.whole as u64, "rule");
    print!(console; "{features}, {whole}\nfeature ");
    first_numbers(console, sizes.len());
    println!(console; "\noptions {}", Columns(sizes));
    first_rules(console, found);
    if let Some(refusal) = found.fault {
        fault(console, refusal, found);
    }
}

fn first_numbers(console: &Console, count: usize) {
    for i in 0..count {
        print!(console; "{}{i}", Blanks(i));
    }
}

fn first_rules(console: &Console, found: Met) {
    let mut rest = found.catalogue.rules;
    for i in 0..found.whole {
        let (rule, after) = first_rule(rest);
        write_rule(console, i, rule);
        rest = after;
    }
}

fn write_rule(console: &Console, i: usize, rule: &[u16]) {
    let (features, rows) = features_and_rows(rule);
    let count = row_count(rule);
    print!(console; "rule {i}: {}\nfeature ", Counted(count as u64, "row"));
    println!(console; "{}", Columns(features));
    write_rows(console, rows, arity(rule), count);
}

fn write_rows(console: &Console, rows: &[u16], k: usize, count: usize) {
    let mut rest = rows;
    for i in 0..count {
        let (row, after) = cut(rest, k);
        println!(console; "row {i}{}{}", Blanks(i), Columns(row));
        rest = after;
    }
}
