// Where in a catalogue a fault is met: a walk over the rule list, rule by rule. A list is cut at most at its end, so no
// caller has to show that it is so long.
ghost use Rattle.std.specs.Prelude.{◌<◌};

use catalogue::Catalogue;
use lines::at;
use numbers::Refusal;

// A catalogue, and its fault if it has one; how many whole rules stand before that, all where there is none; what stands
// after them.
#[derive(Clone, Copy)]
pub struct Met<'a> {
    pub catalogue: Catalogue<'a>,
    pub fault: Option<Refusal>,
    pub whole: usize,
    pub rest: &'a [u16],
}

// The first numbers of a list, so many if there are, and the others.
pub fn cut(list: &[u16], count: usize) -> (&[u16], &[u16]) {
    list.split_at(count.min(list.len()))
}

// The rule that a list begins with, as much of it as is there, and the others.
pub fn first_rule(list: &[u16]) -> (&[u16], &[u16]) {
    cut(list, width(list))
}

// A rule's arity.
pub fn arity(rule: &[u16]) -> usize
    ensures { result < 65536 }
{
    usize::from(at(rule, 0))
}

// How many rows a rule has.
pub fn row_count(rule: &[u16]) -> usize
    ensures { result < 65536 }
{
    usize::from(at(rule, 1))
}

// A rule's features, and the options of its rows, row after row.
pub fn features_and_rows(rule: &[u16]) -> (&[u16], &[u16]) {
    let (_, body) = cut(rule, 2);
    cut(body, arity(rule))
}

// How many numbers a rule takes: its arity and row count, its features, its rows. Of a rule with an arity above 6 nothing
// but the arity is read.
fn width(rule: &[u16]) -> usize {
    let k = arity(rule).min(6);
    2 + k + k * row_count(rule)
}

// Of a list that is too long no rule is read.
pub fn meet<'a>(catalogue: &Catalogue<'a>) -> Met<'a> {
    let fault = catalogue.fault().err();
    let most = if fault == Some(Refusal::RuleListTooLong) {
        0
    } else {
        64
    };
    let (whole, rest) = walk(catalogue, most);
    Met {
        catalogue: *catalogue,
        fault,
        whole,
        rest,
    }
}

// How many rules stand at the front of the list, up to so many, and what stands after them. Each rule is judged alone: it
// has the fault that it has in the list.
fn walk<'a>(catalogue: &Catalogue<'a>, most: usize) -> (usize, &'a [u16]) {
    let mut rest = catalogue.rules;
    for whole in 0..most {
        let (rule, after) = first_rule(rest);
        if !stands(catalogue.sizes, rule) {
            return (whole, rest);
        }
        rest = after;
    }
    (most, rest)
}

// Whether there is a rule, whole and without a fault.
fn stands(sizes: &[u8], rule: &[u16]) -> bool {
    !rule.is_empty() && Catalogue { sizes, rules: rule }.fault().is_ok()
}

// The first feature whose size is 0 or above 16.
pub fn feature_met(sizes: &[u8]) -> usize {
    sizes
        .iter()
        .position(|size| *size == 0 || 16 < *size)
        .unwrap_or(sizes.len())
}

// The first row of a rule with an option that is not below its feature's size.
pub fn row_met(sizes: &[u8], rule: &[u16]) -> usize {
    let k = arity(rule);
    if k == 0 {
        return 0;
    }
    let (features, rows) = features_and_rows(rule);
    rows.chunks(k)
        .position(|row| is_too_great(sizes, features, row))
        .unwrap_or(rows.len() / k)
}

// Whether an option of a row is not below its feature's size.
fn is_too_great(sizes: &[u8], features: &[u16], row: &[u16]) -> bool {
    features.iter().zip(row).any(|(feature, option)| {
        let size = at(sizes, usize::from(*feature));
        u16::from(size) <= *option
    })
}
