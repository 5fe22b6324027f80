// The fault met first: one function for each part of the reading, one walk each.
ghost use Rattle.std.specs.Prelude.{◌≡◌, ℕ, [], ◌≤◌, ◌<◌, ◌*◌, length, drop};
ghost use Rattle.numbers.specs.Refusal.{refusal_number};
ghost use Rattle.builds.specs.Fault.{sizes_fault, features_fault, rows_fault, rule_fault, rules_fault, fault_of};
ghost use Rattle.builds.specs.Catalogue.{arity, width};
ghost use Rattle.catalogue.specs.Inner.Column.{column_fits};
ghost use Rattle.catalogue.specs.Lent.{catalogue_lent};

use crate::lent::Catalogue;
use numbers::{Refusal, size_at};

impl Catalogue<'_> {
    // 10 to 18, or none.
    pub fn fault(&self) -> Result<(), Refusal>
        ensures { refusal_number result ≡ fault_of (catalogue_lent self.now) }
    {
        if self.sizes.is_empty() || 16 < self.sizes.len() {
            return Err(Refusal::FeatureCountOutOfRange);
        }
        sizes_fault(self.sizes)?;
        if 8192 < self.rules.len() {
            return Err(Refusal::RuleListTooLong);
        }
        rules_fault(self)
    }
}

fn sizes_fault(sizes: &[u8]) -> Result<(), Refusal>
    ensures { refusal_number result ≡ sizes_fault sizes.now }
{
    if sizes.iter().all(|size| 1 <= *size && *size <= 16) {
        Ok(())
    } else {
        Err(Refusal::SizeOutOfRange)
    }
}

// Rule by rule while numbers remain, 64 at most.
fn rules_fault(catalogue: &Catalogue) -> Result<(), Refusal>
    ensures { refusal_number result ≡ rules_fault 64 catalogue.now.sizes.now catalogue.now.rules.now }
{
    let mut rest = catalogue.rules;
    for passed in 0..64usize {
        if rest.is_empty() {
            return Ok(());
        }
        rule_fault(catalogue.sizes, rest)?;
        rest = &rest[rule_width(rest)..];
    }
    if rest.is_empty() {
        Ok(())
    } else {
        Err(Refusal::TooManyRules)
    }
}

// The rule at the front of the list: header, arity, features, rows, each before it is read.
// Stays: sizes and a list, which is what is left of the catalogue's; to make a catalogue of it at each rule is no plainer.
fn rule_fault(sizes: &[u8], list: &[u16]) -> Result<(), Refusal>
    ensures { refusal_number result ≡ rule_fault sizes.now list.now }
{
    if list.len() < 2 {
        return Err(Refusal::RuleListEndsEarly);
    }
    let k = usize::from(list[0]);
    let m = usize::from(list[1]);
    if k == 0 || 6 < k {
        return Err(Refusal::ArityOutOfRange);
    }
    if list.len() - 2 < k {
        return Err(Refusal::RuleListEndsEarly);
    }
    let body = 2 + k;
    let features = &list[2..body];
    features_fault(sizes.len(), features)?;
    let room = k * m;
    if list.len() - body < room {
        return Err(Refusal::RuleListEndsEarly);
    }
    let end = body + room;
    rows_fault(sizes, features, &list[body..end], m)
}

// How many numbers the rule at the front of the list takes.
fn rule_width(list: &[u16]) -> usize
    requires { (2 ≤ length list.now) × (arity list.now ≤ 6) }
    ensures { result ≡ width list.now }
{
    let k = usize::from(list[0]);
    let m = usize::from(list[1]);
    2 + k + k * m
}

fn features_fault(count: usize, features: &[u16]) -> Result<(), Refusal>
    ensures { refusal_number result ≡ features_fault count [] features.now }
{
    for (i, feature) in features.iter().enumerate() {
        if count <= usize::from(*feature) {
            return Err(Refusal::UnknownRuleFeature);
        }
        if features[..i].contains(feature) {
            return Err(Refusal::RepeatedRuleFeature);
        }
    }
    Ok(())
}

// Feature by feature, since each feature's size is looked up once then: 18 doesn't say where an option is too high.
fn rows_fault(sizes: &[u8], features: &[u16], rows: &[u16], count: usize) -> Result<(), Refusal>
    requires { length features.now * count ≡ length rows.now }
    ensures { refusal_number result ≡ rows_fault sizes.now features.now count rows.now }
{
    if count == 0 {
        return Ok(());
    }
    for (i, feature) in features.iter().enumerate() {
        let size = size_at(sizes, usize::from(*feature));
        if !column_fits(size, rows, i, features.len(), count) {
            return Err(Refusal::RowOptionTooHigh);
        }
    }
    Ok(())
}

// The options of one feature, one in each row.
fn column_fits(size: usize, rows: &[u16], i: usize, width: usize, count: usize) -> bool
    requires inside { i < width }
    requires whole { width * count ≡ length rows.now }
    ensures { result ≡ column_fits size width count (drop i rows.now) }
{
    let mut rest = rows;
    for passed in 0..count {
        if size <= usize::from(rest[i]) {
            return false;
        }
        rest = &rest[width..];
    }
    true
}
