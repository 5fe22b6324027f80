// The test of what is placed against the rules of a feature. The list has passed `fault`; of that, what these
// functions need is that each rule lies in it whole and names no feature past the end of what is placed.
ghost use Rattle.std.specs.Prelude.{◌≡◌, true, map, ◌≤◌, ◌<◌, length, replicate};
ghost use Rattle.builds.specs.Rule.{highest, matches, option_at, satisfies, first_broken};
ghost use Rattle.builds.specs.Catalogue.{features_read, rule_read, rules_read};
ghost use Rattle.builds.specs.Inner.Starts.{whole_rule, whole_rules, EachBelow, FeaturesBelow, WholeRows, RowTest};
ghost use Rattle.builds.specs.Inner.Starts.{starts_at, numbers_at, AllStarts};
ghost use Rattle.placed.specs.Tested.{rule_broken};

// The test of what is placed at feature j, against each rule whose highest-numbered feature is j: the lowest-numbered that it
// breaks, if it breaks any. Rules are numbered through the whole list, so the number that is answered was noted beside where
// the rule begins.
pub fn test(rules: &[u16], j: usize, starts: &[u16], numbers: &[u8], placed: &[u8]) -> Option<u8>
    requires rules_whole { whole_rules 64 rules.now ≡ true }
    requires starts_known { (starts.now ≡ starts_at rules.now j) × (numbers.now ≡ numbers_at rules.now j) }
    requires features_below { FeaturesBelow (length placed.now) (rules_read 64 rules.now) }
    ensures { rule_broken result ≡ first_broken (rules_read 64 rules.now) j placed.now }
{
    for (i, start) in starts.iter().enumerate() {
        let place = usize::from(*start);
        if !satisfied(&rules[place..], placed) {
            return Some(numbers[i]);
        }
    }
    None
}

// Notes which rules are tested at each feature, in one walk over the list: where they begin, 64 places a feature; how many
// they are, sixteen counts; and after these their numbers, 64 a feature again. Both are lent, so that they are written where
// they are read.
// Stays: two arrays. Numbers beside the places would make one of above 2,048 bytes, which is filled slowly (docs/DECISIONS.md).
pub fn starts_of(rules: &[u16], places: &mut [u16; 1024], counts: &mut [u8; 1040])
    requires rules_whole { (whole_rules 64 rules.now ≡ true) × (length rules.now ≤ 8192) }
    requires room_for_starts { (length places.old ≡ 1024) × (counts.old ≡ replicate 1040 0) }
    ensures { AllStarts rules.now places.new counts.new }
{
    let mut place = 0;
    let mut number = 0u8;
    while place < rules.len() {
        let rest = &rules[place..];
        let k = usize::from(rest[0]);
        let m = usize::from(rest[1]);
        let body = 2 + k;
        let feature = highest(&rest[2..body]);
        if feature < 16 {
            let count = usize::from(counts[feature]);
            places[feature * 64 + count] = (place % 65536) as u16; // a place is below 8,192
            counts[16 + feature * 64 + count] = number;
            counts[feature] = ((count + 1) % 256) as u8; // a count is at most 64
        }
        place += body + k * m;
        number += 1;
    }
}

// The highest-numbered of some features.
fn highest(features: &[u16]) -> usize
    ensures { result ≡ highest features.now }
{
    let numbers = features.iter().map(|feature| usize::from(*feature));
    numbers.max().unwrap_or(0)
}

// Whether what is placed satisfies the rule at the front of the list.
fn satisfied(list: &[u16], placed: &[u8]) -> bool
    requires { (whole_rule list.now ≡ true) × EachBelow (length placed.now) (features_read list.now) }
    ensures { result ≡ satisfies placed.now (rule_read list.now) }
{
    let k = usize::from(list[0]);
    let m = usize::from(list[1]);
    let body = 2 + k;
    let end = body + k * m;
    some_row(&list[body..end], &list[2..body], placed)
}

fn option_at(placed: &[u8], feature: usize) -> u16
    requires { feature < length placed.now }
    ensures { result ≡ option_at placed.now feature }
{
    u16::from(placed[feature])
}

// The row test: whether one of the rows, which stand one after another, matches what is placed at the features. Each row is
// compared from its last position back, for most rows differ there. What is placed at the last feature is looked up once for
// all rows; the place is that of a row's last option.
// Stays: tried, `for row in rows.chunks_exact(features.len())` misses the speed of this form (`tools/bench --layouts`): ten
// features of three fell from 0.81 to 0.85 times checked Rust to 0.76 to 0.82, 64 rules of 62 rows from 0.62 to 0.78 to 0.51
// to 0.70.
fn some_row(rows: &[u16], features: &[u16], placed: &[u8]) -> bool
    requires rows_whole { (1 ≤ length features.now) × WholeRows (length features.now) rows.now }
    requires each_below { EachBelow (length placed.now) features.now }
    ensures { RowTest (length features.now) rows.now
        (map (option_at placed.now) features.now) result }
{
    let front = features.len() - 1; // the positions before the last
    let last = option_at(placed, usize::from(features[front]));
    let mut place = front;
    while place < rows.len() {
        if rows[place] == last
            && row_matches(&rows[place - front..place], &features[0..front], placed)
        {
            return true;
        }
        place += features.len();
    }
    false
}

// Whether a row, or the front of one, matches what is placed at the features; compared from its last position back. It counts
// the positions that are equal, for an index that falls compiles to a loop of more instructions.
// Stays: tried, `for i in (0..features.len()).rev()` misses the speed of this form (`tools/bench --layouts`): rows that end
// alike fell from 0.46 to 0.67 times plain Rust to 0.33 to 0.52, ten features of three from 0.81 to 0.85 times checked Rust
// to 0.73 to 0.79.
fn row_matches(row: &[u16], features: &[u16], placed: &[u8]) -> bool
    requires as_long { length row.now ≡ length features.now }
    requires each_below { EachBelow (length placed.now) features.now }
    ensures { result ≡ matches row.now (map (option_at placed.now) features.now) }
{
    let mut equal = 0;
    while 0 < features.len() - equal {
        let i = features.len() - equal - 1;
        if row[i] != option_at(placed, usize::from(features[i])) {
            return false;
        }
        equal += 1;
    }
    true
}
