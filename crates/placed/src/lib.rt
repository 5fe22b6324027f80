// The test of what is placed, for a rule list that has no fault: `starts_of` finds the rules that are tested at each feature,
// and `test` names the first of those of one that what is placed breaks.
#![tactic(auto)]

mod rules;

pub use rules::{starts_of, test};
