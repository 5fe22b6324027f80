// Sizes and a rule list as lent numbers, any content: `fault` reads both from the front and refuses with the fault met
// first, and `accepted` hands on the catalogue that has none.
#![tactic(auto)]

mod checked;
mod faults;
mod lent;

pub use checked::Accepted;
pub use lent::Catalogue;
