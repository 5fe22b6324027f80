// The size of a feature; and why a call is refused, with the number of each reason.
#![tactic(auto)]

mod refusal;

ghost use Rattle.std.specs.Prelude.{◌≡◌, get_or};

pub use refusal::Refusal;

// The size of a feature, 0 for one that is not in the catalogue.
pub fn size_at(sizes: &[u8], feature: usize) -> usize
    ensures { result ≡ get_or sizes.now feature 0 }
{
    if feature < sizes.len() {
        usize::from(sizes[feature])
    } else {
        0
    }
}
