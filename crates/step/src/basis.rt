// What a step reads, the same for each step of a call.
ghost use Rattle.std.specs.Prelude.{◌≡◌};
ghost use Rattle.builds.specs.Inner.Starts.{AllStarts};
ghost use Rattle.search.specs.Inner.Placed.{edge_bytes};

use catalogue::Accepted;

// A catalogue that has passed its check; where the rules begin that are tested at each feature, and how many they are, with
// their numbers; and the edge that the trial is cut by.
#[derive(Clone, Copy)]
pub struct Basis<'a> {
    pub accepted: Accepted<'a>,
    pub places: &'a [u16],
    pub counts: &'a [u8],
    pub edge: &'a [u8],
    pub ghost starts: { AllStarts accepted.catalogue.rules.now places.now counts.now },
    pub ghost the_edge: { edge.now ≡ edge_bytes },
}
