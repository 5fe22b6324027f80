// The arrays of a record after a step, each made whole: so masks and trial go from one record to the other in registers.
#![tactic(auto)]

ghost use Rattle.std.specs.Prelude.{◌≡◌, ℕ, ◌+◌, ◌<◌, ◌≤◌, get_or, set};
ghost use Rattle.search.specs.Inner.Placed.{kept_before, edge_bytes, masks_with};

// The masks, made whole: with the bit of an option for which a build was found.
pub fn masks_after(masks: [u16; 16], feature: u8, option: u8, found: bool) -> [u16; 16]
    requires { (feature < 16) × (option < 16) }
    ensures { result ≡ masks_with found feature option masks }
{
    if !found {
        return masks;
    }
    let i = usize::from(feature);
    let bit = 1u16 << option;
    let mut with = [0u16; 16];
    for f in 0..16 {
        let mask = masks[f];
        with[f] = if f == i { mask | bit } else { mask };
    }
    with
}

// The trial, made whole: with `next` at the old depth, and 255 from the new one on. The edge is 255 before a depth, so
// that sixteen entries are made at once.
pub fn trial_after(trial: [u8; 16], edge: &[u8], depth: u8, next: u8, kept: u8) -> [u8; 16]
    requires depth_within { (depth < 16) × (kept ≤ depth + 1) × (edge.now ≡ edge_bytes) }
    // The entries are those of a [u8; 16].
    requires entries { (get_or trial depth 255 ≡ 255) × ((f : ℕ) → get_or trial f 255 < 256) }
    ensures { result ≡ kept_before kept (set trial depth next) }
{
    let old = 16 - usize::from(depth);
    let new = 16 - usize::from(kept);
    let mut after = [255u8; 16];
    for f in 0..16 {
        after[f] = (trial[f] & (edge[old + f] | next)) | (255 - edge[new + f]);
    }
    after
}

// Sixteen bytes of 255, then sixteen of 0: read from 16 − d on, 255 before depth d. Made once where turns begin, and lent
// to every step.
pub fn edge() -> [u8; 32]
    ensures { result ≡ edge_bytes }
{
    let mut bytes = [0u8; 32];
    bytes[..16].fill(255);
    bytes
}
