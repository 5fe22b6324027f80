// Number 20, as far as it speaks of one seat.
ghost use Rattle.std.specs.Prelude.{◌≡◌, ◌&&◌, ◌^◌, ◌<◌, ◌≤◌, ltb, length, get_or};
ghost use Rattle.builds.specs.Catalogue.{rules_of};
ghost use Rattle.builds.specs.Lists.{every_below};
ghost use Rattle.catalogue.specs.Lent.{catalogue_lent};
ghost use Rattle.search.specs.RecordFits.{choice_fits, mask_fits, replaceable, alternatives_fit, empty_at};
ghost use Rattle.search.specs.RecordFits.{place_fits, seat_fits, broken_fits, entry_fits};
ghost use Rattle.fit.specs.Inner.Trial.{rest_fits, placed_fits};
ghost use Rattle.fit.specs.Inner.Masks.{no_bit};

use catalogue::{Accepted, Catalogue};
use numbers::size_at;
use search::{Place, Seat, State};

// Whether a record fits a catalogue that has passed its check. A closed seat is empty, and what is empty fits any sizes.
pub fn seat_fits(seat: Seat, accepted: &Accepted) -> bool
    ensures { result ≡ seat_fits (catalogue_lent accepted.now.catalogue) seat }
{
    let sizes = accepted.catalogue.sizes;
    if !broken_fits(seat.state, seat.broken, accepted) {
        return false;
    }
    match seat.state {
        State::Closed => closed_fits(&seat, sizes),
        State::Ready => open_fits(&seat, 0, accepted),
        State::AtWork(place) => {
            place_fits(place, &accepted.catalogue)
                && open_fits(&seat, usize::from(place.depth), accepted)
        }
    }
}

// The last rule broken is 255, as most often, or at work the number of a rule.
fn broken_fits(state: State, broken: u8, accepted: &Accepted) -> bool
    ensures { result ≡ broken_fits (catalogue_lent accepted.now.catalogue) state broken }
{
    broken == 255 || (matches!(state, State::AtWork(_)) && has_rule(accepted, broken))
}

// Whether there is a rule of this number: the walk passes so many rules, and another one begins.
fn has_rule(accepted: &Accepted, number: u8) -> bool
    ensures { result ≡ ltb number (length (rules_of (catalogue_lent accepted.now.catalogue))) }
{
    let rules = accepted.catalogue.rules;
    let mut left = number;
    let mut place = 0;
    while place < rules.len() {
        if left == 0 {
            return true;
        }
        let rest = &rules[place..];
        let k = usize::from(rest[0]);
        let m = usize::from(rest[1]);
        place += 2 + k + k * m;
        left -= 1;
    }
    false
}

// What is asked of the choices, masks, alternatives and trial of a closed seat.
fn closed_fits(seat: &Seat, sizes: &[u8]) -> bool
    ensures { result ≡ (every_below 16 (empty_at seat.now.choices seat.now.masks)
        && every_below 16 (no_bit seat.now.alternatives)
        && every_below 16 (entry_fits sizes.now 0 seat.now.trial)) }
{
    all_empty(&seat.choices, &seat.masks)
        && none_set(&seat.alternatives)
        && trial_fits(&seat.trial, 0, sizes)
}

// What is asked of those of an open seat.
fn open_fits(seat: &Seat, depth: usize, accepted: &Accepted) -> bool
    ensures { result ≡ (every_below 16 (choice_fits accepted.now.catalogue.sizes.now seat.now.choices)
        && every_below 16 (mask_fits accepted.now.catalogue.sizes.now seat.now.masks)
        && every_below 16 (alternatives_fit accepted.now.catalogue.sizes.now seat.now.choices seat.now.alternatives)
        && every_below 16 (entry_fits accepted.now.catalogue.sizes.now depth seat.now.trial)) }
{
    let sizes = accepted.catalogue.sizes;
    choices_fit(&seat.choices, sizes)
        && masks_fit(&seat.masks, accepted)
        && alternatives_fit(&seat.choices, &seat.alternatives, accepted)
        && trial_fits(&seat.trial, depth, sizes)
}

// Each choice is 255 or an option of its feature.
fn choices_fit(choices: &[u8; 16], sizes: &[u8]) -> bool
    ensures { result ≡ every_below 16 (choice_fits sizes.now choices.now) }
{
    (0..16).all(|f| choices[f] == 255 || usize::from(choices[f]) < size_at(sizes, f))
}

// Each mask has bits for options of its feature alone.
fn masks_fit(masks: &[u16; 16], accepted: &Accepted) -> bool
    ensures { result ≡ every_below 16 (mask_fits accepted.now.catalogue.sizes.now masks.now) }
{
    (0..16).all(|f| bits_fit(masks[f], accepted, f))
}

// Each mask of alternatives has bits for options of its feature alone, and none where no choice is in force.
fn alternatives_fit(choices: &[u8; 16], alternatives: &[u16; 16], accepted: &Accepted) -> bool
    ensures { result ≡ every_below 16
        (alternatives_fit accepted.now.catalogue.sizes.now choices.now alternatives.now) }
{
    // A seat that has chosen nothing has none.
    none_set(alternatives) || each_replaces(choices, alternatives, accepted)
}

// Mask by mask.
fn each_replaces(choices: &[u8; 16], alternatives: &[u16; 16], accepted: &Accepted) -> bool
    ensures { result ≡ every_below 16
        (alternatives_fit accepted.now.catalogue.sizes.now choices.now alternatives.now) }
{
    (0..16).all(|f| bits_below(alternatives[f], options_at(choices, accepted, f)))
}

// How many options of a feature could replace its choice: none where it has none.
fn options_at(choices: &[u8; 16], accepted: &Accepted, f: usize) -> usize
    requires { f < 16 }
    ensures { (result ≡ replaceable accepted.now.catalogue.sizes.now choices.now f) × (result ≤ 16) }
{
    if choices[f] == 255 {
        0
    } else {
        size_at(accepted.catalogue.sizes, f)
    }
}

// A mask has bits for options of a feature alone.
fn bits_fit(mask: u16, accepted: &Accepted, f: usize) -> bool
    ensures { result ≡ ltb mask (2 ^ get_or accepted.now.catalogue.sizes.now f 0) }
{
    bits_below(mask, size_at(accepted.catalogue.sizes, f))
}

// A mask has bits for options below a size alone.
fn bits_below(mask: u16, size: usize) -> bool
    requires { size ≤ 16 }
    ensures { result ≡ ltb mask (2 ^ size) }
{
    u32::from(mask) < 1u32 << size
}

// Entries before the depth are options of their features, the others 255.
fn trial_fits(trial: &[u8; 16], depth: usize, sizes: &[u8]) -> bool
    ensures { result ≡ every_below 16 (entry_fits sizes.now depth trial.now) }
{
    rest_empty(trial, depth) && placed_fit(trial, depth, sizes)
}

// No early exit, so that the entries of a seat that is not at work, all of them from depth 0 on, are compared at once.
fn rest_empty(trial: &[u8; 16], depth: usize) -> bool
    ensures { result ≡ every_below 16 (rest_fits depth trial.now) }
{
    let mut empty = true;
    for f in 0..16 {
        empty &= (f < depth) | (trial[f] == 255);
    }
    empty
}

fn placed_fit(trial: &[u8; 16], depth: usize, sizes: &[u8]) -> bool
    ensures { result ≡ every_below 16 (placed_fits sizes.now depth trial.now) }
{
    (0..depth.min(16)).all(|f| usize::from(trial[f]) < size_at(sizes, f))
}

// No choice, and no bit in a mask.
fn all_empty(choices: &[u8; 16], masks: &[u16; 16]) -> bool
    ensures { result ≡ every_below 16 (empty_at choices.now masks.now) }
{
    *choices == [255; 16] && none_set(masks)
}

// No bit in any mask: all sixteen are compared at once.
fn none_set(masks: &[u16; 16]) -> bool
    ensures { result ≡ every_below 16 (no_bit masks.now) }
{
    *masks == [0; 16]
}

fn place_fits(place: Place, catalogue: &Catalogue) -> bool
    ensures { result ≡ place_fits (catalogue_lent catalogue.now) place }
{
    let sizes = catalogue.sizes;
    let i = usize::from(place.feature);
    let j = usize::from(place.depth);
    i < sizes.len() && j < sizes.len() && place.option < sizes[i] && place.next < sizes[j]
}
