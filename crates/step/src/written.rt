// One step of the written search.
ghost use Rattle.std.specs.Prelude.{◌≡◌, ℕ, ◌+◌, ◌<◌, ◌≤◌, length, get_or, set};
ghost use Rattle.builds.specs.Catalogue.{rules_of};
ghost use Rattle.builds.specs.Rule.{first_broken};
ghost use Rattle.placed.specs.Tested.{rule_broken};
ghost use Rattle.search.specs.declared.State.TheVariants.{AtWork};
ghost use Rattle.search.specs.Candidates.{chosen_otherwise};
ghost use Rattle.search.specs.Clinic.{clinic_of};
ghost use Rattle.search.specs.Step.{given_up, tried, started, after_pair, broken_after, step_at};
ghost use Rattle.search.specs.Inner.Placed.{kept_before, PlacedAt};
ghost use Rattle.step.specs.Inner.StepContracts.{tried_of, depth_in, shows_left, shows_alternative, catalogue_in};
ghost use Rattle.step.specs.Inner.StepContracts.{StepNeeds, Stepped, TryNeeds, ComesTo};

use crate::basis::Basis;
use arrays::{masks_after, trial_after};
use catalogue::Accepted;
use search::{Place, Seat, State};
use seat::{first_candidate, next_candidate, started, write_example};

// What comes of trying an option.
#[derive(Drop)]
pub enum Way {
    GoOn { depth: u8, next: u8 },
    Build,
    Exhausted,
}

// What a step shows of the pair's option.
#[derive(Clone, Copy, PartialEq, Eq)]
pub enum Shown {
    Nothing, // no build was found
    Left, // it is left, and the build that was found was written as its example
    Alternative, // it could replace the choice of its feature, and no example was written
}

impl Shown {
    // Whether the option gets the bit of one that is left.
    fn is_left(self) -> bool
        ensures { result ≡ shows_left self }
    {
        matches!(self, Shown::Left)
    }

    // Whether it gets the bit of an alternative.
    fn is_alternative(self) -> bool
        ensures { result ≡ shows_alternative self }
    {
        matches!(self, Shown::Alternative)
    }
}

// What a step comes to: the state after it, the depth before which options stay placed, and what it shows.
#[derive(Drop)]
pub struct After {
    pub state: State,
    pub depth: u8,
    pub shown: Shown,
}

// One step: record and share of the written search after it. A seat that is not at work makes none.
pub fn step(seat: Seat, share: &mut [u8], basis: &Basis) -> Seat
    requires { StepNeeds basis.now seat share.old }
    ensures { Stepped (catalogue_in basis.now)
        (clinic_of seat share.old) (clinic_of result share.new) }
{
    let state = seat.state;
    match state {
        State::Closed => seat,
        State::Ready => seat,
        State::AtWork(place) => step_at(seat, place, share, basis),
    }
}

// The record is only read, and each array of the new one is made whole: so both are held in registers. What is placed is
// copied for who looks options up by feature: the test, the way back, and the example.
fn step_at(seat: Seat, place: Place, share: &mut [u8], basis: &Basis) -> Seat
    requires needs { StepNeeds basis.now seat share.old }
    requires at_work { seat.state ≡ AtWork place }
    ensures { clinic_of result share.new
        ≡ step_at (catalogue_in basis.now) place (clinic_of seat share.old) }
{
    let choices = seat.choices;
    let masks = seat.masks;
    let trial = seat.trial;
    let alternatives = seat.alternatives;
    let mut placed = trial;
    let j = place.depth as usize;
    placed[j] = place.next;
    let build: &[u8] = &placed;
    let tested = tested_at(j, build, basis);
    let after = after_step(place, tested, &choices, build, share, basis);
    let state = after.state;
    let left = after.shown.is_left();
    let alternative = after.shown.is_alternative();
    Seat {
        state,
        choices,
        masks: masks_after(masks, place.feature, place.option, left),
        trial: trial_after(trial, basis.edge, place.depth, place.next, after.depth),
        alternatives: masks_after(alternatives, place.feature, place.option, alternative),
        broken: broken_after(state, tested, seat.broken),
    }
}

// Rule 2: what is placed, the option to be tried at depth j with it, is tested against each rule whose highest-numbered
// feature is j.
fn tested_at(j: usize, placed: &[u8], basis: &Basis) -> Option<u8>
    requires { (j < 16) × (length placed.now ≡ 16) }
    ensures { rule_broken result
        ≡ first_broken (rules_of (catalogue_in basis.now)) j placed.now }
{
    let count = usize::from(basis.counts[j]);
    let starts = j * 64;
    let numbers = 16 + starts;
    placed::test(
        basis.accepted.catalogue.rules,
        j,
        &basis.places[starts..starts + count],
        &basis.counts[numbers..numbers + count],
        placed,
    )
}

// The last rule broken in this job, after a step to a state: a test that failed names it, and a seat that is ready has none.
fn broken_after(state: State, tested: Option<u8>, before: u8) -> u8
    ensures { result ≡ broken_after state (rule_broken tested) before }
{
    match state {
        State::Closed => 255,
        State::Ready => 255,
        State::AtWork(_) => match tested {
            None => before,
            Some(rule) => rule,
        },
    }
}

// What comes of trying the option decides: the search goes on, or the pair ends. A build that is found is written as
// the example, but for one at a feature chosen otherwise: its option is no more than an alternative.
fn after_step(
    place: Place,
    tested: Option<u8>,
    choices: &[u8; 16],
    placed: &[u8],
    share: &mut [u8],
    basis: &Basis,
) -> After
    requires needs { TryNeeds basis.now place tested placed.now }
    requires whole_share { length share.old ≡ 4096 }
    ensures depth_in_reach { result.depth ≤ place.depth + 1 }
    ensures comes_to { ComesTo (catalogue_in basis.now) place
        choices.now placed.now share.old result share.new }
{
    let feature = place.feature;
    let option = place.option;
    let accepted = &basis.accepted;
    let way = try_next(place, tested, choices, placed, basis);
    match way {
        Way::GoOn { depth, next } => {
            let state = State::AtWork(Place {
                feature,
                option,
                depth,
                next,
            });
            After {
                state,
                depth,
                shown: Shown::Nothing,
            }
        }
        Way::Build => {
            if chosen_otherwise(choices, feature, option) {
                return pair_ended(accepted, choices, feature, option, Shown::Alternative);
            }
            let i = feature as usize;
            let a = option as usize;
            write_example(share, i * 256 + a * 16, placed);
            pair_ended(accepted, choices, feature, option, Shown::Left)
        }
        Way::Exhausted => pair_ended(accepted, choices, feature, option, Shown::Nothing),
    }
}

// Whether a feature has a choice other than an option.
fn chosen_otherwise(choices: &[u8; 16], feature: u8, option: u8) -> bool
    requires { feature < 16 }
    ensures { result ≡ chosen_otherwise choices.now feature option }
{
    let i = feature as usize;
    let choice = choices[i];
    if choice == 255 {
        return false;
    }
    choice != option
}

// Rules 3 to 5, by what the test of the option came to.
fn try_next(
    place: Place,
    tested: Option<u8>,
    choices: &[u8; 16],
    placed: &[u8],
    basis: &Basis,
) -> Way
    requires { TryNeeds basis.now place tested placed.now }
    ensures depth_in_reach { depth_in result ≤ place.depth + 1 }
    ensures tries { tried_of result placed.now
        ≡ tried (catalogue_in basis.now) choices.now place.feature
        place.option place.depth place.next (kept_before place.depth placed.now) }
{
    let depth = place.depth;
    let option = place.option;
    let i = place.feature as usize;
    let j = depth as usize;
    let sizes = basis.accepted.catalogue.sizes;
    if tested.is_some() {
        return given_up(&basis.accepted, choices, i, option, depth, placed);
    }
    if j + 1 == sizes.len() {
        return Way::Build;
    }
    let first = first_candidate(sizes, choices, i, option, j + 1);
    Way::GoOn {
        depth: depth + 1,
        next: first,
    }
}

// Rule 5: the next greater candidate, at this depth or the nearest earlier one that has any.
fn given_up(
    accepted: &Accepted,
    choices: &[u8; 16],
    i: usize,
    option: u8,
    depth: u8,
    placed: &[u8],
) -> Way
    requires within { depth < length accepted.now.catalogue.sizes.now }
    requires placed_at { PlacedAt depth placed.now }
    ensures depth_in_reach { depth_in result ≤ depth }
    ensures gives_up { tried_of result placed.now
        ≡ given_up accepted.now.catalogue.sizes.now choices.now i option depth
        (get_or placed.now depth 255) (kept_before depth placed.now) }
{
    let sizes = accepted.catalogue.sizes;
    for j in (0..depth + 1).rev() {
        let at = j as usize;
        if let Some(next) = next_candidate(sizes, choices, i, option, at, placed[at]) {
            return Way::GoOn { depth: j, next };
        }
    }
    Way::Exhausted
}

// A pair ends, and the next starts in the same step; after the last the seat is ready.
fn pair_ended(
    accepted: &Accepted,
    choices: &[u8; 16],
    feature: u8,
    option: u8,
    shown: Shown,
) -> After
    requires { (feature < length accepted.now.catalogue.sizes.now) × (option < 16) }
    ensures { result ≡ record {
      state = after_pair accepted.now.catalogue.sizes.now choices.now feature option;
      depth = 0;
      shown = shown;
    } }
{
    let state = after_pair(accepted, choices, feature, option);
    After {
        state,
        depth: 0,
        shown,
    }
}

#[tactic(auto, using(crate::proofs::InPlace::few_features, crate::proofs::InPlace::some_option))]
fn after_pair(accepted: &Accepted, choices: &[u8; 16], feature: u8, option: u8) -> State
    requires { (feature < length accepted.now.catalogue.sizes.now) × (option < 16) }
    ensures { result ≡ after_pair accepted.now.catalogue.sizes.now choices.now feature option }
{
    let sizes = accepted.catalogue.sizes;
    let i = feature as usize;
    let next = option + 1;
    if next < sizes[i] {
        return started(sizes, choices, feature, next);
    }
    if i + 1 < sizes.len() {
        return started(sizes, choices, feature + 1, 0);
    }
    State::Ready
}
