// The candidates at a feature for one pair: the pair's own option, else the choice in force, else all options, rising.
ghost use Rattle.std.specs.Prelude.{◌≡◌, ◌<◌, ◌≤◌, length, get_or, ◌∷◌, [], MatchOption};
ghost use Rattle.std.proofs.Math.Option.{none, some};
ghost use Rattle.search.specs.Candidates.{first_candidate, first_above, next_candidate};
ghost use Rattle.search.specs.Step.{started};

use search::{Place, State};

pub fn first_candidate(sizes: &[u8], choices: &[u8], i: usize, a: u8, j: usize) -> u8
    requires { (length choices.now ≡ 16) × (j < 16) × (1 ≤ get_or sizes.now j 0) }
    ensures { result ≡ first_candidate sizes.now choices.now i a j }
{
    if j == i {
        return a;
    }
    let choice = choices[j];
    if choice != 255 {
        return choice;
    }
    0
}

// The next greater candidate, if there is one. Goes by value: v need not be a candidate itself.
pub fn next_candidate(sizes: &[u8], choices: &[u8], i: usize, a: u8, j: usize, v: u8) -> Option<u8>
    requires { (length choices.now ≡ 16) × (j < 16) × (j < length sizes.now) × (v < 255) }
    ensures { MatchOption result (next_candidate sizes.now choices.now i a j v ≡ none)
        (λ next. next_candidate sizes.now choices.now i a j v ≡ some next) }
{
    if j == i {
        return above(v, a);
    }
    let choice = choices[j];
    if choice != 255 {
        return above(v, choice);
    }
    let next = v + 1;
    if next < sizes[j] { Some(next) } else { None }
}

// The only candidate, if it is greater than v.
fn above(v: u8, only: u8) -> Option<u8>
    ensures { MatchOption result (first_above v (only ∷ []) ≡ none)
        (λ next. first_above v (only ∷ []) ≡ some next) }
{
    if v < only { Some(only) } else { None }
}

// A pair starts at depth 0 with the first candidate there.
pub fn started(sizes: &[u8], choices: &[u8], feature: u8, option: u8) -> State
    requires { (length choices.now ≡ 16) × (1 ≤ get_or sizes.now 0 0) }
    ensures { result ≡ started sizes.now choices.now feature option }
{
    let first = first_candidate(sizes, choices, usize::from(feature), option, 0);
    State::AtWork(Place {
        feature,
        option,
        depth: 0,
        next: first,
    })
}
