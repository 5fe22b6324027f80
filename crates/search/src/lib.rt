// One clinic's record. No code: the written search over it, and the laws about it, stand in specs/ and proofs/.
#![tactic(auto)]

// Where a search stands: it looks for a build with `option` at `feature`, has placed options before `depth`, and
// tries `next` there.
#[derive(Clone, Copy)]
pub struct Place {
    pub feature: u8,
    pub option: u8,
    pub depth: u8,
    pub next: u8,
}

#[derive(Clone, Copy)]
pub enum State {
    Closed,
    Ready,
    AtWork(Place),
}

#[derive(Clone, Copy)]
pub struct Seat {
    pub state: State,
    pub choices: [u8; 16], // the option chosen for each feature; 255 for none
    pub masks: [u16; 16], // the options left of each feature: bit a for option a
    pub trial: [u8; 16], // the options placed before the depth; 255 from there on, and where the seat is not at work
    pub alternatives: [u16; 16], // what could replace the choice of each feature: bit a for option a; 0 where it has none
    pub broken: u8, // the last rule that an option tried in this job broke, counted from 0; 255 for none
}
