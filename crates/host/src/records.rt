// The records that a C or Rust host holds: plain numbers and arrays, laid out as C lays them out.
// Stays: numbers for states and refusals, flags and fixed arrays: the C interface.
#[repr(C)]
#[derive(Clone, Copy)]
pub struct HostSeat {
    pub state: u8, // 0 closed, 1 ready, 2 at work
    pub feature: u8, // the place at work, all 0 in the other states
    pub option: u8,
    pub depth: u8,
    pub next: u8,
    pub broken: u8, // the last rule broken in this job; 255 for none
    pub choices: [u8; 16],
    pub masks: [u16; 16],
    pub trial: [u8; 16],
    pub alternatives: [u16; 16],
}

#[repr(C)]
#[derive(Clone, Copy)]
pub struct HostDesk {
    pub seats: [HostSeat; 8],
    pub next: u8,
}

#[repr(C)]
#[derive(Clone, Copy)]
pub struct HostChanged {
    pub number: u8,
    pub desk: HostDesk,
}

#[repr(C)]
#[derive(Clone, Copy)]
pub struct HostLeft {
    pub number: u8,
    pub mask: u16,
    pub count: u32,
}

// Where in the caller's board the sixteen bytes stand: an exported function can't hand out a part of a slice.
#[repr(C)]
#[derive(Clone, Copy)]
pub struct HostExample {
    pub number: u8,
    pub from: usize,
    pub length: usize, // 0 where the call is refused
}

#[repr(C)]
#[derive(Clone, Copy)]
pub struct HostRan {
    pub number: u8,
    pub rule: u8, // 255 for none; 0 where the call is refused
}

#[repr(C)]
#[derive(Clone, Copy)]
pub struct HostTurned {
    pub number: u8,
    pub made: u16,
    pub working: bool,
    pub desk: HostDesk,
}
