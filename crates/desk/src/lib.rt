// Eight seats and the ring: the calls themselves. Every call takes any numbers, any lent memory and any
// catalogue; what can't be done gets its number from the table, and then desk and board are as they came.
//
// A seat's states, with the calls on the arrows:
//
//             enter               turns: the last step
//   closed ──────────► at work ───────────────────────► ready
//     ▲                 │   ▲                             │ │
//     │      leave      │   └──────── choose, relax ──────┘ │
//     └─────────────────┴───────────────────────────────────┘
//                                leave
#![tactic(auto)]

mod calls;
mod turning;

pub use calls::{choose, enter, leave, open, relax};
pub use catalogue::Catalogue;
pub use reading::{alternatives, example, example_number, options, ran_into};
pub use runs::{Changed, Desk, Left, Ran, Turned};
pub use turning::turns;
