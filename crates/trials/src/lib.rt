// No code: each promise used on runs, boards and desks that are written out, so that none of them is true for an empty reason.
#![tactic(auto)]
