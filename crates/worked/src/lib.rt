// No code: the cases that document 01, and those who read it, worked by hand, computed from the definitions of the crates below.
#![tactic(auto)]
