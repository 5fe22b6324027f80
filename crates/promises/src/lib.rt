// No code: what the letter demands, stated in specs/ over the definitions that the calls' contracts cite.
#![tactic(auto)]
