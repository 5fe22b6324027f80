// No code: the runs that document 01 works by hand, and one for each request, played on the definitions call by call.
#![tactic(auto)]
