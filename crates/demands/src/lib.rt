// No code: specs/ says of the functions that run what the three demands ask for.
#![tactic(auto)]
