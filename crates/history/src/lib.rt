// No code: specs/ proves demand 3 of the model's rules.
#![tactic(auto)]
