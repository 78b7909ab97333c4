// Definitions only: specs/ computes how long lookups take by the definitions of the crate `model`.
#![tactic(auto)]
