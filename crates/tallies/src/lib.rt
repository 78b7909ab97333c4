// Definitions only: specs/ computes what clocks move by the definitions of the crate `model`.
#![tactic(auto)]
