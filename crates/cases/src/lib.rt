// Definitions only: specs/ computes traps, ledgers, damaged memories and walk-throughs by the definitions of the crate `model`.
#![tactic(auto)]
