// Definitions only: specs/ has how scripts of calls are run by the definitions of the crate `model`.
#![tactic(auto)]
