// Definitions only: specs/ states document 01, and the contracts and theorems of the other crates cite it.
#![tactic(auto)]
