// Definitions only: specs/ computes the ★ cases of documents 01 and 02 by the definitions of the crate `model`.
#![tactic(auto)]
