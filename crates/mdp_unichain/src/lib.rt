//! Policies of one end component that have one closed class: their gain and bias, and the path of policies to the best gain. Definitions in `specs/`,
//! laws in `proofs/`. It has no code.
#![tactic(auto)]
