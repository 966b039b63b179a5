//! What the contracts of several crates speak of: the model and its rows. Definitions in `specs/`, laws in `proofs/`. It has no code.
#![tactic(auto)]
