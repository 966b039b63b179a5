//! The mathematics of exact fractions: definitions in `specs/`, laws in `proofs/`. It has no code.
#![tactic(auto)]
