//! The tests of the libraries: of numbers, sources, models and texts, of passes over a model and of the solvers. The crate has no code but tests, so
//! that no other crate is proved twice for them.
#![tactic(auto)]

#[cfg(test)]
mod cert_tests;
#[cfg(test)]
mod drn_tests;
#[cfg(test)]
mod edge_fault_tests;
#[cfg(test)]
mod edge_tests;
#[cfg(test)]
mod elim_tests;
#[cfg(test)]
mod graph_tests;
#[cfg(test)]
mod job_tests;
#[cfg(test)]
mod mean_tests;
#[cfg(test)]
mod models;
#[cfg(test)]
mod num_tests;
#[cfg(test)]
mod parts_tests;
#[cfg(test)]
mod rows_tests;
#[cfg(test)]
mod text_tests;
