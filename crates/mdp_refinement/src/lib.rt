//! Bounds of the values of a model, near to each other, found in floats and whole numbers. A bound for each node, a state or an end component of the
//! model, is a whole number in units; components of nodes are solved one after the other, successors first, by iterative refinement: what the rows
//! have over the values is exact in whole numbers, and floats give corrections. Nothing is promised of what comes out: it is to be held against exact
//! rules.
#![tactic(auto)]

mod bound;
mod chosen;
mod component;
mod convert;
mod correct;
mod evaluate;
mod factors;
mod graph;
mod intervals;
mod krylov;
mod leaving;
mod lists;
mod nodes;
mod recurrent;
mod refine;
mod rows;
mod solving;
mod strong;
mod value;
mod whole;

pub use bound::{Bound, Task};
pub use convert::to_float;
pub use graph::Graph;
pub use lists::{append, flag_at, group_of, item_at, number, number_at, part_of, put};
pub use nodes::Nodes;
pub use recurrent::{EndGains, end_gains};
pub use rows::{ChoiceRow, Discount, Entry, Rows, Scale, WholeRow};
pub use solving::{Solution, solve};
pub use strong::{Components, strong_components};
pub use value::{Value, value_at};
pub use whole::{digits_of, power_of_ten, quotient};
