//! The library: one encounter at a time, answered by a bracket of its collision probability. Three floors: the arithmetic on scaled numbers and the rounded
//! steps are private, the calls public. Beside the calls, numbers in decimal, the division of mantissas and the sum and the greater of two numbers.
#![tactic(auto)]

mod arithmetic;
pub mod calls;
pub mod decimals;
pub mod mantissas;
pub mod state;
mod steps;
pub mod sums;
