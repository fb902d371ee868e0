//! The rounded steps of document 01: letters, terms, tail term and exponential.
pub mod counts;
pub mod letters;
pub mod losses;
pub mod numbers;
pub mod powers;
pub mod progress;
pub mod sides;
pub mod terms;
