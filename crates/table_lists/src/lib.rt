// The lists of a table: the head, the ranges in the order of their ports, the levels, and what lies past the last range and the last seat.
#![tactic(auto)]

pub mod counts;
pub mod levels;
pub mod ranges;
