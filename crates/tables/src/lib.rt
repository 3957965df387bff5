// The steps of an iteration on lent tables of numbers, each a loop over one table or one path.
#![tactic(auto)]

pub mod draws;
pub mod loads;
