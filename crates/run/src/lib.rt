// The run of the method on lent tables of numbers: one iteration, and iterations until some load is at the threshold.
#![tactic(auto)]

pub mod iterations;
pub mod runs;
