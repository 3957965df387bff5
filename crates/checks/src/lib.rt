// Is a call turned down, for what, and what number says so: document 01's table, "Turned down".
#![tactic(auto)]

pub mod items;
pub mod numbers;
pub mod sizes;
