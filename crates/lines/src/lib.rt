// The lines of a file in the DIMACS maximum flow layout: where a line ends, its words, and what it says.
#![tactic(auto)]

mod kinds;
mod words;

pub use kinds::meaning;

// What one line says.
#[derive(Clone, Copy)]
pub enum Line {
    Comment,
    Problem(u64, u64),
    Source(u64),
    Sink(u64),
    Arc(u64, u64, u64),
    Broken,
}
