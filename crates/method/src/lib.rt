// The method of Garg and Könemann in document 01's whole numbers: definitions and theorems in specs/ and proofs/. Its code is in the crates above.
#![tactic(auto)]

// The answer. Document 01, "One choice of route": drawn total F, capacity c(b) and load Y(b) of the fullest resource, the bound's D and alpha, the
// count of iterations, and which of them, from 1, gave the bound.
#[derive(Clone, Copy)]
pub struct Answer {
    pub total: u64,
    pub capacity: u64,
    pub load: u64,
    pub bound: u64,
    pub alpha: u64,
    pub count: u64,
    pub best: u64,
}

// What an iteration chose: the commodity, how many arcs its path has, how many resources it uses, the arcs among them, and alpha, their length.
#[derive(Clone, Copy)]
pub struct Selected {
    pub commodity: usize,
    pub arcs: usize,
    pub used: usize,
    pub alpha: u64,
}
