// Calls for a host written in C, on numbers and byte slices. Document 01, "The floor and its flow"; the C side is include/vithmork.h.
#![tactic(auto)]

mod floors;
mod solve;
mod totes;
