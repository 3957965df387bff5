// The listing of a file: from the bytes of a file in the DIMACS layout to the bytes of the rows that the program writes.
// Document 01, "File and listing".
#![tactic(auto)]

mod file;
mod solved;

pub use file::listing;
