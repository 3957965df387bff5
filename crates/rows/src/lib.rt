// The rows of the listing, put into a lent table of bytes. Document 01, "File and listing".
#![tactic(auto)]

mod put;
mod rows;

pub use put::Rows;
