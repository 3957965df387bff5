// What is remembered from choice to choice, in one slice: the bounds of the commodities, the one of least bound, and a page for each node, from node 0 on.
#![tactic(auto)]

pub mod pages;
pub mod raise;

use bounds::MOST_COMMODITIES;
use page::{DISTANCE_NUMBERS, PAGE_NUMBERS};

// Where each begins,
pub const BOUNDS: usize = 0;

pub const LEAST: usize = MOST_COMMODITIES;

pub const PAGES: usize = MOST_COMMODITIES + 1;

// and how many numbers the memory takes in all. There are as many pages as a page has distances.
pub const MEMORY_NUMBERS: usize = PAGES + PAGE_NUMBERS * DISTANCE_NUMBERS;
