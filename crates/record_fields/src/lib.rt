// What is wrong with a record by itself or by the names before it: refusals 23 and 24 of 01, "Load refusals". A function's contract is an
// equation with the model, whose names it takes.
#![tactic(auto)]

mod names;
mod ranges;

pub use names::name_fault;
pub use ranges::{between, field_fault};

// Of 01's ranges the upper ends: a partition's number, a window's length, a message, a queue's depth, a refresh period, a channel's destinations.
pub const LAST_PARTITION: u8 = 15;

pub const LONGEST_WINDOW: u32 = 10_000;

pub const LONGEST_MESSAGE: u32 = 64;

pub const DEEPEST: u32 = 8;

pub const LONGEST_PERIOD: u32 = 1_000_000;

pub const MOST_DESTINATIONS: u32 = 8;

// A channel's ends: its source and eight destinations.
pub const ENDS: usize = 9;
