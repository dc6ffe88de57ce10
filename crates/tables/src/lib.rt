// The tables of 01, "Tables": their rows, counts and channel ends, each read where it stands in the caller's bytes. Nothing is
// collected, and nothing is judged: the crate `loader` does that. A function's contract is an equation with the model, whose names it
// takes.
#![tactic(auto)]

mod bytes;
mod counted;
mod kinds;
mod layout;
mod names;
mod record;
mod transfers;

pub use bytes::{blank, word16, word16_at, word32};
pub use counted::Tables;
pub use layout::{
    channel_count, port_count, ports_end, records, window_length, window_partition, windows,
};
pub use names::same_name;
pub use record::Record;

// A record's size in bytes, and its kinds, in byte 0: `Record::kind` answers the byte as it stands, which 21 judges, and `Record::counts_as` what the others take it for.
pub const RECORD_SIZE: usize = 48;

pub const WINDOW_KIND: u8 = 1;

pub const PORT_KIND: u8 = 2;

pub const CHANNEL_KIND: u8 = 3;

// Where the fields of a window stand in its record, and how many bytes after them are zero.
pub const PARTITION_AT: usize = 1;

pub const LENGTH_AT: usize = 2;

pub const WINDOW_END: usize = 4;

pub const WINDOW_REST: usize = 44;

// The same of a port.
pub const OWNER_AT: usize = 1;

pub const MODE_AT: usize = 2;

pub const DIRECTION_AT: usize = 3;

pub const LARGEST_AT: usize = 4;

pub const DEPTH_AT: usize = 8;

pub const REFRESH_AT: usize = 12;

pub const NAME_AT: usize = 16;

pub const PORT_END: usize = 46;

pub const PORT_REST: usize = 2;

// The same of a channel: its count of destinations, and its ends, the source's id before those of eight destinations.
pub const COUNT_AT: usize = 1;

pub const ENDS_AT: usize = 2;

pub const CHANNEL_END: usize = 20;

pub const CHANNEL_REST: usize = 28;

// What stands for a partition in a mover window. A byte, since `window_partition` answers the one that stands in any window, in range or not.
pub const MOVER: u8 = 32;

// A name's size in bytes.
pub const NAME_LENGTH: usize = 30;

// The modes and the directions of a port. They stay bytes: `Record` tells what stands in any record, in range or not.
pub const SAMPLING: u8 = 0;

pub const QUEUING: u8 = 1;

pub const SOURCE: u8 = 0;

pub const DESTINATION: u8 = 1;

// What a record is.
#[derive(Clone, Copy, PartialEq, Eq)]
pub enum RecordKind {
    Window,
    Port,
    Channel,
}

// "A port row is either sampling with its refresh period or queuing with its depth."
#[derive(Clone, Copy)]
pub enum Transfer {
    // the refresh period in ticks: 1..1,000,000 at a destination, 0 at a source
    Sampling(u32),
    // the depth, 1..8 messages
    Queuing(u32),
}

// A port row, decoded from its record.
#[derive(Clone, Copy)]
pub struct PortRow {
    // the partition that owns the port, 0..15
    pub owner: u8,
    // the mode with what belongs to it
    pub transfer: Transfer,
    // 0 source, 1 destination. A byte as it stands, since `Record::row` ensures the row of any record, in range or not
    pub direction: u8,
    // the largest message in bytes, 1..64
    pub largest: u32,
}
