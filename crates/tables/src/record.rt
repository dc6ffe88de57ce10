// A record of tables, read where it stands: what it counts as, and the fields of a window, a port and a channel, in range or not.
ghost use Rattle.std.specs.Prelude.{◌+◌, ◌^◌, ◌<◌, ◌≤◌, ◌≡◌};
ghost use Rattle.model.specs.Words.{byte, word16, word32, blank};
ghost use Rattle.model.specs.Tables.{records, start, kind, window_partition, window_length, row_at, name_start, same_name, destinations_at, end_at};
ghost use Rattle.tables.specs.Shown.{kind_of, decoded};

use super::bytes::{blank, word16, word16_at, word32};
use super::layout::{kind, window_length, window_partition};
use super::names::same_name;
use super::{
    COUNT_AT, DEPTH_AT, DIRECTION_AT, ENDS_AT, LARGEST_AT, MODE_AT, NAME_AT, OWNER_AT, PortRow,
    RECORD_SIZE, REFRESH_AT, RecordKind, Tables, Transfer,
};

// A record's number with the tables that have it.
#[derive(Clone, Copy)]
pub struct Record<'a> {
    pub tables: Tables<'a>,
    pub number: usize,
    pub ghost there: { number < records tables.bytes.now },
}

impl<'a> Record<'a> {
    // Byte 0, as it stands: 1 window, 2 port, 3 channel, and anything else where 21 refuses it.
    pub fn kind(self) -> u8
        ensures { result ≡ kind self.entry.tables.bytes.now self.entry.number }
    {
        kind(self.tables.bytes, self.number)
    }

    // What the record counts as, whatever its byte 0.
    pub fn counts_as(self) -> RecordKind
        ensures { result ≡ kind_of (kind self.entry.tables.bytes.now self.entry.number) }
    {
        RecordKind::from(self.kind())
    }

    // What stands at a place in the record.
    pub fn byte(self, at: usize) -> u8
        requires { at < 48 }
        ensures { result ≡ byte self.entry.tables.bytes.now (start self.entry.number + at) }
    {
        self.tables.bytes[RECORD_SIZE * self.number + at]
    }

    pub fn word16(self, at: usize) -> u32
        requires { at + 2 ≤ 48 }
        ensures { result ≡ word16 self.entry.tables.bytes.now (start self.entry.number + at) }
    {
        word16(self.tables.bytes, RECORD_SIZE * self.number + at)
    }

    pub fn word32(self, at: usize) -> u32
        requires { at + 4 ≤ 48 }
        ensures { result ≡ word32 self.entry.tables.bytes.now (start self.entry.number + at) }
    {
        word32(self.tables.bytes, RECORD_SIZE * self.number + at)
    }

    // The n bytes from a place in the record on are zero.
    pub fn blank(self, n: usize, at: usize) -> bool
        requires { at + n ≤ 48 }
        ensures { result ≡ blank self.entry.tables.bytes.now n (start self.entry.number + at) }
    {
        blank(self.tables.bytes, n, RECORD_SIZE * self.number + at)
    }

    // A window's partition, or 32 for a mover window.
    pub fn partition(self) -> u8
        ensures { result ≡ window_partition self.entry.tables.bytes.now self.entry.number }
    {
        window_partition(self.tables.bytes, self.number)
    }

    // A window's length in ticks.
    pub fn length(self) -> u32
        ensures { result ≡ window_length self.entry.tables.bytes.now self.entry.number }
    {
        window_length(self.tables.bytes, self.number)
    }

    // The partition that owns a port.
    #[tactic(auto, unfolding(model::specs::Tables::row_at))]
    pub fn owner(self) -> u8
        ensures { result ≡ (row_at self.entry.tables.bytes.now self.entry.number).owner }
    {
        self.byte(OWNER_AT)
    }

    #[tactic(auto, unfolding(model::specs::Tables::row_at))]
    pub fn mode(self) -> u8
        ensures { result ≡ (row_at self.entry.tables.bytes.now self.entry.number).mode }
    {
        self.byte(MODE_AT)
    }

    #[tactic(auto, unfolding(model::specs::Tables::row_at))]
    pub fn direction(self) -> u8
        ensures { result ≡ (row_at self.entry.tables.bytes.now self.entry.number).direction }
    {
        self.byte(DIRECTION_AT)
    }

    // The largest message of a port, in bytes.
    #[tactic(auto, unfolding(model::specs::Tables::row_at))]
    pub fn largest(self) -> u32
        ensures { result ≡ (row_at self.entry.tables.bytes.now self.entry.number).largest }
    {
        self.word32(LARGEST_AT)
    }

    #[tactic(auto, unfolding(model::specs::Tables::row_at))]
    pub fn depth(self) -> u32
        ensures { result ≡ (row_at self.entry.tables.bytes.now self.entry.number).depth }
    {
        self.word32(DEPTH_AT)
    }

    // The refresh period of a port, in ticks.
    #[tactic(auto, unfolding(model::specs::Tables::row_at))]
    pub fn refresh(self) -> u32
        ensures { result ≡ (row_at self.entry.tables.bytes.now self.entry.number).refresh }
    {
        self.word32(REFRESH_AT)
    }

    // A port's row. A mode other than 0, which 23 refuses where it isn't 1, is taken for queuing.
    pub fn row(self) -> PortRow
        ensures { result ≡ decoded (row_at self.entry.tables.bytes.now self.entry.number) }
    {
        PortRow {
            owner: self.owner(),
            transfer: Transfer::of(self.mode(), self.depth(), self.refresh()),
            direction: self.direction(),
            largest: self.largest(),
        }
    }

    // Two ports have the same name.
    pub fn same_name(self, other: Record) -> bool
        ensures { result
            ≡ same_name self.entry.tables.bytes.now (name_start self.entry.number) other.entry.tables.bytes.now (name_start other.entry.number) }
    {
        same_name(
            self.tables.bytes,
            RECORD_SIZE * self.number + NAME_AT,
            other.tables.bytes,
            RECORD_SIZE * other.number + NAME_AT,
        )
    }

    // How many destinations a channel has.
    pub fn count(self) -> u8
        ensures { result ≡ destinations_at self.entry.tables.bytes.now self.entry.number }
    {
        self.byte(COUNT_AT)
    }

    // The id at end j of a channel: 0 its source, from 1 on its destinations. A count that 23 refuses may be up to 255, so that an end
    // stands past the tables, where the id is 0.
    pub fn id(self, j: usize) -> usize
        requires { j < 256 }
        ensures value { result ≡ end_at self.entry.tables.bytes.now self.entry.number j }
        ensures small { result < 2 ^ 32 }
    {
        word16_at(
            self.tables.bytes,
            RECORD_SIZE * self.number + ENDS_AT + 2 * j,
        ) as usize
    }
}
