// Test 29 of a state handed in: each of its numbers is in its range. The message bytes are not looked at, since a message's length is a
// stored number; and modes and numbers are lent as they stand in a State, since a `Ports` made of it would copy 32 KB at each test.
#![tactic(auto)]

ghost use Rattle.std.specs.Prelude.{◌≡◌, true, ◌<◌, ◌≤◌, length};
ghost use Rattle.model.specs.Tables.{room};
ghost use Rattle.model.specs.Load.{accepts};
ghost use Rattle.model.specs.Ranged.{RowRanges};
ghost use Rattle.tables.specs.Shown.{row_of};
ghost use Rattle.state_test.specs.Tested.{modes_fit, lengths_fit, numbers_fit, each_fits, Judges};

use ports::{COUNT, CREATED, LENGTHS, OLDEST, ROW_SIZE, VALIDITY};
use stores::RING;
use tables::{PortRow, Tables, Transfer};

// The shortest stored message.
const SHORTEST: u32 = 1;

// Each of the sixteen modes is one of 0..3.
fn modes_fit(modes: &[u8]) -> bool
    ensures { result ≡ modes_fit modes.now }
{
    modes.iter().all(|mode| *mode <= events::NORMAL)
}

// How many messages a port keeps: one if sampling, else its depth.
fn room(row: PortRow) -> u32
    ensures { result ≡ room (row_of row) }
{
    let transfer = row.transfer;
    match transfer {
        Transfer::Sampling(_) => 1,
        Transfer::Queuing(depth) => depth,
    }
}

// Each stored message of a port has a length of 1 to the largest. Only stored lengths are looked at, in the slots from the oldest on.
fn lengths_fit(numbers: &[u32], largest: u32, oldest: u32, count: u32) -> bool
    requires thirteen { length numbers.now ≡ 13 }
    requires in_ring { (oldest < 8) × (count ≤ 8) }
    ensures { result ≡ lengths_fit largest numbers.now oldest count }
{
    for i in 0..count {
        let slot = ((oldest + i) % RING) as usize;
        let size = numbers[LENGTHS + slot];
        if size < SHORTEST || largest < size {
            return false;
        }
    }
    true
}

// The thirteen numbers of a port are in the ranges of its row. The count and the oldest slot are any numbers until they are tested, so both
// are tested before a slot is named by them.
#[tactic(auto, using(std::proofs::lemmas::Bool::Decides::nat_tests), unfolding(crate::specs::Tested::numbers_fit))]
fn port_fits(numbers: &[u32], row: PortRow) -> bool
    requires thirteen { length numbers.now ≡ 13 }
    requires ranges { RowRanges (row_of row) }
    ensures { result ≡ numbers_fit (row_of row) numbers.now }
{
    let oldest = numbers[OLDEST];
    let count = numbers[COUNT];
    numbers[CREATED] <= 1
        && numbers[VALIDITY] <= 1
        && oldest < RING
        && count <= room(row)
        && (numbers[CREATED] == 1 || count == 0)
        && lengths_fit(numbers, row.largest, oldest, count)
}

// Each port of the tables is in the ranges of its row.
fn ports_fit(tables: Tables, numbers: &[u32]) -> bool
    requires accepted { accepts tables.bytes.now ≡ true }
    requires whole { length numbers.now ≡ 832 }
    ensures { result ≡ each_fits tables.entry.bytes.now numbers.now }
{
    for k in 0..tables.ports {
        let at = ROW_SIZE * k;
        if !port_fits(&numbers[at..at + ROW_SIZE], tables.row(k)) {
            return false;
        }
    }
    true
}

// Test 29 of a state with that window, those modes and those port numbers, whatever its time and its message bytes.
pub fn in_range(tables: Tables, window: u32, modes: &[u8], numbers: &[u32]) -> bool
    requires accepted { accepts tables.bytes.now ≡ true }
    requires whole { (length modes.now ≡ 16) × (length numbers.now ≡ 832) }
    ensures { Judges tables.entry.bytes.now window modes.now numbers.now result }
{
    (window as usize) < tables.windows && modes_fit(modes) && ports_fit(tables, numbers)
}
