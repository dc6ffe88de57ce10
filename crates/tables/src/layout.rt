// Where the records of each kind stand, and what a window's record says. `Tables` has the counts of all three kinds.
ghost use Rattle.std.specs.Prelude.{◌<◌, ◌≤◌, ◌≡◌};
ghost use Rattle.model.specs.Tables.{records, kind, windows, ports_end, ports, channels, window_partition, window_length};
ghost use Rattle.tables.specs.Runs.{run_end};

use super::bytes::word16;
use super::{LENGTH_AT, PARTITION_AT, PORT_KIND, RECORD_SIZE, WINDOW_KIND};

pub fn records(t: &[u8]) -> usize
    ensures { result ≡ records t.now }
{
    t.len() / RECORD_SIZE
}

// Byte 0 of a record, as it stands: `Record::kind` reads it so. Over bytes and a number, since the counts of `Tables`, which a `Record` has, come from these bytes.
pub(crate) fn kind(t: &[u8], r: usize) -> u8
    requires { r < records t.now }
    ensures { result ≡ kind t.now r }
{
    t[RECORD_SIZE * r]
}

// Where the run of records of one kind that starts at a record ends: the number of the first record past it.
fn run_end(t: &[u8], wanted: u8, start: usize) -> usize
    requires { start ≤ records t.now }
    ensures { result ≡ run_end wanted t.now start }
{
    let end = records(t);
    (start..end).find(|r| kind(t, *r) != wanted).unwrap_or(end)
}

// How many windows there are: the number of the first record that is none.
pub fn windows(t: &[u8]) -> usize
    ensures { result ≡ windows t.now }
{
    run_end(t, WINDOW_KIND, 0)
}

// Where the ports that start at first_port end: the number of the first record past them.
pub(crate) fn ports_end_from(t: &[u8], first_port: usize) -> usize
    requires { first_port ≡ windows t.now }
    ensures { result ≡ ports_end t.now }
{
    run_end(t, PORT_KIND, first_port)
}

pub fn ports_end(t: &[u8]) -> usize
    ensures { result ≡ ports_end t.now }
{
    ports_end_from(t, windows(t))
}

pub fn port_count(t: &[u8]) -> usize
    ensures { result ≡ ports t.now }
{
    let first_port = windows(t);
    ports_end_from(t, first_port) - first_port
}

pub fn channel_count(t: &[u8]) -> usize
    ensures { result ≡ channels t.now }
{
    records(t) - ports_end(t)
}

// The partition of window w, or 32 for a mover window.
pub fn window_partition(t: &[u8], w: usize) -> u8
    requires { w < records t.now }
    ensures { result ≡ window_partition t.now w }
{
    t[RECORD_SIZE * w + PARTITION_AT]
}

// The length of window w in ticks.
pub fn window_length(t: &[u8], w: usize) -> u32
    requires { w < records t.now }
    ensures { result ≡ window_length t.now w }
{
    word16(t, RECORD_SIZE * w + LENGTH_AT)
}
