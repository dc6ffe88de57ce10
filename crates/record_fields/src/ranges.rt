// Refusal 23: a field outside its range, or a byte outside a port's name that should be zero. The fields are read as they stand.
ghost use Rattle.std.specs.Prelude.{if◌then◌else◌, ◌≡◌, ◌&&◌, ◌||◌, leb, eqb};
ghost use Rattle.model.specs.Words.{between};
ghost use Rattle.model.specs.Tables.{mover, sampling, queuing, destination, row_at};
ghost use Rattle.model.specs.Load.{window_fits, row_fits, port_fits, channel_fits, field_fault};
ghost use Rattle.record_fields.specs.Pieces.{unused_blank};

use super::{
    DEEPEST, ENDS, LAST_PARTITION, LONGEST_MESSAGE, LONGEST_PERIOD, LONGEST_WINDOW,
    MOST_DESTINATIONS,
};
use tables::{
    CHANNEL_END, CHANNEL_REST, DESTINATION, MOVER, PORT_END, PORT_REST, QUEUING, Record,
    RecordKind, SAMPLING, WINDOW_END, WINDOW_REST,
};

// low ≤ x ≤ high
pub fn between(low: u32, high: u32, x: u32) -> bool
    ensures { result ≡ between low high x }
{
    (low..=high).contains(&x)
}

fn partition_fits(partition: u8) -> bool
    ensures { result ≡ (leb partition 15 || eqb partition mover) }
{
    partition <= LAST_PARTITION || partition == MOVER
}

#[tactic(auto, unfolding(model::specs::Load::window_fits))]
fn window_fits(record: Record) -> bool
    ensures { result ≡ window_fits «record».entry.tables.bytes.now «record».entry.number }
{
    partition_fits(record.partition())
        && between(1, LONGEST_WINDOW, record.length())
        && record.blank(WINDOW_REST, WINDOW_END)
}

// 1..8 for queuing, 0 for sampling.
fn depth_fits(mode: u8, depth: u32) -> bool
    ensures { result ≡ (if eqb mode queuing then between 1 8 depth else eqb depth 0) }
{
    if mode == QUEUING {
        between(1, DEEPEST, depth)
    } else {
        depth == 0
    }
}

fn is_sampling_destination(mode: u8, direction: u8) -> bool
    ensures { result ≡ (eqb mode sampling && eqb direction destination) }
{
    mode == SAMPLING && direction == DESTINATION
}

// 1..1,000,000 for a sampling destination, else 0.
fn refresh_fits(mode: u8, direction: u8, refresh: u32) -> bool
    ensures { result
        ≡ (if eqb mode sampling && eqb direction destination then between 1 1_000_000 refresh else eqb refresh 0) }
{
    if is_sampling_destination(mode, direction) {
        between(1, LONGEST_PERIOD, refresh)
    } else {
        refresh == 0
    }
}

#[tactic(auto, unfolding(model::specs::Load::row_fits))]
fn row_fits(record: Record) -> bool
    ensures { result ≡ row_fits (row_at «record».entry.tables.bytes.now «record».entry.number) }
{
    let mode = record.mode();
    let direction = record.direction();
    record.owner() <= LAST_PARTITION
        && mode <= QUEUING
        && direction <= DESTINATION
        && between(1, LONGEST_MESSAGE, record.largest())
        && depth_fits(mode, record.depth())
        && refresh_fits(mode, direction, record.refresh())
}

#[tactic(auto, unfolding(model::specs::Load::port_fits))]
fn port_fits(record: Record) -> bool
    ensures { result ≡ port_fits «record».entry.tables.bytes.now «record».entry.number }
{
    row_fits(record) && record.blank(PORT_REST, PORT_END)
}

// The ids past a channel's count, of the eight at ends 1 to 8, are zero.
fn unused_blank(record: Record, count: u8) -> bool
    ensures { result ≡ unused_blank «record».entry.tables.bytes.now «record».entry.number count }
{
    (usize::from(count) + 1..ENDS).all(|j| record.id(j) == 0)
}

#[tactic(auto, unfolding(model::specs::Load::channel_fits))]
fn channel_fits(record: Record) -> bool
    ensures { result ≡ channel_fits «record».entry.tables.bytes.now «record».entry.number }
{
    let count = record.count();
    between(1, MOST_DESTINATIONS, u32::from(count))
        && unused_blank(record, count)
        && record.blank(CHANNEL_REST, CHANNEL_END)
}

#[tactic(auto, unfolding(model::specs::Load::field_fault))]
pub fn field_fault(record: Record) -> bool
    ensures { result ≡ field_fault «record».entry.tables.bytes.now «record».entry.number }
{
    match record.counts_as() {
        RecordKind::Window => !window_fits(record),
        RecordKind::Port => !port_fits(record),
        RecordKind::Channel => !channel_fits(record),
    }
}
