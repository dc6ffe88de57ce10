// Refusal 25: the ends of a channel. Its ends are ids in a row: end 0 is the source, ends 1 to its count the destinations. A count that
// 23 refuses may be up to 255, so that an end stands past the table. The rows are read as they stand.
#![tactic(auto)]

ghost use Rattle.std.specs.Prelude.{◌≤◌, ◌<◌, ◌≡◌, ◌||◌, not, eqb, IfNone, IfSome, None};
ghost use Rattle.model.specs.Tables.{queuing, row_at, end_at};
ghost use Rattle.model.specs.Load.{ends, end_fits, named_among, named_before, channel_ends_fit, end_fault};
ghost use Rattle.channel_ends.specs.Pieces.{record_of, IsRow, takes_from, destinations_fit, named_in_earlier, named_again};

use tables::{DESTINATION, QUEUING, Record, RecordKind, SOURCE, Tables};

// How many ends a channel has: its source and its destinations.
fn end_count(channel: Record) -> usize
    ensures count { result ≡ ends channel.entry.tables.bytes.now channel.entry.number }
    ensures most { result ≤ 256 }
{
    usize::from(channel.count()) + 1
}

// The row that an id has, where it stands: ids are counted from 1.
fn row_of(tables: Tables, id: usize) -> Option<Record>
    ensures some { IfSome result (λ q. IsRow tables.entry.bytes.now id q.tables.bytes.now q.number) }
    ensures none { IfNone result (record_of tables.entry.bytes.now id ≡ None) }
{
    if 1 <= id && id <= tables.ports {
        Some(tables.port(id - 1))
    } else {
        None
    }
}

// The row is that of a destination, of its source's mode, for messages as large as the source's.
#[tactic(auto, unfolding(crate::specs::Pieces::takes_from))]
fn takes_from(row: Record, source: Record) -> bool
    ensures { result
        ≡ takes_from (row_at row.entry.tables.bytes.now row.entry.number) (row_at source.entry.tables.bytes.now source.entry.number) }
{
    row.direction() == DESTINATION
        && row.mode() == source.mode()
        && source.largest() <= row.largest()
}

// End j, a destination: an id with a row, which takes from the source's.
fn destination_fits(channel: Record, source: Record, j: usize) -> bool
    requires source_row { IsRow channel.tables.bytes.now (end_at channel.tables.bytes.now channel.number 0) source.tables.bytes.now source.number }
    requires j_nonzero { (0 < j) × (j < 256) }
    ensures { result ≡ end_fits channel.entry.tables.bytes.now channel.entry.number j }
{
    match row_of(channel.tables, channel.id(j)) {
        Some(row) => takes_from(row, source),
        None => false,
    }
}

fn destinations_fit(channel: Record, source: Record) -> bool
    requires { IsRow channel.tables.bytes.now (end_at channel.tables.bytes.now channel.number 0) source.tables.bytes.now source.number }
    ensures { result ≡ destinations_fit channel.entry.tables.bytes.now channel.entry.number }
{
    (1..end_count(channel)).all(|j| destination_fits(channel, source, j))
}

// A queuing channel has one destination.
fn count_fits(mode: u8, count: u8) -> bool
    ensures { result ≡ (not (eqb mode queuing) || eqb count 1) }
{
    mode != QUEUING || count == 1
}

// One of the first n ends of the channel is the id.
fn named_among(channel: Record, id: usize, n: usize) -> bool
    requires { n ≤ 256 }
    ensures { result ≡ named_among channel.entry.tables.bytes.now id n channel.entry.number }
{
    (0..n).any(|i| channel.id(i) == id)
}

// A channel before this one names the id.
fn named_in_earlier(channel: Record, id: usize) -> bool
    ensures { result ≡ named_in_earlier channel.entry.tables.bytes.now id channel.entry.number }
{
    (channel.tables.first_channel()..channel.number).any(|q| {
        let earlier = channel.tables.record(q);
        named_among(earlier, id, end_count(earlier))
    })
}

// The port of end j is named before it, here or in an earlier channel.
#[tactic(auto, unfolding(model::specs::Load::named_before))]
fn named_before(channel: Record, j: usize) -> bool
    requires { j < 256 }
    ensures { result ≡ named_before channel.entry.tables.bytes.now channel.entry.number j }
{
    let id = channel.id(j);
    named_among(channel, id, j) || named_in_earlier(channel, id)
}

// A port that the channel names is named twice.
fn named_again(channel: Record) -> bool
    ensures { result ≡ named_again channel.entry.tables.bytes.now channel.entry.number }
{
    (0..end_count(channel)).any(|j| named_before(channel, j))
}

fn channel_ends_fit(channel: Record) -> bool
    ensures { result ≡ channel_ends_fit channel.entry.tables.bytes.now channel.entry.number }
{
    let Some(source) = row_of(channel.tables, channel.id(0)) else {
        return false;
    };
    source.direction() == SOURCE
        && destinations_fit(channel, source)
        && count_fits(source.mode(), channel.count())
        && !named_again(channel)
}

#[tactic(auto, unfolding(model::specs::Load::end_fault))]
pub fn end_fault(record: Record) -> bool
    ensures { result ≡ end_fault «record».entry.tables.bytes.now «record».entry.number }
{
    match record.counts_as() {
        RecordKind::Channel => !channel_ends_fit(record),
        RecordKind::Window | RecordKind::Port => false,
    }
}
