// The loader of 01, "Load refusals": what is wrong with a record, the first offending record, and the verdict on the caller's bytes. A
// function's contract is an equation with the model, whose names it takes.
#![tactic(auto)]

ghost use Rattle.std.specs.Prelude.{◌-◌, ◌≡◌, ◌&&◌, ltb, IfNone, IfSome};
ghost use Rattle.model.specs.Tables.{records, kind};
ghost use Rattle.model.specs.Load.{length_fault, kind_fault, count_fault, fault, first_fault, load_of};
ghost use Rattle.loader.specs.Shown.{code_of, verdict_of};
ghost use Rattle.loader.specs.Pieces.{IsFirst};

mod refusal;

use channel_ends::end_fault;
use record_fields::{field_fault, name_fault};
pub use refusal::{Fault, Refused};
use tables::{CHANNEL_KIND, RECORD_SIZE, Record, RecordKind, Tables, WINDOW_KIND};

// "1 to 64 windows", "0 to 64 ports", "0 to 32 channels".
pub const MOST_WINDOWS: usize = 64;

pub const MOST_PORTS: usize = 64;

pub const MOST_CHANNELS: usize = 32;

// 20: length 0 or not a multiple of 48.
#[tactic(auto, unfolding(model::specs::Load::length_fault))]
fn length_fault(t: &[u8]) -> bool
    ensures { result ≡ length_fault t.now }
{
    t.len() == 0 || t.len() % RECORD_SIZE != 0
}

// The record's kind is below that of the record before it.
fn below_before(record: Record) -> bool
    ensures { result
        ≡ (ltb 0 «record».entry.number && ltb (kind «record».entry.tables.bytes.now «record».entry.number) (kind «record».entry.tables.bytes.now («record».entry.number - 1))) }
{
    record.number != 0 && record.kind() < record.tables.record(record.number - 1).kind()
}

// 21: kind not 1..3, or below the kind before. The byte as it stands: a `RecordKind` is what it counts as, whatever it holds.
#[tactic(auto, unfolding(model::specs::Load::kind_fault))]
fn kind_fault(record: Record) -> bool
    ensures { result ≡ kind_fault «record».entry.tables.bytes.now «record».entry.number }
{
    !(WINDOW_KIND..=CHANNEL_KIND).contains(&record.kind()) || below_before(record)
}

// 22: a 65th window or port, or a 33rd channel.
#[tactic(auto, unfolding(model::specs::Load::count_fault))]
fn count_fault(record: Record) -> bool
    ensures { result ≡ count_fault «record».entry.tables.bytes.now «record».entry.number }
{
    let tables = record.tables;
    match record.counts_as() {
        RecordKind::Window => MOST_WINDOWS <= record.number,
        RecordKind::Port => MOST_PORTS <= record.number.saturating_sub(tables.windows),
        RecordKind::Channel => {
            MOST_CHANNELS <= record.number.saturating_sub(tables.first_channel())
        }
    }
}

// What is wrong with the record, if anything: "within a record the lower number is reported".
#[tactic(auto, unfolding(model::specs::Load::fault))]
fn fault(record: Record) -> Option<Fault>
    ensures { code_of result ≡ fault «record».entry.tables.bytes.now «record».entry.number }
{
    if kind_fault(record) {
        Some(Fault::Kind)
    } else if count_fault(record) {
        Some(Fault::Count)
    } else if field_fault(record) {
        Some(Fault::Field)
    } else if name_fault(record) {
        Some(Fault::Name)
    } else if end_fault(record) {
        Some(Fault::End)
    } else {
        None
    }
}

// The first offending record, with its fault.
fn first_fault(tables: Tables) -> Option<Refused>
    ensures none { IfNone result (first_fault tables.entry.bytes.now ≡ records tables.entry.bytes.now) }
    ensures found { IfSome result (IsFirst tables.entry.bytes.now) }
{
    for number in 0..tables.records() {
        if let Some(fault) = fault(tables.record(number)) {
            return Some(Refused {
                fault,
                record: number,
            });
        }
    }
    None
}

// The verdict on tables. 20 is tested first, 26, no window at all, last.
pub fn judge(t: &[u8]) -> Result<(), Refused>
    ensures { verdict_of result ≡ load_of t.now }
{
    if length_fault(t) {
        return Err(Refused {
            fault: Fault::Length,
            record: 0,
        });
    }
    let tables = Tables::of(t);
    if let Some(refused) = first_fault(tables) {
        return Err(refused);
    }
    if tables.windows == 0 {
        return Err(Refused {
            fault: Fault::NoWindow,
            record: tables.records(),
        });
    }
    Ok(())
}
