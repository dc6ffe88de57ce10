// Refusal 24: a name that is empty or has a nonzero byte after a zero, or an earlier port with the same owner and name.
ghost use Rattle.std.specs.Prelude.{◌≡◌, ◌||◌, not, eqb};
ghost use Rattle.model.specs.Tables.{name_start};
ghost use Rattle.model.specs.Load.{name_fits, same_owner_and_name, port_name_fault, name_fault};
ghost use Rattle.record_fields.specs.Pieces.{ended, named_earlier};

use tables::{NAME_AT, NAME_LENGTH, Record, RecordKind};

// Of two bytes in a row of a name: after a zero there is only zero.
fn may_follow(before: u8, after: u8) -> bool
    ensures { result ≡ (not (eqb before 0) || eqb after 0) }
{
    before != 0 || after == 0
}

// After the first zero of the record's name all is zero: each of its first 29 bytes is looked at with the one after it.
fn name_ended(record: Record) -> bool
    ensures { result ≡ ended «record».entry.tables.bytes.now (name_start «record».entry.number) }
{
    (0..NAME_LENGTH - 1).all(|k| may_follow(record.byte(NAME_AT + k), record.byte(NAME_AT + k + 1)))
}

#[tactic(auto, unfolding(model::specs::Load::name_fits))]
fn name_fits(record: Record) -> bool
    ensures { result ≡ name_fits «record».entry.tables.bytes.now (name_start «record».entry.number) }
{
    record.byte(NAME_AT) != 0 && name_ended(record)
}

#[tactic(auto, unfolding(model::specs::Load::same_owner_and_name))]
fn same_owner_and_name(record: Record, other: Record) -> bool
    requires { «record».tables.bytes.now ≡ other.tables.bytes.now }
    ensures { result ≡ same_owner_and_name «record».entry.tables.bytes.now «record».entry.number other.entry.number }
{
    other.owner() == record.owner() && other.same_name(record)
}

// An earlier port has the owner and name of the record's.
fn named_earlier(record: Record) -> bool
    ensures { result ≡ named_earlier «record».entry.tables.bytes.now «record».entry.number }
{
    let tables = record.tables;
    (tables.windows..record.number).any(|q| same_owner_and_name(record, tables.record(q)))
}

#[tactic(auto, unfolding(model::specs::Load::port_name_fault))]
fn port_name_fault(record: Record) -> bool
    ensures { result ≡ port_name_fault «record».entry.tables.bytes.now «record».entry.number }
{
    !name_fits(record) || named_earlier(record)
}

#[tactic(auto, unfolding(model::specs::Load::name_fault))]
pub fn name_fault(record: Record) -> bool
    ensures { result ≡ name_fault «record».entry.tables.bytes.now «record».entry.number }
{
    match record.counts_as() {
        RecordKind::Port => port_name_fault(record),
        RecordKind::Window | RecordKind::Channel => false,
    }
}
