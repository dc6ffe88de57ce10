// Create and get id, which find their port by name.
#![tactic(auto)]

ghost use Rattle.std.specs.Prelude.{◌≡◌, List, ℕ, ◌+◌, ◌<◌, length};
ghost use Rattle.model.specs.Services.{like_row, made, create, get_id};
ghost use Rattle.tables.specs.Shown.{row_of};
ghost use Rattle.events.specs.Shown.{call_of};
ghost use Rattle.ports.specs.Held.{port_at};
ghost use Rattle.service_contracts.specs.Did.{Held};
ghost use Rattle.service_contracts.specs.Served.{Serves};
ghost use Rattle.service_contracts.specs.Called.{Calls};
ghost use Rattle.create_and_find.specs.Period.{period_of};

mod names;

use events::{Answer, Call, NORMAL, Refusal};
use names::look_up;
use ports::{CREATED, Ports};
use tables::{PortRow, Tables, Transfer};

// Refresh period or depth, by the row's mode.
fn period(row: PortRow) -> u32
    ensures { result ≡ period_of (row_of row) }
{
    let transfer = row.transfer;
    match transfer {
        Transfer::Sampling(refresh) => refresh,
        Transfer::Queuing(depth) => depth,
    }
}

// Largest message, direction, and refresh or depth are the row's.
#[tactic(auto, unfolding(model::specs::Services::like_row))]
fn like_row(row: PortRow, call: Call) -> bool
    ensures { result ≡ like_row (row_of row) (call_of call.entry) }
{
    call.size == row.largest && call.choice == row.direction && call.number == period(row)
}

// Already created, 1; unlike the row, 4; partition in NORMAL, 5; else created, answer id.
fn make(
    numbers: &mut [u32],
    bytes: &[u8],
    k: usize,
    row: PortRow,
    mode: u8,
    call: Call,
    doer: u8,
) -> Answer
    requires { (length numbers.old ≡ 832) × (k < 64) }
    ensures { Serves numbers.old bytes.now numbers.new bytes.now k doer result (made (k + 1) mode (row_of row) (call_of call.entry) (port_at numbers.old bytes.now k)) }
{
    if ports::number(numbers, k, CREATED) == 1 {
        return events::refused(Refusal::NoAction, doer);
    }
    if !like_row(row, call) {
        return events::refused(Refusal::InvalidConfig, doer);
    }
    if mode == NORMAL {
        return events::refused(Refusal::InvalidMode, doer);
    }
    ports::set_number(numbers, k, CREATED, 1);
    events::told_id(doer, (k + 1) as u32)
}

// No row of that name, owner and mode, 4.
pub fn create(
    tables: Tables,
    modes: &[u8],
    numbers: &mut [u32],
    bytes: &[u8],
    p: u8,
    call: Call,
) -> Answer
    requires held { Held tables.bytes.now numbers.old bytes.now }
    requires numbers_len { length numbers.old ≡ 832 }
    requires p_in_bounds { p < length modes.now }
    ensures { Calls tables.entry.bytes.now (λ s. create tables.entry.bytes.now s p call.entry.event.now (call_of call.entry)) p result modes.now numbers.old bytes.now modes.now numbers.new bytes.now }
{
    let Some(k) = look_up(tables, p, events::need(call.code).mode, call.event) else {
        return events::refused(Refusal::InvalidConfig, p);
    };
    make(numbers, bytes, k, tables.row(k), modes[p as usize], call, p)
}

// No created own port of that name, 4; else id.
pub fn get_id(tables: Tables, ports: &Ports, p: u8, call: Call) -> Answer
    requires { Held tables.bytes.now ports.now.numbers ports.now.bytes }
    ensures { (modes : List ℕ) → Calls tables.entry.bytes.now (λ s. get_id tables.entry.bytes.now s p call.entry.event.now (call_of call.entry)) p result modes ports.now.numbers ports.now.bytes modes ports.now.numbers ports.now.bytes }
{
    let Some(k) = look_up(tables, p, events::need(call.code).mode, call.event) else {
        return events::refused(Refusal::InvalidConfig, p);
    };
    if ports.number(k, CREATED) != 1 {
        return events::refused(Refusal::InvalidConfig, p);
    }
    events::told_id(p, (k + 1) as u32)
}
