// A message put into a port's store: a write replaces, a send appends or loses.
#![tactic(auto)]

ghost use Rattle.std.specs.Prelude.{◌≤◌, ◌<◌};
ghost use Rattle.model.specs.State.{with_queue, offer};
ghost use Rattle.model.specs.Services.{stored, put};
ghost use Rattle.tables.specs.Shown.{row_of};
ghost use Rattle.events.specs.Shown.{call_of};
ghost use Rattle.stores.specs.Ring.{written};
ghost use Rattle.ports.specs.Held.{port_at, PortPut};
ghost use Rattle.service_contracts.specs.Served.{Fits, Serves};

use events::{Answer, BODY_AT, Call, Refusal};
use ports::{COUNT, Ports};
use stores::Letter;
use tables::{PortRow, Transfer};

// A message offered to a store: it is lost where the store holds its depth.
fn offer(ports: &mut Ports, k: usize, depth: u32, letter: &Letter)
    requires { (k < 64) × (depth ≤ 8) }
    ensures { PortPut ports.old.numbers ports.old.bytes ports.new.numbers ports.new.bytes k (with_queue (port_at ports.old.numbers ports.old.bytes k) (offer depth (port_at ports.old.numbers ports.old.bytes k).queue (written letter.now))) }
{
    if depth <= ports.number(k, COUNT) {
        return;
    }
    let mut st = ports.take_store(k);
    st.push(letter);
    ports.put_store(k, &st);
}

// A sampling store keeps the new message alone; a queuing store takes it or loses it.
pub fn store(ports: &mut Ports, k: usize, row: PortRow, letter: &Letter)
    requires { Fits ports.old.numbers ports.old.bytes k row }
    ensures { PortPut ports.old.numbers ports.old.bytes ports.new.numbers ports.new.bytes k (with_queue (port_at ports.old.numbers ports.old.bytes k) (stored (row_of row) (port_at ports.old.numbers ports.old.bytes k).queue (written letter.now))) }
{
    let transfer = row.transfer;
    match transfer {
        Transfer::Sampling(_) => {
            ports.put_alone(k, letter);
        }
        Transfer::Queuing(depth) => {
            offer(ports, k, depth, letter);
        }
    }
}

// 2 and 7: length 0, 3; length above the largest, 4; not a source, 5; else stored.
pub fn put(ports: &mut Ports, k: usize, row: PortRow, call: Call, doer: u8) -> Answer
    requires { Fits ports.old.numbers ports.old.bytes k row }
    ensures { Serves ports.old.numbers ports.old.bytes ports.new.numbers ports.new.bytes k doer result (put (row_of row) call.entry.event.now (call_of call.entry) (port_at ports.old.numbers ports.old.bytes k)) }
{
    if call.size == 0 {
        return events::refused(Refusal::InvalidParam, doer);
    }
    if row.largest < call.size {
        return events::refused(Refusal::InvalidConfig, doer);
    }
    if !events::directed(call.code, row.direction) {
        return events::refused(Refusal::InvalidMode, doer);
    }
    let letter = Letter::of(&call.event[BODY_AT..BODY_AT + call.size as usize]);
    store(ports, k, row, &letter);
    events::done(doer)
}
