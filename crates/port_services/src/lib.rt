// What a port's status tells, and the services of an own port by code.
#![tactic(auto)]

ghost use Rattle.std.specs.Prelude.{if◌then◌else◌, ◌≡◌, eqb};
ghost use Rattle.model.specs.Services.{status, serve};
ghost use Rattle.tables.specs.Shown.{row_of};
ghost use Rattle.events.specs.Shown.{call_of, told_as};
ghost use Rattle.ports.specs.Held.{port_at};
ghost use Rattle.service_contracts.specs.Served.{Fits, Serves};

use events::{Answer, Call, Code};
use ports::{COUNT, Ports, VALIDITY};
use read_and_receive::{clear, get};
use tables::{PortRow, SOURCE, Transfer};
use write_and_send::put;

// The message count of a source port is always given as 0.
fn count_told(direction: u8, count: u32) -> u32
    ensures { result ≡ (if eqb direction 0 then 0 else count) }
{
    if direction == SOURCE { 0 } else { count }
}

// 5 and 10: the row's numbers, with the last validity (5) or the message count (10).
fn status(ports: &Ports, k: usize, row: PortRow, doer: u8) -> Answer
    requires { Fits ports.now.numbers ports.now.bytes k row }
    ensures { result ≡ told_as doer (status (row_of row) (port_at ports.now.numbers ports.now.bytes k)) }
{
    let answer = Answer {
        size: row.largest,
        direction: row.direction,
        ..events::done(doer)
    };
    let transfer = row.transfer;
    match transfer {
        Transfer::Sampling(refresh) => Answer {
            number: refresh,
            validity: ports.number(k, VALIDITY) as u8,
            ..answer
        },
        Transfer::Queuing(depth) => Answer {
            number: count_told(row.direction, ports.number(k, COUNT)),
            depth,
            ..answer
        },
    }
}

// The services of an own port, by code.
pub fn serve(ports: &mut Ports, k: usize, row: PortRow, time: u32, call: Call, doer: u8) -> Answer
    requires { Fits ports.old.numbers ports.old.bytes k row }
    ensures { Serves ports.old.numbers ports.old.bytes ports.new.numbers ports.new.bytes k doer result (serve time (row_of row) call.entry.event.now (call_of call.entry) (port_at ports.old.numbers ports.old.bytes k)) }
{
    match call.code {
        Code::WriteSamplingMessage | Code::SendQueuingMessage => put(ports, k, row, call, doer),
        Code::ReadSamplingMessage | Code::ReceiveQueuingMessage => get(
            &mut ports.numbers,
            &ports.bytes,
            k,
            row,
            time,
            call.code,
            doer,
        ),
        Code::ClearQueuingPort => clear(&mut ports.numbers, &ports.bytes, k, row, call.code, doer),
        _ => status(ports, k, row, doer),
    }
}
