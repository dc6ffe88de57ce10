// A partition's call: in IDLE 15, else the service of its code.
#![tactic(auto)]

ghost use Rattle.std.specs.Prelude.{◌<◌, length};
ghost use Rattle.model.specs.Services.{service};
ghost use Rattle.events.specs.Shown.{call_of};
ghost use Rattle.service_contracts.specs.Did.{Held};
ghost use Rattle.service_contracts.specs.Called.{Calls};

use create_and_find::{create, get_id};
use events::{Answer, Call, Code, IDLE, Refusal};
use modes::set_mode;
use own_ports::use_own;
use ports::Ports;
use tables::Tables;

pub fn service(
    tables: Tables,
    modes: &mut [u8],
    ports: &mut Ports,
    p: u8,
    time: u32,
    call: Call,
) -> Answer
    requires held { Held tables.bytes.now ports.old.numbers ports.old.bytes }
    requires p_in_bounds { p < length modes.old }
    ensures { Calls tables.entry.bytes.now (λ s. service tables.entry.bytes.now time s p call.entry.event.now (call_of call.entry)) p result modes.old ports.old.numbers ports.old.bytes modes.new ports.new.numbers ports.new.bytes }
{
    if modes[p as usize] == IDLE {
        return events::refused(Refusal::CallerIdle, p);
    }
    match call.code {
        Code::CreateSamplingPort | Code::CreateQueuingPort => create(
            tables,
            modes,
            &mut ports.numbers,
            &ports.bytes,
            p,
            call,
        ),
        Code::GetSamplingPortId | Code::GetQueuingPortId => get_id(tables, ports, p, call),
        Code::SetPartitionMode => set_mode(tables, modes, &mut ports.numbers, p, call.choice),
        _ => use_own(tables, ports, p, time, call),
    }
}
