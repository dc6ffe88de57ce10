// Own ports: a created port of the caller, of the service's mode.
#![tactic(auto)]

ghost use Rattle.std.specs.Prelude.{◌≡◌, ◌<◌, ◌-◌, true, false, List, ℕ, MatchOption};
ghost use Rattle.model.specs.Tables.{ports as port_count, row};
ghost use Rattle.model.specs.Services.{use_own};
ghost use Rattle.tables.specs.Shown.{decoded};
ghost use Rattle.events.specs.Shown.{call_of};
ghost use Rattle.service_contracts.specs.Did.{Held};
ghost use Rattle.service_contracts.specs.Called.{Rows, Calls};
ghost use Rattle.own_ports.specs.Own.{own_at};

use events::{Answer, Call, Refusal};
use ports::{CREATED, Ports};
use tables::{PortRow, Tables};

// The port that the call's id names, with its row, if it is an own port.
#[tactic(auto, using(std::proofs::lemmas::Bool::Decides::nat_tests), unfolding(crate::specs::Own::own_at))]
fn own(tables: Tables, ports: &Ports, p: u8, call: Call) -> Option<(usize, PortRow)>
    requires { Rows tables.bytes.now }
    ensures { MatchOption result (own_at tables.entry.bytes.now ports.now.numbers p (call_of call.entry) ≡ false)
        (λ r. (own_at tables.entry.bytes.now ports.now.numbers p (call_of call.entry) ≡ true) × (r.0 ≡ call.entry.id - 1) × (r.0 < port_count tables.entry.bytes.now) × (r.1 ≡ decoded (row tables.entry.bytes.now r.0))) }
{
    let id = call.id as usize;
    if id < 1 || tables.ports < id {
        return None;
    }
    let k = id - 1;
    let row = tables.row(k);
    let owned = row.owner == p
        && row.transfer.is_mode(events::need(call.code).mode)
        && ports.number(k, CREATED) == 1;
    owned.then_some((k, row))
}

// Codes 2, 3, 5, 7, 8, 10 and 11: not own port, 3; else the service.
pub fn use_own(tables: Tables, ports: &mut Ports, p: u8, time: u32, call: Call) -> Answer
    requires { Held tables.bytes.now ports.old.numbers ports.old.bytes }
    ensures { (modes : List ℕ) → Calls tables.entry.bytes.now (λ s. use_own tables.entry.bytes.now time s p call.entry.event.now (call_of call.entry)) p result modes ports.old.numbers ports.old.bytes modes ports.new.numbers ports.new.bytes }
{
    let Some((k, row)) = own(tables, ports, p, call) else {
        return events::refused(Refusal::InvalidParam, p);
    };
    port_services::serve(ports, k, row, time, call, p)
}
