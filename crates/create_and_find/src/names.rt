// The one name look-up.
ghost use Rattle.std.specs.Prelude.{◌≡◌, ◌<◌, length, MatchOption};
ghost use Rattle.model.specs.Tables.{ports};
ghost use Rattle.model.specs.Services.{is_named, look_up};
ghost use Rattle.service_contracts.specs.Called.{Rows};

use events::BODY_AT;
use tables::{NAME_AT, RECORD_SIZE, Tables};

// Port k has that owner, mode and name. The mode stays a number: what may not change is that the definition `is_named` and `is_mode` are said
// of any, as the table of the codes has 2 for either.
#[tactic(auto, unfolding(model::specs::Services::is_named))]
fn is_named(tables: Tables, p: u8, mode: u8, event: &[u8], k: usize) -> bool
    requires rows { Rows tables.bytes.now }
    requires event_len { (length event.now ≡ 80) × (k < tables.ports) }
    ensures { result ≡ is_named tables.entry.bytes.now p mode event.now k }
{
    let row = tables.row(k);
    let name_at = RECORD_SIZE * tables.port_record(k) + NAME_AT;
    row.owner == p
        && row.transfer.is_mode(mode)
        && tables::same_name(tables.bytes, name_at, event, BODY_AT)
}

// The port of that name, owner and mode, if there is one: where there is none the model's search gives the number of ports.
pub fn look_up(tables: Tables, p: u8, mode: u8, event: &[u8]) -> Option<usize>
    requires rows { Rows tables.bytes.now }
    requires event_len { length event.now ≡ 80 }
    ensures { MatchOption result (look_up tables.entry.bytes.now p mode event.now ≡ ports tables.entry.bytes.now)
        (λ k. (k < ports tables.entry.bytes.now) × (k ≡ look_up tables.entry.bytes.now p mode event.now)) }
{
    (0..tables.ports).find(|k| is_named(tables, p, mode, event, *k))
}
