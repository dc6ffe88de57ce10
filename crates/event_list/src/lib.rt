// A list of events: one turn after another, each answer laid where it goes.
#![tactic(auto)]

ghost use Rattle.std.specs.Prelude.{◌+◌, ◌*◌, ◌≤◌, length, take, drop};
ghost use Rattle.event_step.specs.Turned.{Ready};
ghost use Rattle.event_list.specs.Stepped.{LeavesAt, Runs};

use event_step::turn;
use events::{Clock, EVENT_SIZE};
use ports::Ports;
use tables::Tables;

// The event in record i, answered in record i.
fn turn_at(
    tables: Tables,
    clock: Clock,
    modes: &mut [u8],
    ports: &mut Ports,
    events: &[u8],
    answers: &mut [u8],
    i: usize,
) -> Clock
    requires ready { Ready tables.bytes.now clock modes.old ports.old.numbers ports.old.bytes }
    requires i_in_bounds { (80 * i + 80 ≤ length events.now) × (80 * i + 80 ≤ length answers.old) }
    ensures { LeavesAt tables.entry.bytes.now (take 80 (drop (80 * i) events.now)) i clock modes.old ports.old.numbers ports.old.bytes answers.old result modes.new ports.new.numbers ports.new.bytes answers.new }
{
    let at = EVENT_SIZE * i;
    let end = at + EVENT_SIZE;
    let turned = turn(tables, clock, modes, ports, &events[at..end]);
    events::lay_answer(turned.answer, &mut answers[at..end]);
    turned.clock
}

// Every event of the list, in order.
pub fn run_events(
    tables: Tables,
    clock: Clock,
    modes: &mut [u8],
    ports: &mut Ports,
    events: &[u8],
    answers: &mut [u8],
) -> Clock
    requires ready { Ready tables.bytes.now clock modes.old ports.old.numbers ports.old.bytes }
    requires events_in_bounds { length events.now ≤ length answers.old }
    ensures { Runs tables.entry.bytes.now events.now clock modes.old ports.old.numbers ports.old.bytes answers.old result modes.new ports.new.numbers ports.new.bytes answers.new }
{
    let mut present = clock;
    for i in 0..events.len() / EVENT_SIZE {
        present = turn_at(tables, present, modes, ports, events, answers, i);
    }
    present
}
