// Whose turn it is, what that doer does, and the clock's own step.
#![tactic(auto)]

ghost use Rattle.std.specs.Prelude.{ℕ, ◌≡◌, ◌<◌, List, length};
ghost use Rattle.model.specs.State.{tick};
ghost use Rattle.model.specs.Events.{decode};
ghost use Rattle.model.specs.Events as asks;
ghost use Rattle.events.specs.Shown.{call_of};
ghost use Rattle.service_contracts.specs.Did.{Held};
ghost use Rattle.event_step.specs.Turned.{clock_of, Ready, Answers};

use events::{Answer, Asked, Call, Clock, NOBODY, Refusal, SCHEDULER};
use ports::Ports;
use tables::{MOVER, Tables};

// An event's answer, and the clock after it: both stand there for each event, neither tells of the other.
#[derive(Clone, Copy)]
pub struct Turned {
    pub answer: Answer,
    pub clock: Clock,
}

// Time grows by the current window's length; next window, after the last the first.
fn tick(tables: Tables, clock: Clock) -> Clock
    requires { clock.window < tables.windows }
    ensures { clock_of result ≡ tick tables.entry.bytes.now (clock_of clock) }
{
    let next = clock.window + 1;
    Clock {
        window: if next < tables.windows { next } else { 0 },
        time: events::later(
            clock.time,
            tables::window_length(tables.bytes, clock.window),
        ),
    }
}

// A partition's call: in a mover window nobody's.
fn call_turn(
    tables: Tables,
    clock: Clock,
    modes: &mut [u8],
    ports: &mut Ports,
    call: Call,
) -> Answer
    requires ready { Ready tables.bytes.now clock modes.old ports.old.numbers ports.old.bytes }
    requires asked { decode call.event.now ≡ asks.call (call_of call) }
    ensures { Answers tables.entry.bytes.now call.entry.event.now clock modes.old ports.old.numbers ports.old.bytes result clock modes.new ports.new.numbers ports.new.bytes }
{
    let owner = tables::window_partition(tables.bytes, clock.window);
    if owner == MOVER {
        return events::refused(Refusal::CallInMoverWindow, NOBODY);
    }
    partition_calls::service(tables, modes, ports, owner, clock.time, call)
}

// A move: in a partition's window, or of no channel, nobody's. Modes and the rest of the event have no part in it, so it is said for any.
fn move_turn(tables: Tables, clock: Clock, ports: &mut Ports, c: u32) -> Answer
    requires held { Held tables.bytes.now ports.old.numbers ports.old.bytes }
    requires in_window { clock.window < tables.windows }
    ensures { (modes event : List ℕ) → decode event ≡ asks.move c → Answers tables.entry.bytes.now event clock modes ports.old.numbers ports.old.bytes result clock modes ports.new.numbers ports.new.bytes }
{
    if tables::window_partition(tables.bytes, clock.window) != MOVER {
        return events::refused(Refusal::MoveInPartitionWindow, NOBODY);
    }
    let channel = c as usize;
    if tables.channels <= channel {
        return events::refused(Refusal::NoChannel, NOBODY);
    }
    moves::transmit(tables, ports, clock.time, channel)
}

// One event: whose it is, its answer, and the clock after it.
pub fn turn(
    tables: Tables,
    clock: Clock,
    modes: &mut [u8],
    ports: &mut Ports,
    event: &[u8],
) -> Turned
    requires ready { Ready tables.bytes.now clock modes.old ports.old.numbers ports.old.bytes }
    requires event_len { length event.now ≡ 80 }
    ensures { Answers tables.entry.bytes.now event.now clock modes.old ports.old.numbers ports.old.bytes result.answer result.clock modes.new ports.new.numbers ports.new.bytes }
{
    match events::decode(event) {
        Asked::Clock => {
            let next = tick(tables, clock);
            Turned {
                answer: events::told_number(SCHEDULER, next.time),
                clock: next,
            }
        }
        Asked::Call(call) => Turned {
            answer: call_turn(tables, clock, modes, ports, call),
            clock,
        },
        Asked::Move(c) => Turned {
            answer: move_turn(tables, clock, ports, c),
            clock,
        },
        Asked::Unknown => Turned {
            answer: events::refused(Refusal::UnknownCode, NOBODY),
            clock,
        },
    }
}
