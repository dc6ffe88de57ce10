// 14, TRANSMIT: the oldest message leaves a channel's source, and each destination that is created gets it.
// "Otherwise it is lost": nothing here waits for a destination, and no answer tells what became of a message.
#![tactic(auto)]

ghost use Rattle.std.specs.Prelude.{◌≡◌, ◌<◌, get_or};
ghost use Rattle.model.specs.Tables.{row, destinations, destination_port};
ghost use Rattle.tables.specs.Shown.{row_of};
ghost use Rattle.stores.specs.Ring.{written};
ghost use Rattle.ports.specs.Held;
ghost use Rattle.service_contracts.specs.Served.{Fits};
ghost use Rattle.service_contracts.specs.Did.{Held};
ghost use Rattle.moves.specs.Moved.{Arrived, Carried, Delivered, Moved};

use events::{Answer, FIRST_CHANNEL, Refusal};
use ports::{ARRIVAL, COUNT, CREATED, Ports};
use stores::Letter;
use tables::{PortRow, Tables, Transfer};

// One destination: nothing if it is not created; else it is stored or lost, and a sample has arrived now.
fn arrive(ports: &mut Ports, time: u32, k: usize, row: PortRow, letter: &Letter)
    requires { Fits ports.old.numbers ports.old.bytes k row }
    ensures { Arrived time (row_of row) (written letter.now) k ports.old.numbers ports.old.bytes ports.new.numbers ports.new.bytes }
{
    if ports.number(k, CREATED) == 0 {
        return;
    }
    write_and_send::store(ports, k, row, letter);
    let transfer = row.transfer;
    match transfer {
        Transfer::Sampling(_) => ports.set_number(k, ARRIVAL, time),
        // the arrival time of a queuing port is never touched
        Transfer::Queuing(_) => {}
    }
}

// Destination j of channel c, with its row from the tables.
fn hand_on(tables: Tables, ports: &mut Ports, time: u32, c: usize, j: usize, letter: &Letter)
    requires held { Held tables.bytes.now ports.old.numbers ports.old.bytes }
    requires there { (c < tables.channels) × (j < destinations tables.bytes.now c) }
    ensures { Arrived time (row tables.entry.bytes.now (destination_port tables.entry.bytes.now c j)) (written letter.now) (destination_port tables.entry.bytes.now c j) ports.old.numbers ports.old.bytes ports.new.numbers ports.new.bytes }
{
    let k = tables.destination_port(c, j);
    arrive(ports, time, k, tables.row(k), letter);
}

// The message handed to each destination in its turn.
fn deliver(tables: Tables, ports: &mut Ports, time: u32, c: usize, letter: &Letter)
    requires held { Held tables.bytes.now ports.old.numbers ports.old.bytes }
    requires there { c < tables.channels }
    requires carried { Carried tables.bytes.now c (written letter.now) }
    ensures { Delivered tables.entry.bytes.now time c (written letter.now) ports.old.numbers ports.old.bytes ports.new.numbers ports.new.bytes }
{
    for j in 0..tables.destination_count(c) as usize {
        hand_on(tables, ports, time, c, j, letter);
    }
}

// How many messages port k has for its channel to move: all that it holds. What the destinations are like holds none of them back.
fn waiting(ports: &Ports, k: usize) -> u32
    requires { k < 64 }
    ensures { result ≡ get_or (Held.row_of ports.now.numbers k) 4 0 }
{
    ports.number(k, COUNT)
}

// Channel c's move. The doer is the channel, 64 plus its number; the answer is 1 if the source is empty, and else 0, whoever got the message.
pub fn transmit(tables: Tables, ports: &mut Ports, time: u32, c: usize) -> Answer
    requires held { Held tables.bytes.now ports.old.numbers ports.old.bytes }
    requires there { c < tables.channels }
    ensures { Moved tables.entry.bytes.now time c result ports.old.numbers ports.old.bytes ports.new.numbers ports.new.bytes }
{
    let doer = FIRST_CHANNEL + c as u8;
    let k = tables.source_port(c);
    if waiting(ports, k) == 0 {
        return events::refused(Refusal::NoAction, doer);
    }
    let letter = read_and_receive::take_oldest(&mut ports.numbers, &ports.bytes, k);
    deliver(tables, ports, time, c, &letter);
    events::done(doer)
}
