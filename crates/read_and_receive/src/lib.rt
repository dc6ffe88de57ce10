// A message read, received or cleared at a destination port.
#![tactic(auto)]

ghost use Rattle.std.specs.Prelude.{◌≡◌, ◌≤◌, ◌<◌, length, []};
ghost use Rattle.model.specs.State.{Message, valid};
ghost use Rattle.model.specs.Events.{Call};
ghost use Rattle.model.specs.Answers.{told_message};
ghost use Rattle.model.specs.Services.{mark, read_oldest, take_oldest, get, cleared};
ghost use Rattle.tables.specs.Shown.{row_of};
ghost use Rattle.events.specs.Shown.{number_of, told_as};
ghost use Rattle.stores.specs.Ring.{Sized, letter_of};
ghost use Rattle.ports.specs.Held.{store_at, port_at};
ghost use Rattle.service_contracts.specs.Served.{Fits, Serves, TakesOldest};

use events::{Answer, Code, Refusal};
use ports::{ARRIVAL, COUNT, OLDEST, VALIDITY};
use stores::Letter;
use tables::PortRow;

// A message handed out, with a validity.
fn told_message(doer: u8, letter: &Letter, validity: u8) -> Answer
    ensures { (m : Message) → length m ≤ 64 → letter.now ≡ letter_of m → result ≡ told_as doer (told_message m validity) }
{
    Answer {
        size: letter.size,
        validity,
        message: letter.bytes,
        ..events::done(doer)
    }
}

// Valid exactly if the age is at most the refresh period.
fn validity(refresh: u32, time: u32, arrival: u32) -> u8
    ensures { result ≡ mark (valid refresh time arrival) }
{
    u8::from(events::age(time, arrival) <= refresh)
}

// The oldest message of a port that holds one, removed. Its bytes stay in their slot, which no longer counts.
pub fn take_oldest(numbers: &mut [u32], bytes: &[u8], k: usize) -> Letter
    requires lent { (length numbers.old ≡ 832) × (length bytes.now ≡ 32768) }
    requires there { k < 64 }
    requires sized { Sized (store_at numbers.old bytes.now k) }
    requires fact { (port_at numbers.old bytes.now k).queue ≡ [] → ⊥ }
    ensures { TakesOldest numbers.old bytes.now numbers.new k result }
{
    let st = ports::take_store(numbers, bytes, k);
    let mut rest = st;
    rest.drop_oldest();
    ports::set_number(numbers, k, OLDEST, rest.oldest);
    ports::set_number(numbers, k, COUNT, rest.count);
    st.oldest()
}

// 3: empty, 1; else message and validity, which becomes the last validity; the message stays.
fn read(numbers: &mut [u32], bytes: &[u8], k: usize, row: PortRow, time: u32, doer: u8) -> Answer
    requires lent { (length numbers.old ≡ 832) × (length bytes.now ≡ 32768) }
    requires fits { Fits numbers.old bytes.now k row }
    ensures { Serves numbers.old bytes.now numbers.new bytes.now k doer result (read_oldest (row_of row).refresh time (port_at numbers.old bytes.now k) (port_at numbers.old bytes.now k).queue) }
{
    if ports::number(numbers, k, COUNT) == 0 {
        return events::refused(Refusal::NoAction, doer);
    }
    let letter = ports::take_store(numbers, bytes, k).oldest();
    let v = validity(
        row.transfer.refresh(),
        time,
        ports::number(numbers, k, ARRIVAL),
    );
    ports::set_number(numbers, k, VALIDITY, u32::from(v));
    told_message(doer, &letter, v)
}

// 8: empty, 2; else the oldest message, removed.
fn receive(numbers: &mut [u32], bytes: &[u8], k: usize, doer: u8) -> Answer
    requires lent { (length numbers.old ≡ 832) × (length bytes.now ≡ 32768) }
    requires there { k < 64 }
    requires sized { Sized (store_at numbers.old bytes.now k) }
    ensures { Serves numbers.old bytes.now numbers.new bytes.now k doer result (take_oldest (port_at numbers.old bytes.now k) (port_at numbers.old bytes.now k).queue) }
{
    if ports::number(numbers, k, COUNT) == 0 {
        return events::refused(Refusal::NotAvailable, doer);
    }
    let letter = take_oldest(numbers, bytes, k);
    told_message(doer, &letter, 0)
}

// 3 and 8: not a destination, 5. Of a call the code is all that is needed.
pub fn get(
    numbers: &mut [u32],
    bytes: &[u8],
    k: usize,
    row: PortRow,
    time: u32,
    code: Code,
    doer: u8,
) -> Answer
    requires lent { (length numbers.old ≡ 832) × (length bytes.now ≡ 32768) }
    requires fits { Fits numbers.old bytes.now k row }
    ensures { (f : Call) → f.code ≡ number_of code → Serves numbers.old bytes.now numbers.new bytes.now k doer result (get time (row_of row) f (port_at numbers.old bytes.now k)) }
{
    if !events::directed(code, row.direction) {
        return events::refused(Refusal::InvalidMode, doer);
    }
    match code {
        Code::ReadSamplingMessage => read(numbers, bytes, k, row, time, doer),
        _ => receive(numbers, bytes, k, doer),
    }
}

// 11: not a destination, 5; else emptied.
pub fn clear(
    numbers: &mut [u32],
    bytes: &[u8],
    k: usize,
    row: PortRow,
    code: Code,
    doer: u8,
) -> Answer
    requires lent { (length numbers.old ≡ 832) × (length bytes.now ≡ 32768) }
    requires fits { Fits numbers.old bytes.now k row }
    ensures { (f : Call) → f.code ≡ number_of code → Serves numbers.old bytes.now numbers.new bytes.now k doer result (cleared (row_of row) f (port_at numbers.old bytes.now k)) }
{
    if !events::directed(code, row.direction) {
        return events::refused(Refusal::InvalidMode, doer);
    }
    ports::set_number(numbers, k, COUNT, 0);
    events::done(doer)
}
