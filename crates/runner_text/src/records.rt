// The line of an event: number, doer, code, id, number, length field, byte 12, byte 13, depth, and the message.
ghost use Rattle.std.specs.Prelude.{◌+◌, ◌*◌, ◌/◌, ◌%◌, ◌^◌, ◌≤◌, ◌≡◌, length};
ghost use Rattle.runner_text.specs.Text.{who as who_of, what as what_of, how as how_of, shows_message, message as message_of, line as line_of, record_at, lines as lines_of};
ghost use Rattle.runner_text.specs.Wrote.{Adds};

use super::page::Page;
use events::{Code, EVENT_SIZE, NO_ERROR};
use tables::{word16, word32};

// Number, doer, code.
fn who(number: u64, answer: &[u8], page: &mut Page<'_>)
    requires { (length answer.now ≡ 80) × (page.old.end + 63 ≤ length page.old.out.now) }
    ensures { Adds 63 (who_of number answer.now) page.old page.new }
{
    page.field(number);
    page.field(u64::from(answer[1]));
    page.field(u64::from(answer[0]));
}

// Id, number, length field.
fn what(answer: &[u8], page: &mut Page<'_>)
    requires { (length answer.now ≡ 80) × (page.old.end + 63 ≤ length page.old.out.now) }
    ensures { Adds 63 (what_of answer.now) page.old page.new }
{
    page.field(u64::from(word16(answer, 2)));
    page.field(u64::from(word32(answer, 4)));
    page.field(u64::from(word32(answer, 8)));
}

// Byte 12, byte 13, depth.
fn how(answer: &[u8], page: &mut Page<'_>)
    requires { (length answer.now ≡ 80) × (page.old.end + 63 ≤ length page.old.out.now) }
    ensures { Adds 63 (how_of answer.now) page.old page.new }
{
    page.field(u64::from(answer[12]));
    page.field(u64::from(answer[13]));
    page.field(u64::from(word16(answer, 14)));
}

// Code 0 of events 3 and 8.
#[tactic(auto, unfolding(crate::specs::Text::shows_message))]
fn shows_message(event: &[u8], answer: &[u8]) -> bool
    requires { (length event.now ≡ 80) × (length answer.now ≡ 80) }
    ensures { result ≡ shows_message event.now answer.now }
{
    answer[0] == NO_ERROR
        && (event[0] == Code::ReadSamplingMessage as u8
            || event[0] == Code::ReceiveQueuingMessage as u8)
}

// Record i of the bytes of events or of answers.
fn record_of(bytes: &[u8], i: usize) -> &[u8]
    requires { 80 * i + 80 ≤ length bytes.now }
    ensures value { result.now ≡ record_at bytes.now i }
    ensures long { length result.now ≡ 80 }
{
    let start = EVENT_SIZE * i;
    &bytes[start..start + EVENT_SIZE]
}

// The message of record i of the answers as the reader hands it out, else a dash.
fn message(event: &[u8], answers: &[u8], i: usize, page: &mut Page<'_>)
    requires { (length event.now ≡ 80) × (length answers.now % 80 ≡ 0) × (80 * i + 80 ≤ length answers.now) × (page.old.end + 128 ≤ length page.old.out.now) }
    ensures { Adds 128 (message_of event.now (record_at answers.now i)) page.old page.new }
{
    if shows_message(event, record_of(answers, i)) {
        page.hex(kernel::read(answers, i));
    } else {
        page.text(b"-");
    }
}

// The line of record i of the list.
fn line(number: u64, events: &[u8], answers: &[u8], i: usize, page: &mut Page<'_>)
    requires { (80 * i + 80 ≤ length events.now) × (length answers.now % 80 ≡ 0) × (80 * i + 80 ≤ length answers.now) × (page.old.end + 318 ≤ length page.old.out.now) }
    ensures { Adds 318 (line_of number (record_at events.now i) (record_at answers.now i)) page.old page.new }
{
    let event = record_of(events, i);
    let answer = record_of(answers, i);
    who(number, answer, page);
    what(answer, page);
    how(answer, page);
    message(event, answers, i, page);
    page.text(b"\n");
}

// The lines of a list's whole records. The first event has the number `first`.
pub fn lines(first: u64, events: &[u8], answers: &[u8], page: &mut Page<'_>)
    requires { (length events.now ≤ length answers.now) × (length answers.now % 80 ≡ 0) × (page.old.end + 318 * (length events.now / 80) ≤ length page.old.out.now) × (first + length events.now / 80 ≤ 2 ^ 64) }
    ensures { Adds (318 * (length events.now / 80)) (lines_of first events.now answers.now (length events.now / 80)) page.old page.new }
{
    for i in 0..events.len() / EVENT_SIZE {
        line(first + i as u64, events, answers, i, page);
    }
}
