// A turn: the text of at most 400 records, and the state after them.
ghost use Rattle.std.specs.Prelude.{◌+◌, ◌%◌, ◌^◌, ◌≤◌, ◌≡◌, true, length};
ghost use Rattle.model.specs.Run.{after_all, events_of};
ghost use Rattle.states.specs.Shown.{shown_state, is_sound};
ghost use Rattle.runner_text.specs.Output.{lines_from};
ghost use Rattle.runner_text.specs.Turned.{TurnMeets};
ghost use Rattle.runner_text.specs.Wrote.{Adds};

use super::page::Page;
use super::records::lines;
use super::refusals::torn;
use events::EVENT_SIZE;
use states::State;

// At most so many events are held at a time, and so many bytes of events and of answers; the text of a turn is no longer than this.
pub const TURN: u64 = 400;

pub const TURN_SIZE: usize = 32_000;

pub const TURN_TEXT: usize = 127_218;

// What a turn leaves: the state, and where its text ends.
#[derive(Clone, Copy)]
pub struct Turned {
    pub state: State,
    pub end: usize,
}

// Runs whole records, the first of them with the number `first`, and writes their lines. That tables and state fit stays a clause, as it ties two values. A state that the kernel gave is not refused.
fn answer_events(t: &[u8], state: State, first: u64, events: &[u8], page: &mut Page<'_>) -> State
    requires { (is_sound t.now state ≡ true) × (length events.now % 80 ≡ 0) × (length events.now ≤ 32000) × (first + 400 ≤ 2 ^ 64) × (page.old.end + 127200 ≤ length page.old.out.now) }
    ensures wrote { Adds 127200 (lines_from t.now (shown_state t.now state) first events.now) page.old page.new }
    ensures after { shown_state t.now result ≡ after_all t.now (shown_state t.now state) (events_of events.now) }
    ensures sound { is_sound t.now result ≡ true }
{
    let mut answers = [0u8; TURN_SIZE];
    let after = kernel::run(t, state, events, &mut answers).unwrap();
    lines(first, events, &answers, page);
    after
}

// The text of what was read: the lines of its whole records, and after them what is told of a broken tail. The state handed back passes test 29
// again, so that the next turn can start from it.
pub fn turn_text(t: &[u8], state: State, first: u64, read: &[u8], out: &mut [u8]) -> Turned
    requires { (is_sound t.now state ≡ true) × (length read.now ≤ 32000) × (first + 400 ≤ 2 ^ 64) × (127218 ≤ length out.old) }
    ensures { TurnMeets t.now state first read.now out.old result out.new }
{
    let tail = read.len() % EVENT_SIZE;
    let whole = read.len() - tail;
    let mut page = Page { out, end: 0 };
    let after = answer_events(t, state, first, &read[..whole], &mut page);
    torn(tail, &mut page);
    Turned {
        state: after,
        end: page.end,
    }
}
