// The public calls: load, the state test, step, run, and the reader of answers. None asks anything of its caller; each does its own checking, and
// its contract is one predicate of specs/Meets.antt for every input. Everything below this crate is internal.
#![tactic(auto)]

ghost use Rattle.std.specs.Prelude.{◌≡◌, true, ◌%◌, length};
ghost use Rattle.model.specs.Run.{list_fault};
ghost use Rattle.states.specs.Shown.{is_sound};
ghost use Rattle.kernel.specs.Meets.{LoadMeets, TestMeets, ListMeets, RunMeets, StepMeets};

mod reader;
mod refusal;

use events::EVENT_SIZE;
use loader::Refused;
pub use reader::{place, read};
pub use refusal::ListRefusal;
use states::State;
use tables::Tables;

// The state at load, or why tables are refused.
pub fn load(t: &[u8]) -> Result<State, Refused>
    ensures { LoadMeets t.now result }
{
    loader::judge(t)?;
    Ok(states::loaded())
}

// Test 29: the tables are accepted, and the state's numbers are in their ranges.
pub fn in_range(t: &[u8], state: State) -> bool
    ensures { TestMeets t.now state result }
{
    tested_run::sound(t, state)
}

// A list of whole records: 28, 29, then the list. An empty list is run and does nothing. The loader counts the records of each kind for its verdict; here they are counted
// once more, and handed down.
fn carry_out(
    t: &[u8],
    state: State,
    events: &[u8],
    answers: &mut [u8],
) -> Result<State, ListRefusal>
    requires { length events.now % 80 ≡ 0 }
    ensures { ListMeets (list_fault true events.now answers.old (is_sound t.now state)) t.now state events.now answers.old result answers.new }
{
    if answers.len() < events.len() {
        return Err(ListRefusal::AnswersShort);
    }
    if !tested_run::is_accepted(t) {
        return Err(ListRefusal::StateRefused);
    }
    let tables = Tables::of(t);
    if !tested_run::state_fits(tables, state) {
        return Err(ListRefusal::StateRefused);
    }
    if events.is_empty() {
        return Ok(state);
    }
    Ok(tested_run::run_list(tables, state, events, answers))
}

// A list of events, each 80 bytes, answered in order: the state after them.
pub fn run(t: &[u8], state: State, events: &[u8], answers: &mut [u8]) -> Result<State, ListRefusal>
    ensures { RunMeets t.now state events.now answers.old result answers.new }
{
    if events.len() % EVENT_SIZE != 0 {
        return Err(ListRefusal::EventsLength);
    }
    carry_out(t, state, events, answers)
}

// One event of exactly 80 bytes. A run and a step differ in the test of the length, and share the rest in `carry_out`.
pub fn step(t: &[u8], state: State, event: &[u8], answers: &mut [u8]) -> Result<State, ListRefusal>
    ensures { StepMeets t.now state event.now answers.old result answers.new }
{
    if event.len() != EVENT_SIZE {
        return Err(ListRefusal::EventsLength);
    }
    carry_out(t, state, event, answers)
}
