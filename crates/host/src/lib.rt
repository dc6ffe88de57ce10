// The kernel's public calls for other languages, over numbers and byte slices; `host_c` exports each of them. A state crosses as a buffer
// of one size whose layout the crate `state_buffer` fixes; a buffer of another size is refused 29. include/mueanphrai.h tells the callers
// the same. What the kernel answers by enums is told as numbers, and 0 for what is not refused, since C calls these; a run and a step each call the
// kernel in a line of their own, which one function that takes the call would not make plainer. Null pointers and buffers that overlap cannot be
// tested here: the header says what a caller owes.
#![tactic(auto)]

ghost use Rattle.std.specs.Prelude.{◌≡◌, false, length};
ghost use Rattle.model.specs.Run.{list_fault};
ghost use Rattle.kernel.specs.Shown.{number_of};
ghost use Rattle.state_buffer.specs.Layout.{state_size};
ghost use Rattle.host.specs.Exports.{HostLoad, HostRecord, HostTest, HostRun, HostStep, HostStart, HostLength, HandedBack};

use events::EVENT_SIZE;
use kernel::ListRefusal;
use state_buffer::STATE_SIZE;
use states::State;

pub fn mueanphrai_state_size() -> usize
    ensures { result ≡ state_size }
{
    STATE_SIZE
}

// The refusal of tables, or of a buffer that is no state's, or 0 and the state at load.
#[tactic(auto, using(std::proofs::lemmas::Bool::Decides::nat_tests), unfolding(crate::specs::Exports::load_code, model::specs::Load::accepts))]
pub fn mueanphrai_load(tables: &[u8], state: &mut [u8]) -> u8
    ensures { HostLoad tables.now state.old result state.new }
{
    match kernel::load(tables) {
        Err(refused) => refused.fault.number(),
        Ok(loaded) => {
            if state.len() != STATE_SIZE {
                return ListRefusal::StateRefused.number();
            }
            state_buffer::lay_state(loaded, state);
            0
        }
    }
}

// The first offending record of tables that a load refuses, from 0; 0 where it accepts them.
pub fn mueanphrai_refused_record(tables: &[u8]) -> usize
    ensures { HostRecord tables.now result }
{
    match kernel::load(tables) {
        Err(refused) => refused.record,
        Ok(_) => 0,
    }
}

// Test 29 as 1 or 0.
#[tactic(auto, using(crate::proofs::Calls::buffer_tests))]
pub fn mueanphrai_in_range(tables: &[u8], state: &[u8]) -> u8
    ensures { HostTest tables.now state.now result }
{
    if state.len() != STATE_SIZE {
        return 0;
    }
    u8::from(kernel::in_range(tables, state_buffer::state_of(state)))
}

// The refusal of a call whose state buffer has another size: 27 and 28 come before 29.
#[tactic(auto, using(std::proofs::lemmas::Bool::Decides::nat_tests), unfolding(model::specs::Run::list_fault))]
fn refused_size(whole: bool, events: &[u8], answers: &[u8]) -> ListRefusal
    ensures { number_of result ≡ list_fault whole events.now answers.now false }
{
    if !whole {
        return ListRefusal::EventsLength;
    }
    if answers.len() < events.len() {
        return ListRefusal::AnswersShort;
    }
    ListRefusal::StateRefused
}

// What the kernel gave, handed back: the refusal, and in the buffer the state after a list that was run and is not empty.
#[tactic(auto, using(std::proofs::lemmas::Bool::Decides::nat_tests), unfolding(crate::specs::Exports::buffer_or))]
fn hand_back(ran: Result<State, ListRefusal>, events: &[u8], state: &mut [u8]) -> u8
    requires { length state.old ≡ state_size }
    ensures { HandedBack ran events.now state.old result state.new }
{
    match ran {
        Err(refusal) => refusal.number(),
        Ok(after) => {
            if !events.is_empty() {
                state_buffer::lay_state(after, state);
            }
            0
        }
    }
}

// A list of events, each 80 bytes.
pub fn mueanphrai_run(tables: &[u8], state: &mut [u8], events: &[u8], answers: &mut [u8]) -> u8
    ensures { HostRun tables.now state.old events.now answers.old result state.new answers.new }
{
    if state.len() != STATE_SIZE {
        return refused_size(events.len() % EVENT_SIZE == 0, events, answers).number();
    }
    let ran = kernel::run(tables, state_buffer::state_of(state), events, answers);
    hand_back(ran, events, state)
}

// One event of exactly 80 bytes.
pub fn mueanphrai_step(tables: &[u8], state: &mut [u8], event: &[u8], answers: &mut [u8]) -> u8
    ensures { HostStep tables.now state.old event.now answers.old result state.new answers.new }
{
    if state.len() != STATE_SIZE {
        return refused_size(event.len() == EVENT_SIZE, event, answers).number();
    }
    let ran = kernel::step(tables, state_buffer::state_of(state), event, answers);
    hand_back(ran, event, state)
}

// Where in the answers the message of a record stands, and its length.
pub fn mueanphrai_message_start(answers: &[u8], number: usize) -> usize
    ensures { HostStart answers.now number result }
{
    kernel::place(answers, number).from
}

pub fn mueanphrai_message_length(answers: &[u8], number: usize) -> usize
    ensures { HostLength answers.now number result }
{
    kernel::place(answers, number).size
}
