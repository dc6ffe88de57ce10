// What a program in C or Rust links: each call of `host` under its own name, with the same contract.
#![tactic(auto)]

ghost use Rattle.std.specs.Prelude.{◌≡◌};
ghost use Rattle.state_buffer.specs.Layout.{state_size};
ghost use Rattle.host.specs.Exports.{HostLoad, HostRecord, HostTest, HostRun, HostStep, HostStart, HostLength};

#[unsafe(no_mangle)]
pub extern "C" fn mueanphrai_state_size() -> usize
    ensures { result ≡ state_size }
{
    host::mueanphrai_state_size()
}

#[unsafe(no_mangle)]
pub extern "C" fn mueanphrai_load(tables: &[u8], state: &mut [u8]) -> u8
    ensures { HostLoad tables.now state.old result state.new }
{
    host::mueanphrai_load(tables, state)
}

#[unsafe(no_mangle)]
pub extern "C" fn mueanphrai_refused_record(tables: &[u8]) -> usize
    ensures { HostRecord tables.now result }
{
    host::mueanphrai_refused_record(tables)
}

#[unsafe(no_mangle)]
pub extern "C" fn mueanphrai_in_range(tables: &[u8], state: &[u8]) -> u8
    ensures { HostTest tables.now state.now result }
{
    host::mueanphrai_in_range(tables, state)
}

#[unsafe(no_mangle)]
pub extern "C" fn mueanphrai_run(
    tables: &[u8],
    state: &mut [u8],
    events: &[u8],
    answers: &mut [u8],
) -> u8
    ensures { HostRun tables.now state.old events.now answers.old result state.new answers.new }
{
    host::mueanphrai_run(tables, state, events, answers)
}

#[unsafe(no_mangle)]
pub extern "C" fn mueanphrai_step(
    tables: &[u8],
    state: &mut [u8],
    event: &[u8],
    answers: &mut [u8],
) -> u8
    ensures { HostStep tables.now state.old event.now answers.old result state.new answers.new }
{
    host::mueanphrai_step(tables, state, event, answers)
}

#[unsafe(no_mangle)]
pub extern "C" fn mueanphrai_message_start(answers: &[u8], number: usize) -> usize
    ensures { HostStart answers.now number result }
{
    host::mueanphrai_message_start(answers, number)
}

#[unsafe(no_mangle)]
pub extern "C" fn mueanphrai_message_length(answers: &[u8], number: usize) -> usize
    ensures { HostLength answers.now number result }
{
    host::mueanphrai_message_length(answers, number)
}
