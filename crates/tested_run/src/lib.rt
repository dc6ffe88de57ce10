// A list of whole records under tables and a state that are tested here: test 29, and the list carried out over copies of the state's modes and ports.
#![tactic(auto)]

ghost use Rattle.std.specs.Prelude.{◌≡◌, true, ◌≤◌, ◌%◌, length};
ghost use Rattle.model.specs.Load.{accepts};
ghost use Rattle.states.specs.Shown.{state_fits, is_sound};
ghost use Rattle.tested_run.specs.Carried.{CarriedOut};

use event_list::run_events;
use events::Clock;
use ports::Ports;
use settled_form::put_together;
use states::State;
use tables::Tables;

pub fn is_accepted(t: &[u8]) -> bool
    ensures { result ≡ accepts t.now }
{
    loader::judge(t).is_ok()
}

// The state's numbers are in their ranges, for accepted tables.
pub fn state_fits(tables: Tables, state: State) -> bool
    requires { accepts tables.bytes.now ≡ true }
    ensures { result ≡ state_fits tables.entry.bytes.now state }
{
    // what is looked at is copied: where fields of the state are lent, the whole of it is copied at the call
    let modes = state.modes;
    let numbers = state.numbers;
    state_test::in_range(tables, state.window, &modes, &numbers)
}

#[tactic(auto, unfolding(states::specs::Shown::is_sound))]
pub fn sound(t: &[u8], state: State) -> bool
    ensures { result ≡ is_sound t.now state }
{
    is_accepted(t) && state_fits(Tables::of(t), state)
}

// The events, over copies of the state's modes and ports, and the state put together in settled form.
pub fn run_list(tables: Tables, state: State, events: &[u8], answers: &mut [u8]) -> State
    requires sound { (accepts tables.bytes.now ≡ true) × (state_fits tables.bytes.now state ≡ true) }
    requires events_len { (length events.now % 80 ≡ 0) × (length events.now ≤ length answers.old) }
    ensures { CarriedOut tables.entry.bytes.now state events.now answers.old result answers.new }
{
    let State {
        window,
        time,
        mut modes,
        numbers,
        bytes,
    } = state;
    let mut ports = Ports { numbers, bytes };
    let mut settled = ports;
    let clock = Clock {
        window: window as usize,
        time,
    };
    let last = run_events(tables, clock, &mut modes, &mut ports, events, answers);
    put_together(
        &ports.numbers,
        &ports.bytes,
        tables.ports,
        &mut settled.numbers,
        &mut settled.bytes,
    );
    let Ports { numbers, bytes } = settled;
    State {
        window: last.window as u32,
        time: last.time,
        modes,
        numbers,
        bytes,
    }
}
