// A state as the caller keeps it: plain numbers, handed in and handed back by value. The state at load, and the state of zeros.
#![tactic(auto)]

ghost use Rattle.std.specs.Prelude.{◌≡◌};
ghost use Rattle.states.specs.Shown.{at_load, all_zero};

use events::COLD_START;
use ports::{ALL_BYTES, ALL_NUMBERS};

// How many partitions there are.
pub const PARTITIONS: usize = 16;

// 01, "State and clock". The fields are flat numbers and bytes in the order of a host's buffer (`bytes_of`, include/mueanphrai.h).
// Test 29 looks at every number of which a range is said here; of port rows only at those of the tables' ports.
#[derive(Clone, Copy)]
pub struct State {
    // the current window, 0 up to the tables' number of windows
    pub window: u32,
    // the tick count, any number: it returns to 0 after 4,294,967,295
    pub time: u32,
    // the mode of each partition: IDLE 0, COLD_START 1, WARM_START 2, NORMAL 3
    pub modes: [u8; PARTITIONS],
    // thirteen numbers for each of 64 port rows:
    //     0 created mark, 0 or 1
    //     1 validity of the last read, 0 or 1
    //     2 arrival time, any number
    //     3 slot of the oldest message, 0..7
    //     4 stored count, up to the depth, or 1 for sampling; 0 in an uncreated port
    //     5..12 stored length in each of the eight slots, 1 to the row's largest where a message is stored
    pub numbers: [u32; ALL_NUMBERS],
    // for each of 64 port rows the message bytes, eight slots of 64, any numbers
    pub bytes: [u8; ALL_BYTES],
}

// At load: window 0, time 0, each partition COLD_START, no port created, all stores empty.
#[tactic(auto, unfolding(crate::specs::Shown::at_load, crate::specs::Shown::all_zero))]
pub fn loaded() -> State
    ensures { result ≡ at_load }
{
    State {
        modes: [COLD_START; PARTITIONS],
        ..zero()
    }
}

// The state of zeros, of which the state at load is made. A refused load gives no state.
#[tactic(auto, unfolding(crate::specs::Shown::all_zero))]
pub fn zero() -> State
    ensures { result ≡ all_zero }
{
    State {
        window: 0,
        time: 0,
        modes: [0; PARTITIONS],
        numbers: [0; ALL_NUMBERS],
        bytes: [0; ALL_BYTES],
    }
}
