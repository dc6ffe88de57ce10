// A state into a host's byte buffer and out of it: each of its numbers low byte first, in the order of the struct.
#![tactic(auto)]

ghost use Rattle.std.specs.Prelude.{◌≡◌, ◌+◌, ◌*◌, ◌≤◌, length};
ghost use Rattle.model.specs.Words.{bytes32};
ghost use Rattle.stores.specs.Ring.{pasted};
ghost use Rattle.state_buffer.specs.Layout.{state_size, numbers_from, bytes_of_all, state_of, bytes_of};

use ports::{ALL_BYTES, ALL_NUMBERS, lay};
use states::{PARTITIONS, State};
use tables::word32;

// How many bytes a state has, and where its parts stand.
pub const STATE_SIZE: usize = 36120;

const WINDOW_AT: usize = 0;

const TIME_AT: usize = 4;

const MODES_AT: usize = 8;

const NUMBERS_AT: usize = 24;

const BYTES_AT: usize = 3352;

// The numbers that stand from a place on, as many as are asked for.
fn read_numbers(b: &[u8], at: usize, out: &mut [u32])
    requires { at + 4 * length out.old ≤ length b.now }
    ensures { out.new ≡ numbers_from b.now (length out.old) at }
{
    for (i, n) in out.iter_mut().enumerate() {
        *n = word32(b, at + 4 * i);
    }
}

// Each part read by itself: a state of zeros that is then filled took a run 36 KB of stack more, the size of a state.
pub fn state_of(b: &[u8]) -> State
    requires { length b.now ≡ state_size }
    ensures { result ≡ state_of b.now }
{
    let mut modes = [0; PARTITIONS];
    let mut numbers = [0; ALL_NUMBERS];
    let mut bytes = [0; ALL_BYTES];
    modes.copy_from_slice(&b[MODES_AT..NUMBERS_AT]);
    read_numbers(b, NUMBERS_AT, &mut numbers);
    bytes.copy_from_slice(&b[BYTES_AT..]);
    State {
        window: word32(b, WINDOW_AT),
        time: word32(b, TIME_AT),
        modes,
        numbers,
        bytes,
    }
}

// One number, low byte first.
fn lay_number(out: &mut [u8], at: usize, n: u32)
    requires { at + 4 ≤ length out.old }
    ensures { out.new ≡ pasted out.old at (bytes32 n) }
{
    lay(out, at, &n.to_le_bytes());
}

fn lay_numbers(out: &mut [u8], at: usize, numbers: &[u32])
    requires { at + 4 * length numbers.now ≤ length out.old }
    ensures { out.new ≡ pasted out.old at (bytes_of_all numbers.now) }
{
    for (i, n) in numbers.iter().enumerate() {
        lay_number(out, at + 4 * i, *n);
    }
}

pub fn lay_state(state: State, out: &mut [u8])
    requires { length out.old ≡ state_size }
    ensures { out.new ≡ bytes_of state }
{
    lay_number(out, WINDOW_AT, state.window);
    lay_number(out, TIME_AT, state.time);
    lay(out, MODES_AT, &state.modes);
    lay_numbers(out, NUMBERS_AT, &state.numbers);
    lay(out, BYTES_AT, &state.bytes);
}
