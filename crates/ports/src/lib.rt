// The ports of a state: thirteen numbers and 512 message bytes for each, and the store of one of them taken out by value and put back.
#![tactic(auto)]

ghost use Rattle.std.specs.Prelude.{◌≡◌, ◌+◌, ◌≤◌, ◌<◌, [], ◌∷◌, length, get_or, set};
ghost use Rattle.ports.specs.Held.{row_of, store_at, port_at, RowPut, PortPut};
ghost use Rattle.model.specs.State.{with_queue};
ghost use Rattle.stores.specs.Ring.{pasted, queue_of, written};

use stores::{BLOCK_SIZE, Letter, SLOTS, Store};

// The numbers of one port and of all 64, and the message bytes of all.
pub const ROW_SIZE: usize = 13;

pub const ALL_NUMBERS: usize = 832;

pub const ALL_BYTES: usize = 32768;

// The numbers of a port row, by their places.
pub const CREATED: usize = 0;

pub const VALIDITY: usize = 1;

pub const ARRIVAL: usize = 2;

pub const OLDEST: usize = 3;

pub const COUNT: usize = 4;

// the first of the lengths in the eight slots
pub const LENGTHS: usize = 5;

// One of the thirteen numbers of port k.
pub fn number(numbers: &[u32], k: usize, j: usize) -> u32
    requires { (length numbers.now ≡ 832) × (k < 64) × (j < 13) }
    ensures { result ≡ get_or (row_of numbers.now k) j 0 }
{
    numbers[ROW_SIZE * k + j]
}

pub fn set_number(numbers: &mut [u32], k: usize, j: usize, v: u32)
    requires { (length numbers.old ≡ 832) × (k < 64) × (j < 13) }
    ensures { RowPut numbers.old numbers.new k (set (row_of numbers.old k) j v) }
{
    numbers[ROW_SIZE * k + j] = v;
}

// The store of port k, taken out by value.
pub fn take_store(numbers: &[u32], bytes: &[u8], k: usize) -> Store
    requires { (length numbers.now ≡ 832) × (length bytes.now ≡ 32768) × (k < 64) }
    ensures { result ≡ store_at numbers.now bytes.now k }
{
    let row = ROW_SIZE * k;
    let mut lengths = [0u32; SLOTS];
    lengths.copy_from_slice(&numbers[row + LENGTHS..row + ROW_SIZE]);
    let block = BLOCK_SIZE * k;
    let mut block_bytes = [0u8; BLOCK_SIZE];
    block_bytes.copy_from_slice(&bytes[block..block + BLOCK_SIZE]);
    Store {
        bytes: block_bytes,
        lengths,
        oldest: number(numbers, k, OLDEST),
        count: number(numbers, k, COUNT),
    }
}

// The store put back: port k holds its messages, and all else stays. It is lent: by value its arrays would be copied once more.
pub fn put_store(numbers: &mut [u32], bytes: &mut [u8], k: usize, st: &Store)
    requires { (length numbers.old ≡ 832) × (length bytes.old ≡ 32768) × (k < 64) }
    ensures { PortPut numbers.old bytes.old numbers.new bytes.new k (with_queue (port_at numbers.old bytes.old k) (queue_of st.now)) }
{
    set_number(numbers, k, OLDEST, st.oldest);
    set_number(numbers, k, COUNT, st.count);
    lay(numbers, ROW_SIZE * k + LENGTHS, &st.lengths);
    lay(bytes, BLOCK_SIZE * k, &st.bytes);
}

// The store of port k made to hold one letter alone, in slot 0. The letter is laid where it goes: a store made for it and put back would be written twice.
pub fn put_alone(numbers: &mut [u32], bytes: &mut [u8], k: usize, letter: &Letter)
    requires { (length numbers.old ≡ 832) × (length bytes.old ≡ 32768) × (k < 64) }
    ensures { PortPut numbers.old bytes.old numbers.new bytes.new k (with_queue (port_at numbers.old bytes.old k) (written letter.now ∷ [])) }
{
    set_number(numbers, k, OLDEST, 0);
    set_number(numbers, k, COUNT, 1);
    set_number(numbers, k, LENGTHS, letter.size);
    lay(bytes, BLOCK_SIZE * k, &letter.bytes);
}

// The ports of a state, lent as one. Numbers and bytes of each port stand in two flat arrays, as in a host's buffer. A port's number below 64 is asked for where it is used: a type for it would be made at each look-up, no plainer.
#[derive(Clone, Copy)]
pub struct Ports {
    // thirteen numbers for each of 64 ports
    pub numbers: [u32; ALL_NUMBERS],
    // for each of them eight slots of 64 message bytes
    pub bytes: [u8; ALL_BYTES],
}

// What the functions above do of two arrays, done of the two as one.
impl Ports {
    pub fn number(&self, k: usize, j: usize) -> u32
        requires { (k < 64) × (j < 13) }
        ensures { result ≡ get_or (row_of self.now.numbers k) j 0 }
    {
        number(&self.numbers, k, j)
    }

    pub fn set_number(&mut self, k: usize, j: usize, v: u32)
        requires { (k < 64) × (j < 13) }
        ensures row { RowPut self.old.numbers self.new.numbers k (set (row_of self.old.numbers k) j v) }
        ensures bytes { self.new.bytes ≡ self.old.bytes }
    {
        set_number(&mut self.numbers, k, j, v);
    }

    pub fn take_store(&self, k: usize) -> Store
        requires { k < 64 }
        ensures { result ≡ store_at self.now.numbers self.now.bytes k }
    {
        take_store(&self.numbers, &self.bytes, k)
    }

    pub fn put_store(&mut self, k: usize, st: &Store)
        requires { k < 64 }
        ensures { PortPut self.old.numbers self.old.bytes self.new.numbers self.new.bytes k (with_queue (port_at self.old.numbers self.old.bytes k) (queue_of st.now)) }
    {
        put_store(&mut self.numbers, &mut self.bytes, k, st);
    }

    pub fn put_alone(&mut self, k: usize, letter: &Letter)
        requires { k < 64 }
        ensures { PortPut self.old.numbers self.old.bytes self.new.numbers self.new.bytes k (with_queue (port_at self.old.numbers self.old.bytes k) (written letter.now ∷ [])) }
    {
        put_alone(&mut self.numbers, &mut self.bytes, k, letter);
    }
}

// Elements copied over those that stand from `at` on. A host lays a buffer with it too.
pub fn lay<T: Copy>(to: &mut [T], at: usize, part: &[T])
    requires { at + length part.now ≤ length to.old }
    ensures { to.new ≡ pasted to.old at part.now }
{
    to[at..at + part.len()].copy_from_slice(part);
}
