// The clock and the age of a sample: wrapping sums of 32 bits.
ghost use Rattle.std.specs.Prelude.{◌≡◌, ◌+◌};
ghost use Rattle.model.specs.State.{age, wrap};

#[derive(Clone, Copy)]
pub struct Clock {
    pub window: usize,
    pub time: u32,
}

// Time grows by a window's length, and returns to 0 after 4,294,967,295.
pub fn later(time: u32, length: u32) -> u32
    ensures { result ≡ wrap (time + length) }
{
    time.wrapping_add(length)
}

// Time minus arrival, modulo 2^32.
pub fn age(time: u32, arrival: u32) -> u32
    ensures { result ≡ age time arrival }
{
    time.wrapping_sub(arrival)
}
