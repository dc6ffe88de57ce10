// A state put together: each port's numbers and messages laid into the arrays of a State, in settled form.
#![tactic(auto)]

ghost use Rattle.std.specs.Prelude.{◌≡◌, ◌+◌, length};
ghost use Rattle.settled_form.specs.Settled.{Stored, PortLaid, PutTogether};

use ports::{ARRIVAL, CREATED, LENGTHS, ROW_SIZE, VALIDITY, lay, number};
use stores::BLOCK_SIZE;

// Port k, in settled form, in the same row and block of the other arrays.
fn put_port(numbers: &[u32], bytes: &[u8], k: usize, out_numbers: &mut [u32], out_bytes: &mut [u8])
    requires lent { (length numbers.now ≡ 832) × (length bytes.now ≡ 32768) }
    requires out_numbers_len { (length out_numbers.old ≡ 832) × (length out_bytes.old ≡ 32768) }
    requires stored { Stored numbers.now bytes.now (k + 1) }
    ensures { PortLaid numbers.now bytes.now k out_numbers.old out_bytes.old out_numbers.new out_bytes.new }
{
    let held = ports::take_store(numbers, bytes, k);
    let st = held.settled();
    let first = [
        number(numbers, k, CREATED),
        number(numbers, k, VALIDITY),
        number(numbers, k, ARRIVAL),
        st.oldest,
        st.count,
    ];
    lay(out_numbers, ROW_SIZE * k, &first);
    lay(out_numbers, ROW_SIZE * k + LENGTHS, &st.lengths);
    lay(out_bytes, BLOCK_SIZE * k, &st.bytes);
}

// The first n ports in settled form: the oldest message in slot 0, zeros wherever no message stands. The other rows stay, since those
// beyond the tables' ports come back as they came.
pub fn put_together(
    numbers: &[u32],
    bytes: &[u8],
    n: usize,
    out_numbers: &mut [u32],
    out_bytes: &mut [u8],
)
    requires lent { (length numbers.now ≡ 832) × (length bytes.now ≡ 32768) }
    requires out_numbers_len { (length out_numbers.old ≡ 832) × (length out_bytes.old ≡ 32768) }
    requires stored { Stored numbers.now bytes.now n }
    ensures { PutTogether numbers.now bytes.now n out_numbers.old out_bytes.old out_numbers.new out_bytes.new }
{
    for k in 0..n {
        put_port(numbers, bytes, k, out_numbers, out_bytes);
    }
}
