// Reading a file or a pipe to the end of a buffer.
#![tactic(auto)]

ghost use Rattle.std.specs.Prelude.{◌+◌, ◌^◌, ◌≤◌, ◌<◌, ◌≡◌, length, take, IfOk};
ghost use Rattle.std.specs.Io.KnownBytes.{Consumes, IsAtEnd};
ghost use Rattle.reading.specs.Came.{came as bytes_came};

use std::io;
use std::io::Read;

// A read that failed: how many bytes came before it did, and why no more.
#[derive(Drop)]
pub struct Unread {
    pub got: usize,
    pub failure: io::Error,
}

impl Unread {
    // The same failure, where so many bytes came in earlier reads.
    pub fn after(self, earlier: usize) -> Unread
        requires { earlier + self.got < 2 ^ 64 }
        ensures got { result.got ≡ earlier + self.got }
        ensures failure { result.failure ≡ self.failure }
    {
        Unread {
            got: earlier + self.got,
            failure: self.failure,
        }
    }
}

// What cannot be opened gives no byte.
impl From<io::Error> for Unread {
    ghost from_gives = { λ failure unread. (unread.got ≡ 0) × (unread.failure ≡ failure) };

    fn from(failure: io::Error) -> Unread {
        Unread { got: 0, failure }
    }
}

impl From<Unread> for io::Error {
    ghost from_gives = { λ unread failure. failure ≡ unread.failure };

    fn from(unread: Unread) -> io::Error {
        unread.failure
    }
}

// How many bytes came, where a read failed too.
pub fn came(read: Result<usize, Unread>) -> usize
    ensures { result ≡ bytes_came read }
{
    match read {
        Ok(got) => got,
        Err(unread) => unread.got,
    }
}

// Reads until the buffer is full, the input ends or a read fails, and answers how many bytes came. A read that gives less than there is room for is
// no end. The loop counts no index: each read says how many bytes came.
pub fn read_full<R: Read>(input: &mut R, buffer: &mut [u8]) -> Result<usize, Unread>
    ensures within { bytes_came result ≤ length buffer.new }
    ensures bytes { Consumes (R.remaining input.old) (R.remaining input.new) (take (bytes_came result) buffer.new) }
    ensures end { IfOk result (λ got. got < length buffer.new → IsAtEnd (R.remaining input.new)) }
{
    let mut got = 0;
    while got < buffer.len() {
        match input.read(&mut buffer[got..]) {
            Ok(0) => break,
            Ok(more) => got += more,
            Err(failure) => return Err(Unread { got, failure }),
        }
    }
    Ok(got)
}
