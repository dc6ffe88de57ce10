// The return codes, byte 0 of an answer.

// The return code that refuses nothing. It stays a byte: what may not change is that the reader and the runner's lines are told of any
// bytes (`is_handed`, `shows_message`), of which they compare the first.
pub const NO_ERROR: u8 = 0;

// The other return codes: five of the services, and five that are answered before any service. Those are: the caller is in IDLE; a
// partition's call in a mover window; a move in a partition's window; a move of no channel; no known code.
#[derive(Clone, Copy, Debug, PartialEq, Eq)]
pub enum Refusal {
    NoAction = 1,
    NotAvailable = 2,
    InvalidParam = 3,
    InvalidConfig = 4,
    InvalidMode = 5,
    CallerIdle = 15,
    CallInMoverWindow = 16,
    MoveInPartitionWindow = 17,
    NoChannel = 18,
    UnknownCode = 19,
}
