// What an event asks for, what an answer says, and the clock: the parts of a step that touch no port.
#![tactic(auto)]

mod answers;
mod calls;
mod clock;
mod codes;
mod return_codes;

pub use answers::{Answer, MESSAGE_SIZE, done, lay_answer, refusal, refused, told_id, told_number};
pub use calls::{Asked, Call};
pub use clock::{Clock, age, later};
pub use codes::{
    BODY_AT, COLD_START, Caller, Code, CodeRow, EVENT_SIZE, FIRST_CHANNEL, IDLE, NOBODY, NORMAL,
    NoSuchCode, SCHEDULER, SIZE_AT, WARM_START, decode, directed, need,
};
pub use return_codes::{NO_ERROR, Refusal};
