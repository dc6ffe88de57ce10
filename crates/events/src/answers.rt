// What an answer says, and its 80 bytes.
ghost use Rattle.std.specs.Prelude.{◌≡◌, ◌++◌, length, take, drop};
ghost use Rattle.model.specs.Answers.{nothing_told, told_id, told_number};
ghost use Rattle.events.specs.Shown.{refusal_number, refused_as, told_as, head_bytes, answer_bytes};

use super::return_codes::{NO_ERROR, Refusal};

// The message bytes of an answer, and where they start.
pub const MESSAGE_SIZE: usize = 64;

const MESSAGE_AT: usize = 16;

// An answer as it is laid out, a refusal too. The message is an array beside its length, since the kernel has no heap, and its zeros are answered.
#[derive(Clone, Copy)]
pub struct Answer {
    pub code: u8,
    pub doer: u8,
    pub id: u32,
    pub number: u32,
    // length or largest message
    pub size: u32,
    // validity or last validity
    pub validity: u8,
    pub direction: u8,
    pub depth: u32,
    // the message, with zeros after it
    pub message: [u8; MESSAGE_SIZE],
}

// Code and doer, and zeros, whatever the code.
#[tactic(auto, unfolding(crate::specs::Shown::refused_as))]
pub fn refusal(code: u8, doer: u8) -> Answer
    ensures { result ≡ refused_as code doer }
{
    Answer {
        code,
        doer,
        id: 0,
        number: 0,
        size: 0,
        validity: 0,
        direction: 0,
        depth: 0,
        message: [0; MESSAGE_SIZE],
    }
}

// What is refused tells why, and the doer.
pub fn refused(why: Refusal, doer: u8) -> Answer
    ensures { result ≡ refused_as (refusal_number why) doer }
{
    refusal(why as u8, doer)
}

// Code 0 that tells nothing more.
#[tactic(auto, unfolding(crate::specs::Shown::refused_as, crate::specs::Shown::told_as))]
pub fn done(doer: u8) -> Answer
    ensures { result ≡ told_as doer nothing_told }
{
    refusal(NO_ERROR, doer)
}

#[tactic(auto, unfolding(crate::specs::Shown::told_as))]
pub fn told_id(doer: u8, id: u32) -> Answer
    ensures { result ≡ told_as doer (told_id id) }
{
    Answer { id, ..done(doer) }
}

#[tactic(auto, unfolding(crate::specs::Shown::told_as))]
pub fn told_number(doer: u8, number: u32) -> Answer
    ensures { result ≡ told_as doer (told_number number) }
{
    Answer {
        number,
        ..done(doer)
    }
}

// The first sixteen bytes of an answer. Of id and depth two bytes are laid.
fn lay_head(a: Answer, out: &mut [u8])
    requires { length out.old ≡ 80 }
    ensures { out.new ≡ head_bytes a ++ drop 16 out.old }
{
    out[0] = a.code;
    out[1] = a.doer;
    out[2..4].copy_from_slice(&a.id.to_le_bytes()[..2]);
    out[4..8].copy_from_slice(&a.number.to_le_bytes());
    out[8..12].copy_from_slice(&a.size.to_le_bytes());
    out[12] = a.validity;
    out[13] = a.direction;
    out[14..16].copy_from_slice(&a.depth.to_le_bytes()[..2]);
}

// The 80 bytes of an answer, laid where they go.
pub fn lay_answer(a: Answer, out: &mut [u8])
    requires { length out.old ≡ 80 }
    ensures { out.new ≡ answer_bytes a }
{
    lay_head(a, out);
    out[MESSAGE_AT..].copy_from_slice(&a.message);
}
