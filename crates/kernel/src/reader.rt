// The reader: a message is handed out as the stretch of the lent answers where it stands.
ghost use Rattle.std.specs.Prelude.{◌≡◌};
ghost use Rattle.model.specs.Answers.{is_handed};
ghost use Rattle.kernel.specs.Meets.{StretchMeets, ReadMeets};

use events::{BODY_AT, EVENT_SIZE, NO_ERROR, SIZE_AT};
use record_fields::LONGEST_MESSAGE;
use tables::word32;

// Where a stretch of the answers starts, and its length: the two numbers that C asks for one by one, 0 and 0 where nothing is handed out.
#[derive(Clone, Copy)]
pub struct Stretch {
    pub from: usize,
    pub size: usize,
}

// The record is there, its code is 0 and its length is at most 64.
fn is_handed(answers: &[u8], number: usize) -> bool
    ensures { result ≡ is_handed answers.now number }
{
    answers.len() % EVENT_SIZE == 0
        && number < answers.len() / EVENT_SIZE
        && answers[EVENT_SIZE * number] == NO_ERROR
        && word32(answers, EVENT_SIZE * number + SIZE_AT) <= LONGEST_MESSAGE
}

// Bytes 16 up to 16 plus length of the record asked for, or the empty stretch at the start. What may not change: `StretchMeets` gives that stretch,
// and no None, where nothing is handed out.
pub fn place(answers: &[u8], number: usize) -> Stretch
    ensures { StretchMeets answers.now number result }
{
    if !is_handed(answers, number) {
        return Stretch { from: 0, size: 0 };
    }
    Stretch {
        from: EVENT_SIZE * number + BODY_AT,
        size: word32(answers, EVENT_SIZE * number + SIZE_AT) as usize,
    }
}

// The stretch itself, as a part of the caller's answers.
pub fn read(answers: &[u8], number: usize) -> &[u8]
    ensures { ReadMeets answers.now number result.now }
{
    let found = place(answers, number);
    let from = found.from;
    let end = from + found.size;
    &answers[from..end]
}
