// What an event asks for.
ghost use Rattle.std.specs.Prelude.{◌≡◌, length};

use super::codes::Code;

// A call: its fields, and its event, of which message and name are read where they stand.
#[derive(Clone, Copy)]
pub struct Call<'a> {
    pub code: Code,
    // byte 1: direction or new mode
    pub choice: u8,
    // 2-3: port id
    pub id: u32,
    // 4-7: refresh or depth
    pub number: u32,
    // 8-11: message length or largest message
    pub size: u32,
    pub event: &'a [u8],
    pub ghost whole: { length event.now ≡ 80 },
}

// An event is a clock step, a partition's call, a move of a channel, or a record of no known code.
#[derive(Clone, Copy)]
pub enum Asked<'a> {
    Clock,
    Call(Call<'a>),
    Move(u32),
    Unknown,
}
