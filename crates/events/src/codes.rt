// The codes, their constant table, and the decoder of events.
ghost use Rattle.std.specs.Prelude.{◌≡◌, ◌||◌, length, ◌==◌};
ghost use Rattle.model.specs.Events.{need, either, decode};
ghost use Rattle.events.specs.Shown.{number_of, Decodes, need_of, asked_of, IsOf};

use super::calls::{Asked, Call};
use tables::{DESTINATION, QUEUING, SAMPLING, SOURCE, word16, word32};

// An event's size in bytes, and an answer's.
pub const EVENT_SIZE: usize = 80;

// Where an event's fields stand, and its message or name.
const CODE_AT: usize = 0;

const CHOICE_AT: usize = 1;

const ID_AT: usize = 2;

const NUMBER_AT: usize = 4;

pub const SIZE_AT: usize = 8;

pub const BODY_AT: usize = 16;

// Partition modes. They stay bytes: an event and a state may hold any, and what may not change is that `set_mode` and the test of a state
// answer those above 3 too.
pub const IDLE: u8 = 0;

pub const COLD_START: u8 = 1;

pub const WARM_START: u8 = 2;

pub const NORMAL: u8 = 3;

// Doers other than the partitions: the scheduler, channel 0, nobody. They stay bytes: what may not change is that `refusal` and `done`
// answer for any.
pub const SCHEDULER: u8 = 32;

pub const FIRST_CHANNEL: u8 = 64;

pub const NOBODY: u8 = 255;

// The codes, by 01's names.
#[derive(Clone, Copy, Debug, PartialEq, Eq)]
pub enum Code {
    CreateSamplingPort = 1,
    WriteSamplingMessage = 2,
    ReadSamplingMessage = 3,
    GetSamplingPortId = 4,
    GetSamplingPortStatus = 5,
    CreateQueuingPort = 6,
    SendQueuingMessage = 7,
    ReceiveQueuingMessage = 8,
    GetQueuingPortId = 9,
    GetQueuingPortStatus = 10,
    ClearQueuingPort = 11,
    SetPartitionMode = 12,
    Schedule = 13,
    Transmit = 14,
}

// A byte that is no code.
#[derive(Clone, Copy, Debug, PartialEq, Eq)]
pub struct NoSuchCode(pub u8);

impl TryFrom<u8> for Code {
    type Error = NoSuchCode;

    ghost try_from_gives = { Decodes };

    // the numbers stand here once more, since no `as` leads from a number to an enum; `Decodes` ties them to the codes
    fn try_from(code: u8) -> Result<Self, NoSuchCode> {
        match code {
            1 => Ok(Code::CreateSamplingPort),
            2 => Ok(Code::WriteSamplingMessage),
            3 => Ok(Code::ReadSamplingMessage),
            4 => Ok(Code::GetSamplingPortId),
            5 => Ok(Code::GetSamplingPortStatus),
            6 => Ok(Code::CreateQueuingPort),
            7 => Ok(Code::SendQueuingMessage),
            8 => Ok(Code::ReceiveQueuingMessage),
            9 => Ok(Code::GetQueuingPortId),
            10 => Ok(Code::GetQueuingPortStatus),
            11 => Ok(Code::ClearQueuingPort),
            12 => Ok(Code::SetPartitionMode),
            13 => Ok(Code::Schedule),
            14 => Ok(Code::Transmit),
            _ => Err(NoSuchCode(code)),
        }
    }
}

// Who may do what a code asks for.
#[derive(Clone, Copy, Debug, PartialEq, Eq)]
pub enum Caller {
    Partition,
    Scheduler,
    Mover,
}

// What a code needs: the port's mode (0 sampling, 1 queuing, 2 either), its direction (0 source, 1 destination, 2 either), and who may do
// it. Mode and direction stay numbers: what may not change is that `is_mode` and `look_up` take any number for a mode, and that a port's
// row holds any byte for a direction.
#[derive(Clone, Copy)]
pub struct CodeRow {
    pub mode: u8,
    pub direction: u8,
    pub caller: Caller,
}

pub const EITHER: u8 = 2;

// The one table: a row for each code, in their order.
const CODES: [CodeRow; 14] = [
    // 1 CREATE_SAMPLING_PORT
    CodeRow {
        mode: SAMPLING,
        direction: EITHER,
        caller: Caller::Partition,
    },
    // 2 WRITE_SAMPLING_MESSAGE
    CodeRow {
        mode: SAMPLING,
        direction: SOURCE,
        caller: Caller::Partition,
    },
    // 3 READ_SAMPLING_MESSAGE
    CodeRow {
        mode: SAMPLING,
        direction: DESTINATION,
        caller: Caller::Partition,
    },
    // 4 GET_SAMPLING_PORT_ID
    CodeRow {
        mode: SAMPLING,
        direction: EITHER,
        caller: Caller::Partition,
    },
    // 5 GET_SAMPLING_PORT_STATUS
    CodeRow {
        mode: SAMPLING,
        direction: EITHER,
        caller: Caller::Partition,
    },
    // 6 CREATE_QUEUING_PORT
    CodeRow {
        mode: QUEUING,
        direction: EITHER,
        caller: Caller::Partition,
    },
    // 7 SEND_QUEUING_MESSAGE
    CodeRow {
        mode: QUEUING,
        direction: SOURCE,
        caller: Caller::Partition,
    },
    // 8 RECEIVE_QUEUING_MESSAGE
    CodeRow {
        mode: QUEUING,
        direction: DESTINATION,
        caller: Caller::Partition,
    },
    // 9 GET_QUEUING_PORT_ID
    CodeRow {
        mode: QUEUING,
        direction: EITHER,
        caller: Caller::Partition,
    },
    // 10 GET_QUEUING_PORT_STATUS
    CodeRow {
        mode: QUEUING,
        direction: EITHER,
        caller: Caller::Partition,
    },
    // 11 CLEAR_QUEUING_PORT
    CodeRow {
        mode: QUEUING,
        direction: DESTINATION,
        caller: Caller::Partition,
    },
    // 12 SET_PARTITION_MODE
    CodeRow {
        mode: EITHER,
        direction: EITHER,
        caller: Caller::Partition,
    },
    // 13 SCHEDULE
    CodeRow {
        mode: EITHER,
        direction: EITHER,
        caller: Caller::Scheduler,
    },
    // 14 TRANSMIT
    CodeRow {
        mode: EITHER,
        direction: EITHER,
        caller: Caller::Mover,
    },
];

// The code's row.
pub fn need(code: Code) -> CodeRow
    ensures { need_of result ≡ need (number_of code) }
{
    CODES[code as usize - 1]
}

// A port of this direction will do for the code.
pub fn directed(code: Code, direction: u8) -> bool
    ensures { result ≡ ((need (number_of code)).direction == either || direction == (need (number_of code)).direction) }
{
    let row = need(code);
    row.direction == EITHER || direction == row.direction
}

// What an event asks for. Past this a step reads no byte of the event but name and message.
pub fn decode(event: &[u8]) -> Asked
    requires { length event.now ≡ 80 }
    ensures asked { asked_of result ≡ decode event.now }
    ensures event { IsOf event.now result }
{
    let Ok(code) = Code::try_from(event[CODE_AT]) else {
        return Asked::Unknown;
    };
    match need(code).caller {
        Caller::Partition => Asked::Call(Call {
            code,
            choice: event[CHOICE_AT],
            id: word16(event, ID_AT),
            number: word32(event, NUMBER_AT),
            size: word32(event, SIZE_AT),
            event,
        }),
        Caller::Scheduler => Asked::Clock,
        Caller::Mover => Asked::Move(word16(event, ID_AT)),
    }
}
