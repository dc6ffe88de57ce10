// What a record's byte 0 is taken for: in the model any byte but 1 and 2 counts as a channel, and 21 refuses what is none.
ghost use Rattle.std.specs.Prelude.{◌≡◌};
ghost use Rattle.tables.specs.Shown.{kind_of};

use super::{PORT_KIND, RecordKind, WINDOW_KIND};

impl From<u8> for RecordKind {
    ghost from_gives = { λ byte kind. kind ≡ kind_of byte };

    fn from(byte: u8) -> RecordKind {
        match byte {
            WINDOW_KIND => RecordKind::Window,
            PORT_KIND => RecordKind::Port,
            _ => RecordKind::Channel,
        }
    }
}
