// The runner's text, over slices: 01, "The runner". What is written goes on a `Page`, lent bytes and the end of the text in them. Nothing here
// reads or writes a file.
#![tactic(auto)]

mod page;
mod records;
mod refusals;
mod turn;

ghost use Rattle.std.specs.Prelude.{◌≤◌, ◌≡◌};
ghost use Rattle.runner_text.specs.Text.{loaded_length};

pub use refusals::tables_refused;
use tables::RECORD_SIZE;
pub use turn::{TURN, TURN_SIZE, TURN_TEXT, turn_text};

// Of a longer tables.bin only so many bytes, 161 records, and the length are used.
pub const MOST_TABLES: usize = 7_728;

// How many bytes of a tables.bin of this length are loaded. The empty file stands for every over-long one whose length is no multiple of 48:
// both are refused 20 at record 0.
#[tactic(auto, unfolding(crate::specs::Text::loaded_length))]
pub fn loaded_length(length: usize) -> usize
    ensures { (result ≡ loaded_length length) × (result ≤ 7728) }
{
    if length <= MOST_TABLES {
        return length;
    }
    if length % RECORD_SIZE == 0 {
        return MOST_TABLES;
    }
    0
}
