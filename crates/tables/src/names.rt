// Names of ports, compared where they stand.
ghost use Rattle.std.specs.Prelude.{◌+◌, ◌≤◌, ◌≡◌, length};
ghost use Rattle.model.specs.Tables.{same_name};

use super::NAME_LENGTH;

// All 30 bytes of the names at two places are the same, whether they stand in rows or in an event.
pub fn same_name(a: &[u8], at: usize, b: &[u8], bt: usize) -> bool
    requires at_in_bounds { at + 30 ≤ length a.now }
    requires bt_in_bounds { bt + 30 ≤ length b.now }
    ensures { result ≡ same_name a.now at b.now bt }
{
    a[at..at + NAME_LENGTH] == b[bt..bt + NAME_LENGTH]
}
