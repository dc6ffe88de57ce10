// How a port transfers its messages, and what belongs to its mode.
ghost use Rattle.std.specs.Prelude.{◌≡◌, eqb};
ghost use Rattle.tables.specs.Shown.{mode_of, refresh_of, transfer_of};

use super::{QUEUING, SAMPLING, Transfer};

impl Transfer {
    pub(crate) fn of(mode: u8, depth: u32, refresh: u32) -> Transfer
        ensures { result ≡ transfer_of mode depth refresh }
    {
        if mode == SAMPLING {
            Transfer::Sampling(refresh)
        } else {
            Transfer::Queuing(depth)
        }
    }

    // The port is of that mode, 0 sampling or 1 queuing.
    pub fn is_mode(self, mode: u8) -> bool
        ensures { result ≡ eqb (mode_of self) mode }
    {
        match self {
            Transfer::Sampling(_) => SAMPLING == mode,
            Transfer::Queuing(_) => QUEUING == mode,
        }
    }

    // The refresh period of a sampling port; 0 for a queuing port, as in its row.
    pub fn refresh(self) -> u32
        ensures { result ≡ refresh_of self }
    {
        match self {
            Transfer::Sampling(period) => period,
            Transfer::Queuing(_) => 0,
        }
    }
}
