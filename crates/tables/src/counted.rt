// Tables with their records counted once. A table is read by these counts alone: the windows come first, then the ports, then the channels.
ghost use Rattle.std.specs.Prelude.{◌+◌, ◌-◌, ◌<◌, ◌≡◌};
ghost use Rattle.model.specs.Tables.{records, ports_end, port_record, channel_record, row, source_port, destinations, destination_port};
ghost use Rattle.tables.specs.Layout.{Laid};
ghost use Rattle.tables.specs.Shown.{decoded};

use super::layout::{ports_end_from, records, windows};
use super::{PortRow, Record};

// Any bytes, accepted or not, are so many windows, ports and channels.
#[derive(Clone, Copy)]
pub struct Tables<'a> {
    pub bytes: &'a [u8],
    // how many windows there are, which is the record of the first port
    pub windows: usize,
    pub ports: usize,
    pub channels: usize,
    pub ghost laid: { Laid bytes.now windows ports channels },
}

impl<'a> Tables<'a> {
    pub fn of(bytes: &'a [u8]) -> Tables<'a>
        ensures { result.bytes.now ≡ bytes.now }
    {
        let first_port = windows(bytes);
        let first_channel = ports_end_from(bytes, first_port);
        Tables {
            bytes,
            windows: first_port,
            ports: first_channel - first_port,
            channels: records(bytes) - first_channel,
        }
    }

    // How many records there are.
    pub fn records(self) -> usize
        ensures { result ≡ records self.entry.bytes.now }
    {
        self.windows + self.ports + self.channels
    }

    pub fn record(self, number: usize) -> Record<'a>
        requires { number < records self.bytes.now }
        ensures tables { result.tables ≡ self.entry }
        ensures which { result.number ≡ number }
    {
        Record {
            tables: self,
            number,
        }
    }

    // The record of port k.
    pub fn port_record(self, k: usize) -> usize
        requires { k < self.ports }
        ensures value { result ≡ port_record self.entry.bytes.now k }
        ensures there { result < records self.entry.bytes.now }
    {
        self.windows + k
    }

    // Port k where it stands.
    pub fn port(self, k: usize) -> Record<'a>
        requires { k < self.ports }
        ensures tables { result.tables ≡ self.entry }
        ensures which { result.number ≡ port_record self.entry.bytes.now k }
    {
        self.record(self.port_record(k))
    }

    pub fn row(self, k: usize) -> PortRow
        requires { k < self.ports }
        ensures { result ≡ decoded (row self.entry.bytes.now k) }
    {
        self.port(k).row()
    }

    // The partition that owns port k.
    pub fn owner(self, k: usize) -> u8
        requires { k < self.ports }
        ensures { result ≡ (row self.entry.bytes.now k).owner }
    {
        self.port(k).owner()
    }

    // The record of the first channel, which is where the ports end.
    pub fn first_channel(self) -> usize
        ensures { result ≡ ports_end self.entry.bytes.now }
    {
        self.windows + self.ports
    }

    // Channel c where it stands.
    pub fn channel(self, c: usize) -> Record<'a>
        requires { c < self.channels }
        ensures tables { result.tables ≡ self.entry }
        ensures which { result.number ≡ channel_record self.entry.bytes.now c }
    {
        self.record(self.windows + self.ports + c)
    }

    // The port that channel c takes messages from.
    #[tactic(auto, unfolding(model::specs::Tables::source_port))]
    pub fn source_port(self, c: usize) -> usize
        requires { c < self.channels }
        ensures { result ≡ source_port self.entry.bytes.now c }
    {
        port_of(self.channel(c).id(0))
    }

    // How many ports channel c hands messages to.
    #[tactic(auto, unfolding(model::specs::Tables::destinations))]
    pub fn destination_count(self, c: usize) -> u8
        requires { c < self.channels }
        ensures { result ≡ destinations self.entry.bytes.now c }
    {
        self.channel(c).count()
    }

    // The j-th of the ports that channel c hands messages to, from 0.
    #[tactic(auto, unfolding(model::specs::Tables::destination_port))]
    pub fn destination_port(self, c: usize, j: usize) -> usize
        requires { (c < self.channels) × (j < 8) }
        ensures { result ≡ destination_port self.entry.bytes.now c j }
    {
        port_of(self.channel(c).id(j + 1))
    }
}

// A port's number is its id less 1; an id of 0, which no channel of accepted tables has, counts as the first.
fn port_of(id: usize) -> usize
    ensures { result ≡ id - 1 }
{
    id.saturating_sub(1)
}
