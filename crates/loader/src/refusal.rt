// Why a load refuses tables: the fault, and the record that is told beside it.
ghost use Rattle.std.specs.Prelude.{◌≡◌, ◌++◌, ◌∷◌, Some};
ghost use Rattle.std.specs.Fmt.{decimal};
ghost use Rattle.loader.specs.Shown.{number_of};

use std::fmt;

// The refusals of tables, under the paper's numbers.
#[derive(Clone, Copy, Debug, PartialEq, Eq)]
pub enum Fault {
    Length = 20,
    Kind = 21,
    Count = 22,
    Field = 23,
    Name = 24,
    End = 25,
    NoWindow = 26,
}

impl Fault {
    pub fn number(self) -> u8
        ensures { result ≡ number_of self }
    {
        self as u8
    }
}

// What a load says where it refuses tables: the fault, and the first offending record, counted from 0.
#[derive(Clone, Copy, Debug, PartialEq, Eq)]
pub struct Refused {
    pub fault: Fault,
    pub record: usize,
}

// The number and the record.
impl fmt::Display for Refused {
    ghost output = { λ r. Some (decimal (number_of r.fault) ++ 32 ∷ decimal r.«record») };

    fn fmt<W: fmt::Write>(&self, f: &mut fmt::Formatter<W>) -> fmt::Result {
        let number = self.fault.number();
        let record = self.record;
        write!(f, "{number} {record}")
    }
}
