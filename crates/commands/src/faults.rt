// Why a line is no command, and how that is told.
ghost use Rattle.std.specs.Prelude.{◌≡◌, Some};
ghost use Rattle.commands.specs.Commands.{fault_of};
ghost use Rattle.commands.specs.Shown.{fault_text, complaint_text};

use std::fmt;
use text::numbers::NumberFault;

#[derive(Clone, Copy, PartialEq, Eq, Debug)]
pub enum Fault {
    UnknownWord,
    MissingWord,
    SurplusWord,
    NotANumber,
    NumberOver32Bits,
}

// By hand: the derive of `thiserror` does not promise which fault it makes.
impl From<NumberFault> for Fault {
    ghost from_gives = { λ e r. r ≡ fault_of e };

    fn from(value: NumberFault) -> Fault {
        match value {
            NumberFault::NotANumber => Fault::NotANumber,
            NumberFault::OverLimit => Fault::NumberOver32Bits,
        }
    }
}

// By hand: the derive of `thiserror` promises no text.
impl fmt::Display for Fault {
    ghost output = { λ x. Some (fault_text x) };

    fn fmt<W: fmt::Write>(&self, f: &mut fmt::Formatter<W>) -> fmt::Result {
        f.write_str(match self {
            Fault::UnknownWord => "unknown word",
            Fault::MissingWord => "missing word",
            Fault::SurplusWord => "surplus word",
            Fault::NotANumber => "not a number",
            Fault::NumberOver32Bits => "number over 32 bits",
        })
    }
}

// The fault of a line. Lines are counted from 1.
#[derive(Clone, Copy)]
pub struct Complaint {
    pub line: u64,
    pub fault: Fault,
}

impl fmt::Display for Complaint {
    ghost output = { λ x. Some (complaint_text x) };

    fn fmt<W: fmt::Write>(&self, f: &mut fmt::Formatter<W>) -> fmt::Result {
        write!(f, "line {}: {}", self.line, self.fault)
    }
}
