ghost use Rattle.std.specs.Prelude.{◌≡◌, Some};
ghost use Rattle.script.specs.Complaints.{complaint_text};
ghost use Rattle.script.specs.declared.complaints.Complaint.TheVariants.{OutOfMemory};

use std::alloc::{AllocError, AllocFailed};
use std::error::Error;
use std::fmt;

// Why a line is not taken.
#[derive(Clone, Copy, PartialEq, Eq, Debug)]
pub enum Complaint {
    // The first two words are not those of a command.
    UnknownCommand,
    // The command wants more words.
    MissingWord,
    // There are words past the command's last one.
    ExtraWord,
    // A word for bytes is neither pairs of hex digits nor `-`.
    BadHex,
    // A word for a number has other bytes than digits, or is 2^64 or more.
    BadNumber,
    // There was no memory for what was read.
    OutOfMemory,
}

impl From<AllocError> for Complaint {
    ghost from_gives = { λ _ r. r ≡ OutOfMemory };

    fn from(_error: AllocError) -> Complaint {
        Complaint::OutOfMemory
    }
}

impl<T: Drop> From<AllocFailed<T>> for Complaint {
    ghost from_gives = { λ _ r. r ≡ OutOfMemory };

    fn from(_error: AllocFailed<T>) -> Complaint {
        Complaint::OutOfMemory
    }
}

impl Complaint {
    // What the complaint says, which is what it prints.
    pub fn text(self) -> &'static str
        ensures { result.now ≡ complaint_text self }
    {
        match self {
            Complaint::UnknownCommand => "not a command",
            Complaint::MissingWord => "a word is missing",
            Complaint::ExtraWord => "a word too many",
            Complaint::BadHex => "not hex",
            Complaint::BadNumber => "not a decimal number of up to 64 bits",
            Complaint::OutOfMemory => "out of memory",
        }
    }
}

impl fmt::Display for Complaint {
    ghost output = { λ complaint. Some (complaint_text complaint) };

    fn fmt<W: fmt::Write>(&self, f: &mut fmt::Formatter<W>) -> fmt::Result {
        f.write_str(self.text())
    }
}

impl Error for Complaint {}
