//! How a call of the program ends.
ghost use Rattle.std.specs.Prelude.{◌≡◌};
ghost use Rattle.command_checks.specs.Status.{code_of};

/// How a call of the program ends.
#[derive(Clone, Copy, Debug, PartialEq, Eq)]
pub enum Status {
    /// All was done.
    Done,
    /// A check refused a file.
    Refused,
    /// The words ask for nothing that the program has.
    Usage,
    /// A file couldn't be read.
    ReadFault,
    /// The text couldn't be written whole.
    WriteFault,
    /// The work was done and written, and something is left to deliver.
    Incomplete,
    /// Memory ran out before anything was written.
    NoMemory,
}

impl Status {
    /// The exit status of the process, from 0 to 6 in the order above.
    pub fn code(self) -> u8
        ensures { result ≡ code_of self }
    {
        match self {
            Status::Done => 0,
            Status::Refused => 1,
            Status::Usage => 2,
            Status::ReadFault => 3,
            Status::WriteFault => 4,
            Status::Incomplete => 5,
            Status::NoMemory => 6,
        }
    }
}
