//! How a run of the program ended.
ghost use Rattle.std.specs.Prelude.{◌≡◌};
ghost use Rattle.graph_run.specs.Status.{code_of};

/// How a run ended, which is also the process's exit status.
#[derive(Clone, Copy, Debug, PartialEq, Eq)]
pub enum Status {
    /// The report was written.
    Done,
    /// The builder refused: there were too many modules.
    BuildRefused,
    /// The input is too long, no JSON or no bundle.
    BadInput,
    /// A read failed.
    ReadFault,
    /// A write failed.
    WriteFault,
    /// Memory ran out.
    NoMemory,
    /// The words are not a form of the program.
    Usage,
}

impl Status {
    /// The process's exit status.
    pub fn code(self) -> u8
        ensures { result ≡ code_of self }
    {
        match self {
            Status::Done => 0,
            Status::BuildRefused => 1,
            Status::BadInput => 2,
            Status::ReadFault => 3,
            Status::WriteFault => 4,
            Status::NoMemory => 5,
            Status::Usage => 64,
        }
    }
}
