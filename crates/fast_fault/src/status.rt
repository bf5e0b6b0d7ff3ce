//! How a run ends.

ghost use Rattle.std.specs.Prelude.{◌≡◌};
ghost use Rattle.fast_fault.specs.Statuses.{exit_code_of};

/// How a run ends.
#[derive(Clone, Copy, Debug, PartialEq, Eq)]
pub enum Status {
    /// The work is done, and no assertion fails.
    Hold,
    /// The whole report is written, and some assertion fails.
    Fails,
    /// The words are no command line of the tool.
    Words,
    /// A text was refused before anything ran.
    TextRefused,
    /// An item or a tree was refused as it ran.
    RunRefused,
    /// A text could not be taken.
    TextFault,
    /// A line could not be put.
    SinkFault,
    /// Want of memory.
    Memory,
}

impl Status {
    /// The exit code of the program.
    pub fn code(&self) -> u8
        ensures { result ≡ exit_code_of self.now }
    {
        match self {
            Status::Hold => 0,
            Status::Fails => 1,
            Status::Words => 2,
            Status::TextRefused => 3,
            Status::RunRefused => 4,
            Status::TextFault => 5,
            Status::SinkFault => 6,
            Status::Memory => 7,
        }
    }
}
