//! The statuses with which a run of the program ends.

ghost use Rattle.std.specs.Prelude.{◌≡◌};
ghost use Rattle.command_driver.specs.Statuses.{number_of};

/// How a run ends. Its number is the exit status of the program.
#[derive(Clone, Copy, PartialEq, Eq, Debug)]
pub enum Status {
    /// 0: every line was written, and the input was read to its end.
    Done,
    /// 1: the words are none of the program's forms.
    Usage,
    /// 2: a line is refused, or the input ended too early.
    Refused,
    /// 3: a read failed.
    ReadFault,
    /// 4: a write failed.
    WriteFault,
    /// 5: memory was wanting.
    Memory,
    /// 6: a line or the input is too long, or there are too many events.
    TooMuch,
    /// 7: the input was read to its end, and something in it is wrong.
    Findings,
}

impl Status {
    /// The number, 0 to 7.
    pub fn number(&self) -> u8
        ensures { result ≡ number_of self.now }
    {
        match self {
            Status::Done => 0,
            Status::Usage => 1,
            Status::Refused => 2,
            Status::ReadFault => 3,
            Status::WriteFault => 4,
            Status::Memory => 5,
            Status::TooMuch => 6,
            Status::Findings => 7,
        }
    }
}
