/// How a run of the program ended.
#[derive(Clone, Copy, Debug)]
pub enum Status {
    /// The input was read to its end, and every reply was written.
    Done,
    /// The arguments of the command line are none that the program takes. Nothing was read or written.
    Usage,
    /// A read failed. The lines that had ended before it are answered.
    ReadFault,
    /// A write failed. A front of the replies was written.
    WriteFault,
    /// Memory ran out. A front of the replies was written.
    Memory,
    /// The input has more than 16,777,216 bytes. The lines that ended before the next byte are answered.
    InputTooLong,
}

impl Status {
    ghost use Rattle.std.specs.Prelude.{◌≡◌, option_copied};
    ghost use Rattle.lx_cli.specs.Ends.{number_of_status, message_of};

    /// The number that the process ends with.
    pub fn number(self) -> u8
        ensures { result ≡ number_of_status self }
    {
        match self {
            Status::Done => 0,
            Status::Usage => 2,
            Status::ReadFault => 3,
            Status::WriteFault => 4,
            Status::Memory => 5,
            Status::InputTooLong => 6,
        }
    }

    /// What is said on standard error of a run that isn't done.
    pub fn message(self) -> Option<&'static str>
        ensures { option_copied result ≡ message_of self }
    {
        match self {
            Status::Done => None,
            Status::Usage => Some("lexical: usage"),
            Status::ReadFault => Some("lexical: read fault"),
            Status::WriteFault => Some("lexical: write fault"),
            Status::Memory => Some("lexical: memory"),
            Status::InputTooLong => Some("lexical: input too long"),
        }
    }
}
