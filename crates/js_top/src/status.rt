//! How a run ended.

ghost use Rattle.std.specs.Prelude.{◌≡◌};

/// How a run ended, in the order of the program's exit statuses.
#[derive(Clone, Copy, PartialEq, Eq, Debug)]
pub enum Status {
    /// `include`, `gen`: no document is valid for the first schema alone. `sat`: a document was printed. `valid`: the
    /// document is valid. `check`: the certificate is accepted. `norm`: the table was printed.
    Done,

    /// `include`: a document was printed, and `gen`: one was found. `sat`: no document is valid for the schema.
    /// `valid`: the document isn't valid. `check`: the certificate is rejected.
    Other,

    /// The words are no command.
    Usage,

    /// A file was refused.
    Refused,

    /// A limit was passed.
    Limit,

    /// A file couldn't be read.
    ReadFault,

    /// The report couldn't be written whole.
    WriteFault,

    /// Memory was refused; nothing was written.
    Memory,
}

impl Status {
    ghost use Rattle.js_top.specs.StatusCode.{code_of};

    /// The program's exit status.
    pub fn code(&self) -> u8
        ensures { result ≡ code_of self.now }
    {
        match self {
            Status::Done => 0,
            Status::Other => 1,
            Status::Usage => 2,
            Status::Refused => 3,
            Status::Limit => 4,
            Status::ReadFault => 5,
            Status::WriteFault => 6,
            Status::Memory => 7,
        }
    }
}
