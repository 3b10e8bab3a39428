ghost use Rattle.std.specs.Prelude.{◌≡◌};
ghost use Rattle.dhis_main.specs.Code.{code_of};

/// What a command that was carried out or refused came to.
#[derive(Clone, Copy, Drop)]
pub enum Outcome {
    /// The command did all that it says.
    Ok,
    /// The words of the command line are not in the grammar.
    Usage,
    /// The metadata, or the form of the values, are refused.
    MetaRefused,
    /// There is no such user, or the query is refused.
    QueryRefused,
    /// The values of the bundle are refused.
    DataRefused,
    /// A session answered as many requests as it may.
    RequestLimit,
    /// The input of a session ended inside a request.
    Truncated,
    /// The input of a session has something that isn't a request.
    WireRefused,
}

/// How the program ended.
#[derive(Clone, Copy, Drop)]
pub enum Status {
    /// What the command replies was written whole.
    Done(Outcome),
    /// The input or a file failed.
    ReadFault,
    /// The output failed.
    WriteFault,
    /// Memory ran out.
    Memory,
    /// To listen or to accept a connection failed.
    ListenFault,
}

impl Status {
    /// The exit code of the program.
    pub fn code(self) -> u8
        ensures { result ≡ code_of self }
    {
        match self {
            Status::Done(Outcome::Ok) => 0,
            Status::Done(Outcome::Usage) => 2,
            Status::Done(Outcome::MetaRefused) => 3,
            Status::Done(Outcome::QueryRefused) => 4,
            Status::ReadFault => 5,
            Status::WriteFault => 6,
            Status::Memory => 7,
            Status::ListenFault => 10,
            Status::Done(Outcome::DataRefused) => 11,
            Status::Done(Outcome::RequestLimit) => 12,
            Status::Done(Outcome::Truncated) => 13,
            Status::Done(Outcome::WireRefused) => 14,
        }
    }
}
