//! How a session ends, and how a turn does.
use dh_base::codes::Code;

/// How a session ended.
#[derive(Clone, Copy, Drop, PartialEq, Eq)]
pub enum Ended {
    /// The input ended between two requests, or a request asked to close.
    Closed,
    /// The input ended inside a request. It has no reply.
    Truncated,
    /// What came isn't a request, by F1 to F5. It has a reply.
    Refused(Code),
    /// As many requests were answered as are allowed.
    Limit,
    /// A read failed, and the source's count of faults rose.
    ReadFault,
    /// A write failed, and the sink's count of faults rose. A prefix of the text is written.
    WriteFault,
    /// No memory was found while a request was read. Over a link it has a reply, the last one.
    Memory,
}

/// What one turn came to.
#[derive(Clone, Copy, Drop)]
pub(crate) enum Turn {
    /// A request was answered, and this says whether it asks to keep the connection.
    Answered(bool),
    /// The session ended.
    Stopped(Ended),
}
