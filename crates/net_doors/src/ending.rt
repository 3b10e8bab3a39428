//! What is answered when no more links are accepted.

/// How accepting ended.
#[derive(Clone, Copy, Drop)]
pub enum Ending {
    /// As many links were accepted as are wanted.
    Enough,
    /// The listener is closed.
    Closed,
    /// An accept failed, and the listener's count of faults rose.
    ListenFault,
}

/// The listener, the lender, how many links were accepted in the call, and how that ended.
#[derive(Drop)]
pub struct Served<L, W> {
    /// The listener, with each of the links given back.
    pub listener: L,
    /// The lender, which took back what serving each of them left.
    pub lender: W,
    /// How many links were accepted.
    pub links: u64,
    /// How accepting ended.
    pub ending: Ending,
}
