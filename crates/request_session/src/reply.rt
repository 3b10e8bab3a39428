//! A reply in its two parts.
use crate::Head;

/// A reply: its head, which tells how long the body is, and the body.
#[derive(Drop)]
pub struct Reply {
    /// The head, with the empty line that ends it.
    pub head: Head,
    /// As many bytes as the head says.
    pub body: Vec<u8>,
}
