//! A request of HTTP: what its head says, and its body. How both are read is not here.
use dh_base::items::Items;

/// A request. The texts are bytes as they came.
pub struct Request {
    pub method: Items<u8>,
    /// The target up to the first question mark.
    pub path: Items<u8>,
    /// The target after it.
    pub query: Items<u8>,
    /// The text of the one `Authorization` after `ApiToken `.
    pub token: Option<Items<u8>>,
    /// The value of the last `X-Min-Change`.
    pub asked: Option<Items<u8>>,
    pub body: Items<u8>,
    /// Whether the connection goes on after the reply.
    pub keep: bool,
}

// By hand, so that it is proved here alone and not in each crate above.
impl Drop for Request {
    fn drop(self) {
        let Request {
            method: _,
            path: _,
            query: _,
            token: _,
            asked: _,
            body: _,
            keep: _,
        } = self;
    }
}
