//! Requests of HTTP/1.1 (RFC 9112) as plain data, and their reading from a source of bytes: the head of one (the empty lines before it,
//! where it ends, and what its fields say of the body, the token and the connection; the grammar is that of `httparse`), and bodies
//! that are sized or in chunks.
#![tactic(auto)]

mod body;
pub mod chunks;
mod fault;
pub mod fields;
mod front;
pub mod head;
pub mod lines;
pub mod plan;
mod request;
mod rest;
pub mod size;

pub use fault::WireFault;
pub use request::Request;
pub use rest::{Rest, next_request};
