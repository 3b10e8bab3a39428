//! The log of changes: its bytes (how many a change takes, writing them and reading them back), the index of what it says, and the
//! keeper of its bytes. The words are big-endian numbers, texts after their length, identifiers, and lists after their count.
#![tactic(auto)]

mod decode_body;
mod decode_fields;
mod decoded;
mod decoding;
mod encode_fields;
mod encoding;
mod fault;
mod field;
mod held;
mod laws;
mod lengths;
mod limits;
mod log;
mod periods;
mod put;
mod read_words;
mod write_words;

pub use decoded::Decoded;
pub use decoding::decode;
pub use encoding::encode;
pub use laws::{days_are_of_the_years, log_grows};
pub use lengths::encoded_len;
pub use limits::{AppendFault, Limits};
pub use log::ChangeLog;
