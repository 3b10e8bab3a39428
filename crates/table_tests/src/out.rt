//! What the rows write, one after another. Whether each could be read and written is asked once, at the end.

use dh_base::memory::Memory;
use std::alloc::Global;

#[derive(Drop)]
pub struct Out {
    pub alloc: Global,
    bytes: Vec<u8>,
    is_whole: bool,
}

impl Out {
    pub fn new(alloc: Global) -> Out {
        Out {
            alloc,
            bytes: Vec::new(alloc),
            is_whole: true,
        }
    }

    pub fn put(&mut self, text: &[u8]) {
        if self.bytes.extend_from_slice(text).is_err() {
            self.is_whole = false;
        }
    }

    pub fn put_made(&mut self, made: Result<Vec<u8>, Memory>) {
        match made {
            Ok(text) => self.put(&text),
            Err(Memory) => self.fail(),
        }
    }

    pub fn put_number(&mut self, number: i128) {
        match format!(in self.alloc; "{number}") {
            Ok(text) => self.put(text.as_bytes()),
            Err(_) => self.fail(),
        }
    }

    /// Notes that a row can't be read, or that memory ran out.
    pub fn fail(&mut self) {
        self.is_whole = false;
    }

    /// All that was written, or `None` where something failed.
    pub fn finish(self) -> Option<Vec<u8>> {
        let Out {
            bytes,
            is_whole,
            ..
        } = self;
        if is_whole { Some(bytes) } else { None }
    }
}
