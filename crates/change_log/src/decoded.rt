use dh_changes::change::Change;

/// What the bytes of a log begin with.
#[derive(Drop)]
pub enum Decoded {
    /// A change, and how many bytes it takes.
    Whole { change: Change, used: usize },
    /// Fewer than four bytes, or fewer after them than these four say.
    Short,
    /// No change under that number, whatever follows.
    Bad,
}
