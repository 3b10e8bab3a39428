//! Metadata: its objects as plain data (as they are read, with references by identifier, and as they are held, by number), and what it
//! is asked: objects by number and identifier, the tree of units, data sets by element, users by token, and what users may do.
#![tactic(auto)]

mod authorities;
pub mod built_in;
mod by_id;
mod facts;
pub mod held;
mod holders;
pub mod ids;
pub mod kind;
mod levels;
pub mod made;
mod members;
pub mod metadata;
pub mod names;
mod needs;
pub mod parts;
pub mod raw;
pub mod records;
pub mod sets;
pub mod structure;
mod tokens;
