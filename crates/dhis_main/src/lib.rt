//! What the program does with the words of its command line, over an input, an output, files, a clock and a network that it is lent:
//! `query USER QUERY` reads a bundle of metadata and values and writes the analytics body of the query, `session META` answers the HTTP
//! requests of the input over a metadata file, `serve META ADDR WORKERS CONNECTIONS` those of the connections that come to an address,
//! and `generate N` brings values of its own and writes what they come to. The system's own input, files and sockets are `dhis`'s part.
#![tactic(auto)]

mod reply;
pub mod run;
pub mod serve;
mod session;
pub mod status;
mod words;
