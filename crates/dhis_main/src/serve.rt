//! A server over a metadata file.
ghost use Rattle.std.specs.Prelude.{◌≡◌, ◌<◌};
ghost use Rattle.shared_server.specs.Links.{Answered, Untouched};
ghost use Rattle.dhis_main.specs.Shown.{side, folder};
ghost use Rattle.dhis_main.specs.Serve.{status_by, ServeRuns};

use crate::status::{Outcome, Status};
use dh_base::limits::MOST_INPUT_BYTES;
use dh_outside::{Clock, FileFault, FileSet, Sink};
use net_doors::{End, Listener};
use shared_engine::Gate;
use shared_server::{Finished, ServeEnd, Setup, refuse_long, serve_over};
use std::sync::Wait;
use std::thread::Threads;

// The most bytes that a metadata file may have.
const MOST_BYTES: u64 = MOST_INPUT_BYTES as u64;

/// How the program ended, and its listener.
#[derive(Drop)]
pub struct Ran<L> {
    pub status: Status,
    pub listener: L,
}

fn status_by(end: ServeEnd) -> Status
    ensures { result ≡ status_by end }
{
    match end {
        ServeEnd::Refused => Status::Done(Outcome::MetaRefused),
        ServeEnd::Unwritten => Status::WriteFault,
        ServeEnd::Served(_) => Status::Done(Outcome::Ok),
        ServeEnd::ListenFault => Status::ListenFault,
        ServeEnd::Memory => Status::Memory,
    }
}

/// Reads a metadata file, and then serves the links of a listener over it.
pub fn serve_file<
    R: Threads + Wait + Sync,
    C: Clock + Sync,
    G: Gate + Sync,
    O: Sink,
    F: FileSet,
    N: End + Send,
    L: Listener<N> + Send,
>(
    setup: &Setup<'_, R, C, G>,
    name: &str,
    addr: &str,
    output: &mut O,
    files: &mut F,
    listener: L,
) -> Ran<L>
    requires { 0 < setup.now.workers }
    ensures { ServeRuns (Untouched N.source_talk N.source_faults) (Answered (C.shows setup.now.clock.now) N.left N.written N.source_talk N.source_faults)
        setup.now.connections name.now (folder (F.file files.old) (F.file_faults files.old) (F.file_faults files.new))
        (side (O.written output.old) (O.written output.new) (O.sink_faults output.old) (O.sink_faults output.new))
        (L.shows listener) (L.shows result.listener) result.status }
{
    match files.read_file(setup.alloc, name, MOST_BYTES) {
        Ok(file) => {
            let Finished { listener, end } = serve_over(setup, &file, addr, output, listener);
            Ran {
                status: status_by(end),
                listener,
            }
        }
        Err(FileFault::TooLong) => Ran {
            status: status_by(refuse_long(setup.alloc, output)),
            listener,
        },
        Err(FileFault::Failed) => Ran {
            status: Status::ReadFault,
            listener,
        },
        Err(FileFault::Memory) => Ran {
            status: Status::Memory,
            listener,
        },
    }
}
