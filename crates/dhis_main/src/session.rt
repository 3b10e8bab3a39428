ghost use Rattle.std.specs.Prelude.{◌≡◌};
ghost use Rattle.dhis_main.specs.Shown.{shown, side, folder};
ghost use Rattle.dhis_main.specs.Session.{status_over, SessionRuns};

use crate::status::{Outcome, Status};
use dh_base::limits::MOST_INPUT_BYTES;
use dh_outside::{Clock, FileFault, FileSet, Sink, Source};
use request_replies::{SessionEnd, refuse_long, session_over};
use request_session::Ended;
use std::alloc::Global;

// The most bytes that a metadata file may have.
const MOST_BYTES: u64 = MOST_INPUT_BYTES as u64;

fn status_over(end: SessionEnd) -> Status
    ensures { result ≡ status_over end }
{
    match end {
        SessionEnd::Refused => Status::Done(Outcome::MetaRefused),
        SessionEnd::Unwritten => Status::WriteFault,
        SessionEnd::Ended(Ended::Closed) => Status::Done(Outcome::Ok),
        SessionEnd::Ended(Ended::Limit) => Status::Done(Outcome::RequestLimit),
        SessionEnd::Ended(Ended::Truncated) => Status::Done(Outcome::Truncated),
        SessionEnd::Ended(Ended::Refused(_)) => Status::Done(Outcome::WireRefused),
        SessionEnd::Ended(Ended::ReadFault) => Status::ReadFault,
        SessionEnd::Ended(Ended::WriteFault) => Status::WriteFault,
        SessionEnd::Ended(Ended::Memory) => Status::Memory,
        SessionEnd::Memory => Status::Memory,
    }
}

/// Reads a metadata file, and then answers the requests of the input over it.
pub fn hold_session<S: Source, O: Sink, F: FileSet, C: Clock>(
    alloc: Global,
    name: &str,
    input: &mut S,
    output: &mut O,
    files: &mut F,
    clock: &C,
) -> Status
    ensures { SessionRuns (C.shows clock.now) name.now (shown
        (side (S.left input.old) (S.left input.new) (S.source_faults input.old) (S.source_faults input.new))
        (side (O.written output.old) (O.written output.new) (O.sink_faults output.old) (O.sink_faults output.new))
        (folder (F.file files.old) (F.file_faults files.old) (F.file_faults files.new))) result }
{
    match files.read_file(alloc, name, MOST_BYTES) {
        Ok(file) => status_over(session_over(alloc, &file, input, output, clock)),
        Err(FileFault::TooLong) => status_over(refuse_long(alloc, output)),
        Err(FileFault::Failed) => Status::ReadFault,
        Err(FileFault::Memory) => Status::Memory,
    }
}
