//! A server over the bytes of a metadata file.
ghost use Rattle.std.specs.Prelude.{◌≡◌, ◌<◌, IfOk, OnOk, OnErr};
ghost use Rattle.std.specs.Io.KnownBytes.{Appends};
ghost use Rattle.dh_outside.specs.Faults.{Rose};
ghost use Rattle.meta_reader.specs.declared.fault.MetaFault.TheVariants as fault;
ghost use Rattle.meta_reader.specs.declared.fault.Which.TheVariants as which;
ghost use Rattle.request_session.specs.Session.{AppendsFront};
ghost use Rattle.shared_server.specs.Links.{Answered, IsMadeFor, Untouched};
ghost use Rattle.shared_server.specs.OverFile.{served_line, Finishes, Refuses, ServesMeta, ServesOver, Tells};
ghost use Rattle.shared_server.specs.declared.over_file.ServeEnd.TheVariants as end;

use crate::setup::{Setup, open_over};
use crate::workers::serve_opened;
use dh_base::memory::Memory;
use dh_metadata::metadata::Metadata;
use dh_outside::{Clock, Failed, Sink, write_all};
use engine::Unkept;
use meta_reader::fault::{MetaFault, Which};
use meta_reader::read::read;
use net_doors::{End, Ending, Listener, Served};
use request_replies::refusal_line;
use shared_engine::{Gate, Opened};
use std::alloc::Global;
use std::sync::Wait;
use std::thread::Threads;

/// How a server over a metadata file ended.
#[derive(Clone, Copy, Drop, PartialEq, Eq)]
pub enum ServeEnd {
    /// The metadata are refused, and the line that tells why is written. The listener wasn't called.
    Refused,
    /// A line couldn't be written, and the sink's count of faults rose.
    Unwritten,
    /// So many links were served, and the line that tells so is written.
    Served(u64),
    /// To listen or to accept failed, and the listener's count of faults rose. Each link that was accepted was served.
    ListenFault,
    /// Memory ran out before the listener was called, or after all links were served. Nothing was written.
    Memory,
}

/// How a server ended, and its listener.
#[derive(Drop)]
pub struct Finished<L> {
    pub listener: L,
    pub end: ServeEnd,
}

// The line that tells how many links were served.
#[tactic(auto, unfolding(crate::specs::OverFile::served_line))]
fn served_line(alloc: Global, links: u64) -> Result<Vec<u8>, Memory>
    ensures { IfOk result (λ text. text.items ≡ served_line links) }
{
    let text = format!(in alloc; "served {links}\n")?;
    Ok(text.into_bytes())
}

#[tactic(auto, using(crate::proofs::OverLemmas::front_written))]
fn send<O: Sink>(output: &mut O, text: &[u8]) -> Result<(), Failed>
    ensures whole { OnOk result (Appends (O.written output.old) (O.written output.new) text.now) }
    ensures front { OnErr result (AppendsFront (O.written output.old) (O.written output.new) text.now) }
    ensures failed { OnErr result (Rose (O.sink_faults output.old) (O.sink_faults output.new)) }
{
    write_all(output, text)
}

// Writes why the metadata are refused.
fn refuse<O: Sink>(alloc: Global, output: &mut O, fault: &MetaFault) -> ServeEnd
    ensures refuses { Refuses fault.now (O.written output.old) (O.written output.new) result }
    ensures unwritten { result ≡ end.Unwritten → Rose (O.sink_faults output.old) (O.sink_faults output.new) }
{
    let Ok(text) = refusal_line(alloc, fault) else {
        return ServeEnd::Memory;
    };
    match send(output, &text) {
        Ok(()) => ServeEnd::Refused,
        Err(_) => ServeEnd::Unwritten,
    }
}

// Writes how many links were served.
fn tell<O: Sink>(alloc: Global, output: &mut O, links: u64) -> ServeEnd
    ensures tells { Tells links (O.written output.old) (O.written output.new) result }
    ensures unwritten { result ≡ end.Unwritten → Rose (O.sink_faults output.old) (O.sink_faults output.new) }
{
    let Ok(text) = served_line(alloc, links) else {
        return ServeEnd::Memory;
    };
    match send(output, &text) {
        Ok(()) => ServeEnd::Served(links),
        Err(_) => ServeEnd::Unwritten,
    }
}

// Writes how many links were served, unless accepting failed.
fn finish<O: Sink>(alloc: Global, output: &mut O, links: u64, ending: Ending) -> ServeEnd
    ensures finishes { Finishes ending links (O.written output.old) (O.written output.new) result }
    ensures unwritten { result ≡ end.Unwritten → Rose (O.sink_faults output.old) (O.sink_faults output.new) }
{
    match ending {
        Ending::Enough => tell(alloc, output, links),
        Ending::Closed => tell(alloc, output, links),
        Ending::ListenFault => ServeEnd::ListenFault,
    }
}

// Listens and serves, and writes how many links were served.
fn listen_and_serve<
    R: Threads + Wait + Sync,
    C: Clock + Sync,
    G: Gate + Sync,
    O: Sink,
    N: End + Send,
    L: Listener<N> + Send,
>(
    setup: &Setup<'_, R, C, G>,
    opened: Opened<Unkept>,
    addr: &str,
    output: &mut O,
    listener: L,
) -> Finished<L>
    requires some { 0 < setup.now.workers }
    requires made { IsMadeFor opened.meta opened }
    ensures over { ServesMeta (Untouched N.source_talk N.source_faults)
        (Answered (C.shows setup.now.clock.now) N.left N.written N.source_talk N.source_faults)
        (L.shows listener) (L.shows result.listener) setup.now.connections opened.meta (O.written output.old) (O.written output.new) result.end }
    ensures unwritten { result.end ≡ end.Unwritten → Rose (O.sink_faults output.old) (O.sink_faults output.new) }
{
    let mut listener = listener;
    match listener.listen(addr) {
        Ok(()) => {
            let Served {
                listener,
                lender: (),
                links,
                ending,
            } = serve_opened(setup, opened, listener);
            let end = finish(setup.alloc, output, links, ending);
            Finished { listener, end }
        }
        Err(_) => {
            drop(opened);
            Finished {
                listener,
                end: ServeEnd::ListenFault,
            }
        }
    }
}

// Serves over metadata.
fn over_metadata<
    R: Threads + Wait + Sync,
    C: Clock + Sync,
    G: Gate + Sync,
    O: Sink,
    N: End + Send,
    L: Listener<N> + Send,
>(
    setup: &Setup<'_, R, C, G>,
    meta: Metadata,
    addr: &str,
    output: &mut O,
    listener: L,
) -> Finished<L>
    requires { 0 < setup.now.workers }
    ensures over { ServesMeta (Untouched N.source_talk N.source_faults)
        (Answered (C.shows setup.now.clock.now) N.left N.written N.source_talk N.source_faults)
        (L.shows listener) (L.shows result.listener) setup.now.connections meta (O.written output.old) (O.written output.new) result.end }
    ensures unwritten { result.end ≡ end.Unwritten → Rose (O.sink_faults output.old) (O.sink_faults output.new) }
{
    match open_over(setup.alloc, meta) {
        Ok(opened) => listen_and_serve(setup, opened, addr, output, listener),
        Err(_) => Finished {
            listener,
            end: ServeEnd::Memory,
        },
    }
}

// Writes why the metadata are refused; the listener is handed back.
fn refuse_by<O: Sink, L>(
    alloc: Global,
    output: &mut O,
    fault: &MetaFault,
    listener: L,
) -> Finished<L>
    ensures refuses { Refuses fault.now (O.written output.old) (O.written output.new) result.end }
    ensures unwritten { result.end ≡ end.Unwritten → Rose (O.sink_faults output.old) (O.sink_faults output.new) }
    ensures same { result.listener ≡ listener }
{
    let end = refuse(alloc, output, fault);
    Finished { listener, end }
}

/// Serves over the metadata of a file, or writes why they are refused. It listens at the address once the metadata are read.
pub fn serve_over<
    R: Threads + Wait + Sync,
    C: Clock + Sync,
    G: Gate + Sync,
    O: Sink,
    N: End + Send,
    L: Listener<N> + Send,
>(setup: &Setup<'_, R, C, G>, file: &[u8], addr: &str, output: &mut O, listener: L) -> Finished<L>
    requires { 0 < setup.now.workers }
    ensures over { ServesOver (Untouched N.source_talk N.source_faults)
        (Answered (C.shows setup.now.clock.now) N.left N.written N.source_talk N.source_faults)
        (L.shows listener) (L.shows result.listener) setup.now.connections file.now (O.written output.old) (O.written output.new) result.end }
    ensures unwritten { result.end ≡ end.Unwritten → Rose (O.sink_faults output.old) (O.sink_faults output.new) }
{
    match read(setup.alloc, file) {
        Ok(meta) => over_metadata(setup, meta, addr, output, listener),
        Err(MetaFault::Memory) => Finished {
            listener,
            end: ServeEnd::Memory,
        },
        Err(fault) => refuse_by(setup.alloc, output, &fault, listener),
    }
}

/// Writes that a metadata file of more than the most bytes is refused.
pub fn refuse_long<O: Sink>(alloc: Global, output: &mut O) -> ServeEnd
    ensures refuses { Refuses (fault.Limit which.Bytes) (O.written output.old) (O.written output.new) result }
    ensures unwritten { result ≡ end.Unwritten → Rose (O.sink_faults output.old) (O.sink_faults output.new) }
{
    refuse(
        alloc,
        output,
        &MetaFault::Limit {
            which: Which::Bytes,
        },
    )
}
