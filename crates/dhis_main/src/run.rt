ghost use Rattle.std.specs.Prelude.{◌≡◌, ◌<◌, ◌^◌, ℕ, List, Option, None, length, map};
ghost use Rattle.dhis_main.specs.Words.{bad_place, command_of, serving_of, IsFit};
ghost use Rattle.shared_server.specs.Links.{Answered, Untouched};
ghost use Rattle.dhis_main.specs.Outcome.{usage_reply};
ghost use Rattle.dhis_main.specs.Shown.{shown, side, folder};
ghost use Rattle.dhis_main.specs.Run.{Runs, RunsAs, RunsBeside, ReplyRuns, QueryRuns, AnswersTold, AnswersBeside, RefusesWords, Sends, Delivers};

use crate::reply::{
    Fault, Reply, help_reply, reply_to_input, report_reply, usage_reply, version_reply,
};
use crate::serve::{Ran, serve_file};
use crate::session::hold_session;
use crate::status::Status;
use crate::words::{Command, read_words, serving};
use dh_base::memory::Memory;
use dh_outside::{Clock, FileSet, Sink, Source, write_all};
use net_doors::{End, Listener};
use shared_engine::Gate;
use shared_server::Setup;
use std::alloc::Global;
use std::sync::Wait;
use std::thread::Threads;

// Writes the text of a reply.
#[tactic(auto, using(crate::proofs::RunLemmas::prefix_written))]
fn send<O: Sink>(reply: &Reply, output: &mut O) -> Status
    ensures { Sends reply.now (side (O.written output.old) (O.written output.new) (O.sink_faults output.old) (O.sink_faults output.new)) result }
{
    match write_all(output, reply.text.as_slice()) {
        Ok(()) => Status::Done(reply.outcome),
        Err(_) => Status::WriteFault,
    }
}

// Writes the text of a reply, if it was made.
fn deliver<O: Sink>(made: Result<Reply, Memory>, output: &mut O) -> Status
    ensures { Delivers made (side (O.written output.old) (O.written output.new) (O.sink_faults output.old) (O.sink_faults output.new)) result }
{
    match made {
        Ok(reply) => send(&reply, output),
        Err(_) => Status::Memory,
    }
}

// Answers a query over the bundle that the input is.
fn answer_query<S: Source, O: Sink, C: Clock>(
    alloc: Global,
    user: &str,
    query: &str,
    input: &mut S,
    output: &mut O,
    clock: &C,
) -> Status
    ensures { (file : List ℕ → Option (List ℕ)) → (old new : ℕ) → QueryRuns user.now query.now (C.shows clock.now) (shown
        (side (S.left input.old) (S.left input.new) (S.source_faults input.old) (S.source_faults input.new))
        (side (O.written output.old) (O.written output.new) (O.sink_faults output.old) (O.sink_faults output.new))
        (folder file old new)) result }
{
    match reply_to_input(alloc, user, query, input, clock) {
        Ok(reply) => send(&reply, output),
        Err(Fault::Read) => Status::ReadFault,
        Err(Fault::Memory) => Status::Memory,
    }
}

// Carries out a command, whose names are among the words.
fn carry_out<S: Source, O: Sink, F: FileSet, C: Clock>(
    alloc: Global,
    command: Command,
    words: &[&str],
    input: &mut S,
    output: &mut O,
    files: &mut F,
    clock: &C,
) -> Status
    requires fits { IsFit command (length words.now) }
    requires offline { serving_of command ≡ None }
    ensures { RunsAs command (map (λ word. word.now) words.now) (C.shows clock.now) (shown
        (side (S.left input.old) (S.left input.new) (S.source_faults input.old) (S.source_faults input.new))
        (side (O.written output.old) (O.written output.new) (O.sink_faults output.old) (O.sink_faults output.new))
        (folder (F.file files.old) (F.file_faults files.old) (F.file_faults files.new))) result }
{
    match command {
        Command::Help => deliver(help_reply(alloc), output),
        Command::Version => deliver(version_reply(alloc), output),
        Command::Query => answer_query(alloc, words[1], words[2], input, output, clock),
        Command::Session => hold_session(alloc, words[1], input, output, files, clock),
        Command::Generate(count) => deliver(report_reply(alloc, count, clock.now()), output),
        Command::Serve { .. } => unreachable!(),
        Command::Bad(place) => deliver(usage_reply(alloc, place), output),
    }
}

/// Carries out a command of the command line, or ends with the fault that it met: a query over the bundle that the
/// input is, a session over a metadata file that answers the requests of the input, the generator, or a text.
#[tactic(auto, using(crate::proofs::RunLemmas::answers_told, crate::proofs::RunLemmas::refuses_words))]
fn run_offline<S: Source, O: Sink, F: FileSet, C: Clock>(
    alloc: Global,
    words: &[&str],
    input: &mut S,
    output: &mut O,
    files: &mut F,
    clock: &C,
) -> Status
    requires { serving_of (command_of (map (λ word. word.now) words.now)) ≡ None }
    // each status has its cause, and what was written is the reply's text or the session's replies, a prefix of them, or nothing
    ensures runs { Runs (map (λ word. word.now) words.now) (C.shows clock.now) (shown
        (side (S.left input.old) (S.left input.new) (S.source_faults input.old) (S.source_faults input.new))
        (side (O.written output.old) (O.written output.new) (O.sink_faults output.old) (O.sink_faults output.new))
        (folder (F.file files.old) (F.file_faults files.old) (F.file_faults files.new))) result }
    // over told bytes a done run is the reply to the words over them, at a moment that the clock shows, or the session over them
    ensures answers { AnswersTold (map (λ word. word.now) words.now) (C.shows clock.now) (shown
        (side (S.left input.old) (S.left input.new) (S.source_faults input.old) (S.source_faults input.new))
        (side (O.written output.old) (O.written output.new) (O.sink_faults output.old) (O.sink_faults output.new))
        (folder (F.file files.old) (F.file_faults files.old) (F.file_faults files.new))) result }
    // the words are refused exactly where they are not in the grammar
    ensures usage { RefusesWords (command_of (map (λ word. word.now) words.now)) result }
{
    let command = read_words(words);
    carry_out(alloc, command, words, input, output, files, clock)
}

/// What a server needs beside the rest: the leave to start threads and to wait, a listener, and the gate at which builders stop.
pub struct Network<'a, R, L, G> {
    pub rt: &'a R,
    pub listener: L,
    pub gate: &'a G,
}

/// Carries out a command of the command line, or ends with the fault that it met: a server over a metadata file, which answers the
/// requests of the links that the listener gives; a query over the bundle that the input is; a session over a metadata file that answers
/// the requests of the input; the generator, or a text.
pub fn run<
    R: Threads + Wait + Sync,
    N: End + Send,
    L: Listener<N> + Send,
    G: Gate + Sync,
    S: Source,
    O: Sink,
    F: FileSet,
    C: Clock + Sync,
>(
    network: Network<'_, R, L, G>,
    alloc: Global,
    words: &[&str],
    input: &mut S,
    output: &mut O,
    files: &mut F,
    clock: &C,
) -> Ran<L>
    // each status has its cause; a server that is done served as many links as it says, and answered each of them
    ensures runs { RunsBeside (Untouched N.source_talk N.source_faults) (Answered (C.shows clock.now) N.left N.written N.source_talk N.source_faults)
        (map (λ word. word.now) words.now) (C.shows clock.now) (shown
        (side (S.left input.old) (S.left input.new) (S.source_faults input.old) (S.source_faults input.new))
        (side (O.written output.old) (O.written output.new) (O.sink_faults output.old) (O.sink_faults output.new))
        (folder (F.file files.old) (F.file_faults files.old) (F.file_faults files.new)))
        (L.shows network.entry.listener) (L.shows result.listener) result.status }
    // over told bytes a done run of another command is the reply to the words over them, at a moment that the clock shows, or the session
    ensures answers { AnswersBeside (map (λ word. word.now) words.now) (C.shows clock.now) (shown
        (side (S.left input.old) (S.left input.new) (S.source_faults input.old) (S.source_faults input.new))
        (side (O.written output.old) (O.written output.new) (O.sink_faults output.old) (O.sink_faults output.new))
        (folder (F.file files.old) (F.file_faults files.old) (F.file_faults files.new))) result.status }
    // the words are refused exactly where they are not in the grammar
    ensures usage { RefusesWords (command_of (map (λ word. word.now) words.now)) result.status }
{
    let Network { rt, listener, gate } = network;
    match serving(words) {
        Some((workers, connections)) => {
            let setup = Setup {
                rt,
                alloc,
                clock,
                gate,
                workers,
                connections: u64::from(connections),
            };
            serve_file(&setup, words[1], words[2], output, files, listener)
        }
        None => Ran {
            status: run_offline(alloc, words, input, output, files, clock),
            listener,
        },
    }
}

// The place of the first word that doesn't fit, where the word after so many isn't UTF-8.
fn bad_place(command: Command, words: usize) -> usize
    requires { words < 2 ^ 63 }
    ensures { result ≡ bad_place command words }
{
    match command {
        Command::Bad(place) => place.min(words + 1),
        _ => words + 1,
    }
}

/// Refuses a command line of which the word after these isn't UTF-8, by the first word that doesn't fit.
pub fn refuse_word<O: Sink>(alloc: Global, words: &[&str], output: &mut O) -> Status
    ensures { ReplyRuns (λ reply. reply ≡ usage_reply (bad_place (command_of (map (λ word. word.now) words.now)) (length words.now)))
        (side (O.written output.old) (O.written output.new) (O.sink_faults output.old) (O.sink_faults output.new)) result }
{
    let place = bad_place(read_words(words), words.len());
    deliver(usage_reply(alloc, place), output)
}
