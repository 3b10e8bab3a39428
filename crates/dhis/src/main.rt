//! The program: the words of its command line, and the system's input, output, files, clock and network, for `dhis_main::run`,
//! which does all that it does and says so by its clauses.
#![tactic(auto)]

use dh_outside::{RealFiles, StdIn, StdOut, SystemClock};
use dhis_main::run::{Network, refuse_word, run};
use dhis_main::status::Status;
use net_doors::TcpDoor;
use shared_engine::OpenGate;
use std::alloc::{AllocError, Global};
use std::env::FillError;
use std::io;
use std::process::ExitCode;
use std::rt::Env;
use std::sync::Wait;
use std::thread::Threads;

// The most bytes of one word of the command line: the system allows no more.
const LONGEST_WORD: usize = 131_072;

// The most words that are looked at. The grammar has fewer.
const MOST_WORDS: usize = 8;

// The words of the command line up to the first that isn't UTF-8.
#[derive(Drop)]
struct CommandLine {
    words: Vec<String>,
    is_text: bool,
}

// What stands at a place of the command line.
#[derive(Drop)]
enum Word {
    Missing,
    NotText,
    Text(String),
}

fn text_of(alloc: Global, bytes: &[u8]) -> Result<Word, AllocError> {
    match String::from_utf8(bytes.to_vec(alloc)?) {
        Ok(text) => Ok(Word::Text(text)),
        Err(_) => Ok(Word::NotText),
    }
}

fn word_at<R: Env>(
    rt: &R,
    alloc: Global,
    place: usize,
    room: &mut [u8],
) -> Result<Word, AllocError> {
    match rt.arg(place, room) {
        Ok(count) => text_of(alloc, &room[..count]),
        Err(FillError::NotPresent) => Ok(Word::Missing),
        Err(FillError::TooLong) => Ok(Word::NotText),
    }
}

// Puts the words into the list, and says whether all are text.
fn push_words<R: Env>(
    rt: &R,
    alloc: Global,
    room: &mut [u8],
    words: &mut Vec<String>,
) -> Result<bool, AllocError> {
    for place in 1..MOST_WORDS {
        match word_at(rt, alloc, place, room)? {
            Word::Text(word) => words.push(word)?,
            Word::Missing => return Ok(true),
            Word::NotText => return Ok(false),
        }
    }
    Ok(true)
}

fn command_line<R: Env>(rt: &R, alloc: Global) -> Result<CommandLine, AllocError> {
    let mut room = vec![in alloc; 0u8; LONGEST_WORD]?;
    let mut words = Vec::new(alloc);
    let is_text = push_words(rt, alloc, &mut room, &mut words)?;
    Ok(CommandLine { words, is_text })
}

fn texts_of(alloc: Global, words: &[String]) -> Result<Vec<&str>, AllocError> {
    let mut texts = Vec::new(alloc);
    for word in words {
        texts.push(word.as_str())?;
    }
    Ok(texts)
}

// Handles for the files, the clock and the network.
struct Handles {
    files: HostRuntime,
    clock: HostRuntime,
    net: HostRuntime,
}

fn make_handles(rt: &HostRuntime) -> Result<Handles, AllocError> {
    Ok(Handles {
        files: rt.clone()?,
        clock: rt.clone()?,
        net: rt.clone()?,
    })
}

// Carries out the words over the standard input and output, the files, the clock and the network.
fn run_with<R: Threads + Wait + Sync>(
    rt: &HostRuntime,
    threads: &R,
    alloc: Global,
    words: &[&str],
    handles: Handles,
) -> Status {
    let Handles { files, clock, net } = handles;
    let mut input = StdIn::new(rt.reader());
    let mut output = StdOut::new(io::writer(rt));
    let mut files = RealFiles::new(files);
    let clock = SystemClock::new(clock);
    let network = Network {
        rt: threads,
        listener: TcpDoor::new(net),
        gate: &OpenGate,
    };
    let ran = run(
        network,
        alloc,
        words,
        &mut input,
        &mut output,
        &mut files,
        &clock,
    );
    ran.status
}

fn refuse(rt: &HostRuntime, alloc: Global, words: &[&str]) -> Status {
    let mut output = StdOut::new(io::writer(rt));
    refuse_word(alloc, words, &mut output)
}

fn run_text<R: Threads + Wait + Sync>(
    rt: &HostRuntime,
    threads: &R,
    alloc: Global,
    words: &[&str],
) -> Result<Status, AllocError> {
    Ok(run_with(rt, threads, alloc, words, make_handles(rt)?))
}

fn start<R: Threads + Wait + Sync>(rt: &HostRuntime, threads: &R) -> Result<Status, AllocError> {
    let alloc = rt.alloc();
    let line = command_line(rt, alloc)?;
    let words = texts_of(alloc, &line.words)?;
    if line.is_text {
        run_text(rt, threads, alloc, &words)
    } else {
        Ok(refuse(rt, alloc, &words))
    }
}

fn main(rt: HostRuntime) -> ExitCode {
    match start(&rt, &rt) {
        Ok(status) => ExitCode::from(status.code()),
        Err(_) => ExitCode::from(Status::Memory.code()),
    }
}
