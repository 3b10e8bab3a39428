ghost use Rattle.std.specs.Prelude.{◌≡◌, ◌<◌, ◌≤◌, ◌++◌, ℕ, ℤ, List, length, IfOk};
ghost use Rattle.meta_reader.specs.File.{most_bytes};
ghost use Rattle.dhis_main.specs.Outcome.{line, usage_reply, usage_lines, command_lines, flag_lines, help_reply, version_reply, outcome_of, told_as};
ghost use Rattle.dhis_main.specs.Outcome.{IsQueryReply, IsReport};
ghost use Rattle.dhis_main.specs.Run.{RepliesToInput};
ghost use Rattle.dhis_main.specs.declared.reply.Fault.TheVariants.{Memory as OutOfMemory};

use crate::status::Outcome;
use dh_base::items::Items;
use dh_base::limits::MOST_INPUT_BYTES;
use dh_base::memory::Memory;
use dh_outside::{Clock, FileFault, Source, read_all};
use offline_replies::{Ending, Reply as BundleReply, generated, reply_to_bytes, reply_to_long};
use std::alloc::Global;

/// What the program writes, and what it came to.
#[derive(Drop)]
pub struct Reply {
    pub outcome: Outcome,
    pub text: Items<u8>,
}

/// Why no reply was made.
#[derive(Clone, Copy, Drop)]
pub enum Fault {
    /// The input failed.
    Read,
    /// Memory ran out.
    Memory,
}

impl From<Memory> for Fault {
    ghost from_gives = { λ _ fault. fault ≡ OutOfMemory };

    fn from(_: Memory) -> Fault {
        Fault::Memory
    }
}

// The most bytes that a bundle may have.
const MOST_BYTES: u64 = MOST_INPUT_BYTES as u64;

// A text with a line feed after it.
fn line(alloc: Global, text: &str) -> Result<Items<u8>, Memory>
    ensures { IfOk result (λ made. made ≡ line text.now) }
{
    let mut bytes = text.as_bytes().to_vec(alloc)?;
    bytes.push(b'\n')?;
    Ok(Items::from(bytes))
}

fn outcome_of(ending: Ending) -> Outcome
    ensures { result ≡ outcome_of ending }
{
    match ending {
        Ending::Ok => Outcome::Ok,
        Ending::MetaRefused => Outcome::MetaRefused,
        Ending::QueryRefused => Outcome::QueryRefused,
        Ending::DataRefused => Outcome::DataRefused,
    }
}

// The reply to a query over a bundle, as the program's.
fn told_as(made: BundleReply) -> Reply
    ensures { result ≡ told_as made }
{
    Reply {
        outcome: outcome_of(made.ending),
        text: made.text,
    }
}

/// The refusal of a command line, by the place of the word that doesn't fit.
#[tactic(auto, unfolding(crate::specs::Outcome::usage_reply))]
pub fn usage_reply(alloc: Global, place: usize) -> Result<Reply, Memory>
    ensures { IfOk result (λ reply. reply ≡ usage_reply place) }
{
    let text = format!(in alloc; "dhis: usage: bad word {place}")?;
    Ok(Reply {
        outcome: Outcome::Usage,
        text: line(alloc, text.as_str())?,
    })
}

/// The name of the program and its version.
#[tactic(auto, unfolding(crate::specs::Outcome::version_reply))]
pub fn version_reply(alloc: Global) -> Result<Reply, Memory>
    ensures { IfOk result (λ reply. reply ≡ version_reply) }
{
    Ok(Reply {
        outcome: Outcome::Ok,
        text: line(alloc, "dhis 0.1.0")?,
    })
}

// How each command is written, what it does, and what the other words do.
const HELP: &str = "usage: dhis query USER QUERY < BUNDLE
       dhis session META < REQUESTS
       dhis serve META ADDR WORKERS CONNECTIONS
       dhis generate N
       dhis --help
       dhis --version
query reads a bundle of metadata and values, and writes the analytics body of QUERY for USER.
session reads the metadata file META, answers the HTTP requests of its input, and writes the replies.
serve listens at ADDR, as 127.0.0.1:8080, and answers the requests of CONNECTIONS connections, from 1 to 1000000,
by WORKERS threads, from 1 to 16, over the metadata file META. Then it writes how many it served.
generate brings N values of its own, from 1 to 200000, and writes what they come to.
--help writes this text.
--version writes the version.
";

#[tactic(auto, unfolding(crate::specs::Outcome::usage_lines, crate::specs::Outcome::command_lines, crate::specs::Outcome::flag_lines))]
fn help_text(alloc: Global) -> Result<Vec<u8>, Memory>
    ensures { IfOk result (λ text. text.items ≡ usage_lines ++ command_lines ++ flag_lines) }
{
    Ok(HELP.as_bytes().to_vec(alloc)?)
}

/// How each command is written, and what it does.
#[tactic(auto, unfolding(crate::specs::Outcome::help_reply))]
pub fn help_reply(alloc: Global) -> Result<Reply, Memory>
    ensures { IfOk result (λ reply. reply ≡ help_reply) }
{
    let text = help_text(alloc)?;
    Ok(Reply {
        outcome: Outcome::Ok,
        text: Items::from(text),
    })
}

/// The report on so many generated values, which come at a moment.
pub fn report_reply(alloc: Global, count: u32, moment: i64) -> Result<Reply, Memory>
    requires { count ≤ 200000 }
    ensures { IfOk result (IsReport count moment) }
{
    Ok(Reply {
        outcome: Outcome::Ok,
        text: generated(alloc, count, moment)?,
    })
}

// The reply to a query over these bytes.
fn reply_to_query(
    alloc: Global,
    user: &str,
    query: &str,
    moment: i64,
    bytes: &[u8],
) -> Result<Reply, Memory>
    ensures { IfOk result (IsQueryReply user.now query.now moment bytes.now) }
{
    let made = reply_to_bytes(alloc, user.as_bytes(), query.as_bytes(), moment, bytes)?;
    Ok(told_as(made))
}

// The reply to every query over a bundle that is too long.
fn reply_to_too_long(alloc: Global) -> Result<Reply, Memory>
    ensures { IfOk result (λ reply. (user query : List ℕ) (moment : ℤ) (bytes : List ℕ) → most_bytes < length bytes
        → IsQueryReply user query moment bytes reply) }
{
    let made = reply_to_long(alloc)?;
    Ok(told_as(made))
}

/// Reads the whole input and makes the reply to a query over it.
pub fn reply_to_input<S: Source, C: Clock>(
    alloc: Global,
    user: &str,
    query: &str,
    input: &mut S,
    clock: &C,
) -> Result<Reply, Fault>
    ensures reply { RepliesToInput user.now query.now (C.shows clock.now) (S.left input.old) (S.source_faults input.old) (S.source_faults input.new) result }
    ensures keeps { S.source_faults input.old ≤ S.source_faults input.new }
{
    let moment = clock.now();
    match read_all(alloc, input, MOST_BYTES) {
        Ok(bytes) => Ok(reply_to_query(alloc, user, query, moment, &bytes)?),
        Err(FileFault::TooLong) => Ok(reply_to_too_long(alloc)?),
        Err(FileFault::Failed) => Err(Fault::Read),
        Err(FileFault::Memory) => Err(Fault::Memory),
    }
}
