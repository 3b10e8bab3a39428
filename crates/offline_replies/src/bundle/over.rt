//! The reply over what a bundle says.

ghost use Rattle.std.specs.Prelude.{◌≡◌, ◌<◌, List, None, length, IfOk};
ghost use Rattle.json_read.specs.Forms.{Formed};
ghost use Rattle.json_read.specs.Given.{Gives};
ghost use Rattle.dh_periods.specs.Moment.{day_of};
ghost use Rattle.engine.specs.InMemory.{started};
ghost use Rattle.engine.specs.MetaAfter.{meta_after};
ghost use Rattle.query_answer.specs.Answer.{answer_of};
ghost use Rattle.query_answer.specs.Asked.{CanAnswer};
ghost use Rattle.query_lang.specs.Given.{cause_of};
ghost use Rattle.query_lang.specs.Query.{query_of};
ghost use Rattle.query_lang.specs.declared.query.TheConstants.{MOST_CELLS};
ghost use Rattle.table_rows.specs.Store.{contents_in};
ghost use Rattle.cell_values.specs.Seen.{seen_of};
ghost use Rattle.import_forms.specs.declared.set.SetValue.{SetValue as Given};
ghost use Rattle.offline_replies.specs.Reply.{answer_reply, Refuses};
ghost use Rattle.offline_replies.specs.Answer.{seen_after, reply_to_query, reply_to_load, reply_with_values};
ghost use Rattle.offline_replies.specs.Bytes.{asked};
ghost use Rattle.offline_replies.specs.Steps.{IsOverParts};

use crate::bundle::bytes::Forms;
use crate::bundle::reply::{Ending, Reply, meta_refused, query_refused, told};
use crate::load::load_values;
use crate::named::named;
use cell_values::Seer;
use dh_base::codes::{Code, Refusal};
use dh_base::items::Items;
use dh_base::memory::Memory;
use dh_metadata::kind::Kind;
use dh_metadata::metadata::Metadata;
use dh_periods::day_of;
use engine::{Engine, Tables, Unkept, engine_in_memory, tables_of_all};
use import_forms::set::SetValue;
use json_read::fault::FormFault;
use meta_reader::build::build as metadata;
use meta_reader::fault::MetaFault;
use query_answer::{AnswerFault, answer};
use query_lang::{MOST_CELLS, Query, QueryFault, read_query};
use request_session::error_body;
use std::alloc::Global;
use std::mem::forget;

// The answer to a query over tables.
#[tactic(auto, unfolding(crate::specs::Reply::answer_reply))]
fn over_tables(
    alloc: Global,
    meta: &Metadata,
    user: u32,
    tables: &Tables,
    query: &Query,
) -> Result<Reply, Memory>
    requires user { user < length meta.now.users }
    requires query { CanAnswer meta.now query.now }
    ensures { IfOk result (λ reply. reply ≡ answer_reply (answer_of meta.now query.now (seen_of meta.now user (contents_in tables.now.all)))) }
{
    let seer = Seer::of(alloc, meta, user)?;
    let found = answer(alloc, meta, tables, &seer, query);
    drop(seer);
    match found {
        Ok(body) => told(Ending::Ok, body.items),
        Err(AnswerFault::Wide { id }) => query_refused(
            alloc,
            &Refusal {
                code: Code::F18,
                detail: id,
            },
        ),
        Err(AnswerFault::Memory) => Err(Memory),
    }
}

// The answer to a query over the tables of an engine's whole log.
fn over_log(
    alloc: Global,
    engine: &mut Engine<Unkept>,
    user: u32,
    query: &Query,
) -> Result<Reply, Memory>
    requires free { engine.old.state.full ≡ None }
    requires more { engine.old.state.ticket < engine.old.limits.updates }
    requires user { user < length (meta_after engine.old.meta engine.old.state.log).users }
    requires query { CanAnswer (meta_after engine.old.meta engine.old.state.log) query.now }
    ensures { IfOk result (λ reply. reply ≡ answer_reply
        (answer_of (meta_after engine.old.meta engine.old.state.log) query.now (seen_after engine.old.meta user engine.old.state.log))) }
{
    let tables = tables_of_all(alloc, engine)?;
    over_tables(alloc, engine.latest_meta(), user, &tables, query)
}

// The reply to a query that isn't read.
fn refuse(alloc: Global, fault: &QueryFault) -> Result<Reply, Memory>
    ensures { IfOk result (Refuses (cause_of fault.now)) }
{
    match fault {
        QueryFault::Refused(refused) => query_refused(alloc, refused),
        QueryFault::Memory => Err(Memory),
    }
}

// The reply to a query's text over an engine's whole log.
#[tactic(auto, using(crate::proofs::AskLemmas::asking), unfolding(crate::specs::Answer::reply_to_query))]
fn reply_to_query(
    alloc: Global,
    engine: &mut Engine<Unkept>,
    user: u32,
    query: &[u8],
    moment: i64,
) -> Result<Reply, Memory>
    requires free { engine.old.state.full ≡ None }
    requires more { engine.old.state.ticket < engine.old.limits.updates }
    requires user { user < length engine.old.meta.users }
    ensures { IfOk result (λ reply. reply ≡ reply_to_query engine.old.meta user engine.old.state.log
        (query_of (meta_after engine.old.meta engine.old.state.log) user (day_of moment) MOST_CELLS query.now)) }
{
    match read_query(
        alloc,
        query,
        engine.latest_meta(),
        user,
        day_of(moment),
        MOST_CELLS,
    ) {
        Ok(query) => over_log(alloc, engine, user, &query),
        Err(fault) => refuse(alloc, &fault),
    }
}

// The reply over an engine without a change, to which the values are brought. All are taken, or the report on them says which are not.
#[tactic(auto, unfolding(crate::specs::Answer::reply_to_load))]
fn reply_to_load(
    alloc: Global,
    engine: &mut Engine<Unkept>,
    user: u32,
    query: &[u8],
    moment: i64,
    values: Items<SetValue>,
) -> Result<Reply, Memory>
    requires start { engine.old ≡ started engine.old.meta }
    requires user { user < length engine.old.meta.users }
    ensures { IfOk result (λ reply. reply ≡ reply_to_load engine.old.meta user query.now moment values) }
{
    match load_values(alloc, engine, moment, values)? {
        Ok(report) => {
            if report.status == 200 {
                reply_to_query(alloc, engine, user, query, moment)
            } else {
                told(Ending::DataRefused, report.body.items)
            }
        }
        Err(refused) => told(Ending::DataRefused, error_body(alloc, &refused)?),
    }
}

// The reply over an engine without a change, and what the values of the bundle are.
#[tactic(auto, unfolding(crate::specs::Answer::reply_with_values))]
fn reply_to_values(
    alloc: Global,
    engine: &mut Engine<Unkept>,
    user: &[u8],
    query: &[u8],
    moment: i64,
    values: Result<Items<SetValue>, FormFault>,
) -> Result<Reply, Memory>
    requires { engine.old ≡ started engine.old.meta }
    ensures { IfOk result (λ reply. (formed : Formed (List Given)) → Gives formed values
        → reply ≡ reply_with_values engine.old.meta user.now query.now moment formed) }
{
    match values {
        Ok(values) => match named(engine.meta(), Kind::User, user) {
            Some(user) => reply_to_load(alloc, engine, user, query, moment, values),
            None => {
                drop(values);
                query_refused(
                    alloc,
                    &Refusal {
                        code: Code::F8,
                        detail: Items::new(alloc),
                    },
                )
            }
        },
        Err(FormFault::At(path)) => meta_refused(alloc, &MetaFault::Shape { path }),
        Err(FormFault::Memory) => Err(Memory),
    }
}

// The same over metadata. The memory of their engine isn't given back piece by piece: the program ends with the reply.
fn over_metadata(
    alloc: Global,
    meta: Metadata,
    user: &[u8],
    query: &[u8],
    moment: i64,
    values: Result<Items<SetValue>, FormFault>,
) -> Result<Reply, Memory>
    ensures { IfOk result (λ reply. (formed : Formed (List Given)) → Gives formed values → reply ≡ reply_with_values meta user.now query.now moment formed) }
{
    match engine_in_memory(alloc, meta) {
        Ok(engine) => {
            let mut engine = engine;
            let reply = reply_to_values(alloc, &mut engine, user, query, moment, values);
            forget(engine);
            reply
        }
        Err(memory) => {
            drop(values);
            Err(memory)
        }
    }
}

/// The reply over what a bundle says: its first fault, or the reply over its metadata and values.
pub(crate) fn over_forms(
    alloc: Global,
    user: &[u8],
    query: &[u8],
    moment: i64,
    forms: Forms,
) -> Result<Reply, Memory>
    ensures { IfOk result (λ reply. (formed : Formed (List Given)) → Gives formed forms.values
        → IsOverParts (asked user.now query.now moment) forms.parts formed reply) }
{
    match metadata(alloc, forms.parts) {
        Ok(meta) => over_metadata(alloc, meta, user, query, moment, forms.values),
        Err(MetaFault::Memory) => Err(Memory),
        Err(fault) => meta_refused(alloc, &fault),
    }
}
