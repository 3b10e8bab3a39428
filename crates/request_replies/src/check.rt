//! The reply to a check.
ghost use Rattle.std.specs.Prelude.{◌≡◌, ◌<◌, length, Some, Ok, Err, IfOk};
ghost use Rattle.engine.specs.MetaAfter.{published_meta};
ghost use Rattle.cell_values.specs.Seen.{contents_of};
ghost use Rattle.std.specs.List.{All};
ghost use Rattle.validation.specs.Run.{IsChecking, IsRuleOf, cause_of};
ghost use Rattle.request_session.specs.Replies.{text_in};
ghost use Rattle.request_replies.specs.Texts.{told};
ghost use Rattle.request_replies.specs.Checks.{CheckReply, place_of, check_reply, refused_text, check_by};

use crate::texts::{number_reply, refusal_reply};
use cell_values::{Seer, Source};
use dh_base::codes::{Code, Refusal};
use dh_base::items::Items;
use dh_base::memory::Memory;
use dh_base::uid::Uid;
use dh_metadata::metadata::Metadata;
use dh_outside::Keeper;
use engine::{Engine, LookFault};
use request_session::{Reply, whole_reply};
use std::alloc::Global;
use table_rows::RowStore;
use validation::{CheckFault, Place, Violation, body, run};
use web_routes::checked::Checked;

/// What a call names, as a place to be checked.
pub fn place_of(checked: &Checked) -> Place
    ensures { result ≡ place_of checked.now }
{
    Place {
        set: checked.set,
        period: checked.period,
        unit: checked.unit,
    }
}

// The violations are told.
#[tactic(auto, using(crate::proofs::Statuses::ok_status), unfolding(crate::specs::Checks::check_reply))]
fn checked(
    alloc: Global,
    meta: &Metadata,
    published: u64,
    keep: bool,
    violations: &[Violation],
) -> Result<Reply, Memory>
    requires { All (IsRuleOf meta.now) violations.now }
    ensures { IfOk result (λ reply. text_in reply ≡ check_reply meta.now published keep (Ok violations.now)) }
{
    let text = body(alloc, meta, violations)?;
    Ok(whole_reply(200, Some(published), None, keep, text))
}

#[tactic(auto, unfolding(crate::specs::Checks::check_reply))]
fn too_wide(
    alloc: Global,
    meta: &Metadata,
    published: u64,
    keep: bool,
    id: Uid,
) -> Result<Reply, Memory>
    ensures { IfOk result (λ reply. text_in reply ≡ check_reply meta.now published keep (Err id)) }
{
    let refused = Refusal {
        code: Code::F18,
        detail: Items::from(Vec::from_slice(alloc, &id.bytes())?),
    };
    refusal_reply(alloc, Some(published), keep, &refused)
}

// A check that gives no violations is refused for its cause.
fn refuse(
    alloc: Global,
    meta: &Metadata,
    published: u64,
    keep: bool,
    fault: &CheckFault,
) -> Result<Reply, Memory>
    ensures { IfOk result (λ reply. refused_text meta.now published keep (cause_of fault.now) ≡ Some (text_in reply)) }
{
    match fault {
        CheckFault::Wide { id } => too_wide(alloc, meta, published, keep, *id),
        CheckFault::Memory => Err(Memory),
    }
}

// The check over the rows of tables that stand for so many changes.
#[tactic(auto, using(crate::proofs::TellLemmas::check_refused), unfolding(crate::specs::Checks::check_by))]
fn over_rows<S: RowStore>(
    alloc: Global,
    source: &Source<'_, S>,
    place: &Place,
    published: u64,
    keep: bool,
) -> Result<Reply, Memory>
    requires { IsChecking source.now.meta.now source.now.seer.now place.now }
    ensures { IfOk result (λ reply. text_in reply ≡ check_by source.now.meta.now
        (contents_of (S.rows source.now.store.now) (S.events source.now.store.now) (S.regs source.now.store.now))
        source.now.seer.now.user place.now keep published) }
{
    match run(alloc, source, place) {
        Ok(violations) => checked(alloc, source.meta, published, keep, violations.as_slice()),
        Err(fault) => refuse(alloc, source.meta, published, keep, &fault),
    }
}

/// The check for a user over tables that stand for so many changes.
pub fn by_user<S: RowStore>(
    alloc: Global,
    meta: &Metadata,
    user: u32,
    store: &S,
    place: &Place,
    published: u64,
    keep: bool,
) -> Result<Reply, Memory>
    requires user { user < length meta.now.users }
    requires set { place.now.set < length meta.now.data_sets }
    requires unit { place.now.unit < length meta.now.organisation_units }
    ensures { IfOk result (λ reply. text_in reply ≡ check_by meta.now (contents_of (S.rows store.now) (S.events store.now) (S.regs store.now)) user place.now
        keep published) }
{
    let seer = Seer::of(alloc, meta, user)?;
    let source = Source {
        meta,
        store,
        seer: &seer,
    };
    over_rows(alloc, &source, place, published, keep)
}

/// The reply to a check over the tables that are published.
#[tactic(auto, using(crate::proofs::TellLemmas::is_told))]
pub(crate) fn reply_to_check<K: Keeper>(
    alloc: Global,
    engine: &Engine<K>,
    user: u32,
    asked: u64,
    checked: &Checked,
    keep: bool,
) -> Result<Reply, Memory>
    requires user { user < length (published_meta engine.now).users }
    requires set { checked.now.set < length (published_meta engine.now).data_sets }
    requires unit { checked.now.unit < length (published_meta engine.now).organisation_units }
    ensures { CheckReply engine.now user asked (place_of checked.now) keep (told result) }
{
    let place = place_of(checked);
    match engine.look(asked) {
        Ok(view) => by_user(
            alloc,
            engine.published_meta(),
            user,
            &*view.tables,
            &place,
            view.published,
            keep,
        ),
        Err(LookFault::NotYet { published }) => number_reply(alloc, keep, Code::F19, published),
        Err(LookFault::Memory) => Err(Memory),
    }
}
