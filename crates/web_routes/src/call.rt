//! What a request asks for.

use crate::checked::Checked;
use dh_approvals::ApprovalAct;
use dh_base::items::Items;
use dh_base::plain::CutKind;
use import_forms::bundle::Bundle;
use import_forms::completion::Completion;
use import_forms::set::ValueSet;
use query_lang::Query;

/// What a request asks for. Users are told by number.
#[derive(Drop)]
pub enum Call {
    /// A query over tables that have taken in so many changes.
    Query {
        user: u32,
        asked: u64,
        query: Query,
    },
    /// A check against the validation rules, over tables that have taken in so many changes.
    Check {
        user: u32,
        asked: u64,
        checked: Checked,
    },
    /// An update of the tables.
    Update {
        kind: CutKind,
    },
    /// An import of data values.
    Values {
        user: u32,
        set: ValueSet,
    },
    /// Complete data set registrations, made and taken away.
    Completion {
        user: u32,
        list: Items<Completion>,
    },
    /// Data is approved or accepted, or no longer.
    Approval {
        user: u32,
        act: ApprovalAct,
    },
    /// A tracker bundle.
    Tracker {
        user: u32,
        bundle: Bundle,
    },
}
