//! What is told of a fault.

ghost use Rattle.std.specs.Prelude.{◌≡◌, [], IfOk};
ghost use lib.Chars.{codes};
ghost use Rattle.std.specs.Fmt.{decimal};
ghost use Rattle.meta_rules.specs.Faults.{rule_text};
ghost use Rattle.meta_reader.specs.Text.{fault_text};
ghost use Rattle.meta_reader.specs.Line.{object_text, which_text, line_of};

use crate::fault::{MetaFault, Which};
use crate::text::fault_text;
use dh_base::items::Items;
use dh_base::memory::Memory;
use dh_base::uid::Uid;
use meta_rules::fault::BrokenRule;
use std::alloc::{AllocError, Global};

fn which_text(which: Which) -> &'static str
    ensures { result.now ≡ which_text which }
{
    match which {
        Which::Bytes => "bytes",
        Which::Objects(limit) => limit.text(),
    }
}

fn place_text(alloc: Global, at: usize) -> Result<Vec<u8>, AllocError>
    ensures { IfOk result (λ text. text.items ≡ decimal at) }
{
    Ok(format!(in alloc; "{at}")?.into_bytes())
}

fn expression_line(alloc: Global, uid: Uid, at: usize) -> Result<Items<u8>, Memory>
    ensures { IfOk result (λ text. text ≡ fault_text (codes "Expr") uid (decimal at)) }
{
    let place = place_text(alloc, at)?;
    fault_text(alloc, "Expr", &uid.bytes(), &place)
}

fn rule_line(alloc: Global, uid: Option<Uid>, rule: BrokenRule) -> Result<Items<u8>, Memory>
    ensures { IfOk result (λ text. text ≡ fault_text (codes "Rule") (object_text uid) (rule_text rule)) }
{
    match uid {
        Some(uid) => fault_text(alloc, "Rule", &uid.bytes(), rule.text().as_bytes()),
        None => fault_text(alloc, "Rule", b"none", rule.text().as_bytes()),
    }
}

/// The text of a fault, its parts separated by one space, as `Unknown OuNowhere01 organisationUnits.5.parent`.
#[tactic(auto, unfolding(crate::specs::Line::line_of))]
pub fn fault_line(alloc: Global, fault: &MetaFault) -> Result<Items<u8>, Memory>
    ensures { IfOk result (λ text. text ≡ line_of fault.now) }
{
    match fault {
        MetaFault::NotJson => fault_text(alloc, "NotJson", b"", b""),
        MetaFault::Shape { path } => fault_text(alloc, "Shape", path.as_slice(), b""),
        MetaFault::Unknown { uid, path } => {
            fault_text(alloc, "Unknown", &uid.bytes(), path.as_slice())
        }
        MetaFault::Twice { uid } => fault_text(alloc, "Twice", &uid.bytes(), b""),
        MetaFault::Expr { uid, at } => expression_line(alloc, *uid, *at),
        MetaFault::Rule { uid, which } => rule_line(alloc, *uid, *which),
        MetaFault::Limit { which } => {
            fault_text(alloc, "Limit", which_text(*which).as_bytes(), b"")
        }
        MetaFault::Memory => fault_text(alloc, "Memory", b"", b""),
    }
}
