//! Items that stand once.
ghost use Rattle.std.specs.Prelude.{◌≡◌, IfOk, OnOk};
ghost use Rattle.query_lang.specs.Once.{with_new, same_bytes, texts_once, pieces, KnowsTexts};
ghost use Rattle.query_lang.specs.Items.{item_texts};

use dh_base::items::Items;
use dh_base::memory::Memory;
use std::alloc::Global;
use std::collections::HashSet;
use std::mem::replace;

/// The pieces of a text between its semicolons.
#[tactic(auto, unfolding(crate::specs::Once::pieces))]
fn pieces(alloc: Global, text: &[u8]) -> Result<Vec<Items<u8>>, Memory>
    ensures { IfOk result (λ found. found.items ≡ pieces text.now) }
{
    let mut found = Vec::new(alloc);
    let mut piece = Items::new(alloc);
    for byte in text {
        if *byte == b';' {
            found.push(replace(&mut piece, Items::new(alloc)))?;
        } else {
            piece.push(*byte)?;
        }
    }
    found.push(piece)?;
    Ok(found)
}

fn copied(alloc: Global, text: &[u8]) -> Result<Vec<u8>, Memory>
    ensures { IfOk result (λ copy. copy.items ≡ text.now) }
{
    Ok(Vec::from_slice(alloc, text)?)
}

/// Puts a text at the end unless it is there.
fn put_new(
    alloc: Global,
    kept: &mut Vec<Items<u8>>,
    seen: &mut HashSet<Vec<u8>>,
    text: &[u8],
) -> Result<(), Memory>
    requires { KnowsTexts seen.old kept.old.items }
    ensures kept { OnOk result (kept.new.items ≡ with_new same_bytes kept.old.items text.now) }
    ensures seen { OnOk result (KnowsTexts seen.new kept.new.items) }
{
    if seen.contains(text) {
        return Ok(());
    }
    let item = Items::from(copied(alloc, text)?);
    kept.push(item)?;
    let key = copied(alloc, text)?;
    seen.insert(key)?;
    Ok(())
}

/// Texts, each once.
#[tactic(auto, unfolding(crate::specs::Once::texts_once))]
fn texts_once(alloc: Global, texts: &[Items<u8>]) -> Result<Vec<Items<u8>>, Memory>
    ensures { IfOk result (λ kept. kept.items ≡ texts_once texts.now) }
{
    let mut kept = Vec::new(alloc);
    let mut seen = HashSet::new(alloc);
    for text in texts {
        put_new(alloc, &mut kept, &mut seen, text.as_slice())?;
    }
    Ok(kept)
}

/// The items of a dimension, each once.
#[tactic(auto, unfolding(crate::specs::Items::item_texts))]
pub(crate) fn item_texts(alloc: Global, text: &[u8]) -> Result<Vec<Items<u8>>, Memory>
    ensures { IfOk result (λ texts. texts.items ≡ item_texts text.now) }
{
    let pieces = pieces(alloc, text)?;
    texts_once(alloc, &pieces)
}
