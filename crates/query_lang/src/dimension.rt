//! The items of a dimension.
ghost use Rattle.std.specs.Prelude.{◌≡◌, IfOk};
ghost use Rattle.query_lang.specs.Items.{each, dx_item, unit_item, item_texts};

use crate::item::{DxItem, UnitItem, dx_form, unit_form};
use crate::once::item_texts;
use dh_base::items::Items;
use dh_base::memory::Memory;
use std::alloc::Global;

/// An item of a dimension.
pub(crate) trait ReadItem: Sized + Drop {
    ghost use Rattle.std.specs.Prelude.{ℕ, List, Option};

    /// What a text stands for, `None` where it has no form of such an item.
    ghost form: { List ℕ → Option Self };

    /// Reads the item.
    fn read(alloc: Global, text: &[u8]) -> Result<Option<Self>, Memory>
        ensures { IfOk result (λ item. item ≡ form text.now) };
}

impl ReadItem for DxItem {
    ghost form = { dx_item };

    fn read(alloc: Global, text: &[u8]) -> Result<Option<DxItem>, Memory> {
        let Some(form) = dx_form(text) else {
            return Ok(None);
        };
        let text = Items::from(Vec::from_slice(alloc, text)?);
        Ok(Some(DxItem { form, text }))
    }
}

impl ReadItem for UnitItem {
    ghost form = { unit_item };

    fn read(alloc: Global, text: &[u8]) -> Result<Option<UnitItem>, Memory> {
        let Some(form) = unit_form(text) else {
            return Ok(None);
        };
        let text = Items::from(Vec::from_slice(alloc, text)?);
        Ok(Some(UnitItem { form, text }))
    }
}

fn each<T: ReadItem>(alloc: Global, texts: &[Items<u8>]) -> Result<Option<Items<T>>, Memory>
    ensures { IfOk result (λ items. items ≡ each T.form texts.now) }
{
    let mut items = Vec::new(alloc);
    for text in texts {
        let Some(item) = T::read(alloc, text.as_slice())? else {
            return Ok(None);
        };
        items.push(item)?;
    }
    Ok(Some(Items::from(items)))
}

/// The items of a dimension, each once; `None` where one has no form.
pub(crate) fn items_of<T: ReadItem>(alloc: Global, text: &[u8]) -> Result<Option<Items<T>>, Memory>
    ensures { IfOk result (λ items. items ≡ each T.form (item_texts text.now)) }
{
    let texts = item_texts(alloc, text)?;
    each(alloc, &texts)
}
