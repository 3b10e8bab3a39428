//! Lists that grow by what is found.
ghost use Rattle.std.specs.Prelude.{◌≡◌, ◌++◌, OnOk};
ghost use Rattle.std.specs.Option.{option_to_list};

use dh_base::memory::Memory;

/// Adds what is found, if anything is.
pub fn put_found<T: Drop>(list: &mut Vec<T>, found: Option<T>) -> Result<(), Memory>
    ensures { OnOk result (list.new.items ≡ list.old.items ++ option_to_list found) }
{
    if let Some(member) = found {
        list.push(member)?;
    }
    Ok(())
}
