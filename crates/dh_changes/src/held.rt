ghost use Rattle.std.specs.Prelude.{◌≡◌, true, None, Some, OnOk};
ghost use Rattle.std.specs.Option.{is_some, option_copied};
ghost use Rattle.std.specs.HashMap.{get, Updates};
ghost use Rattle.dh_changes.specs.Maps.{Grows};
ghost use Rattle.dh_changes.specs.Maps as maps;

use dh_base::memory::Memory;
use std::collections::HashMap;
use std::hash::Hash;

/// Enters a key, which holds nothing unless it is there already.
pub fn enter<K: Eq + Hash + Copy, V: Drop>(
    map: &mut HashMap<K, V>,
    key: &K,
    nothing: V,
) -> Result<(), Memory>
    ensures grows { Grows K.eq nothing map.old map.new }
    ensures there { OnOk result (is_some (get K.eq map.new key.now) ≡ true) }
{
    map.entry(*key)?.or_insert(nothing);
    Ok(())
}

/// Has a key that is there hold something else. It takes no memory.
pub fn put<K: Eq + Hash + Copy, V: Drop>(map: &mut HashMap<K, V>, key: K, value: V)
    requires { is_some (get K.eq map.old key) ≡ true }
    ensures { Updates K.eq map.old map.new key (Some value) }
{
    // At a key that is there it can't fail.
    let _ = map.insert(key, value);
}

/// What a key holds, lent.
pub fn look<'a, K: Eq + Hash, X>(map: &'a HashMap<K, Option<X>>, key: &K) -> Option<&'a X>
    ensures { option_copied result ≡ maps.held K.eq None map.now key.now }
{
    match map.get(key) {
        Some(held) => held.as_ref(),
        None => None,
    }
}
