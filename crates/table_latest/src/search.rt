//! Keys in their order, found by binary search.
ghost use Rattle.std.specs.Prelude.{◌≡◌};
ghost use Rattle.std.specs.Cmp.{IsTotalOrder};
ghost use Rattle.std.specs.List.Sorted.{IsStrictlySortedBy};
ghost use Rattle.table_latest.specs.Keys.{IsCutAt, is_among};

/// How many of the keys stand before this one.
pub(crate) fn cut_at<K: Ord>(keys: &[K], key: &K) -> usize
    requires total { IsTotalOrder K.cmp }
    requires rise { IsStrictlySortedBy K.cmp keys.now }
    ensures { IsCutAt K.cmp key.now keys.now result }
{
    match keys.binary_search(key) {
        Ok(at) => at,
        Err(at) => at,
    }
}

/// Whether the key is one of these.
pub(crate) fn is_among<K: Ord>(keys: &[K], key: &K) -> bool
    requires total { IsTotalOrder K.cmp }
    requires rise { IsStrictlySortedBy K.cmp keys.now }
    ensures { result ≡ is_among K.cmp keys.now key.now }
{
    match keys.binary_search(key) {
        Ok(_) => true,
        Err(_) => false,
    }
}
