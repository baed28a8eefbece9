//! A map in the order of names: finding and adding values.
ghost use Rattle.std.specs.Prelude.{◌≡◌, ◌<◌, ◌≤◌, ◌+◌, false, length, is_some, position, slice_get, IfSome, IsOk, OnOk, OnErr, IsSorted, option_copied};
ghost use Rattle.indexmap.specs.IndexMap.{keys, values, spare};
ghost use Rattle.zed_stats.specs.ByName.{key_cmp, same, under, add as added, add_all as all_added};

use crate::named::Named;
use indexmap::IndexMap;
use std::alloc::AllocError;

/// The position of a name's value, if there is one. `likely` is looked at first.
pub fn seek<K: Named, V>(entries: &IndexMap<K, V>, likely: usize, id: K) -> Option<usize>
    ensures index { result ≡ position (same K.name id) (keys entries.now) }
    ensures found { is_some result ≡ is_some (under K.name id entries.now.entries) }
    ensures value { IfSome result (λ i.
        slice_get (values entries.now) i ≡ under K.name id entries.now.entries) }
{
    if likely < entries.len() {
        if let Some((name, _)) = entries.get_index(likely) {
            if *name == id {
                return Some(likely);
            }
        }
    }
    entries.get_index_of(&id)
}

/// The value of a name, if there is one. `likely` is looked at first.
pub fn find<K: Named, V>(entries: &IndexMap<K, V>, likely: usize, id: K) -> Option<&V>
    ensures { option_copied result ≡ under K.name id entries.now.entries }
{
    match seek(entries, likely, id) {
        Some(i) => {
            let (_, value) = entries.get_index(i)?;
            Some(value)
        }
        None => None,
    }
}

/// Adds a value at its place. If its name already has a value, that one stays. On Err nothing
/// changes.
pub fn add<K: Named, V: Drop>(
    entries: &mut IndexMap<K, V>,
    id: K,
    value: V,
) -> Result<(), AllocError>
    requires { IsSorted (key_cmp K.name) (keys entries.old) }
    ensures ok { OnOk result (entries.new.entries ≡ added K.name id value entries.old.entries) }
    ensures kept { OnErr result (entries.new.entries ≡ entries.old.entries) }
    ensures memory_only_when { OnErr result (is_some (under K.name id entries.old.entries) ≡ false) }
    ensures succeeds { 0 < spare entries.old → IsOk result }
    ensures room { spare entries.old ≤ spare entries.new + 1 }
    ensures sorted { IsSorted (key_cmp K.name) (keys entries.new) }
{
    if entries.contains_key(&id) {
        return Ok(());
    }
    match entries.insert_sorted(id, value) {
        Ok(_) => Ok(()),
        Err(_) => Err(AllocError),
    }
}

/// Adds values, each at its place. There is room for all of them.
pub fn add_each<K: Named, V: Drop>(entries: &mut IndexMap<K, V>, more: Vec<(K, V)>)
    requires room { length more.items ≤ spare entries.old }
    requires sorted { IsSorted (key_cmp K.name) (keys entries.old) }
    ensures entries { entries.new.entries ≡ all_added K.name more.items entries.old.entries }
    ensures sorted { IsSorted (key_cmp K.name) (keys entries.new) }
{
    for entry in more {
        let (id, value) = entry;
        match add(entries, id, value) {
            Ok(()) => {}
            Err(_) => {}
        }
    }
}
