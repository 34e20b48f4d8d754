//! The keys that all elements of a type have, and their values.
ghost use Rattle.std.specs.Prelude.{◌≡◌, ◌++◌, [], IfOk, MatchOption, OnOk, Some, filter, map};
ghost use Rattle.std.specs.List.{cons_option};
ghost use Rattle.doc_values.specs.Places.{label_at};
ghost use Rattle.rule_generator.specs.GeneratedRules.{entries_in, keys_in, keys_of};
ghost use Rattle.rule_generator.specs.code.PropertyMaps.{AreProperties, is_kept_in, kept_in, keys_in_maps as the_keys};
ghost use Rattle.rule_generator.specs.code.Seen.{see, values_seen};
ghost use Rattle.rule_generator.specs.code.SeenKeys.{keys_seen};

use crate::element::{ends_in_backslash, is_map, properties};
use crate::scalar::values_of;
use doc_values::Cursor;
use std::alloc::{AllocError, Global};

/// A key that is kept for the elements of a type, and its values, each once.
#[derive(Drop)]
pub(crate) struct Kept<'t, 's> {
    pub key: &'t str,
    pub values: Vec<Cursor<'t, 's>>,
}

/// The keys that are kept for the elements of a type, and their values.
pub(crate) fn kept_keys<'t, 's>(
    alloc: Global,
    members: &[Cursor<'t, 's>],
) -> Result<Vec<Kept<'t, 's>>, AllocError>
    ensures { IfOk result (λ keys. keys_seen keys.items ≡ keys_of (values_seen members.now)) }
{
    let Some(maps) = property_maps(alloc, members)? else {
        return Ok(Vec::new(alloc));
    };
    keys_in_maps(alloc, &maps)
}

/// What stands under `Properties` in elements, if it does so in each; else no key is kept for them.
fn property_maps<'t, 's>(
    alloc: Global,
    members: &[Cursor<'t, 's>],
) -> Result<Option<Vec<Cursor<'t, 's>>>, AllocError>
    ensures { IfOk result (λ found. MatchOption found (keys_of (values_seen members.now) ≡ [])
        (λ maps. AreProperties (values_seen members.now) (values_seen maps.items))) }
{
    let mut maps = Vec::new(alloc);
    for member in members {
        let Some(map) = properties(member) else {
            return Ok(None);
        };
        maps.push(map)?;
    }
    Ok(Some(maps))
}

/// The keys that are kept for the elements of which these are the properties, and their values.
fn keys_in_maps<'t, 's>(
    alloc: Global,
    maps: &[Cursor<'t, 's>],
) -> Result<Vec<Kept<'t, 's>>, AllocError>
    ensures { IfOk result (λ keys. keys_seen keys.items ≡ the_keys (values_seen maps.now)) }
{
    let mut keys = Vec::new(alloc);
    let Some(first) = maps.first() else {
        return Ok(keys);
    };
    push_kept(alloc, &mut keys, first, maps)?;
    Ok(keys)
}

/// Appends the keys of a map that are kept.
fn push_kept<'t, 's>(
    alloc: Global,
    keys: &mut Vec<Kept<'t, 's>>,
    first: &Cursor<'t, 's>,
    maps: &[Cursor<'t, 's>],
) -> Result<(), AllocError>
    ensures { OnOk result (keys_seen keys.new.items ≡ keys_seen keys.old.items
        ++ map (kept_in (values_seen maps.now)) (filter (is_kept_in (values_seen maps.now)) (keys_in (entries_in (Some (see first.now)))))) }
{
    if !is_map(first.kind()) {
        return Ok(());
    }
    for i in 0..first.len() {
        push_if_kept(alloc, keys, &first.child(i), i, maps)?;
    }
    Ok(())
}

/// Appends the key of an entry, which stands at a place, if it is kept.
fn push_if_kept<'t, 's>(
    alloc: Global,
    keys: &mut Vec<Kept<'t, 's>>,
    entry: &Cursor<'t, 's>,
    place: usize,
    maps: &[Cursor<'t, 's>],
) -> Result<(), AllocError>
    ensures { OnOk result (keys_seen keys.new.items ≡ keys_seen keys.old.items
        ++ map (kept_in (values_seen maps.now)) (filter (is_kept_in (values_seen maps.now)) (cons_option (label_at entry.now.doc.now entry.now.id).key []))) }
{
    let Some(key) = entry.key() else {
        return Ok(());
    };
    if ends_in_backslash(key) {
        return Ok(());
    }
    let Some(values) = values_of(alloc, maps, key, place)? else {
        return Ok(());
    };
    keys.push(Kept { key, values })?;
    Ok(())
}
