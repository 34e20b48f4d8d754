//! The values of a key, each once.
ghost use Rattle.std.specs.Prelude.{◌≡◌, false, true, IfOk, MatchOption, OnOk};
ghost use Rattle.std.specs.List.{AllZip, list_all};
ghost use Rattle.rule_generator.specs.GeneratedRules.{added, is_plain, is_same};
ghost use Rattle.rule_generator.specs.code.PropertyMaps.{has_entry, values_in_maps};
ghost use Rattle.rule_generator.specs.code.Scalars.{IsKeyOf};
ghost use Rattle.rule_generator.specs.code.Seen.{see, values_seen};

use crate::element::plain_entry;
use doc_values::{Cursor, Kind};
use indexmap::IndexSet;
use std::alloc::{AllocError, Global};

/// A value that has a spelling, as a key: two are equal where the operator `==` says yes of the values.
#[derive(Clone, Copy, PartialEq, Eq, Hash)]
pub(crate) enum Scalar<'t> {
    Null,
    Truth(bool),
    Whole(i64),
    Decimal { units: i64, scale: u8 },
    Text(&'t str),
}

/// The values of a key in maps, each once, if each of the maps has the key with a value that has a spelling. The key is tried
/// at a place first.
pub(crate) fn values_of<'t, 's>(
    alloc: Global,
    maps: &[Cursor<'t, 's>],
    key: &str,
    place: usize,
) -> Result<Option<Vec<Cursor<'t, 's>>>, AllocError>
    ensures { IfOk result (λ found. MatchOption found (list_all (has_entry key.now) (values_seen maps.now) ≡ false)
        (λ values. (list_all (has_entry key.now) (values_seen maps.now) ≡ true) × (values_seen values.items ≡ values_in_maps (values_seen maps.now) key.now))) }
{
    let mut keys = IndexSet::new(alloc);
    let mut values = Vec::new(alloc);
    for map in maps {
        let Some(value) = plain_entry(map, key, place) else {
            return Ok(None);
        };
        push_if_new(&mut keys, &mut values, value)?;
    }
    Ok(Some(values))
}

/// Appends a value, unless it is the same as one that is there. The keys are those of the values.
fn push_if_new<'t, 's>(
    keys: &mut IndexSet<Scalar<'t>>,
    values: &mut Vec<Cursor<'t, 's>>,
    value: Cursor<'t, 's>,
) -> Result<(), AllocError>
    requires plain { is_plain (see value).kind (see value).text ≡ true }
    requires keys { AllZip IsKeyOf keys.old.keys (values_seen values.old.items) }
    ensures values { OnOk result (values_seen values.new.items ≡ added is_same (values_seen values.old.items) (see value.entry)) }
    ensures keys { OnOk result (AllZip IsKeyOf keys.new.keys (values_seen values.new.items)) }
{
    let (_, is_new) = keys.insert_full(scalar_of(&value))?;
    if !is_new {
        return Ok(());
    }
    values.push(value)?;
    Ok(())
}

/// The key of a value that has a spelling.
fn scalar_of<'t>(value: &Cursor<'t, '_>) -> Scalar<'t>
    requires { is_plain (see value.now).kind (see value.now).text ≡ true }
    ensures { IsKeyOf result (see value.now) }
{
    match value.kind() {
        Kind::Null => Scalar::Null,
        Kind::Truth(truth) => Scalar::Truth(truth),
        Kind::Whole(number) => Scalar::Whole(number),
        Kind::Fraction(number) => Scalar::Decimal {
            units: number.units(),
            scale: number.scale(),
        },
        Kind::Text => Scalar::Text(value.text()),
        _ => unreachable!(),
    }
}
