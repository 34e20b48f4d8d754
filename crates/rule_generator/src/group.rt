//! Elements by their types.
ghost use Rattle.std.specs.Prelude.{◌≡◌, ◌≤◌, IfOk, OnOk, Some, length, map};
ghost use Rattle.rule_generator.specs.code.Groups.{grouped, with_member, with_type};
ghost use Rattle.rule_generator.specs.code.Seen.{see, values_seen};
ghost use Rattle.rule_generator.specs.code.SeenGroups.{group_seen, see_groups};

use crate::element::type_of;
use doc_values::Cursor;
use indexmap::IndexSet;
use std::alloc::{AllocError, Global};

/// The types of elements, in the order in which they appear, and under the same index the elements of each.
#[derive(Drop)]
pub(crate) struct Groups<'t, 's> {
    pub types: IndexSet<&'t str>,
    pub members: Vec<Vec<Cursor<'t, 's>>>,
}

impl<'t, 's> Groups<'t, 's> {
    /// The groups of elements.
    pub fn of(alloc: Global, elements: &[Cursor<'t, 's>]) -> Result<Groups<'t, 's>, AllocError>
        ensures groups { IfOk result (λ groups. see_groups groups ≡ grouped (values_seen elements.now)) }
        ensures paired { IfOk result (λ groups. length groups.types.keys ≡ length groups.members.items) }
    {
        let mut groups = Groups {
            types: IndexSet::new(alloc),
            members: Vec::new(alloc),
        };
        for element in elements {
            let Some(name) = type_of(element) else {
                continue;
            };
            groups.add(alloc, name, *element)?;
        }
        Ok(groups)
    }

    /// Adds an element of a type.
    fn add(
        &mut self,
        alloc: Global,
        name: &'t str,
        element: Cursor<'t, 's>,
    ) -> Result<(), AllocError>
        requires { length self.old.types.keys ≡ length self.old.members.items }
        ensures groups { OnOk result (see_groups self.new ≡ with_type (see_groups self.old) (Some name.entry.now) (see element.entry)) }
        ensures paired { OnOk result (length self.new.types.keys ≡ length self.new.members.items) }
    {
        let (index, _) = self.types.insert_full(name)?;
        push_member(alloc, &mut self.members, index, element)
    }
}

/// Adds an element to the group at an index, or behind the last one in a new group.
fn push_member<'t, 's>(
    alloc: Global,
    groups: &mut Vec<Vec<Cursor<'t, 's>>>,
    index: usize,
    element: Cursor<'t, 's>,
) -> Result<(), AllocError>
    requires { index ≤ length groups.old.items }
    ensures { OnOk result (map group_seen groups.new.items ≡ with_member (map group_seen groups.old.items) index (see element.entry)) }
{
    if index == groups.len() {
        let mut group = Vec::new(alloc);
        group.push(element)?;
        groups.push(group)?;
        return Ok(());
    }
    groups[index].push(element)?;
    Ok(())
}
