//! Copies of an entry of a route map.

ghost use Rattle.std.specs.Prelude.{◌≡◌, IfOk};

use net_types::{List, MapEntry, SetCommunity, Sets, Text};
use std::alloc::{AllocError, Global};

fn copy_of_text(alloc: Global, text: &Option<Text>) -> Result<Option<Text>, AllocError>
    ensures { IfOk result (λ copy. copy ≡ text.now) }
{
    match text {
        Some(text) => Ok(Some(Text::from_str(alloc, text.as_str())?)),
        None => Ok(None),
    }
}

fn copy_of_community(alloc: Global, community: &SetCommunity) -> Result<SetCommunity, AllocError>
    ensures { IfOk result (λ copy. copy ≡ community.now) }
{
    match community {
        SetCommunity::Keep => Ok(SetCommunity::Keep),
        SetCommunity::Replace(values) => {
            Ok(SetCommunity::Replace(List::from_slice(alloc, values.as_slice())?))
        }
        SetCommunity::Add(values) => {
            Ok(SetCommunity::Add(List::from_slice(alloc, values.as_slice())?))
        }
        SetCommunity::Clear => Ok(SetCommunity::Clear),
    }
}

fn copy_of_sets(alloc: Global, sets: &Sets) -> Result<Sets, AllocError>
    ensures { IfOk result (λ copy. copy ≡ sets.now) }
{
    Ok(Sets {
        weight: sets.weight,
        preference: sets.preference,
        med: sets.med,
        origin: sets.origin,
        delete: copy_of_text(alloc, &sets.delete)?,
        community: copy_of_community(alloc, &sets.community)?,
        prepend: List::from_slice(alloc, sets.prepend.as_slice())?,
    })
}

/// A copy of the entry.
pub(crate) fn copy_of_entry(alloc: Global, entry: &MapEntry) -> Result<MapEntry, AllocError>
    ensures { IfOk result (λ copy. copy ≡ entry.now) }
{
    Ok(MapEntry {
        seq: entry.seq,
        permit: entry.permit,
        prefixes: copy_of_text(alloc, &entry.prefixes)?,
        communities: copy_of_text(alloc, &entry.communities)?,
        sets: copy_of_sets(alloc, &entry.sets)?,
    })
}
