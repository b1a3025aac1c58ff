//! Finding by a key of octets, at a cost that doesn't grow with the number of keys.

ghost use Rattle.std.specs.Prelude.{◌≡◌, ℕ, List, IfOk, OnOk, Some, None, is_none, if◌then◌else◌};
ghost use Rattle.std.specs.Option.{option_or};
ghost use Rattle.std.specs.Str.{bytes_eq};
ghost use Rattle.roam_conf.specs.Index.{owners, owner_of, with_key};

use indexmap::IndexMap;
use std::alloc::{AllocError, Global};
use std::hash::{BuildHasherDefault, FoldHasher};

/// The owner of each key: the index of a realm or of a peer.
pub(crate) type Index = IndexMap<Vec<u8>, u16, BuildHasherDefault<FoldHasher>, Global>;

/// Returns the owner of a key.
pub(crate) fn owner_of(index: &Index, key: &[u8]) -> Option<u16>
    ensures { result ≡ owner_of (owners index.now) key.now }
{
    index.get(key).copied()
}

/// Notes the owner of a key, unless the key is there: whether it is new.
pub(crate) fn note(index: &mut Index, key: Vec<u8>, owner: u16) -> Result<bool, AllocError>
    ensures new { IfOk result (λ new. new ≡ is_none (owner_of (owners index.old) key.items)) }
    ensures noted { OnOk result (owners index.new ≡ with_key (owners index.old) key.items owner) }
{
    if index.contains_key(key.as_slice()) {
        return Ok(false);
    }
    index.insert(key, owner)?;
    Ok(true)
}

/// Notes the owner of a key, unless the key is there: then it keeps its owner.
pub(crate) fn note_key(index: &mut Index, key: Vec<u8>, owner: u16) -> Result<(), AllocError>
    ensures { OnOk result ((other : List ℕ) → owner_of (owners index.new) other
        ≡ option_or (owner_of (owners index.old) other) (if bytes_eq other key.items then Some owner else None)) }
{
    note(index, key, owner)?;
    Ok(())
}

/// Makes a copy of these octets.
pub(crate) fn row_of(alloc: Global, octets: &[u8]) -> Result<Vec<u8>, AllocError>
    ensures { IfOk result (λ row. row.items ≡ octets.now) }
{
    let mut row = Vec::new(alloc);
    row.extend_from_slice(octets)?;
    Ok(row)
}
