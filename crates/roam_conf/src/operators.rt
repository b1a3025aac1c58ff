//! Operator-Names (RFC 5580, section 4.1): when two mean the same, and by what one is found.

ghost use Rattle.std.specs.Prelude.{◌≡◌, ◌≤◌, IfOk, length};
ghost use Rattle.roam_conf.specs.Index.{owners, owner_of};
ghost use Rattle.roam_conf.specs.Operators.{names_realm, operator_key, same_operator};

use crate::comparison::is_same_name;
use crate::index::{Index, owner_of, row_of};
use crate::names::{lower_in, lower_row};
use std::alloc::{AllocError, Global};

/// The namespace REALM of an Operator-Name.
const REALM: u8 = b'1';

/// Returns whether an Operator-Name is of the namespace REALM.
fn names_realm(value: &[u8]) -> bool
    ensures { result ≡ names_realm value.now }
{
    match value {
        [space, ..] => *space == REALM,
        [] => false,
    }
}

/// Returns whether two Operator-Names mean the same: they are equal, in the namespace REALM without ASCII case.
pub fn is_same_operator(a: &[u8], b: &[u8]) -> bool
    ensures { result ≡ same_operator a.now b.now }
{
    if names_realm(a) && names_realm(b) {
        is_same_name(a, b)
    } else {
        a == b
    }
}

/// Makes the row of octets by which an Operator-Name is found.
pub(crate) fn operator_row(alloc: Global, value: &[u8]) -> Result<Vec<u8>, AllocError>
    ensures { IfOk result (λ row. row.items ≡ operator_key value.now) }
{
    if names_realm(value) {
        lower_row(alloc, value)
    } else {
        row_of(alloc, value)
    }
}

/// Finds the owner of an Operator-Name that means the same. Takes no memory.
pub(crate) fn owner_of_operator(index: &Index, value: &[u8]) -> Option<u16>
    requires { length value.now ≤ 253 }
    ensures { result ≡ owner_of (owners index.now) (operator_key value.now) }
{
    if !names_realm(value) {
        return owner_of(index, value);
    }
    let mut buffer = [0; 254];
    lower_in(&mut buffer, value);
    owner_of(index, &buffer[..value.len()])
}
