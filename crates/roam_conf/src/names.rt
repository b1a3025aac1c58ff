//! The index of the names and patterns of all realms.

ghost use Rattle.std.specs.Prelude.{◌≡◌, ◌≤◌, ◌+◌, ◌^◌, ◌∷◌, ◌++◌, IfOk, length, map};
ghost use Rattle.std.specs.Prelude.{ℕ, take, true};
ghost use Rattle.std.specs.Str.{str_to_ascii_lowercase};
ghost use Rattle.roam_conf.specs.Index.{owners, owner_of, all_new, pattern_key, of_owner, all_patterns, pattern_seen};
ghost use Rattle.roam_conf.specs.Index.{is_marked, HasMark, AreMarked};
ghost use Rattle.roam_conf.specs.Lookup.{pattern_lists};
ghost use Rattle.roam_conf.specs.Parts.{shown_realm};
ghost use Rattle.roam_conf.specs.Patterns.{shown_pattern, patterns_of};

use crate::index::{Index, note, owner_of};
use crate::{Realm, RealmPattern};
use std::alloc::{AllocError, Global};

/// The first octet of a key, by the kind of its pattern: a suffix's is its dot.
const WHOLE: u8 = 0;

const SUFFIX: u8 = b'.';

const ANY: u8 = 2;

/// A pattern that is looked for. The name in it stands elsewhere.
#[derive(Clone, Copy)]
pub(crate) enum PatternRef<'a> {
    Name(&'a [u8]),
    Suffix(&'a [u8]),
    Any,
}

/// Makes a key: a kind, and a name in lower case.
fn key_of(alloc: Global, kind: u8, name: &[u8]) -> Result<Vec<u8>, AllocError>
    ensures { IfOk result (λ key. key.items ≡ kind ∷ str_to_ascii_lowercase name.now) }
{
    let mut key = Vec::new(alloc);
    key.push(kind)?;
    for octet in name {
        key.push(octet.to_ascii_lowercase())?;
    }
    Ok(key)
}

/// Makes a copy of a text in lower case.
pub(crate) fn lower_row(alloc: Global, text: &[u8]) -> Result<Vec<u8>, AllocError>
    ensures { IfOk result (λ row. row.items ≡ str_to_ascii_lowercase text.now) }
{
    let mut row = Vec::new(alloc);
    for octet in text {
        row.push(octet.to_ascii_lowercase())?;
    }
    Ok(row)
}

/// Makes the key of a pattern.
fn pattern_key(alloc: Global, pattern: &RealmPattern) -> Result<Vec<u8>, AllocError>
    ensures { IfOk result (λ key. key.items ≡ pattern_key (shown_pattern pattern.now)) }
{
    match pattern {
        RealmPattern::Name(name) => key_of(alloc, WHOLE, name.as_bytes()),
        RealmPattern::Suffix(name) => key_of(alloc, SUFFIX, name.as_bytes()),
        RealmPattern::Any => key_of(alloc, ANY, b""),
    }
}

/// Notes patterns of an owner, until one is there already: whether all are new.
fn note_patterns(
    index: &mut Index,
    alloc: Global,
    patterns: &[RealmPattern],
    owner: u16,
) -> Result<bool, AllocError>
    ensures new { IfOk result (λ new. new ≡ all_new (owners index.old)
        (map (of_owner owner) (map shown_pattern patterns.now))) }
    ensures noted { IfOk result (λ new. new ≡ true → owners index.new
        ≡ owners index.old ++ map (of_owner owner) (map shown_pattern patterns.now)) }
{
    for pattern in patterns {
        let key = pattern_key(alloc, pattern)?;
        if !note(index, key, owner)? {
            return Ok(false);
        }
    }
    Ok(true)
}

/// Notes the name and the patterns of a realm that is here, until one is there already: whether all are new.
fn note_realm(
    index: &mut Index,
    alloc: Global,
    realm: &Realm,
    place: u16,
) -> Result<bool, AllocError>
    ensures new { IfOk result (λ new. new ≡ all_new (owners index.old)
        (map (of_owner place) (patterns_of (shown_realm realm.now)))) }
    ensures noted { IfOk result (λ new. new ≡ true → owners index.new
        ≡ owners index.old ++ map (of_owner place) (patterns_of (shown_realm realm.now))) }
{
    if realm.gone {
        return Ok(true);
    }
    let key = key_of(alloc, WHOLE, realm.name.as_bytes())?;
    if !note(index, key, place)? {
        return Ok(false);
    }
    note_patterns(index, alloc, realm.also.as_slice(), place)
}

/// Notes the names and the patterns of realms, until one is there already: whether all are new.
fn note_realms(index: &mut Index, alloc: Global, realms: &[Realm]) -> Result<bool, AllocError>
    requires { length realms.now ≤ 2 ^ 16 }
    ensures new { IfOk result (λ new. new ≡ all_new (owners index.old)
        (all_patterns 0 (map patterns_of (map shown_realm realms.now)))) }
    ensures noted { IfOk result (λ new. new ≡ true → owners index.new
        ≡ owners index.old ++ all_patterns 0 (map patterns_of (map shown_realm realms.now))) }
{
    for (place, realm) in realms.iter().enumerate() {
        if !note_realm(index, alloc, realm, place as u16)? {
            return Ok(false);
        }
    }
    Ok(true)
}

/// Notes the names and the patterns of realms and those to reject, which come behind them, until one is there already:
/// whether all are new.
pub(crate) fn note_all(
    index: &mut Index,
    alloc: Global,
    realms: &[Realm],
    reject: &[RealmPattern],
) -> Result<bool, AllocError>
    requires { length realms.now ≤ 1024 }
    ensures new { IfOk result (λ new. new ≡ all_new (owners index.old)
        (all_patterns 0 (pattern_lists (map shown_realm realms.now) (map shown_pattern reject.now)))) }
    ensures noted { IfOk result (λ new. new ≡ true → owners index.new ≡ owners index.old
        ++ all_patterns 0 (pattern_lists (map shown_realm realms.now) (map shown_pattern reject.now))) }
{
    if !note_realms(index, alloc, realms)? {
        return Ok(false);
    }
    let are_new = note_patterns(index, alloc, reject, realms.len() as u16)?;
    Ok(are_new)
}

/// Writes a key to the front of a buffer that has room for it: a kind, and a name in lower case.
fn key_in(buffer: &mut [u8; 254], kind: u8, name: &[u8])
    requires { length name.now ≤ 253 }
    ensures { take (1 + length name.now) buffer.new ≡ kind ∷ str_to_ascii_lowercase name.now }
{
    buffer[0] = kind;
    for (place, octet) in name.iter().enumerate() {
        buffer[place + 1] = octet.to_ascii_lowercase();
    }
}

/// Writes a text in lower case to the front of a buffer that has room for it.
pub(crate) fn lower_in(buffer: &mut [u8; 254], text: &[u8])
    requires { length text.now ≤ 254 }
    ensures { take (length text.now) buffer.new ≡ str_to_ascii_lowercase text.now }
{
    for (place, octet) in text.iter().enumerate() {
        buffer[place] = octet.to_ascii_lowercase();
    }
}

/// Returns the kind and the name of a pattern that is looked for.
pub(crate) fn kind_and_name(pattern: PatternRef<'_>) -> (u8, &[u8])
    ensures { result.0 ∷ str_to_ascii_lowercase result.1.now ≡ pattern_key (pattern_seen pattern.entry) }
{
    match pattern {
        PatternRef::Name(name) => (WHOLE, name),
        PatternRef::Suffix(name) => (SUFFIX, name),
        PatternRef::Any => (ANY, b""),
    }
}

/// Finds the owner of the pattern of this kind and name. Takes no memory.
pub(crate) fn owner_of_pattern(index: &Index, kind: u8, name: &[u8]) -> Option<u16>
    requires { length name.now ≤ 253 }
    ensures { result ≡ owner_of (owners index.now) (kind ∷ str_to_ascii_lowercase name.now) }
{
    let mut buffer = [0; 254];
    key_in(&mut buffer, kind, name);
    owner_of(index, &buffer[..1 + name.len()])
}

/// Marks the length of a suffix, where the key is one's.
fn mark_suffix(marks: &mut [bool; 254], key: &[u8])
    ensures own { HasMark marks.new key.now }
    ensures others { (n : ℕ) → is_marked marks.old n ≡ true → is_marked marks.new n ≡ true }
{
    if let Some((kind, name)) = key.split_first() {
        if *kind == SUFFIX && name.len() <= 253 {
            marks[name.len()] = true;
        }
    }
}

/// Marks the lengths of the suffixes that have an owner.
pub(crate) fn suffix_lengths(index: &Index) -> [bool; 254]
    ensures { AreMarked result (owners index.now) }
{
    let mut marks = [false; 254];
    for key in index.keys().as_slice() {
        mark_suffix(&mut marks, key.as_slice());
    }
    marks
}
