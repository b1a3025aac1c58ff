//! Ledgers written as octets.

ghost use Rattle.std.specs.Prelude.{◌≡◌, ◌++◌, IfOk, OnOk, option_map};
ghost use Rattle.roam_sessions.specs.Ledgers.{end_text, head, item_text, ledgers_text, optional, text};
ghost use Rattle.roam_sessions.specs.ShownLedgers.{shown_item, shown_items, shown_text};

use crate::item::{Item, SessionItem, Text};
use std::alloc::{AllocError, Allocator, Global};
use std::marker::Model;

/// Ledgers that are being written. Contracts see the octets so far.
#[derive(Drop)]
pub struct Writing<A: Allocator> {
    octets: Vec<u8, A>,
}

impl<A: Allocator> Model for Writing<A> {
    ghost use Rattle.std.specs.Prelude.{List, ℕ};

    ghost Value = { List ℕ };

    ghost view = { λ w. w.octets.items };
}

fn put_text<A: Allocator>(out: &mut Vec<u8, A>, part: Text<'_>) -> Result<(), AllocError>
    ensures { OnOk result (out.new.items ≡ out.old.items ++ text (shown_text part.entry)) }
{
    out.push(part.octets.len() as u8)?;
    out.extend_from_slice(part.octets)?;
    Ok(())
}

fn put_optional<A: Allocator>(
    out: &mut Vec<u8, A>,
    part: Option<Text<'_>>,
) -> Result<(), AllocError>
    ensures { OnOk result (out.new.items ≡ out.old.items ++ optional (option_map shown_text part.entry)) }
{
    match part {
        None => out.push(0)?,
        Some(text) => {
            out.push(1)?;
            put_text(out, text)?;
        }
    }
    Ok(())
}

fn put_session<A: Allocator>(
    out: &mut Vec<u8, A>,
    session: SessionItem<'_>,
) -> Result<(), AllocError>
    ensures { OnOk result (out.new.items ≡ out.old.items ++ item_text (shown_item (Item.Session session.entry))) }
{
    out.push(2)?;
    put_text(out, session.peer)?;
    put_optional(out, session.address)?;
    put_optional(out, session.identifier)?;
    put_optional(out, session.ipv6)?;
    put_text(out, session.id)
}

fn put_realm<A: Allocator>(
    out: &mut Vec<u8, A>,
    name: Text<'_>,
    own_sessions: bool,
) -> Result<(), AllocError>
    ensures { OnOk result (out.new.items
        ≡ out.old.items ++ item_text (shown_item (Item.Realm name.entry own_sessions))) }
{
    out.push(1)?;
    out.push(u8::from(own_sessions))?;
    put_text(out, name)
}

impl<A: Allocator + Copy> Writing<A> {
    /// Begins with only the head.
    pub fn new(alloc: A) -> Result<Writing<A>, AllocError>
        ensures { IfOk result (λ writing. writing ≡ head) }
    {
        let octets = Vec::from_slice(alloc, b"roam ledgers 2\n".as_slice())?;
        Ok(Writing { octets })
    }

    /// Writes one more item.
    pub fn put(&mut self, item: Item<'_>) -> Result<(), AllocError>
        ensures { OnOk result (self.new ≡ self.old ++ item_text (shown_item item.entry)) }
    {
        match item {
            Item::Realm(name, own_sessions) => put_realm(&mut self.octets, name, own_sessions),
            Item::Session(session) => put_session(&mut self.octets, session),
        }
    }

    /// Writes the end.
    pub fn finish(self) -> Result<Vec<u8, A>, AllocError>
        ensures { IfOk result (λ octets. octets.items ≡ self ++ end_text) }
    {
        let Writing { mut octets } = self;
        octets.push(0)?;
        Ok(octets)
    }
}

/// Writes the octets of session tables.
pub fn write(alloc: Global, items: &[Item<'_>]) -> Result<Vec<u8>, AllocError>
    ensures { IfOk result (λ v. v.items ≡ ledgers_text (shown_items items.now)) }
{
    let mut writing = Writing::new(alloc)?;
    for item in items {
        writing.put(*item)?;
    }
    writing.finish()
}
