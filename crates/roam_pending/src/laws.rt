//! Laws of a realm's list of entries, for the crates above.
//!
//! Each is a function that does nothing: its contract is the law.

ghost use Rattle.roam_pending.specs.ListLaws.{ChangeKeepsList, DueIsReached, DueRises, FoundByKey};
ghost use Rattle.roam_pending.specs.ListLaws.{FoundByTicket, FoundDone, FoundOnLink, KeyIsGone};
ghost use Rattle.roam_pending.specs.ListLaws.{NewKeepsList, NextDue, NoneOfAKey, NothingIsRemoved, OneChangeOfTwo};
ghost use Rattle.roam_pending.specs.ListLaws.{OneFewer, OneMore, OneOfAKey, PutBack, PutIsFound, PutKeepsOthers};
ghost use Rattle.roam_pending.specs.ListLaws.{PutLater, PutTwice, RemovalKeepsList, RemovalKeepsOthers, RemovedIsGone};
ghost use Rattle.roam_pending.specs.ListLaws.{RestIsDue, SameKeyIsEqual, TakenOut, UsedIsFound};

/// States that each change leaves a list in order of ticket with distinct keys.
pub fn changes_keep_the_list()
    ensures new { NewKeepsList }
    ensures change { ChangeKeepsList }
    ensures removal { RemovalKeepsList }
{}

/// States what is found by its ticket after a change, and how many entries there are.
pub fn changes_by_ticket()
    ensures put { PutIsFound }
    ensures put_others { PutKeepsOthers }
    ensures removed { RemovedIsGone }
    ensures removed_others { RemovalKeepsOthers }
    ensures nothing_removed { NothingIsRemoved }
    ensures fewer { OneFewer }
    ensures more { OneMore }
{}

/// States what changes one after the other leave: an entry that is taken out and put back, one that is put twice, and
/// one that is put and taken out.
pub fn changes_in_a_row()
    ensures put_back { PutBack }
    ensures put_twice { PutTwice }
    ensures taken_out { TakenOut }
{}

/// States that changes of one realm, one after the other, leave every other realm as it was.
pub fn changes_of_one_realm()
    ensures { OneChangeOfTwo }
{}

/// States that an entry which is found has what it was looked for by, and is the entry of its ticket.
pub fn found_entries()
    ensures same_key { SameKeyIsEqual }
    ensures by_ticket { FoundByTicket }
    ensures by_key { FoundByKey }
    ensures on_link { FoundOnLink }
    ensures done { FoundDone }
{}

/// States that the entries without a key are all except the one that is found by it.
pub fn one_entry_of_a_key()
    ensures one { OneOfAKey }
    ensures none { NoneOfAKey }
    ensures gone { KeyIsGone }
{}

/// States that an Identifier is in use toward a link just where an entry is found there by it.
pub fn used_identifiers()
    ensures { UsedIsFound }
{}

/// States that just the entries are due whose deadline is reached, in order of deadline and ticket.
pub fn due_entries()
    ensures rising { DueRises }
    ensures reached { DueIsReached }
{}

/// States that taking the least due entry until none is left goes through the list of the due ones: the rest of the
/// list is due once the least is taken out, and an entry that is put back with a later deadline isn't.
pub fn least_due_first()
    ensures taken { RestIsDue }
    ensures put_back { PutLater }
{}

/// States that asking for the next due entry after the last one goes through the list of the due ones.
pub fn due_one_after_the_other()
    ensures { NextDue }
{}
