//! Laws of hiding and of salted values: each function's contract is one law, and it does nothing.

ghost use Rattle.roam_crypto.specs.HidingLaws.{OneHiddenText, OnePlainText, OneTextAnew, SameKeyChangesNothing};
ghost use Rattle.roam_crypto.specs.HidingLaws.{FirstKeyBringsBack, PasswordSizeIsDecided};
ghost use Rattle.roam_crypto.specs.SaltedLaws.{OneListOfSubAttributes, OneAttributeAnew, HiddenAnewKeepsSize};
ghost use Rattle.roam_crypto.specs.SaltedLaws.{AttributeAnewKeepsSize, HiddenAnewIsOctets, AttributeAnewIsOctets};
ghost use Rattle.roam_crypto.specs.SaltedLaws.{SaltedIsDecided};

/// States that a plain text of whole blocks has just one hidden text.
pub fn one_hidden_text()
    ensures { OneHiddenText }
{}

/// States that a hidden text of whole blocks has just one plain text.
pub fn one_plain_text()
    ensures { OnePlainText }
{}

/// States that a text of whole blocks can be hidden anew in just one way.
pub fn one_text_anew()
    ensures { OneTextAnew }
{}

/// States that hiding anew with the same key changes nothing.
pub fn same_key_changes_nothing()
    ensures { SameKeyChangesNothing }
{}

/// States that a text which is hidden anew, and then anew with the first key, is the first text again.
pub fn first_key_brings_back()
    ensures { FirstKeyBringsBack }
{}

/// States that octets are those of at most one list of sub-attributes.
pub fn one_list_of_sub_attributes()
    ensures { OneListOfSubAttributes }
{}

/// States that an attribute's salted strings can be hidden anew in just one way.
pub fn one_attribute_anew()
    ensures { OneAttributeAnew }
{}

/// States that a text which is hidden anew keeps its size.
pub fn sizes_stay()
    ensures hidden { HiddenAnewKeepsSize }
    ensures attribute { AttributeAnewKeepsSize }
{}

/// States that octets which are hidden anew are octets.
pub fn octets_stay()
    ensures hidden { HiddenAnewIsOctets }
    ensures attribute { AttributeAnewIsOctets }
{}

/// States that the test of a password's size is true just where it may have that size.
pub fn password_size_decided()
    ensures { PasswordSizeIsDecided }
{}

/// States that the test of salted strings is true just where a packet has one.
pub fn salted_decided()
    ensures { SaltedIsDecided }
{}
