//! Laws of tokens. Each is the contract of a function that does nothing.
ghost use Rattle.iv_tokens.specs.Entries.{NoneIsValidBehindItsEnd, PlainFilesStay};
ghost use Rattle.iv_tokens.specs.Web.{AllAreKnown};

/// Each token that is valid at a second is of an entry whose end, if it has one, is yet to come.
pub fn none_is_valid_behind_its_end()
    ensures { NoneIsValidBehindItsEnd }
{}

/// Each token that is known at a second is of such an entry, or a web token that the secret grants at that second.
pub fn all_are_known()
    ensures { AllAreKnown }
{}

/// A file whose lines say no more than tokens has these tokens, with no end.
pub fn plain_files_stay()
    ensures { PlainFilesStay }
{}
