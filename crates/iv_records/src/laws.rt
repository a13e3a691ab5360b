//! What is so of every journal as texts, and of names. Each is the contract of a function that does nothing.
ghost use Rattle.iv_records.specs.Laws.{ClaimsAreWell, HoldersAreText, ReadsBack};

/// The record of an entry is read back, whatever follows it, and nothing else is read.
pub fn records_are_read_back()
    ensures { ReadsBack }
{}

/// A name that a client says, and whose it is, are such as the journal has them.
pub fn names_are_texts()
    ensures claims { ClaimsAreWell }
    ensures holders { HoldersAreText }
{}
