//! The law of what a journal says before its first entry. It is the contract of a function that does nothing.
ghost use Rattle.iv_head.specs.Begun.{IsReadBack};

/// What is written there is read back, whatever entries follow; and what is read was written so.
pub fn what_is_written_is_read_back()
    ensures { IsReadBack }
{}
