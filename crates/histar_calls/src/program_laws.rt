//! The replies to which the kernel's refusals lead in the file calls. The law is the contract of a function
//! that does nothing.
ghost use Rattle.histar_calls.specs.Laws.{CallsReplyToRefusals};

/// States that the programs of this crate's calls reply to their refusals.
pub fn calls_reply_to_refusals()
    ensures { CallsReplyToRefusals }
{}
