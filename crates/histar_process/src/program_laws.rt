//! The replies to which the kernel's refusals lead in the programs of these calls: the contract of a function
//! that does nothing.
ghost use Rattle.histar_process.specs.Laws.{ProcessCallsReplyToRefusals};

/// States that the programs of this crate's calls reply to their refusals.
pub fn process_calls_reply_to_refusals()
    ensures { ProcessCallsReplyToRefusals }
{}
