//! The replies to which the kernel's refusals lead in the program of a wrap: the contract of a function that
//! does nothing.
ghost use Rattle.histar_wrap.specs.Laws.{WrapsReplyToRefusals};

/// States that the program of a wrap replies to its refusals.
pub fn wraps_reply_to_refusals()
    ensures { WrapsReplyToRefusals }
{}
