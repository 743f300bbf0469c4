//! The replies to which the kernel's refusals lead in a login. The law is the contract of a function that
//! does nothing.
ghost use Rattle.histar_login.specs.Login.{LoginsReplyToRefusals};

/// States that the programs of logins reply to their refusals, so the law of `histar_programs` on such
/// programs holds for each login.
pub fn logins_reply_to_refusals()
    ensures { LoginsReplyToRefusals }
{}
