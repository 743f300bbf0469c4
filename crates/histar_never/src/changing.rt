//! Which calls may change something.
ghost use Rattle.std.specs.Prelude.{◌≡◌, ◌&&◌, not};
ghost use Rattle.histar_rights.specs.Laws.{is_answer as has_answer};
ghost use Rattle.histar_never.specs.Changing.{is_question};

use histar_flat::{Reply, UnixCall};

/// Checks whether a call only asks for something.
pub fn is_question(call: &UnixCall) -> bool
    ensures { result ≡ is_question call.now }
{
    matches!(
        call,
        UnixCall::Read(_)
            | UnixCall::List(_)
            | UnixCall::Stat(_)
            | UnixCall::Status(_)
            | UnixCall::Whoami
    )
}

/// Checks whether a reply is neither a refusal nor `gone`.
fn is_answer(reply: &Reply) -> bool
    ensures { result ≡ has_answer reply.now }
{
    !matches!(reply, Reply::Refused(_) | Reply::Gone)
}

/// Checks whether a call with this reply may have changed something: it is no question, and was
/// answered.
pub fn may_change(is_question: bool, reply: &Reply) -> bool
    ensures { result ≡ (not is_question && has_answer reply.now) }
{
    !is_question && is_answer(reply)
}
