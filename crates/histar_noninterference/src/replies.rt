//! Comparison of the replies of two runs.
ghost use Rattle.std.specs.Prelude.{◌≡◌};
ghost use Rattle.histar_noninterference.specs.Replies.{first_shown};

use histar_base::Bytes;

/// The reply to a line, as it is printed.
#[derive(Drop)]
pub struct ShownReply {
    pub line: u32,
    pub text: Bytes,
}

/// Returns the number of the first line at which the texts of the two replies differ.
pub fn first_line(replies: &[ShownReply], others: &[ShownReply]) -> Option<u32>
    ensures { result ≡ first_shown replies.now others.now }
{
    let mut rest = replies;
    let mut other_rest = others;
    while let [reply, more @ ..] = rest {
        let [other, other_more @ ..] = other_rest else {
            return None;
        };
        if reply.text.as_slice() != other.text.as_slice() {
            return Some(reply.line);
        }
        rest = more;
        other_rest = other_more;
    }
    None
}
