//! The front of a script, up to a line.
ghost use Rattle.std.specs.Prelude.{◌≡◌, ◌≤◌};
ghost use Rattle.histar_transcript.specs.Front.{GivesFront, count_before};

use crate::extended::extended_text;
use crate::transcript::lines_in;
use histar_flat::CallLine;
use histar_script::{Fault, read_script};
use std::alloc::Global;

/// Returns the text of a script's lines before the given one, and of all lines before its first
/// call. It is the script with the calls on these lines alone, each on its old line. A text that is
/// no script is refused with its fault, whichever line is bad.
pub fn front_before(alloc: Global, text: &[u8], at: u32) -> Result<Vec<u8>, Fault>
    ensures { GivesFront at text.now result }
{
    let script = read_script(alloc, text)?;
    let lines = lines_in(alloc, text)?;
    let (accounts, calls) = script.into_parts();
    drop(accounts);
    let kept = count_before(at, calls.as_slice(), lines.len());
    drop(calls);
    if kept < lines.len() {
        Ok(extended_text(alloc, lines.as_slice(), kept, &[])?)
    } else {
        Ok(Vec::from_slice(alloc, text)?)
    }
}

/// Returns how many of a script's lines, with these calls, come before the given one or before the
/// first call.
fn count_before(at: u32, calls: &[CallLine], all: usize) -> usize
    ensures count { result ≡ count_before at calls.now all }
    ensures few { result ≤ all }
{
    match calls {
        [] => all,
        [first, ..] => (at.max(first.line).saturating_sub(1) as usize).min(all),
    }
}
