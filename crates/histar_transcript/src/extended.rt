//! A script with more lines behind those before a line.
ghost use Rattle.std.specs.Prelude.{◌≡◌, ◌++◌, ◌∷◌, ◌≤◌, [], IfOk, OnOk, length, map, take};
ghost use Rattle.histar_transcript.specs.Extended.{ended_lines, kept_lines};

use std::alloc::{AllocError, Global};

/// Returns how many of these lines come before the given one, or how many there are if none is given.
pub(crate) fn kept_lines(lines: &[&[u8]], at: Option<u32>) -> usize
    ensures count { result ≡ kept_lines at (map (λ line. line.now) lines.now) }
    ensures few { result ≤ length lines.now }
{
    match at {
        None => lines.len(),
        Some(first) => lines.len().min(first.saturating_sub(1) as usize),
    }
}

/// Returns the text of the first lines, and then of these calls, each on a line.
pub(crate) fn extended_text(
    alloc: Global,
    lines: &[&[u8]],
    kept: usize,
    calls: &[&[u8]],
) -> Result<Vec<u8>, AllocError>
    requires { kept ≤ length lines.now }
    ensures { IfOk result (λ text. text.items ≡ ended_lines (take kept (map (λ line. line.now) lines.now))
        ++ ended_lines (map (λ call. call.now) calls.now)) }
{
    let mut text = Vec::new(alloc);
    push_lines(&mut text, &lines[..kept])?;
    push_lines(&mut text, calls)?;
    Ok(text)
}

/// Adds lines, each with its end.
pub(crate) fn push_lines(text: &mut Vec<u8>, lines: &[&[u8]]) -> Result<(), AllocError>
    ensures { OnOk result (text.new.items
        ≡ text.old.items ++ ended_lines (map (λ line. line.now) lines.now)) }
{
    'lines: for line in lines {
        push_line(text, line)?;
    }
    Ok(())
}

/// Adds a line and its end.
pub(crate) fn push_line(text: &mut Vec<u8>, line: &[u8]) -> Result<(), AllocError>
    ensures { OnOk result (text.new.items ≡ text.old.items ++ (line.now ++ 10 ∷ [])) }
{
    text.extend_from_slice(line)?;
    text.extend_from_slice(b"\n")
}
