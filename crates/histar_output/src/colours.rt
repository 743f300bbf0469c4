//! The lines of `run` that are refusals, in red.
ghost use Rattle.std.specs.Prelude.{◌≡◌, ◌++◌, IfOk, OnOk};
ghost use Rattle.std.specs.List.{list_any};
ghost use Rattle.std.specs.Option.{option_copied};
ghost use Rattle.std.specs.Str.{bytes_eq};
ghost use Rattle.histar_flat.specs.Texts.{errno_text};
ghost use Rattle.histar_output.specs.Cuts.{behind};
ghost use Rattle.histar_output.specs.Colours.{after_mark, coloured, coloured_line, ends_refused, is_last_refusal, is_refusal, is_refused_call};
ghost use Rattle.histar_output.specs.Colours.{is_refused_text, refuses};

use histar_flat::{Errno, split_at_first};
use std::alloc::{AllocError, Global};

/// The bytes after which a terminal writes in red.
const RED: &[u8] = b"\x1b[31m";

/// The bytes after which it writes as before.
const PLAIN: &[u8] = b"\x1b[0m";

/// Checks whether a reply is the name of an errno, or `gone`.
fn refuses(reply: &[u8]) -> bool
    ensures { result ≡ refuses reply.now }
{
    let errnos = [
        Errno::ENOENT,
        Errno::ENOTDIR,
        Errno::EISDIR,
        Errno::EEXIST,
        Errno::EACCES,
        Errno::EPERM,
        Errno::ENOTEMPTY,
        Errno::EBUSY,
        Errno::ENOSPC,
        Errno::EFBIG,
        Errno::ESRCH,
        Errno::EAGAIN,
        Errno::EAUTH,
    ];
    is_errno(reply, errnos.as_slice()) || reply == b"gone".as_slice()
}

/// Checks whether a reply is the name of one of these errnos.
fn is_errno(reply: &[u8], errnos: &[Errno]) -> bool
    ensures { result ≡ list_any (λ e. bytes_eq reply.now (errno_text e)) errnos.now }
{
    'errnos: for errno in errnos {
        if reply == errno.name().as_bytes() {
            return true;
        }
    }
    false
}

/// Returns what follows a mark at the beginning of a text, if the text begins with it.
fn after_mark<'a>(text: &'a [u8], mark: &[u8]) -> Option<&'a [u8]>
    ensures { option_copied result ≡ after_mark mark.now text.now }
{
    if text.starts_with(mark) {
        Some(&text[mark.len()..])
    } else {
        None
    }
}

/// Returns what is behind the first mark in a text, or nothing if it doesn't come.
fn behind<'a>(text: &'a [u8], mark: &[u8]) -> &'a [u8]
    ensures { result.now ≡ behind mark.now text.now }
{
    let mut rest = text;
    'places: while let Some((_, after)) = rest.split_first() {
        if let Some(behind) = after_mark(rest, mark) {
            return behind;
        }
        rest = after;
    }
    rest
}

/// Checks whether a text is two spaces and a refusal.
fn is_last_refusal(text: &[u8]) -> bool
    ensures { result ≡ is_last_refusal text.now }
{
    match after_mark(text, b"  ") {
        Some(reply) => refuses(reply),
        None => false,
    }
}

/// Checks whether two spaces and a refusal are the end of a text.
fn ends_refused(text: &[u8]) -> bool
    ensures { result ≡ ends_refused text.now }
{
    let mut rest = text;
    'places: while let Some((_, after)) = rest.split_first() {
        if is_last_refusal(rest) {
            return true;
        }
        rest = after;
    }
    false
}

/// Checks whether a text `PROC CALL  REPLY` has a refusal for its reply.
fn is_refused_call(text: &[u8]) -> bool
    ensures { result ≡ is_refused_call text.now }
{
    match after_mark(behind(text, b" "), b"read ") {
        Some(read) => refuses(behind(read, b"  ")),
        None => ends_refused(text),
    }
}

/// Checks whether the text behind the number of a line has a refusal for its reply.
fn is_refused_text(text: &[u8]) -> bool
    ensures { result ≡ is_refused_text text.now }
{
    match after_mark(text, b" ") {
        Some(call) => is_refused_call(call),
        None => refuses(text),
    }
}

/// Checks whether a line is the line of a refusal.
fn is_refusal(line: &[u8]) -> bool
    ensures { result ≡ is_refusal line.now }
{
    match line {
        [first, ..] => first.is_ascii_digit() && is_refused_text(behind(line, b" ")),
        [] => false,
    }
}

/// Adds a line, in red if it is the line of a refusal.
fn push_line(text: &mut Vec<u8>, line: &[u8]) -> Result<(), AllocError>
    ensures { OnOk result (text.new.items ≡ text.old.items ++ coloured_line line.now) }
{
    if is_refusal(line) {
        text.extend_from_slice(RED)?;
        text.extend_from_slice(line)?;
        text.extend_from_slice(PLAIN)
    } else {
        text.extend_from_slice(line)
    }
}

/// Returns a text that `run` wrote with its refusals in red.
pub fn coloured(alloc: Global, text: &[u8]) -> Result<Vec<u8>, AllocError>
    ensures { IfOk result (λ out. out.items ≡ coloured text.now) }
{
    let mut out = Vec::new(alloc);
    let mut rest = text;
    'lines: loop {
        let (line, after) = split_at_first(rest, b'\n');
        push_line(&mut out, line)?;
        let Some(after) = after else { return Ok(out) };
        out.push(b'\n')?;
        rest = after;
    }
}
