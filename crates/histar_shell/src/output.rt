//! Printing replies, and the files and directories of a tree.
ghost use Rattle.std.specs.Prelude.{◌≡◌, ◌++◌, IfOk, OnErr, OnOk};
ghost use Rattle.std.specs.List.{flat_map};
ghost use Rattle.histar_flat.specs.Texts.{confined_text, entry_text, file_mode_text, owner_text, reply_text, stat_text};
ghost use Rattle.histar_shell.specs.Answers.{line_text};
ghost use Rattle.histar_shell.specs.TreeText.{node_text, tree_line_text};

use histar_flat::{FileMode, Name, Path, Reply, Stat};
use histar_heap::Heap;
use histar_texts::{push_number, push_path, push_process};
use std::alloc::AllocError;

/// Adds an entry of a directory: a space and its name, and a slash after a directory's.
fn push_entry<H: Heap>(
    heap: H,
    line: &mut Vec<u8>,
    name: &Name,
    is_directory: bool,
) -> Result<(), AllocError>
    ensures ok { OnOk result (line.new.items ≡ line.old.items ++ entry_text (name.now, is_directory)) }
    ensures memory { OnErr result H.Refused }
{
    heap.extend(line, b" ")?;
    heap.extend(line, name.as_bytes())?;
    if is_directory {
        heap.extend(line, b"/")?;
    }
    Ok(())
}

/// Adds the entries of a directory.
fn push_entries<H: Heap>(
    heap: H,
    line: &mut Vec<u8>,
    entries: &[(Name, bool)],
) -> Result<(), AllocError>
    ensures ok { OnOk result (line.new.items ≡ line.old.items ++ flat_map entry_text entries.now) }
    ensures memory { OnErr result H.Refused }
{
    for entry in entries {
        push_entry(heap, line, &entry.0, entry.1)?;
    }
    Ok(())
}

/// Adds an owner, or a hyphen where there is none.
fn push_owner<H: Heap>(heap: H, line: &mut Vec<u8>, owner: Option<Name>) -> Result<(), AllocError>
    ensures ok { OnOk result (line.new.items ≡ line.old.items ++ owner_text owner) }
    ensures memory { OnErr result H.Refused }
{
    match owner {
        None => heap.extend(line, b"-"),
        Some(name) => heap.extend(line, name.as_bytes()),
    }
}

/// Adds a mode.
fn push_mode<H: Heap>(heap: H, line: &mut Vec<u8>, mode: FileMode) -> Result<(), AllocError>
    ensures ok { OnOk result (line.new.items ≡ line.old.items ++ file_mode_text mode) }
    ensures memory { OnErr result H.Refused }
{
    match mode {
        FileMode::Private => heap.extend(line, b"private"),
        FileMode::Readable => heap.extend(line, b"readable"),
        FileMode::Open => heap.extend(line, b"open"),
        FileMode::Scratch => heap.extend(line, b"scratch"),
        FileMode::Group(name) => {
            heap.extend(line, b"group:")?;
            heap.extend(line, name.as_bytes())
        }
    }
}

/// Adds the kind, the owner and the mode of a file or directory.
pub fn push_stat<H: Heap>(heap: H, line: &mut Vec<u8>, stat: Stat) -> Result<(), AllocError>
    ensures ok { OnOk result (line.new.items ≡ line.old.items ++ stat_text stat) }
    ensures memory { OnErr result H.Refused }
{
    let kind = if stat.is_directory { "dir " } else { "file " };
    heap.extend(line, kind.as_bytes())?;
    push_owner(heap, line, stat.owner)?;
    heap.extend(line, b" ")?;
    push_mode(heap, line, stat.mode)
}

/// Adds a user's name, and whether the process that acts for the user is confined.
fn push_user<H: Heap>(
    heap: H,
    line: &mut Vec<u8>,
    name: &Name,
    confined: bool,
) -> Result<(), AllocError>
    ensures ok { OnOk result (line.new.items ≡ line.old.items ++ name.now ++ confined_text confined) }
    ensures memory { OnErr result H.Refused }
{
    heap.extend(line, name.as_bytes())?;
    let after = if confined { " confined" } else { "" };
    heap.extend(line, after.as_bytes())
}

/// Adds the text of a reply.
fn push_reply<H: Heap>(heap: H, line: &mut Vec<u8>, reply: &Reply) -> Result<(), AllocError>
    ensures ok { OnOk result (line.new.items ≡ line.old.items ++ reply_text reply.now) }
    ensures memory { OnErr result H.Refused }
{
    match reply {
        Reply::Done => heap.extend(line, b"ok"),
        Reply::Data(bytes) => {
            heap.extend(line, b"= ")?;
            heap.extend(line, bytes.as_slice())
        }
        Reply::Entries(listing) => {
            heap.extend(line, b"ok")?;
            push_entries(heap, line, listing.entries())
        }
        Reply::Stats(stat) => {
            heap.extend(line, b"ok ")?;
            push_stat(heap, line, *stat)
        }
        Reply::Child(process) => {
            heap.extend(line, b"ok ")?;
            push_process(heap, line, process)
        }
        Reply::Running => heap.extend(line, b"ok running"),
        Reply::Exited(status) => {
            heap.extend(line, b"ok exited ")?;
            push_number(heap, line, u32::from(*status))
        }
        Reply::User(name, confined) => {
            heap.extend(line, b"ok ")?;
            push_user(heap, line, name, *confined)
        }
        Reply::Refused(errno) => heap.extend(line, errno.name().as_bytes()),
        Reply::Gone => heap.extend(line, b"gone"),
    }
}

/// Returns the text of a reply.
pub fn reply_text<H: Heap>(heap: H, reply: &Reply) -> Result<Vec<u8>, AllocError>
    ensures ok { IfOk result (λ text. text.items ≡ reply_text reply.now) }
    ensures memory { OnErr result H.Refused }
{
    let mut text = Vec::new(heap.alloc());
    push_reply(heap, &mut text, reply)?;
    Ok(text)
}

/// Sets a buffer to the line of the reply to a call line: number, space, text of the reply, line end.
pub fn set_reply_line<H: Heap>(
    heap: H,
    line: &mut Vec<u8>,
    number: u32,
    reply: &Reply,
) -> Result<(), AllocError>
    ensures ok { OnOk result (line.new.items ≡ line_text number reply.now) }
    ensures memory { OnErr result H.Refused }
{
    line.clear();
    push_number(heap, line, number)?;
    heap.extend(line, b" ")?;
    push_reply(heap, line, reply)?;
    heap.extend(line, b"\n")
}

/// Returns the text of a file or a directory: its path, its kind, its owner and its mode, and of a file
/// its bytes after an equals sign.
pub fn node_text<H: Heap>(
    heap: H,
    path: &Path,
    stat: Stat,
    bytes: &[u8],
) -> Result<Vec<u8>, AllocError>
    ensures ok { IfOk result (λ text. text.items
        ≡ node_text (record { path = path.now; stat = stat; bytes = bytes.now })) }
    ensures memory { OnErr result H.Refused }
{
    let is_directory = stat.is_directory;
    let mut text = Vec::new(heap.alloc());
    push_path(heap, &mut text, path)?;
    heap.extend(&mut text, b" ")?;
    push_stat(heap, &mut text, stat)?;
    if !is_directory {
        heap.extend(&mut text, b" = ")?;
        heap.extend(&mut text, bytes)?;
    }
    Ok(text)
}

/// Returns the line of a file or a directory: its text, and a line end.
pub fn tree_line<H: Heap>(
    heap: H,
    path: &Path,
    stat: Stat,
    bytes: &[u8],
) -> Result<Vec<u8>, AllocError>
    ensures ok { IfOk result (λ line. line.items
        ≡ tree_line_text (record { path = path.now; stat = stat; bytes = bytes.now })) }
    ensures memory { OnErr result H.Refused }
{
    let mut line = node_text(heap, path, stat, bytes)?;
    heap.extend(&mut line, b"\n")?;
    Ok(line)
}
