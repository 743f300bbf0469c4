//! Calls as lines of a script, with the replies that are expected of them, and lists of processes.
ghost use Rattle.std.specs.Prelude.{◌≡◌, ◌++◌, codes, OnOk};
ghost use Rattle.std.specs.Fmt.{decimal};
ghost use Rattle.histar_flat.specs.declared.calls.UnixCall.TheVariants.{Exit, Login, Read, Status};
ghost use Rattle.histar_flat.specs.declared.replies.Reply.TheVariants.{Data, Done, Exited, Running};
ghost use Rattle.histar_flat.specs.Texts.{path_text};
ghost use Rattle.histar_leak.specs.LeakLines.{call_line, call_text, reply_line, some_text};
ghost use Rattle.histar_leak.specs.LeakLines.{who_text};
ghost use Rattle.histar_leak.specs.LeakText.{login_line};
ghost use Rattle.histar_leak.specs.Findings.{asking_text, call_of, change_text, reading_text};
ghost use Rattle.histar_leak.specs.Findings.{replied};

use crate::changes::Change;
use histar_flat::{Name, Path, ProcName, User};
use histar_texts::{push_number, push_path, push_process};
use itoa::Buffer;
use std::alloc::AllocError;

/// The most bytes of a line.
const MOST_LINE_BYTES: usize = 1_024;

/// How many bytes a reply with the bytes of a file has before these.
const DATA_MARK_BYTES: usize = 5;

/// Adds the lines of a process that reads a file and exits with 1, and of another one that asks
/// before and after that whether it runs.
pub fn push_asking(
    text: &mut Vec<u8>,
    me: &ProcName,
    path: &Path,
    bytes: &[u8],
    other: &ProcName,
) -> Result<(), AllocError>
    ensures { OnOk result (text.new.items
        ≡ text.old.items ++ asking_text me.now path.now bytes.now other.now) }
{
    push_read(text, me, path, bytes)?;
    push_running(text, other, me)?;
    push_exit(text, me)?;
    push_exited(text, other, me)
}

/// Adds the lines of a process that logs in as a user and reads a file.
pub fn push_reading(
    text: &mut Vec<u8>,
    user: &User,
    path: &Path,
    bytes: &[u8],
    me: &ProcName,
) -> Result<(), AllocError>
    ensures { OnOk result (text.new.items
        ≡ text.old.items ++ reading_text user.now path.now bytes.now me.now) }
{
    push_login(text, me, user)?;
    push_read(text, me, path, bytes)
}

/// Adds the line of a process that reads a file, and the reply if a line may have as many bytes.
fn push_read(text: &mut Vec<u8>, me: &ProcName, path: &Path, bytes: &[u8]) -> Result<(), AllocError>
    ensures { OnOk result (text.new.items ≡ text.old.items
        ++ replied (me.now, Read path.now) (Data bytes.now)) }
{
    let alloc = *text.allocator();
    push_process(alloc, text, me)?;
    text.extend_from_slice(b" read ")?;
    push_path(alloc, text, path)?;
    text.extend_from_slice(b"\n")?;
    push_data(text, bytes)
}

/// Adds the reply with the bytes of a file, if a line may have as many.
fn push_data(text: &mut Vec<u8>, bytes: &[u8]) -> Result<(), AllocError>
    ensures { OnOk result (text.new.items ≡ text.old.items ++ reply_line (Data bytes.now)) }
{
    if bytes.len() > MOST_LINE_BYTES - DATA_MARK_BYTES {
        return Ok(());
    }
    text.extend_from_slice(b"#= = ")?;
    text.extend_from_slice(bytes)?;
    text.extend_from_slice(b"\n")
}

/// Adds the line of a process that asks whether another one runs.
fn push_status(text: &mut Vec<u8>, me: &ProcName, other: &ProcName) -> Result<(), AllocError>
    ensures { OnOk result (text.new.items
        ≡ text.old.items ++ call_line (me.now, Status other.now)) }
{
    let alloc = *text.allocator();
    push_process(alloc, text, me)?;
    text.extend_from_slice(b" status ")?;
    push_process(alloc, text, other)?;
    text.extend_from_slice(b"\n")
}

/// Adds the line of a process that exits with 1, and the reply.
fn push_exit(text: &mut Vec<u8>, me: &ProcName) -> Result<(), AllocError>
    ensures { OnOk result (text.new.items
        ≡ text.old.items ++ replied (me.now, Exit 1) Done) }
{
    let alloc = *text.allocator();
    push_process(alloc, text, me)?;
    text.extend_from_slice(b" exit ")?;
    push_number(alloc, text, 1)?;
    text.extend_from_slice(b"\n#= ok\n")
}

/// Adds the line of a process that asks whether another one runs, and the reply that it does.
fn push_running(text: &mut Vec<u8>, me: &ProcName, other: &ProcName) -> Result<(), AllocError>
    ensures { OnOk result (text.new.items
        ≡ text.old.items ++ replied (me.now, Status other.now) Running) }
{
    push_status(text, me, other)?;
    text.extend_from_slice(b"#= ok running\n")
}

/// Adds the line of a process that asks whether another one runs, and the reply that this has
/// exited with 1.
fn push_exited(text: &mut Vec<u8>, me: &ProcName, other: &ProcName) -> Result<(), AllocError>
    ensures { OnOk result (text.new.items
        ≡ text.old.items ++ replied (me.now, Status other.now) (Exited 1)) }
{
    push_status(text, me, other)?;
    push_exited_reply(text)
}

/// Adds the reply that a process has exited with 1.
#[tactic(auto, using(crate::proofs::Replies::exited_line))]
fn push_exited_reply(text: &mut Vec<u8>) -> Result<(), AllocError>
    ensures { OnOk result (text.new.items ≡ text.old.items ++ reply_line (Exited 1)) }
{
    text.extend_from_slice(b"#= ok exited 1\n")
}

/// Adds the line of a process that logs in as a user, and the reply.
pub fn push_login(text: &mut Vec<u8>, me: &ProcName, user: &User) -> Result<(), AllocError>
    ensures { OnOk result (text.new.items
        ≡ text.old.items ++ replied (login_line me.now user.now) Done) }
{
    push_process(*text.allocator(), text, me)?;
    text.extend_from_slice(b" login ")?;
    text.extend_from_slice(user.name.as_bytes())?;
    text.extend_from_slice(b" ")?;
    text.extend_from_slice(user.password.as_bytes())?;
    text.extend_from_slice(b"\n#= ok\n")
}

/// Adds the line of a process and its call that changes something, and the reply, if there is such
/// a call.
pub fn push_change(
    text: &mut Vec<u8>,
    me: &ProcName,
    change: Option<Change>,
) -> Result<(), AllocError>
    ensures { OnOk result (text.new.items ≡ text.old.items ++ change_text me.now change) }
{
    let Some(call) = change else {
        return Ok(());
    };
    push_process(*text.allocator(), text, me)?;
    text.extend_from_slice(b" ")?;
    push_call(text, &call)?;
    text.extend_from_slice(b"\n#= ok\n")
}

/// Adds the text of a call that changes something.
fn push_call(text: &mut Vec<u8>, change: &Change) -> Result<(), AllocError>
    ensures { OnOk result (text.new.items ≡ text.old.items ++ call_text (call_of change.now)) }
{
    match change {
        Change::Rmtree(path) => push_path_between(text, b"rmtree ", path, b""),
        Change::Mkdir(path) => push_path_between(text, b"mkdir ", path, b" open"),
        Change::WriteZero(path) => push_path_between(text, b"write ", path, b" 0"),
        Change::WriteOne(path) => push_path_between(text, b"write ", path, b" 1"),
    }
}

/// Adds a path with what stands before and after it.
fn push_path_between(
    text: &mut Vec<u8>,
    before: &[u8],
    path: &Path,
    after: &[u8],
) -> Result<(), AllocError>
    ensures { OnOk result (text.new.items
        ≡ text.old.items ++ before.now ++ path_text path.now ++ after.now) }
{
    text.extend_from_slice(before)?;
    push_path(*text.allocator(), text, path)?;
    text.extend_from_slice(after)
}

/// Adds at most three of these processes, each with its user, and how many more there are.
pub fn push_some(text: &mut Vec<u8>, whom: &[(ProcName, Name)]) -> Result<(), AllocError>
    ensures { OnOk result (text.new.items ≡ text.old.items ++ some_text whom.now) }
{
    match whom {
        [] => text.extend_from_slice(b"nobody"),
        [a] => push_who(text, &a.0, a.1),
        [a, b] => push_two(text, a, b),
        [a, b, c] => push_three(text, a, b, c),
        [a, b, c, more @ ..] => {
            push_three(text, a, b, c)?;
            push_more(text, more.len())
        }
    }
}

/// Adds two processes.
fn push_two(
    text: &mut Vec<u8>,
    a: &(ProcName, Name),
    b: &(ProcName, Name),
) -> Result<(), AllocError>
    ensures { OnOk result (text.new.items
        ≡ text.old.items ++ who_text a.now ++ codes ", " ++ who_text b.now) }
{
    push_who(text, &a.0, a.1)?;
    text.extend_from_slice(b", ")?;
    push_who(text, &b.0, b.1)
}

/// Adds three processes.
fn push_three(
    text: &mut Vec<u8>,
    a: &(ProcName, Name),
    b: &(ProcName, Name),
    c: &(ProcName, Name),
) -> Result<(), AllocError>
    ensures { OnOk result (text.new.items ≡ text.old.items
        ++ who_text a.now ++ codes ", " ++ who_text b.now ++ codes ", " ++ who_text c.now) }
{
    push_two(text, a, b)?;
    text.extend_from_slice(b", ")?;
    push_who(text, &c.0, c.1)
}

/// Adds how many more there are.
fn push_more(text: &mut Vec<u8>, count: usize) -> Result<(), AllocError>
    ensures { OnOk result (text.new.items
        ≡ text.old.items ++ codes " and " ++ decimal count ++ codes " more") }
{
    let mut digits = Buffer::new();
    text.extend_from_slice(b" and ")?;
    text.extend_from_slice(digits.format(count).as_bytes())?;
    text.extend_from_slice(b" more")
}

/// Adds a process and its user.
pub fn push_who(text: &mut Vec<u8>, process: &ProcName, user: Name) -> Result<(), AllocError>
    ensures { OnOk result (text.new.items ≡ text.old.items ++ who_text (process.now, user)) }
{
    push_process(*text.allocator(), text, process)?;
    text.extend_from_slice(b" ")?;
    text.extend_from_slice(user.as_bytes())
}
