//! The line of a refused call, read off the machine after the call.
ghost use Rattle.std.specs.Prelude.{◌≡◌, ◌++◌, codes, option_map, true, OnOk, IfOk};
ghost use Rattle.std.specs.Fmt.{decimal};
ghost use Rattle.histar_flat.specs.Texts.{reply_text};
ghost use Rattle.histar_names.specs.Births.{births_after};
ghost use Rattle.histar_reasons.specs.Laws.{is_refusal};
ghost use Rattle.histar_syscall.specs.KernelModel.{state};
ghost use Rattle.histar_why.specs.Names.{process_of, running_at};
ghost use Rattle.histar_why.specs.Logging.{Adds, SaysIfRefused, SaysLine, SaysReason, SaysWhy};
ghost use Rattle.histar_why.specs.Logging.{SaysWords};

use crate::absences::absence_of;
use crate::asked::Asked;
use crate::implied::implied_reason;
use crate::names::{Caller, Reader, caller_of, node_at};
use crate::reasons::first_reason;
use crate::sentences::{push_absence, push_implied, push_reason};
use crate::session::Log;
use crate::views::{View, facts_of};
use histar_flat::{ProcName, Reply};
use histar_label::LabelStore;
use histar_names::note_births;
use histar_shell::Machine;
use histar_texts::push_number;
use std::alloc::{AllocError, Global};

/// Notes the births of a line, and adds its line if its call was refused.
pub(crate) fn log_call<S: LabelStore + Drop>(
    alloc: Global,
    machine: &Machine<S>,
    log: &mut Log,
    asked: &Asked,
    reply: &Reply,
) -> Result<(), AllocError>
    ensures births { OnOk result (log.new.births.items
        ≡ births_after (state machine.now.kernel) machine.now.roots asked.now.process
        log.old.births.items) }
    ensures text { OnOk result
        (Adds (SaysIfRefused machine.now log.new.births.items asked.now reply.now)
        log.old.text.items log.new.text.items) }
{
    note_births(
        machine.kernel(),
        machine.roots(),
        &asked.process,
        &mut log.births,
    )?;
    if is_refusal(reply) {
        push_line(alloc, machine, log, asked, reply)
    } else {
        Ok(())
    }
}

/// Adds the line of a refused call.
fn push_line<S: LabelStore + Drop>(
    alloc: Global,
    machine: &Machine<S>,
    log: &mut Log,
    asked: &Asked,
    reply: &Reply,
) -> Result<(), AllocError>
    requires { is_refusal reply.now ≡ true }
    ensures births { log.new.births.items ≡ log.old.births.items }
    ensures text { OnOk result (Adds (SaysLine machine.now log.old.births.items asked.now reply.now)
        log.old.text.items log.new.text.items) }
{
    let reader = Reader {
        kernel: machine.kernel(),
        roots: machine.roots(),
        users: machine.users(),
        births: log.births.as_slice(),
    };
    push_head(&mut log.text, asked.line, reply)?;
    push_words(alloc, &reader, asked, reply, &mut log.text)?;
    log.text.extend_from_slice(b"\n")
}

/// Checks whether a reply is a refusal.
fn is_refusal(reply: &Reply) -> bool
    ensures { result ≡ is_refusal reply.now }
{
    matches!(reply, Reply::Refused(_) | Reply::Gone)
}

/// Adds the number of a line and its reply, which is a refusal.
fn push_head(text: &mut Vec<u8>, number: u32, reply: &Reply) -> Result<(), AllocError>
    requires { is_refusal reply.now ≡ true }
    ensures { OnOk result (text.new.items ≡ text.old.items
        ++ (codes "!" ++ decimal number ++ codes " " ++ reply_text reply.now ++ codes ": ")) }
{
    let refusal = match reply {
        Reply::Refused(errno) => errno.name(),
        _ => "gone",
    };
    text.push(b'!')?;
    push_number(*text.allocator(), text, number)?;
    text.push(b' ')?;
    text.extend_from_slice(refusal.as_bytes())?;
    text.extend_from_slice(b": ")
}

/// Adds why a call was refused: by its refusal where that implies, and else by the process that made
/// it.
fn push_words<S: LabelStore + Drop>(
    alloc: Global,
    reader: &Reader<S>,
    asked: &Asked,
    reply: &Reply,
    text: &mut Vec<u8>,
) -> Result<(), AllocError>
    ensures { OnOk result
        (Adds (SaysWhy reader.now.users.now reader.now.roots.now reader.now.births.now
        (state reader.now.kernel.now) asked.now reply.now) text.old.items text.new.items) }
{
    match implied_reason(reader, asked, reply) {
        Some(implied) => push_implied(text, asked, &implied),
        None => push_own_words(alloc, reader, asked, text),
    }
}

/// Adds why a call of its process was refused, or why there is no such process.
fn push_own_words<S: LabelStore + Drop>(
    alloc: Global,
    reader: &Reader<S>,
    asked: &Asked,
    text: &mut Vec<u8>,
) -> Result<(), AllocError>
    ensures { OnOk result
        (Adds (SaysWords reader.now.users.now reader.now.roots.now reader.now.births.now
        (state reader.now.kernel.now) asked.now) text.old.items text.new.items) }
{
    match find_caller(alloc, reader, &asked.process)? {
        Some(caller) => push_why(alloc, reader, &caller, asked, text),
        None => {
            let absence = absence_of(reader.kernel, reader.roots, &asked.process);
            push_absence(text, &asked.process, &absence)
        }
    }
}

/// Reads the process of this name with its jobs by name, if it runs.
fn find_caller<S: LabelStore + Drop>(
    alloc: Global,
    reader: &Reader<S>,
    name: &ProcName,
) -> Result<Option<Caller>, AllocError>
    ensures { IfOk result (λ found. option_map process_of found ≡ running_at reader.now.users.now
        reader.now.births.now (state reader.now.kernel.now) reader.now.roots.now.home name.now) }
{
    match node_at(alloc, reader, name)? {
        Some(node) => caller_of(alloc, reader.births, &node),
        None => Ok(None),
    }
}

/// Adds why a call of this process was refused.
fn push_why<S: LabelStore + Drop>(
    alloc: Global,
    reader: &Reader<S>,
    caller: &Caller,
    asked: &Asked,
    text: &mut Vec<u8>,
) -> Result<(), AllocError>
    ensures { OnOk result
        (Adds (SaysReason reader.now.users.now reader.now.roots.now reader.now.births.now
        (state reader.now.kernel.now) caller.now asked.now) text.old.items text.new.items) }
{
    let facts = facts_of(alloc, reader, caller, asked)?;
    let view = View {
        asked,
        users: reader.users,
        caller,
        facts: &facts,
    };
    match first_reason(&view, asked.parts) {
        Some(reason) => push_reason(text, asked, caller, &reason),
        None => Ok(()),
    }
}
