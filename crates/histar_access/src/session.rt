//! The rights after the calls of a script, from bytes to bytes.
ghost use Rattle.std.specs.Prelude.{◌≡◌, false, IfErr, IfSome};
ghost use Rattle.histar_io.specs.Device.{CountsFailure};
ghost use Rattle.histar_script.specs.Runs.{LeavesSink, is_read_failed, is_write_failed, RunsInput};
ghost use Rattle.histar_access.specs.Session.{AccessText, ReadsUsers, UsersText};

use crate::table::write_table;
use crate::users::users_table;
use histar_command::{Command, run_command};
use histar_io::{Sink, Source, write_bytes};
use histar_prefix::{discard, machine_before};
use histar_script::Fault;
use std::alloc::Global;

/// Reads a script, runs it on a machine of its own, and writes who may do what then: a line for each file and
/// directory, with the rights of each running process. With a line number it runs the calls on the lines
/// before that one, and else all.
///
/// The whole script is read and checked before the first call. It doesn't flush the sink.
pub fn access<R: Source, W: Sink>(
    alloc: Global,
    reader: &mut R,
    writer: &mut W,
    at: Option<u32>,
) -> Result<(), Fault>
    // After a bad script, one that is too long or a failed read, the sink is as it was.
    ensures nothing { IfErr result (LeavesSink writer.old writer.new) }

    // A device has failed exactly if its fault is returned.
    ensures reads { CountsFailure (R.failures reader.old) (R.failures reader.new) (is_read_failed result) }
    ensures writes { CountsFailure (W.failures writer.old) (W.failures writer.new) (is_write_failed result) }

    // Some bytes of the source were read, to its end but never more than 1,048,577: the fault of their script
    // is returned, or exactly the text of the table of the flat state after its calls is written.
    ensures runs { RunsInput (AccessText at) (R.left reader.old) (R.left reader.new)
        (W.written writer.old) (W.written writer.new) result }

    // If the input is known, this is the table of the script of the whole input.
    ensures known { IfSome (R.left reader.old) (λ input.
        AccessText at input (W.written writer.old) (W.written writer.new) result) }
{
    run_command(alloc, reader, writer, TableAt { at })
}

/// The command of `access`.
#[derive(Drop)]
struct TableAt {
    at: Option<u32>,
}

impl Command for TableAt {
    ghost use Rattle.std.proofs.Common.{rules};

    type Answer = ();

    type Memory = Global;

    ghost Runs = { λ command. AccessText command.at };

    fn on_text<W: Sink>(self, alloc: Global, text: Vec<u8>, writer: &mut W) -> Result<(), Fault> {
        access_text(alloc, text.as_slice(), writer, self.at)
    }

    ghost unread = { Prim.search rules };

    ghost long = { Prim.search rules };
}

/// Writes who may do what after the calls of the script in a text.
fn access_text<W: Sink>(
    alloc: Global,
    text: &[u8],
    writer: &mut W,
    at: Option<u32>,
) -> Result<(), Fault>
    ensures nothing { IfErr result (LeavesSink writer.old writer.new) }
    ensures reads { is_read_failed result ≡ false }
    ensures writes { CountsFailure (W.failures writer.old) (W.failures writer.new) (is_write_failed result) }
    ensures runs { AccessText at text.now (W.written writer.old) (W.written writer.new) result }
{
    let machine = machine_before(alloc, text, at)?;
    let outcome = write_table(alloc, &machine, writer);
    discard(machine);
    outcome
}

/// Reads a script, runs it on a machine of its own, and writes what each user may do then: a line for each file
/// and directory, with the rights of nobody and of each user, in the order of the script. They are those of a
/// process that has just logged in, is in no job and holds none. With a line number it runs the calls on the
/// lines before that one, and else all.
///
/// The whole script is read and checked before the first call, and the whole table is computed before any of it
/// is written. It doesn't flush the sink.
pub fn access_users<R: Source, W: Sink>(
    alloc: Global,
    reader: &mut R,
    writer: &mut W,
    at: Option<u32>,
) -> Result<(), Fault>
    // After a bad script, one that is too long or a failed read, the sink is as it was.
    ensures nothing { IfErr result (LeavesSink writer.old writer.new) }

    // A device has failed exactly if its fault is returned.
    ensures reads { CountsFailure (R.failures reader.old) (R.failures reader.new) (is_read_failed result) }
    ensures writes { CountsFailure (W.failures writer.old) (W.failures writer.new) (is_write_failed result) }

    // Some bytes of the source were read, to its end but never more than 1,048,577: the fault of their script
    // is returned, or exactly the text of the table by users of the flat state after its calls is written.
    ensures runs { RunsInput (UsersText at) (R.left reader.old) (R.left reader.new)
        (W.written writer.old) (W.written writer.new) result }

    // If the input is known, this is the table of the script of the whole input.
    ensures known { IfSome (R.left reader.old) (λ input.
        UsersText at input (W.written writer.old) (W.written writer.new) result) }
{
    run_command(alloc, reader, writer, UsersAt { at })
}

/// The command of `access_users`.
#[derive(Drop)]
struct UsersAt {
    at: Option<u32>,
}

impl Command for UsersAt {
    ghost use Rattle.std.proofs.Common.{rules};

    type Answer = ();

    type Memory = Global;

    ghost Runs = { λ command. UsersText command.at };

    fn on_text<W: Sink>(self, alloc: Global, text: Vec<u8>, writer: &mut W) -> Result<(), Fault> {
        write_users(alloc, text.as_slice(), writer, self.at)
    }

    ghost unread = { Prim.search rules };

    ghost long = { Prim.search rules };
}

/// Writes what each user may do after the calls of the script in a text.
fn write_users<W: Sink>(
    alloc: Global,
    text: &[u8],
    writer: &mut W,
    at: Option<u32>,
) -> Result<(), Fault>
    ensures nothing { IfErr result (LeavesSink writer.old writer.new) }
    ensures reads { is_read_failed result ≡ false }
    ensures writes { CountsFailure (W.failures writer.old) (W.failures writer.new) (is_write_failed result) }
    ensures runs { UsersText at text.now (W.written writer.old) (W.written writer.new) result }
{
    let table = users_before(alloc, text, at)?;
    write_bytes(writer, table.as_slice())?;
    Ok(())
}

/// Returns the table by users of the script in a text, before a line if one is given.
fn users_before(alloc: Global, text: &[u8], at: Option<u32>) -> Result<Vec<u8>, Fault>
    ensures { ReadsUsers at text.now result }
{
    let machine = machine_before(alloc, text, at)?;
    let table = users_table(alloc, &machine);
    discard(machine);
    Ok(table?)
}
