//! Who could ever do what in the run of a script, from bytes to bytes.
ghost use Rattle.std.specs.Prelude.{◌≡◌, false, IfErr, IfSome};
ghost use Rattle.histar_io.specs.Device.{CountsFailure};
ghost use Rattle.histar_script.specs.Runs.{LeavesSink, is_read_failed, is_write_failed, RunsInput};
ghost use Rattle.histar_ever.specs.Gathering.{Gathers};
ghost use Rattle.histar_ever.specs.GatheringUsers.{GathersUsers};
ghost use Rattle.histar_ever.specs.Session.{EverText, EverUsersText, GathersText, ReadsEver, ReadsEverUsers};
ghost use Rattle.histar_ever.specs.Session.{StartsText};

use crate::by_users::EverUsers;
use crate::ever::Ever;
use crate::following::follow;
use crate::texts::ever_text;
use crate::users_texts::ever_users_text;
use histar_command::{Command, run_command};
use histar_flat::CallLine;
use histar_io::{Sink, Source, write_bytes};
use histar_label::InternStore;
use histar_prefix::discard;
use histar_script::{Fault, read_script};
use histar_shell::Machine;
use std::alloc::Global;

/// How many answers of label comparisons are remembered.
const REMEMBERED_ANSWERS: usize = 256;

/// Reads a script, runs it on a machine of its own, and writes who could ever do what: a line for each path that
/// was there before some call or after the last one, with the letters that each process that ran then had at
/// the path in one or another of these states. With a line number it makes the calls on the lines before that
/// one, and else all.
///
/// The whole script is read and checked before the first call, and all calls are made before anything is
/// written. The rights are computed again only after calls that may have changed something. It doesn't flush the
/// sink.
pub fn access_ever<R: Source, W: Sink>(
    alloc: Global,
    reader: &mut R,
    writer: &mut W,
    at: Option<u32>,
) -> Result<(), Fault>
    // After a bad script, one that is too long or a failed read, the sink is as it was.
    ensures nothing { IfErr result (LeavesSink writer.old writer.new) }

    // A device has failed exactly if its fault is returned.
    ensures reads { CountsFailure (R.failures reader.old) (R.failures reader.new) (is_read_failed result) }
    ensures writes { CountsFailure (W.failures writer.old) (W.failures writer.new) (is_write_failed result) }

    // Some bytes of the source were read, to its end but never more than 1,048,577: the fault of their script
    // is returned, or exactly the text of who could ever do what in its run is written.
    ensures runs { RunsInput (EverText at) (R.left reader.old) (R.left reader.new)
        (W.written writer.old) (W.written writer.new) result }

    // If the input is known, this is the text of the script of the whole input.
    ensures known { IfSome (R.left reader.old) (λ input.
        EverText at input (W.written writer.old) (W.written writer.new) result) }
{
    run_command(alloc, reader, writer, EverAt { at })
}

/// Reads a script, runs it on a machine of its own, and writes what each user could ever do: a line for each path
/// that was there before some call or after the last one, with the letters that nobody and each user then had at the
/// path in one or another of these states: a process that has just logged in as the user, is in no job and holds
/// none. With a line number it makes the calls on the lines before that one, and else all.
///
/// The whole script is read and checked before the first call, and all calls are made before anything is
/// written. The rights are computed again only after calls that may have changed something. It doesn't flush the
/// sink.
pub fn access_users_ever<R: Source, W: Sink>(
    alloc: Global,
    reader: &mut R,
    writer: &mut W,
    at: Option<u32>,
) -> Result<(), Fault>
    // After a bad script, one that is too long or a failed read, the sink is as it was.
    ensures nothing { IfErr result (LeavesSink writer.old writer.new) }

    // A device has failed exactly if its fault is returned.
    ensures reads { CountsFailure (R.failures reader.old) (R.failures reader.new) (is_read_failed result) }
    ensures writes { CountsFailure (W.failures writer.old) (W.failures writer.new) (is_write_failed result) }

    // Some bytes of the source were read, to its end but never more than 1,048,577: the fault of their script
    // is returned, or exactly the text of what each user could ever do in its run is written.
    ensures runs { RunsInput (EverUsersText at) (R.left reader.old) (R.left reader.new)
        (W.written writer.old) (W.written writer.new) result }

    // If the input is known, this is the text of the script of the whole input.
    ensures known { IfSome (R.left reader.old) (λ input.
        EverUsersText at input (W.written writer.old) (W.written writer.new) result) }
{
    run_command(alloc, reader, writer, EverUsersAt { at })
}

/// The command of `access_ever`.
#[derive(Drop)]
struct EverAt {
    at: Option<u32>,
}

impl Command for EverAt {
    ghost use Rattle.std.proofs.Common.{rules};

    type Answer = ();

    type Memory = Global;

    ghost Runs = { λ command. EverText command.at };

    fn on_text<W: Sink>(self, alloc: Global, text: Vec<u8>, writer: &mut W) -> Result<(), Fault> {
        write_ever(alloc, text.as_slice(), writer, self.at)
    }

    ghost unread = { Prim.search rules };

    ghost long = { Prim.search rules };
}

/// The command of `access_users_ever`.
#[derive(Drop)]
struct EverUsersAt {
    at: Option<u32>,
}

impl Command for EverUsersAt {
    ghost use Rattle.std.proofs.Common.{rules};

    type Answer = ();

    type Memory = Global;

    ghost Runs = { λ command. EverUsersText command.at };

    fn on_text<W: Sink>(self, alloc: Global, text: Vec<u8>, writer: &mut W) -> Result<(), Fault> {
        write_users_ever(alloc, text.as_slice(), writer, self.at)
    }

    ghost unread = { Prim.search rules };

    ghost long = { Prim.search rules };
}

/// Writes who could ever do what in the run of the script in a text.
fn write_ever<W: Sink>(
    alloc: Global,
    text: &[u8],
    writer: &mut W,
    at: Option<u32>,
) -> Result<(), Fault>
    ensures nothing { IfErr result (LeavesSink writer.old writer.new) }
    ensures reads { is_read_failed result ≡ false }
    ensures writes { CountsFailure (W.failures writer.old) (W.failures writer.new) (is_write_failed result) }
    ensures runs { EverText at text.now (W.written writer.old) (W.written writer.new) result }
{
    let said = text_before(alloc, text, at)?;
    write_bytes(writer, said.as_slice())?;
    Ok(())
}

/// Writes what each user could ever do in the run of the script in a text.
fn write_users_ever<W: Sink>(
    alloc: Global,
    text: &[u8],
    writer: &mut W,
    at: Option<u32>,
) -> Result<(), Fault>
    ensures nothing { IfErr result (LeavesSink writer.old writer.new) }
    ensures reads { is_read_failed result ≡ false }
    ensures writes { CountsFailure (W.failures writer.old) (W.failures writer.new) (is_write_failed result) }
    ensures runs { EverUsersText at text.now (W.written writer.old) (W.written writer.new) result }
{
    let said = users_text_before(alloc, text, at)?;
    write_bytes(writer, said.as_slice())?;
    Ok(())
}

/// Returns the text of who could ever do what in the run of the script in a text, before a line if one is given.
fn text_before(alloc: Global, text: &[u8], at: Option<u32>) -> Result<Vec<u8>, Fault>
    ensures { ReadsEver at text.now result }
{
    let ever = ever_before(alloc, text, at)?;
    Ok(ever_text(alloc, &ever)?)
}

/// Returns the text of what each user could ever do in the run of the script in a text, before a line if one is
/// given.
fn users_text_before(alloc: Global, text: &[u8], at: Option<u32>) -> Result<Vec<u8>, Fault>
    ensures { ReadsEverUsers at text.now result }
{
    let ever = users_before(alloc, text, at)?;
    Ok(ever_users_text(alloc, &ever)?)
}

/// Runs the script in a text on a machine of its own, up to a line if one is given, and gathers what is there.
fn ever_before(alloc: Global, text: &[u8], at: Option<u32>) -> Result<Ever, Fault>
    ensures { GathersText Gathers at text.now result }
{
    let (mut machine, calls) = started(alloc, text)?;
    let Ok(ever) = follow(alloc, &mut machine, calls, at, Ever::new(alloc)) else {
        discard(machine);
        return Err(Fault::OutOfMemory);
    };
    discard(machine);
    Ok(ever)
}

/// Runs the script in a text on a machine of its own, up to a line if one is given, and gathers what is there by
/// users.
fn users_before(alloc: Global, text: &[u8], at: Option<u32>) -> Result<EverUsers, Fault>
    ensures { GathersText GathersUsers at text.now result }
{
    let (mut machine, calls) = started(alloc, text)?;
    let Ok(nothing) = EverUsers::new(alloc, &machine) else {
        discard(machine);
        return Err(Fault::OutOfMemory);
    };
    let Ok(ever) = follow(alloc, &mut machine, calls, at, nothing) else {
        discard(machine);
        return Err(Fault::OutOfMemory);
    };
    discard(machine);
    Ok(ever)
}

/// Reads the script in a text, and boots a machine for it. It returns the machine and the calls.
fn started(alloc: Global, text: &[u8]) -> Result<(Machine<InternStore>, Vec<CallLine>), Fault>
    ensures { StartsText text.now result }
{
    let store = InternStore::new(alloc, REMEMBERED_ANSWERS)?;
    let script = read_script(alloc, text)?;
    let (accounts, calls) = script.into_parts();
    let Ok(machine) = Machine::boot(alloc, store, accounts) else {
        return Err(Fault::OutOfMemory);
    };
    Ok((machine, calls))
}
