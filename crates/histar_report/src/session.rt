//! Writing a session as a page, from bytes to bytes.
ghost use Rattle.std.specs.Prelude.{◌≡◌, false, None, IfErr, IfSome};
ghost use Rattle.histar_io.specs.Device.{CountsFailure};
ghost use Rattle.histar_script.specs.Runs.{LeavesSink, RunsInput, is_read_failed, is_write_failed};
ghost use Rattle.histar_report.specs.Session.{AreFlows, AreReasons, AreSecrets, AreTitles, IsLongFront, ShowsTable};
ghost use Rattle.histar_report.specs.Session.{WritesPage};
ghost use Rattle.histar_run_explain.specs.Output.{GivesText};

use crate::front::Front;
use histar_access::access;
use histar_command::{Command, run_command};
use histar_io::{Sink, Source, write_bytes};
use histar_leak::secret_titles;
use histar_page::{Texts, is_long, page_text};
use histar_run_explain::{explained_output, in_memory};
use histar_script::Fault;
use histar_shell::{Counted, Options};
use histar_trust::{flows, secrets};
use histar_why::run_with_reasons;
use std::alloc::Global;

/// The options of the run: it prints its raw calls, and no tree, since the table of rights has the files.
const OPTIONS: Options = Options {
    tree: false,
    trace: true,
};

/// The options of the run with reasons: it prints its replies and no more.
const REPLIES: Options = Options {
    tree: false,
    trace: false,
};

/// Reads a script, runs it with reasons and explanations, and writes one page that shows the session, who may do what at
/// its end, which processes have to be trusted with its secret files, how each of these is revealed or changed, and
/// to whom each process can pass on what it learns. The name is that of the script's file.
///
/// It writes once the script has run. It doesn't flush the sink.
pub fn report<R: Source, W: Sink>(
    alloc: Global,
    reader: &mut R,
    writer: &mut W,
    name: &[u8],
    version: &[u8],
) -> Result<(), Fault>
    // After a bad script, one that is too long or a failed read, the sink is as it was.
    ensures nothing { IfErr result (LeavesSink writer.old writer.new) }

    // A device has failed exactly if its fault is returned.
    ensures reads { CountsFailure (R.failures reader.old) (R.failures reader.new) (is_read_failed result) }
    ensures writes { CountsFailure (W.failures writer.old) (W.failures writer.new) (is_write_failed result) }

    // Some bytes of the source were read, to its end but never more than 1,048,577, and run: the fault of
    // their script is returned, or a page of its run is written.
    ensures runs { RunsInput (WritesPage name.now version.now) (R.left reader.old) (R.left reader.new)
        (W.written writer.old) (W.written writer.new) result }

    // If the input is known, this is the page of the script of the whole input.
    ensures known { IfSome (R.left reader.old) (λ input. WritesPage name.now version.now input
        (W.written writer.old) (W.written writer.new) result) }
{
    run_command(alloc, reader, writer, PageOf { name, version })
}

/// The command of `report`.
#[derive(Drop)]
struct PageOf<'a> {
    name: &'a [u8],
    version: &'a [u8],
}

impl<'a> Command for PageOf<'a> {
    ghost use Rattle.std.proofs.Common.{rules};

    type Answer = ();

    type Memory = Global;

    ghost Runs = { λ command. WritesPage command.name.now command.version.now };

    fn on_text<W: Sink>(self, alloc: Global, text: Vec<u8>, writer: &mut W) -> Result<(), Fault> {
        report_text(alloc, text.as_slice(), writer, self.name, self.version)
    }

    ghost unread = { Prim.search rules };

    ghost long = { Prim.search rules };
}

/// Runs the script in a text, and writes its page.
fn report_text<W: Sink>(
    alloc: Global,
    text: &[u8],
    writer: &mut W,
    name: &[u8],
    version: &[u8],
) -> Result<(), Fault>
    ensures nothing { IfErr result (LeavesSink writer.old writer.new) }
    ensures reads { is_read_failed result ≡ false }
    ensures writes { CountsFailure (W.failures writer.old) (W.failures writer.new) (is_write_failed result) }
    ensures runs { WritesPage name.now version.now text.now (W.written writer.old)
        (W.written writer.new) result }
{
    let output = explained_output(alloc, text, OPTIONS)?;
    let reasons = reasons_of(alloc, text)?;
    let table = table_of(alloc, text)?;
    let secret_lines = secrets_of(alloc, text)?;
    let title_lines = titles_of(alloc, text)?;
    let flow_lines = flows_of(alloc, text)?;
    let page = page_text(
        alloc,
        &Texts {
            name,
            version,
            script: text,
            output: output.as_slice(),
            reasons: reasons.as_slice(),
            table: table.as_slice(),
            secrets: secret_lines.as_slice(),
            titles: title_lines.as_slice(),
            flows: flow_lines.as_slice(),
        },
    )?;
    write_bytes(writer, page.as_slice())?;
    Ok(())
}

/// Returns what the run of the script in a text writes with the reasons of refused calls.
fn reasons_of(alloc: Global, text: &[u8]) -> Result<Vec<u8>, Fault>
    ensures { GivesText AreReasons text.now result }
{
    let mut reader = Counted::new(text);
    let mut writer = Counted::new(Vec::new(alloc));
    match run_with_reasons(alloc, &mut reader, &mut writer, REPLIES) {
        Ok(()) => Ok(writer.into_inner()),
        Err(fault) => Err(in_memory(fault)),
    }
}

/// Returns what `access` writes for the script in a text. Of a table that is too long to be shown, which can be a thousand
/// times as long as the page, it returns as much as shows that.
fn table_of(alloc: Global, text: &[u8]) -> Result<Vec<u8>, Fault>
    ensures { GivesText ShowsTable text.now result }
{
    let mut reader = Counted::new(text);
    let mut writer = Counted::new(Front::new(alloc));
    match access(alloc, &mut reader, &mut writer, None) {
        Ok(()) => Ok(writer.into_inner().into_kept()),
        Err(Fault::WriteFailed) => long_front(writer.into_inner().into_kept()),
        Err(fault) => Err(in_memory(fault)),
    }
}

/// Returns what was kept of a table that was not written whole. Memory ran out unless it is too long to be shown.
fn long_front(kept: Vec<u8>) -> Result<Vec<u8>, Fault>
    ensures { IsLongFront kept.items result }
{
    if is_long(kept.as_slice()) {
        Ok(kept)
    } else {
        Err(Fault::OutOfMemory)
    }
}

/// Returns the lines on the files that not everyone may read after the script in a text.
fn secrets_of(alloc: Global, text: &[u8]) -> Result<Vec<u8>, Fault>
    ensures { GivesText AreSecrets text.now result }
{
    let mut reader = Counted::new(text);
    let mut writer = Counted::new(Vec::new(alloc));
    match secrets(alloc, &mut reader, &mut writer) {
        Ok(()) => Ok(writer.into_inner()),
        Err(fault) => Err(in_memory(fault)),
    }
}

/// Returns the lines on how these files are revealed or changed after the script in a text.
fn titles_of(alloc: Global, text: &[u8]) -> Result<Vec<u8>, Fault>
    ensures { GivesText AreTitles text.now result }
{
    let mut reader = Counted::new(text);
    let mut writer = Counted::new(Vec::new(alloc));
    match secret_titles(alloc, &mut reader, &mut writer) {
        Ok(()) => Ok(writer.into_inner()),
        Err(fault) => Err(in_memory(fault)),
    }
}

/// Returns the lines on the flows after the script in a text.
fn flows_of(alloc: Global, text: &[u8]) -> Result<Vec<u8>, Fault>
    ensures { GivesText AreFlows text.now result }
{
    let mut reader = Counted::new(text);
    let mut writer = Counted::new(Vec::new(alloc));
    match flows(alloc, &mut reader, &mut writer, None) {
        Ok(()) => Ok(writer.into_inner()),
        Err(fault) => Err(in_memory(fault)),
    }
}
