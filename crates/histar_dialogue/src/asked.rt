//! What is shown of a session: what a subcommand of the program writes of it.
ghost use Rattle.std.specs.Prelude.{◌≡◌, IfErr, IfOk};
ghost use Rattle.histar_dialogue.specs.Asked.{IsAnswer, IsBehindReplies, IsExplained, IsRun, IsTable, OrNoUser};
ghost use Rattle.histar_dialogue.specs.Asked.{Shows, of_replies};
ghost use Rattle.histar_run_explain.specs.Output.{GivesText};

use crate::commands::{Asked, no_user_text};
use crate::parts::{lines_at, without_first};
use histar_access::access;
use histar_flat::Path;
use histar_leak::leak;
use histar_run_explain::{explained_output, in_memory};
use histar_script::Fault;
use histar_shell::{Counted, Options, run};
use histar_trust::{TrustOptions, flows, trust};
use std::alloc::Global;

/// The options of a run that writes its replies and no more.
const OF_REPLIES: Options = Options {
    tree: false,
    trace: false,
};

/// The options of a run that writes its tree behind its replies.
const WITH_TREE: Options = Options {
    tree: true,
    trace: false,
};

/// The options of a run that writes its raw calls behind its replies.
const WITH_TRACE: Options = Options {
    tree: false,
    trace: true,
};

/// The options of `trust` behind all lines, without reasons.
const TO_THE_END: TrustOptions = TrustOptions {
    at: None,
    why: false,
};

/// Returns what is asked for of the session in a text, or that it has no user as yet.
pub(crate) fn shown(alloc: Global, text: &[u8], asked: Asked) -> Result<Vec<u8>, Fault>
    ensures ok { IfOk result (λ said. Shows (IsAnswer asked) text.now said.items) }
    ensures err { IfErr result (λ fault. fault ≡ Fault.OutOfMemory) }
{
    let found = answer_to(alloc, text, asked);
    or_no_user(alloc, found)
}

/// Returns what was found, or that the session has no user where there is no script.
pub(crate) fn or_no_user(alloc: Global, found: Result<Vec<u8>, Fault>) -> Result<Vec<u8>, Fault>
    ensures ok { IfOk result (λ said. OrNoUser found said.items) }
    ensures err { IfErr result (λ fault. fault ≡ Fault.OutOfMemory) }
{
    match found {
        Ok(text) => Ok(text),
        Err(Fault::BadScript(_)) => Ok(no_user_text(alloc)?),
        Err(Fault::TooLong) => Ok(no_user_text(alloc)?),
        Err(_) => Err(Fault::OutOfMemory),
    }
}

/// Returns what the subcommand writes of the script in a text.
fn answer_to(alloc: Global, text: &[u8], asked: Asked) -> Result<Vec<u8>, Fault>
    ensures { GivesText (IsAnswer asked) text.now result }
{
    match asked {
        Asked::Access => table_of(alloc, text),
        Asked::AccessAt(path) => table_at(alloc, text, &path),
        Asked::Trust(path) => trust_of(alloc, text, &path),
        Asked::Leak(path) => leak_of(alloc, text, &path),
        Asked::Flows => flows_of(alloc, text),
        Asked::Tree => behind_replies(alloc, text, WITH_TREE),
        Asked::Trace => behind_replies(alloc, text, WITH_TRACE),
    }
}

/// Returns what `access` writes of the script in a text.
pub(crate) fn table_of(alloc: Global, text: &[u8]) -> Result<Vec<u8>, Fault>
    ensures { GivesText IsTable text.now result }
{
    let mut reader = Counted::new(text);
    let mut writer = Counted::new(Vec::new(alloc));
    match access(alloc, &mut reader, &mut writer, None) {
        Ok(()) => Ok(writer.into_inner()),
        Err(fault) => Err(in_memory(fault)),
    }
}

/// Returns what `access` writes of one path of the script in a text.
fn table_at(alloc: Global, text: &[u8], path: &Path) -> Result<Vec<u8>, Fault>
    ensures { GivesText (IsAnswer (Asked.AccessAt path.now)) text.now result }
{
    let table = table_of(alloc, text)?;
    Ok(lines_at(alloc, table.as_slice(), path)?)
}

/// Returns what `trust` writes of the script in a text.
fn trust_of(alloc: Global, text: &[u8], path: &Path) -> Result<Vec<u8>, Fault>
    ensures { GivesText (IsAnswer (Asked.Trust path.now)) text.now result }
{
    let mut reader = Counted::new(text);
    let mut writer = Counted::new(Vec::new(alloc));
    match trust(alloc, path, &mut reader, &mut writer, TO_THE_END) {
        Ok(()) => Ok(writer.into_inner()),
        Err(fault) => Err(in_memory(fault)),
    }
}

/// Returns what `leak` writes of the script in a text.
fn leak_of(alloc: Global, text: &[u8], path: &Path) -> Result<Vec<u8>, Fault>
    ensures { GivesText (IsAnswer (Asked.Leak path.now)) text.now result }
{
    let mut reader = Counted::new(text);
    let mut writer = Counted::new(Vec::new(alloc));
    match leak(alloc, path, &mut reader, &mut writer, None) {
        Ok(()) => Ok(writer.into_inner()),
        Err(fault) => Err(in_memory(fault)),
    }
}

/// Returns what `flows` writes of the script in a text.
fn flows_of(alloc: Global, text: &[u8]) -> Result<Vec<u8>, Fault>
    ensures { GivesText (IsAnswer Asked.Flows) text.now result }
{
    let mut reader = Counted::new(text);
    let mut writer = Counted::new(Vec::new(alloc));
    match flows(alloc, &mut reader, &mut writer, None) {
        Ok(()) => Ok(writer.into_inner()),
        Err(fault) => Err(in_memory(fault)),
    }
}

/// Returns what `run` writes of the script in a text.
fn run_of(alloc: Global, text: &[u8], options: Options) -> Result<Vec<u8>, Fault>
    ensures { GivesText (IsRun options) text.now result }
{
    let mut reader = Counted::new(text);
    let mut writer = Counted::new(Vec::new(alloc));
    match run(alloc, &mut reader, &mut writer, options) {
        Ok(_trace) => Ok(writer.into_inner()),
        Err(fault) => Err(in_memory(fault)),
    }
}

/// Returns the replies to the calls of the script in a text.
pub(crate) fn replies_of(alloc: Global, text: &[u8]) -> Result<Vec<u8>, Fault>
    ensures { GivesText (IsRun of_replies) text.now result }
{
    run_of(alloc, text, OF_REPLIES)
}

/// Returns what `run --explain` writes of the script in a text.
pub(crate) fn explained_of(alloc: Global, text: &[u8]) -> Result<Vec<u8>, Fault>
    ensures { GivesText IsExplained text.now result }
{
    explained_output(alloc, text, OF_REPLIES)
}

/// Returns what `run` writes with these options behind the replies of the script in a text.
fn behind_replies(alloc: Global, text: &[u8], options: Options) -> Result<Vec<u8>, Fault>
    ensures { GivesText (IsBehindReplies options) text.now result }
{
    let replies = replies_of(alloc, text)?;
    let output = run_of(alloc, text, options)?;
    Ok(without_first(alloc, output.as_slice(), replies.len())?)
}
