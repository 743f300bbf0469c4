//! What a line that begins with a colon asks for.
ghost use Rattle.std.specs.Prelude.{◌≡◌, IfOk};
ghost use Rattle.std.specs.Option.{option_copied};
ghost use Rattle.histar_dialogue.specs.Commands.{command_alone, command_of, command_with, count_of, saved_as, help_text, is_command};
ghost use Rattle.histar_dialogue.specs.Commands.{is_there_text, misused_text, no_call_text, no_user_text, not_written_text};
ghost use Rattle.histar_dialogue.specs.Commands.{asking_text, changing_text, command_at, some_bytes, takes_argument, takes_path};
ghost use Rattle.histar_dialogue.specs.Commands.{too_long_text, unknown_text};

use histar_flat::{Path, ProcName, read_number, read_path, read_process};
use histar_script::split_word;
use std::alloc::{AllocError, Global};

/// The most lines that one command takes back or enters again, which is as many as a script has.
const MOST_LINES: u64 = 16_384;

/// What may be shown of a session.
pub(crate) enum Asked {
    /// What each process may do at each path.
    Access,
    /// What each process may do at one path.
    AccessAt(Path),
    /// Whom the file at a path rests on.
    Trust(Path),
    /// How what is at a path is revealed and changed.
    Leak(Path),
    /// To whom each process can pass on what it learns.
    Flows,
    /// Each file and directory.
    Tree,
    /// Each raw call.
    Trace,
}

/// What a line that begins with a colon asks for.
pub(crate) enum Command {
    /// The list of what may be asked for.
    Help,
    /// Why the last refused call was refused.
    Why,
    /// What the subcommand of the program writes for the session.
    Show(Asked),
    /// Takes back so many lines.
    Undo(u64),
    /// Enters so many lines again that were taken back.
    Redo(u64),
    /// Reads lines that begin with no process as lines of this one, or as they are.
    As(Option<ProcName>),
    /// Adds the last reply as the expected one.
    Expect,
    /// Adds what each process may do at a path as what is expected.
    ExpectAt(Path),
    /// The session itself.
    Session,
    /// The end.
    Quit,
    /// A command with other words than it takes.
    Misused,
    /// There is no such command.
    Unknown,
}

/// Checks whether a line begins with a colon.
pub(crate) fn is_command(line: &[u8]) -> bool
    ensures { result ≡ is_command line.now }
{
    match line {
        [first, ..] => *first == b':',
        [] => false,
    }
}

/// Returns what a line asks for.
pub(crate) fn command_of(line: &[u8]) -> Command
    ensures { result ≡ command_of line.now }
{
    match split_word(line) {
        (word, None) => command_alone(word),
        (word, Some(argument)) => command_with(word, argument),
    }
}

/// Returns what a word alone asks for.
fn command_alone(word: &[u8]) -> Command
    ensures { result ≡ command_alone word.now }
{
    if word == b":help".as_slice() {
        Command::Help
    } else if word == b":why".as_slice() {
        Command::Why
    } else if word == b":access".as_slice() {
        Command::Show(Asked::Access)
    } else if word == b":flows".as_slice() {
        Command::Show(Asked::Flows)
    } else if word == b":tree".as_slice() {
        Command::Show(Asked::Tree)
    } else if word == b":trace".as_slice() {
        Command::Show(Asked::Trace)
    } else if word == b":undo".as_slice() {
        Command::Undo(1)
    } else if word == b":redo".as_slice() {
        Command::Redo(1)
    } else if word == b":as".as_slice() {
        Command::As(None)
    } else if word == b":expect".as_slice() {
        Command::Expect
    } else if word == b":session".as_slice() {
        Command::Session
    } else if word == b":quit".as_slice() {
        Command::Quit
    } else if takes_argument(word) {
        Command::Misused
    } else {
        Command::Unknown
    }
}

/// Checks whether a word asks for something only with what is behind it.
fn takes_argument(word: &[u8]) -> bool
    ensures { result ≡ takes_argument word.now }
{
    word == b":trust".as_slice() || word == b":leak".as_slice() || word == b":save".as_slice()
}

/// Returns what a word asks for with what is behind it.
fn command_with(word: &[u8], argument: &[u8]) -> Command
    ensures { result ≡ command_with word.now argument.now }
{
    if takes_path(word) {
        return match read_path(argument) {
            Some(path) => command_at(word, path),
            None => Command::Misused,
        };
    }
    if word == b":undo".as_slice() {
        return match count_of(argument) {
            Some(count) => Command::Undo(count),
            None => Command::Misused,
        };
    }
    if word == b":redo".as_slice() {
        return match count_of(argument) {
            Some(count) => Command::Redo(count),
            None => Command::Misused,
        };
    }
    if word == b":as".as_slice() {
        return match read_process(argument) {
            Some(process) => Command::As(Some(process)),
            None => Command::Misused,
        };
    }
    if word == b":save".as_slice() {
        return Command::Misused;
    }
    Command::Unknown
}

/// Checks whether a word takes a path.
fn takes_path(word: &[u8]) -> bool
    ensures { result ≡ takes_path word.now }
{
    word == b":access".as_slice()
        || word == b":trust".as_slice()
        || word == b":leak".as_slice()
        || word == b":expect".as_slice()
}

/// Returns what a word that takes a path asks for at this one.
fn command_at(word: &[u8], path: Path) -> Command
    ensures { result ≡ command_at word.now path }
{
    if word == b":access".as_slice() {
        Command::Show(Asked::AccessAt(path))
    } else if word == b":trust".as_slice() {
        Command::Show(Asked::Trust(path))
    } else if word == b":leak".as_slice() {
        Command::Show(Asked::Leak(path))
    } else {
        Command::ExpectAt(path)
    }
}

/// Returns the number of lines that a word spells.
fn count_of(word: &[u8]) -> Option<u64>
    ensures { result ≡ count_of word.now }
{
    read_number(word, MOST_LINES)
}

/// Returns the list of what may be asked for.
pub(crate) fn help_text(alloc: Global) -> Result<Vec<u8>, AllocError>
    ensures { IfOk result (λ text. text.items ≡ help_text) }
{
    let mut text = asking_text(alloc)?;
    text.extend_from_slice(changing_text(alloc)?.as_slice())?;
    Ok(text)
}

/// Returns the list of the commands that ask for something.
fn asking_text(alloc: Global) -> Result<Vec<u8>, AllocError>
    ensures { IfOk result (λ text. text.items ≡ asking_text) }
{
    let mut text = Vec::new(alloc);
    text.extend_from_slice(b":help           this list\n")?;
    text.extend_from_slice(b":why            why the last call that was refused was refused\n")?;
    text.extend_from_slice(
        b":access [PATH]  what each process may do, at each path or at this one\n",
    )?;
    text.extend_from_slice(b":trust PATH     whom the file at this path rests on\n")?;
    text.extend_from_slice(b":leak PATH      how what is at this path is revealed and changed\n")?;
    text.extend_from_slice(b":flows          to whom each process can pass on what it learns\n")?;
    text.extend_from_slice(b":tree           each file and directory\n")?;
    text.extend_from_slice(b":trace          each raw call, and why it was denied\n")?;
    Ok(text)
}

/// Returns the list of the others.
fn changing_text(alloc: Global) -> Result<Vec<u8>, AllocError>
    ensures { IfOk result (λ text. text.items ≡ changing_text) }
{
    let mut text = Vec::new(alloc);
    text.extend_from_slice(b":undo [N]       takes back the last line, or the last N lines\n")?;
    text.extend_from_slice(
        b":redo [N]       enters the next line that was taken back, or the next N\n",
    )?;
    text.extend_from_slice(
        b":as [PROC]      reads a line that begins with no process as one of PROC\n",
    )?;
    text.extend_from_slice(
        b":expect [PATH]  adds the last reply as the expected one, or what each process may do at this path\n",
    )?;
    text.extend_from_slice(b":session        the session, which is a script\n")?;
    text.extend_from_slice(b":save FILE      writes the session into a new file\n")?;
    text.extend_from_slice(b":quit           ends, as the end of input does\n")?;
    Ok(text)
}

/// Returns the answer to what is no command.
pub(crate) fn unknown_text(alloc: Global) -> Result<Vec<u8>, AllocError>
    ensures { IfOk result (λ text. text.items ≡ unknown_text) }
{
    Vec::from_slice(
        alloc,
        b"there is no such command (:help lists them)\n".as_slice(),
    )
}

/// Returns the answer to a command with other words than it takes.
pub(crate) fn misused_text(alloc: Global) -> Result<Vec<u8>, AllocError>
    ensures { IfOk result (λ text. text.items ≡ misused_text) }
{
    Vec::from_slice(
        alloc,
        b"the command takes other words (:help lists them)\n".as_slice(),
    )
}

/// Returns the answer to a line with which the session would be too long.
pub(crate) fn too_long_text(alloc: Global) -> Result<Vec<u8>, AllocError>
    ensures { IfOk result (λ text. text.items ≡ too_long_text) }
{
    Vec::from_slice(alloc, b"the session would be too long\n".as_slice())
}

/// Returns the answer where a session with a user is asked for.
pub(crate) fn no_user_text(alloc: Global) -> Result<Vec<u8>, AllocError>
    ensures { IfOk result (λ text. text.items ≡ no_user_text) }
{
    Vec::from_slice(alloc, b"the session has no user\n".as_slice())
}

/// Returns the answer where a reply is asked for.
pub(crate) fn no_call_text(alloc: Global) -> Result<Vec<u8>, AllocError>
    ensures { IfOk result (λ text. text.items ≡ no_call_text) }
{
    Vec::from_slice(alloc, b"no call was made\n".as_slice())
}

/// Returns the name of the file as which a line saves the session, if it does.
pub(crate) fn saved_as<'a>(line: &'a [u8]) -> Option<&'a [u8]>
    ensures { option_copied result ≡ saved_as line.entry.now }
{
    let (word, name) = split_word(line);
    if word == b":save".as_slice() {
        some_bytes(name)
    } else {
        None
    }
}

/// Returns the text, if it has a byte.
fn some_bytes<'a>(text: Option<&'a [u8]>) -> Option<&'a [u8]>
    ensures { option_copied result ≡ some_bytes (option_copied text.entry) }
{
    match text {
        None => None,
        Some([]) => None,
        Some(bytes) => Some(bytes),
    }
}

/// Returns the answer where a file to save the session in is there.
pub(crate) fn is_there_text(alloc: Global) -> Result<Vec<u8>, AllocError>
    ensures { IfOk result (λ text. text.items ≡ is_there_text) }
{
    Vec::from_slice(alloc, b"there is such a file already\n".as_slice())
}

/// Returns the answer where a file can't be written.
pub(crate) fn not_written_text(alloc: Global) -> Result<Vec<u8>, AllocError>
    ensures { IfOk result (λ text. text.items ≡ not_written_text) }
{
    Vec::from_slice(alloc, b"the file can't be written\n".as_slice())
}
