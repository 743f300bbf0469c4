//! A dialogue: the lines of a source, each answered before the next one is read.
ghost use Rattle.std.specs.Prelude.{◌≡◌, Err, IfErr, IfOk, IsOk, OnErr, OnOk};
ghost use Rattle.std.specs.Option.{option_copied};
ghost use Rattle.std.specs.Io.KnownBytes.{Appends};
ghost use Rattle.histar_dialogue.specs.Dialogue.{BeginsLines, LeavesAll, LeavesBoth, Talks, TalksOn, is_quit, prompt_text};
ghost use Rattle.histar_dialogue.specs.Exchange.{AnswersLines, AnswersTo, BeginsFile, BeginsFirst, BeginsWith};
ghost use Rattle.histar_dialogue.specs.Exchange.{LeavesText, StopsAnswer, TalksAlong};
ghost use Rattle.histar_dialogue.specs.Session.{IsNew, IsRight, talk_of};
ghost use Rattle.histar_io.specs.Device.{CountsFailure};
ghost use Rattle.histar_io.specs.Writing.{AppendsFront};
ghost use Rattle.histar_script.specs.Reading.{script_of};
ghost use Rattle.histar_script.specs.Runs.{IsOutputFault, is_read_failed, is_write_failed};

use crate::input::Input;
use crate::session::Session;
use crate::shelf::Shelf;
use histar_io::{Sink, Source, write_bytes};
use histar_script::{Fault, read_script, split_line};
use itoa::Buffer;
use std::alloc::{AllocError, Global};

/// Begins a session with the lines of a script, if there is one, and then reads lines, answers each
/// before any more is read, and ends with the source or at a line `:quit`.
///
/// Each answer is handed to the sink as a whole, which has to pass it on at once, as an unbuffered
/// writer does; where a prompt is asked for, the number of the session's next line is written
/// before a line is taken. The source is read only while no whole line waits, and a read may give
/// less than was asked for. A line `:save FILE` has the session written to the shelf. Where memory
/// runs out behind the script to begin with, the session is written, so that nothing of it is lost.
pub fn converse<R: Source, W: Sink, S: Shelf>(
    alloc: Global,
    first: Option<&[u8]>,
    reader: &mut R,
    writer: &mut W,
    shelf: &mut S,
    prompt: bool,
) -> Result<(), Fault>
    // Where the script to begin with is bad or too long, nothing is read, written or saved.
    ensures nothing { IfErr result (LeavesAll reader.old reader.new writer.old writer.new shelf.old shelf.new) }

    // A device has failed exactly if its fault is returned.
    ensures reads { CountsFailure (R.failures reader.old) (R.failures reader.new) (is_read_failed result) }
    ensures writes { CountsFailure (W.failures writer.old) (W.failures writer.new) (is_write_failed result) }

    // Some bytes of the source were read: to its end, or with a line `:quit` in them. The lines
    // before that were answered in their order, behind those of the script to begin with, each as
    // the session says with the lines before it, and exactly these answers and prompts were
    // written; or as many as the fault allowed. The shelf holds what these lines saved, and no more.
    ensures talks { Talks (option_copied first.entry) prompt (R.left reader.old) (R.left reader.new)
        (W.written writer.old) (W.written writer.new) (S.saved shelf.old) (S.saved shelf.new) result }
{
    let mut session = begin(alloc, first, writer, shelf)?;
    converse_on(alloc, &mut session, reader, writer, shelf, prompt)
}

/// Reads lines, and answers each, from this session on. Where memory runs out it writes the session.
fn converse_on<R: Source, W: Sink, S: Shelf>(
    alloc: Global,
    session: &mut Session,
    reader: &mut R,
    writer: &mut W,
    shelf: &mut S,
    prompt: bool,
) -> Result<(), Fault>
    requires { IsRight session.old }
    ensures talks { TalksOn prompt (talk_of (S.saved shelf.old) session.old) (R.left reader.old) (R.left reader.new)
        (W.written writer.old) (W.written writer.new) (S.saved shelf.new) result }
    ensures reads { CountsFailure (R.failures reader.old) (R.failures reader.new) (is_read_failed result) }
    ensures writes { CountsFailure (W.failures writer.old) (W.failures writer.new) (is_write_failed result) }
{
    match talk(alloc, session, reader, writer, shelf, prompt) {
        Err(Fault::OutOfMemory) => Err(leave(session, writer)),
        done => done,
    }
}

/// Writes the session, and returns the fault: that memory ran out, or that the write failed.
fn leave<W: Sink>(session: &Session, writer: &mut W) -> Fault
    ensures text { LeavesText (W.written writer.old) (W.written writer.new) session.now.text.items result }
    ensures count { CountsFailure (W.failures writer.old) (W.failures writer.new) (is_write_failed {A = Unit {0}} (Err result)) }
{
    match write_bytes(writer, session.text()) {
        Ok(()) => Fault::OutOfMemory,
        Err(_) => Fault::WriteFailed,
    }
}

/// Returns the session of the script to begin with, and writes its answers, or returns the session
/// of no lines.
fn begin<W: Sink, S: Shelf>(
    alloc: Global,
    first: Option<&[u8]>,
    writer: &mut W,
    shelf: &mut S,
) -> Result<Session, Fault>
    ensures ok { IfOk result (λ session. BeginsWith (option_copied first.entry) session
        (S.saved shelf.old) (S.saved shelf.new) (W.written writer.old) (W.written writer.new)) }
    ensures err { IfErr result (BeginsFirst (option_copied first.entry) (S.saved shelf.old) (S.saved shelf.new)
        (W.written writer.old) (W.written writer.new)) }
    ensures nothing { IfErr result (LeavesBoth writer.old writer.new shelf.old shelf.new) }
    ensures count { CountsFailure (W.failures writer.old) (W.failures writer.new) (is_write_failed result) }
{
    match first {
        None => Ok(Session::new(alloc)),
        Some(text) => enter(alloc, text, writer, shelf),
    }
}

/// Checks the script in a text, answers its lines, and returns its session.
fn enter<W: Sink, S: Shelf>(
    alloc: Global,
    text: &[u8],
    writer: &mut W,
    shelf: &mut S,
) -> Result<Session, Fault>
    ensures script { OnOk result (IsOk (script_of text.now)) }
    ensures ok { IfOk result (λ session. AnswersLines text.now session (S.saved shelf.old) (S.saved shelf.new)
        (W.written writer.old) (W.written writer.new)) }
    ensures err { IfErr result (BeginsFile text.now (S.saved shelf.old) (S.saved shelf.new)
        (W.written writer.old) (W.written writer.new)) }
    ensures nothing { IfErr result (LeavesBoth writer.old writer.new shelf.old shelf.new) }
    ensures count { CountsFailure (W.failures writer.old) (W.failures writer.new) (is_write_failed result) }
{
    let _script = read_script(alloc, text)?;
    let mut session = Session::new(alloc);
    answer_lines(alloc, text, &mut session, writer, shelf)?;
    Ok(session)
}

/// Answers the lines of a text.
fn answer_lines<W: Sink, S: Shelf>(
    alloc: Global,
    text: &[u8],
    session: &mut Session,
    writer: &mut W,
    shelf: &mut S,
) -> Result<(), Fault>
    requires { IsNew session.old }
    ensures ok { OnOk result (AnswersLines text.now session.new (S.saved shelf.old) (S.saved shelf.new)
        (W.written writer.old) (W.written writer.new)) }
    ensures err { OnErr result (BeginsLines text.now (S.saved shelf.old) (S.saved shelf.new)
        (W.written writer.old) (W.written writer.new)) }
    ensures faults { IfErr result IsOutputFault }
    ensures count { CountsFailure (W.failures writer.old) (W.failures writer.new) (is_write_failed result) }
{
    let mut rest = text;
    'lines: while !rest.is_empty() {
        let (line, after) = split_line(rest);
        answer_line(alloc, line, session, writer, shelf)?;
        rest = after;
    }
    Ok(())
}

/// Answers a line, and writes the answer.
fn answer_line<W: Sink, S: Shelf>(
    alloc: Global,
    line: &[u8],
    session: &mut Session,
    writer: &mut W,
    shelf: &mut S,
) -> Result<(), Fault>
    requires { IsRight session.old }
    ensures ok { OnOk result (AnswersTo session.old session.new line.now (S.saved shelf.old) (S.saved shelf.new)
        (W.written writer.old) (W.written writer.new)) }
    ensures err { IfErr result (StopsAnswer session.old session.new line.now (S.saved shelf.old) (S.saved shelf.new)
        (W.written writer.old) (W.written writer.new)) }
    ensures faults { IfErr result IsOutputFault }
    ensures count { CountsFailure (W.failures writer.old) (W.failures writer.new) (is_write_failed result) }
{
    let said = session.answer(alloc, line, shelf)?;
    write_bytes(writer, said.as_slice())?;
    Ok(())
}

/// Reads lines, and answers each, from this session on.
fn talk<R: Source, W: Sink, S: Shelf>(
    alloc: Global,
    session: &mut Session,
    reader: &mut R,
    writer: &mut W,
    shelf: &mut S,
    prompt: bool,
) -> Result<(), Fault>
    requires { IsRight session.old }
    ensures talks { TalksAlong prompt (talk_of (S.saved shelf.old) session.old) (R.left reader.old) (R.left reader.new)
        (W.written writer.old) (W.written writer.new) (S.saved shelf.new) session.new.text.items result }
    ensures reads { CountsFailure (R.failures reader.old) (R.failures reader.new) (is_read_failed result) }
    ensures writes { CountsFailure (W.failures writer.old) (W.failures writer.new) (is_write_failed result) }
{
    let mut input = Input::new(alloc);
    'lines: for _ in 0..u64::MAX {
        write_prompt(alloc, session, writer, prompt)?;
        let Some(line) = input.next_line(alloc, reader)? else {
            return Ok(());
        };
        if is_quit(line.as_slice()) {
            return Ok(());
        }
        answer_line(alloc, line.as_slice(), session, writer, shelf)?;
    }
    Err(Fault::OutOfMemory)
}

/// Writes the number of the next line, if a prompt is asked for.
fn write_prompt<W: Sink>(
    alloc: Global,
    session: &Session,
    writer: &mut W,
    prompt: bool,
) -> Result<(), Fault>
    requires { IsRight session.now }
    ensures ok { OnOk result (Appends (W.written writer.old) (W.written writer.new)
        (prompt_text prompt session.now.text.items)) }
    ensures err { OnErr result (AppendsFront (W.written writer.old) (W.written writer.new)
        (prompt_text prompt session.now.text.items)) }
    ensures faults { IfErr result IsOutputFault }
    ensures count { CountsFailure (W.failures writer.old) (W.failures writer.new) (is_write_failed result) }
{
    let text = prompt_text(alloc, session, prompt)?;
    write_bytes(writer, text.as_slice())?;
    Ok(())
}

/// Returns the number of the next line and the sign of a prompt, or nothing.
fn prompt_text(alloc: Global, session: &Session, prompt: bool) -> Result<Vec<u8>, AllocError>
    requires { IsRight session.now }
    ensures { IfOk result (λ text. text.items ≡ prompt_text prompt session.now.text.items) }
{
    let mut text = Vec::new(alloc);
    if prompt {
        let number = session.next_number();
        text.extend_from_slice(Buffer::new().format(number).as_bytes())?;
        text.extend_from_slice(b"> ")?;
    }
    Ok(text)
}

/// Checks whether a line ends the dialogue.
fn is_quit(line: &[u8]) -> bool
    ensures { result ≡ is_quit line.now }
{
    line == b":quit".as_slice()
}
