//! A session that grows by the lines that are entered, and the answer to each line.
ghost use Rattle.std.specs.Prelude.{◌≡◌, ◌+◌, Err, IfErr, IfOk, IfSome, IsTrue, OnErr, OnOk, Some, is_some, length, true, option_map};
ghost use Rattle.histar_dialogue.specs.Session.{AnswersLine, AnswersSpoken, AnswersText, Becomes, Expects, ExpectsAt};
ghost use Rattle.histar_dialogue.specs.Session.{ExpectsClaims, ExpectsLast, Follows, FollowsBy, FollowsSo, IsNew, IsRight};
ghost use Rattle.histar_dialogue.specs.Session.{Obeys, ObeysCommand, Saves, talk_of};
ghost use Rattle.histar_dialogue.specs.Steps.{AnswersOn, HasRoom, IsPushed, IsRestarted, KeepsText, MayGrow, Refuses};
ghost use Rattle.histar_script.specs.Laws.{EndsItsLines};
ghost use Rattle.histar_script.specs.Lines.{lines_of};
ghost use Rattle.histar_script.specs.Reading.{item_of, script_of};
ghost use Rattle.histar_script.specs.Script.{is_declared_call};

use crate::asked::{or_no_user, replies_of, shown, table_of};
use crate::claims::claims_at;
use crate::commands::{
    Command, command_of, help_text, is_command, is_there_text, misused_text, no_call_text,
    not_written_text, saved_as, too_long_text, unknown_text,
};
use crate::parts::{expecting, no_entry_text};
use crate::refusals::explained_reason;
use crate::running::{Running, run_behind};
use crate::shelf::{SaveFault, Shelf};
use crate::speaking::spoken;
use crate::texts::{count_lines, ended, has_room, joined, push_line, rule_text};
use crate::undoing::bytes_of_lines;
use histar_flat::{CallLine, Path, ProcName, UnixCall};
use histar_script::{Fault, Item, is_declared_call, read_item};
use std::alloc::{AllocError, Global};

/// A session that is entered line by line, and the machine that has made its calls.
#[derive(Drop)]
pub struct Session {
    text: Vec<u8>,
    undone: Vec<u8>,
    count: usize,
    running: Option<Running>,
    speaker: Option<ProcName>,
}

impl Session {
    /// Returns the session of no lines.
    pub fn new(alloc: Global) -> Session
        ensures { IsNew result }
    {
        Session {
            text: Vec::new(alloc),
            undone: Vec::new(alloc),
            count: 0,
            running: None,
            speaker: None,
        }
    }

    /// Returns the text of the session.
    pub(crate) fn text(&self) -> &[u8]
        ensures { result.now ≡ self.now.text.items }
    {
        self.text.as_slice()
    }

    /// Returns the number that the next line of the session will have.
    pub(crate) fn next_number(&self) -> u64
        requires { IsRight self.now }
        ensures { result ≡ length (lines_of self.now.text.items) + 1 }
    {
        self.count as u64 + 1
    }

    /// Takes one line, without its end, and returns the answer to it, which may be empty.
    ///
    /// It has no source, so a line is answered before any more is read. A call costs what a call
    /// costs, however long the session is; a bad line, a declaration and a command may cost what
    /// the session cost so far. Only a line `:save FILE` reaches the shelf. After an `Err`, which
    /// says that memory ran out, no more lines can be answered, but the session has its text.
    pub fn answer<S: Shelf>(
        &mut self,
        alloc: Global,
        line: &[u8],
        shelf: &mut S,
    ) -> Result<Vec<u8>, Fault>
        ensures ok { IfOk result (λ said. Follows (S.saved shelf.old) (S.saved shelf.new)
            self.old self.new line.now said.items) }
        ensures err { IfErr result (λ fault. fault ≡ Fault.OutOfMemory) }

        // Where memory runs out nothing is saved, and the session keeps its text, perhaps with the line.
        ensures unsaved { OnErr result (S.saved shelf.new ≡ S.saved shelf.old) }
        ensures kept { OnErr result (KeepsText self.old self.new) }
    {
        if !is_command(line) {
            return self.take_spoken(alloc, line);
        }
        match saved_as(line) {
            Some(name) => self.save(alloc, name, shelf),
            None => self.obey(alloc, command_of(line)),
        }
    }

    /// Saves the session as a new file of this name.
    fn save<S: Shelf>(&self, alloc: Global, name: &[u8], shelf: &mut S) -> Result<Vec<u8>, Fault>
        ensures ok { IfOk result (λ said. Saves name.now (talk_of (S.saved shelf.old) self.now)
            (talk_of (S.saved shelf.new) self.now) said.items) }
        ensures err { IfErr result (λ fault. fault ≡ Fault.OutOfMemory) }
        ensures unsaved { OnErr result (S.saved shelf.new ≡ S.saved shelf.old) }
    {
        match shelf.save(name, self.text.as_slice()) {
            Ok(()) => Ok(Vec::new(alloc)),
            Err(SaveFault::IsThere) => Ok(is_there_text(alloc)?),
            Err(SaveFault::Failed) => Ok(not_written_text(alloc)?),
        }
    }

    /// Does what a command asks for.
    fn obey(&mut self, alloc: Global, command: Command) -> Result<Vec<u8>, Fault>
        ensures ok { IfOk result (λ said. FollowsSo (ObeysCommand command) self.old self.new said.items) }
        ensures err { IfErr result (λ fault. fault ≡ Fault.OutOfMemory) }
        ensures kept { OnErr result (KeepsText self.old self.new) }
    {
        match command {
            Command::Help => Ok(help_text(alloc)?),
            Command::Why => explained_reason(alloc, self.text.as_slice()),
            Command::Show(asked) => shown(alloc, self.text.as_slice(), asked),
            Command::Undo(count) => self.undo(alloc, count),
            Command::Redo(count) => self.redo(alloc, count),
            Command::As(process) => {
                self.speaker = process;
                Ok(Vec::new(alloc))
            }
            Command::Expect => self.expect(alloc),
            Command::ExpectAt(path) => self.expect_at(alloc, &path),
            Command::Session => Ok(Vec::from_slice(alloc, self.text.as_slice())?),
            Command::Quit => Ok(Vec::new(alloc)),
            Command::Misused => Ok(misused_text(alloc)?),
            Command::Unknown => Ok(unknown_text(alloc)?),
        }
    }

    /// Takes back the last lines, so many or all.
    fn undo(&mut self, alloc: Global, count: u64) -> Result<Vec<u8>, Fault>
        ensures ok { IfOk result (λ said. FollowsSo (ObeysCommand (Command.Undo count)) self.old self.new said.items) }
        ensures err { IfErr result (λ fault. fault ≡ Fault.OutOfMemory) }
        ensures kept { OnErr result (self.new.text.items ≡ self.old.text.items) }
    {
        let kept = (self.count as u64).saturating_sub(count);
        let at = bytes_of_lines(self.text.as_slice(), kept);
        let (front, back) = self.text.as_slice().split_at(at);
        let text = Vec::from_slice(alloc, front)?;
        let undone = joined(alloc, back, self.undone.as_slice())?;
        let first = self.count;
        let _answers = self.turn_into(alloc, text, undone, first)?;
        Ok(Vec::new(alloc))
    }

    /// Enters the first lines again of those that were taken back, so many or all.
    fn redo(&mut self, alloc: Global, count: u64) -> Result<Vec<u8>, Fault>
        ensures ok { IfOk result (λ said. FollowsSo (ObeysCommand (Command.Redo count)) self.old self.new said.items) }
        ensures err { IfErr result (λ fault. fault ≡ Fault.OutOfMemory) }
        ensures kept { OnErr result (self.new.text.items ≡ self.old.text.items) }
    {
        let at = bytes_of_lines(self.undone.as_slice(), count);
        let (front, back) = self.undone.as_slice().split_at(at);
        let text = joined(alloc, self.text.as_slice(), front)?;
        let undone = Vec::from_slice(alloc, back)?;
        let first = self.count;
        self.turn_into(alloc, text, undone, first)
    }

    /// Takes a text for the session, and these lines for those that were taken back, and returns the
    /// answers to the calls behind the first lines.
    fn turn_into(
        &mut self,
        alloc: Global,
        text: Vec<u8>,
        undone: Vec<u8>,
        first: usize,
    ) -> Result<Vec<u8>, Fault>
        ensures ok { IfOk result (λ said. Becomes first self.old self.new text.items undone.items said.items) }
        ensures err { IfErr result (λ fault. fault ≡ Fault.OutOfMemory) }
        ensures kept { OnErr result (self.new.text.items ≡ self.old.text.items) }
    {
        match run_behind(alloc, text.as_slice(), first) {
            Ok((running, said)) => {
                self.restart(text, Some(running));
                self.undone = undone;
                Ok(said)
            }
            Err(Fault::BadScript(_)) => {
                self.restart(text, None);
                self.undone = undone;
                Ok(Vec::new(alloc))
            }
            Err(_) => Err(Fault::OutOfMemory),
        }
    }

    /// Takes the comment that expects the last reply as a line.
    fn expect(&mut self, alloc: Global) -> Result<Vec<u8>, Fault>
        ensures ok { IfOk result (λ said. FollowsSo Expects self.old self.new said.items) }
        ensures err { IfErr result (λ fault. fault ≡ Fault.OutOfMemory) }
        ensures kept { OnErr result (KeepsText self.old self.new) }
    {
        match replies_of(alloc, self.text.as_slice()) {
            Ok(replies) => {
                let found = expecting(alloc, replies.as_slice())?;
                self.take_expected(alloc, found)
            }
            Err(fault) => or_no_user(alloc, Err(fault)),
        }
    }

    /// Takes a comment that expects a reply as a line, if there is one.
    fn take_expected(&mut self, alloc: Global, found: Option<Vec<u8>>) -> Result<Vec<u8>, Fault>
        ensures ok { IfOk result (λ said. FollowsSo (λ talk. ExpectsLast talk (option_map (λ line. line.items) found))
            self.old self.new said.items) }
        ensures err { IfErr result (λ fault. fault ≡ Fault.OutOfMemory) }
        ensures kept { OnErr result (KeepsText self.old self.new) }
    {
        match found {
            None => Ok(no_call_text(alloc)?),
            Some(line) => self.take(alloc, line.as_slice()),
        }
    }

    /// Takes the claims of the rights that each process has at a path, all at once.
    fn expect_at(&mut self, alloc: Global, path: &Path) -> Result<Vec<u8>, Fault>
        ensures ok { IfOk result (λ said. FollowsSo (ExpectsAt path.now) self.old self.new said.items) }
        ensures err { IfErr result (λ fault. fault ≡ Fault.OutOfMemory) }
        ensures kept { OnErr result (self.new.text.items ≡ self.old.text.items) }
    {
        match table_of(alloc, self.text.as_slice()) {
            Ok(table) => {
                let claims = claims_at(alloc, table.as_slice(), path)?;
                self.take_claims(alloc, claims.as_slice())
            }
            Err(fault) => or_no_user(alloc, Err(fault)),
        }
    }

    /// Takes claims as lines, if there is one.
    fn take_claims(&mut self, alloc: Global, claims: &[u8]) -> Result<Vec<u8>, Fault>
        requires { EndsItsLines claims.now }
        ensures ok { IfOk result (λ said. FollowsBy ExpectsClaims self.old self.new claims.now said.items) }
        ensures err { IfErr result (λ fault. fault ≡ Fault.OutOfMemory) }
        ensures kept { OnErr result (self.new.text.items ≡ self.old.text.items) }
    {
        if claims.is_empty() {
            return Ok(no_entry_text(alloc)?);
        }
        self.read_behind(alloc, claims)
    }

    /// Takes a line, behind the process as which it is read if it lacks one.
    fn take_spoken(&mut self, alloc: Global, line: &[u8]) -> Result<Vec<u8>, Fault>
        ensures ok { IfOk result (λ said. FollowsBy AnswersSpoken self.old self.new line.now said.items) }
        ensures err { IfErr result (λ fault. fault ≡ Fault.OutOfMemory) }
        ensures kept { OnErr result (KeepsText self.old self.new) }
    {
        let read = spoken(alloc, &self.speaker, line)?;
        self.take(alloc, read.as_slice())
    }

    /// Takes a line of a script.
    fn take(&mut self, alloc: Global, line: &[u8]) -> Result<Vec<u8>, Fault>
        ensures ok { IfOk result (λ said. FollowsBy AnswersLine self.old self.new line.now said.items) }
        ensures err { IfErr result (λ fault. fault ≡ Fault.OutOfMemory) }
        ensures kept { OnErr result (KeepsText self.old self.new) }
    {
        match read_item(alloc, line)? {
            Some(item) => self.take_item(alloc, line, item),
            None => self.read_again(alloc, line),
        }
    }

    /// Takes a line that says this.
    fn take_item(&mut self, alloc: Global, line: &[u8], item: Item) -> Result<Vec<u8>, Fault>
        requires { item_of line.now ≡ Some item }
        ensures ok { IfOk result (λ said. FollowsBy AnswersLine self.old self.new line.now said.items) }
        ensures err { IfErr result (λ fault. fault ≡ Fault.OutOfMemory) }
        ensures kept { OnErr result (KeepsText self.old self.new) }
    {
        match item {
            Item::Comment => self.take_comment(alloc, line),
            Item::Call(process, call) => self.take_call(alloc, line, process, call),
            Item::User(_user) => self.read_again(alloc, line),
            Item::Group(_group) => self.read_again(alloc, line),
        }
    }

    /// Takes a line with this call of a process.
    fn take_call(
        &mut self,
        alloc: Global,
        line: &[u8],
        process: ProcName,
        call: UnixCall,
    ) -> Result<Vec<u8>, Fault>
        requires { item_of line.now ≡ Some (Item.Call process call) }
        ensures ok { IfOk result (λ said. FollowsBy AnswersLine self.old self.new line.now said.items) }
        ensures err { IfErr result (λ fault. fault ≡ Fault.OutOfMemory) }
        ensures kept { OnErr result (KeepsText self.old self.new) }
    {
        if !self.may_take(line, &call) {
            drop(call);
            return self.read_again(alloc, line);
        }
        self.push_line(line)?;
        let line = self.count as u32;
        let made = CallLine {
            line,
            process,
            call,
        };
        answer_on(alloc, &mut self.running, made)
    }

    /// Takes a comment or an empty line.
    fn take_comment(&mut self, alloc: Global, line: &[u8]) -> Result<Vec<u8>, Fault>
        requires { item_of line.now ≡ Some Item.Comment }
        ensures ok { IfOk result (λ said. FollowsBy AnswersLine self.old self.new line.now said.items) }
        ensures err { IfErr result (λ fault. fault ≡ Fault.OutOfMemory) }
        ensures kept { OnErr result (KeepsText self.old self.new) }
    {
        if !self.may_grow(line) {
            return self.read_again(alloc, line);
        }
        self.push_line(line)?;
        Ok(Vec::new(alloc))
    }

    /// Adds a line to the text.
    fn push_line(&mut self, line: &[u8]) -> Result<(), AllocError>
        requires { HasRoom self.old line.now }
        ensures ok { OnOk result (IsPushed self.old self.new line.now) }
        ensures kept { OnErr result (self.new.text.items ≡ self.old.text.items) }
    {
        push_line(&mut self.text, line)?;
        self.undone.clear();
        self.count += 1;
        Ok(())
    }

    /// Checks whether a machine runs, and the session may have one line more, with this call.
    fn may_take(&self, line: &[u8], call: &UnixCall) -> bool
        ensures grows { result ≡ true → MayGrow self.now line.now }
        ensures declared { result ≡ true → IfSome self.now.running (λ r. IsTrue (is_declared_call r.accounts call.now)) }
    {
        self.may_grow(line) && self.is_declared(call)
    }

    /// Checks whether a machine runs, and the session may have one line more.
    fn may_grow(&self, line: &[u8]) -> bool
        ensures { result ≡ true → MayGrow self.now line.now }
    {
        self.running.is_some() && has_room(self.text.as_slice(), self.count, line)
    }

    /// Checks whether a call names no group that is not declared.
    fn is_declared(&self, call: &UnixCall) -> bool
        ensures { result ≡ true → IfSome self.now.running (λ r. IsTrue (is_declared_call r.accounts call.now)) }
    {
        match &self.running {
            None => false,
            Some(running) => is_declared_call(&running.accounts, call),
        }
    }

    /// Reads the session anew with this line behind it, and runs it anew if it is a script.
    fn read_again(&mut self, alloc: Global, line: &[u8]) -> Result<Vec<u8>, Fault>
        ensures ok { IfOk result (λ said. FollowsBy AnswersLine self.old self.new line.now said.items) }
        ensures err { IfErr result (λ fault. fault ≡ Fault.OutOfMemory) }
        ensures kept { OnErr result (self.new.text.items ≡ self.old.text.items) }
    {
        let more = ended(alloc, line)?;
        self.read_behind(alloc, more.as_slice())
    }

    /// Reads the session anew with some text behind it, and runs it anew if it is a script.
    fn read_behind(&mut self, alloc: Global, more: &[u8]) -> Result<Vec<u8>, Fault>
        requires { EndsItsLines more.now }
        ensures ok { IfOk result (λ said. FollowsBy AnswersText self.old self.new more.now said.items) }
        ensures err { IfErr result (λ fault. fault ≡ Fault.OutOfMemory) }
        ensures kept { OnErr result (self.new.text.items ≡ self.old.text.items) }
    {
        let longer = joined(alloc, self.text.as_slice(), more)?;
        match run_behind(alloc, longer.as_slice(), self.count) {
            Ok((running, said)) => {
                self.restart(longer, Some(running));
                Ok(said)
            }
            Err(Fault::BadScript(bad)) => self.refuse(alloc, longer, bad),
            Err(Fault::TooLong) => Ok(too_long_text(alloc)?),
            Err(_) => Err(Fault::OutOfMemory),
        }
    }

    /// Answers what is wrong with the first bad line of a text, or takes the text for the session
    /// if it only lacks a user as yet.
    fn refuse(&mut self, alloc: Global, longer: Vec<u8>, bad: u32) -> Result<Vec<u8>, Fault>
        requires { script_of longer.items ≡ Err (Fault.BadScript bad) }
        ensures ok { IfOk result (λ said. Refuses self.old self.new longer.items bad said.items) }
        ensures err { IfErr result (λ fault. fault ≡ Fault.OutOfMemory) }
        ensures kept { OnErr result (self.new.text.items ≡ self.old.text.items) }
    {
        if bad as usize > count_lines(longer.as_slice()) {
            self.restart(longer, None);
            return Ok(Vec::new(alloc));
        }
        rule_text(alloc, longer.as_slice(), bad)
    }

    /// Takes a text for the session, with the machine that has made its calls.
    fn restart(&mut self, text: Vec<u8>, running: Option<Running>)
        ensures { IsRestarted self.old self.new text.items running }
    {
        self.count = count_lines(text.as_slice());
        self.text = text;
        self.undone.clear();
        self.running = running;
    }
}

/// Makes a call on the machine that runs, and returns the answer.
fn answer_on(alloc: Global, running: &mut Option<Running>, call: CallLine) -> Result<Vec<u8>, Fault>
    requires { is_some running.old ≡ true }
    ensures ok { IfOk result (λ said. AnswersOn running.old running.new call said.items) }
    ensures err { IfErr result (λ fault. fault ≡ Fault.OutOfMemory) }
{
    match running {
        None => unreachable!(),
        Some(running) => running.answer(alloc, call),
    }
}
