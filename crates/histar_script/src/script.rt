//! Reading a whole script.
ghost use Rattle.std.specs.Prelude.{ℕ, IfOk, false, ◌≡◌, ◌≤◌, length, IsTrue, IsErrOf, Ok, Err};
ghost use Rattle.histar_script.specs.Lines.{lines_of, most_script_bytes, is_too_long as too_long};
ghost use Rattle.histar_script.specs.Script.{ScriptModel, IsDeclared, IsNumbered, nothing_read, without_job};
ghost use Rattle.histar_script.specs.Grammar.{IsScript, IsFirstBad};
ghost use Rattle.histar_script.specs.Reading.{reading, script_of, with_item, with_line};
ghost use Rattle.histar_script.specs.Memory.{OnOutOfMemory};
ghost use Rattle.histar_script.specs.Outcome.{Gives, GivesNext};

use crate::calls::read_item;
use crate::declarations::{are_distinct, are_users, has_user, is_declared_call, is_new_name};
use crate::fault::Fault;
use crate::items::Item;
use crate::lines::{count_lines, split_line};
use histar_flat::{Accounts, CallLine, Group, ProcName, UnixCall, User};
use histar_heap::Heap;
use std::alloc::Global;
use std::marker::Model;

/// The most bytes of a script.
const MOST_SCRIPT_BYTES: usize = 1_048_576;

/// The most lines of a script.
const MOST_SCRIPT_LINES: usize = 16_384;

/// The most users of a script.
const MOST_USERS: usize = 16;

/// The most groups of a script.
const MOST_GROUPS: usize = 8;

/// A script: the accounts that it declares, and its calls.
#[derive(Drop)]
pub struct Script {
    accounts: Accounts,
    calls: Vec<CallLine>,
}

impl Model for Script {
    ghost use Rattle.histar_script.specs.Script.{ScriptModel};

    ghost Value = { ScriptModel };

    ghost view = { λ s. record { accounts = s.accounts; calls = s.calls.items } };
}

impl Script {
    /// Returns the users and the groups, each in the order of their lines.
    pub fn accounts(&self) -> &Accounts
        ensures { result.now ≡ self.now.accounts }
    {
        &self.accounts
    }

    /// Returns the accounts and the calls as values of their own.
    pub fn into_parts(self) -> (Accounts, Vec<CallLine>)
        ensures accounts { result.0 ≡ self.accounts }
        ensures calls { result.1.items ≡ self.calls }
    {
        (self.accounts, self.calls)
    }

    /// Returns the script in which each line of a job, of its first process or of one below it, is a comment.
    pub fn without(self, job: &ProcName) -> Script
        ensures { result ≡ without_job job.now self }
    {
        let Script {
            accounts,
            mut calls,
        } = self;
        calls.retain(|call| !call.process.is_at_or_below(job));
        Script { accounts, calls }
    }

    /// Returns the script of no lines.
    pub fn new(alloc: Global) -> Script
        ensures { result ≡ nothing_read }
    {
        Script {
            accounts: Accounts::new(alloc),
            calls: Vec::new(alloc),
        }
    }

    /// Adds the item of a line, or returns its fault.
    #[tactic(auto, unfolding(crate::specs::Reading::with_item))]
    pub fn add<H: Heap>(&mut self, heap: H, line: u32, item: Item) -> Result<(), Fault>
        ensures ok { GivesNext line result self.new (with_item self.old line item) }
        ensures memory { OnOutOfMemory result H.Refused }
    {
        match item {
            Item::Comment => Ok(()),
            Item::User(user) => self.add_user(heap, line, user),
            Item::Group(group) => self.add_group(heap, line, group),
            Item::Call(process, call) => self.add_call(heap, line, process, call),
        }
    }

    #[tactic(auto, unfolding(crate::specs::Reading::with_item))]
    fn add_user<H: Heap>(&mut self, heap: H, line: u32, user: User) -> Result<(), Fault>
        ensures ok { GivesNext line result self.new (with_item self.old line (Item.User user)) }
        ensures memory { OnOutOfMemory result H.Refused }
    {
        let is_right = self.accounts.groups().is_empty()
            && self.calls.is_empty()
            && self.accounts.users().len() < MOST_USERS
            && !has_user(self.accounts.users(), user.name);
        if !is_right {
            return Err(Fault::BadScript(line));
        }
        self.accounts.add_user(heap, user)?;
        Ok(())
    }

    #[tactic(auto, unfolding(crate::specs::Reading::with_item))]
    fn add_group<H: Heap>(&mut self, heap: H, line: u32, group: Group) -> Result<(), Fault>
        ensures ok { GivesNext line result self.new (with_item self.old line (Item.Group group)) }
        ensures memory { OnOutOfMemory result H.Refused }
    {
        let is_right = self.calls.is_empty()
            && self.accounts.groups().len() < MOST_GROUPS
            && is_new_name(&self.accounts, group.name())
            && are_users(self.accounts.users(), group.members())
            && are_distinct(group.members());
        if !is_right {
            drop(group);
            return Err(Fault::BadScript(line));
        }
        self.accounts.add_group(heap, group)?;
        Ok(())
    }

    #[tactic(auto, unfolding(crate::specs::Reading::with_item))]
    fn add_call<H: Heap>(
        &mut self,
        heap: H,
        line: u32,
        process: ProcName,
        call: UnixCall,
    ) -> Result<(), Fault>
        ensures ok { GivesNext line result self.new (with_item self.old line (Item.Call process call)) }
        ensures memory { OnOutOfMemory result H.Refused }
    {
        let added = CallLine {
            line,
            process,
            call,
        };
        if self.accounts.users().is_empty() || !is_declared_call(&self.accounts, &added.call) {
            drop(added);
            return Err(Fault::BadScript(line));
        }
        heap.push(&mut self.calls, added)?;
        Ok(())
    }

    // Adds what a line says, or returns its fault.
    #[tactic(auto, unfolding(crate::specs::Reading::with_line))]
    fn add_line<H: Heap>(&mut self, heap: H, number: u32, line: &[u8]) -> Result<(), Fault>
        ensures ok { GivesNext number result self.new (with_line self.old number line.now) }
        ensures memory { OnOutOfMemory result H.Refused }
    {
        let Some(item) = read_item(heap, line)? else {
            return Err(Fault::BadScript(number));
        };
        self.add(heap, number, item)
    }
}

/// Returns whether a script is over a limit: more than 1,048,576 bytes, or more than 16,384 lines.
pub fn is_too_long(text: &[u8]) -> bool
    ensures { result ≡ too_long text.now }
{
    text.len() > MOST_SCRIPT_BYTES || count_lines(text) > MOST_SCRIPT_LINES
}

/// Reads the script that the bytes are. The whole text is read before anything is made of it. `OutOfMemory`
/// implies nothing about the text; `ReadFailed` and `WriteFailed` are never returned here.
pub fn read_script<H: Heap>(heap: H, text: &[u8]) -> Result<Script, Fault>
    // The result is that of the text, unless memory runs out.
    ensures exact { Gives result (script_of text.now) }
    // The limits are checked first, which takes no memory.
    ensures long { IsTrue (too_long text.now) → IsErrOf result Fault.TooLong }
    // A script that is read is one by the grammar.
    ensures found { IfOk result (IsScript text.now) }
    // A script of the grammar within the limits is read, unless memory runs out.
    ensures only { (script : ScriptModel) → too_long text.now ≡ false → IsScript text.now script
        → Gives result (Ok script) }
    // The users and the groups are valid together.
    ensures declared { IfOk result (λ script. IsDeclared script.accounts) }
    // The numbers of the calls rise, and are numbers of lines.
    ensures numbered { IfOk result (λ script. IsNumbered (length (lines_of text.now)) script.calls) }
    // The bad line is the first one.
    ensures bad { (n : ℕ) → result ≡ Err (Fault.BadScript n) → IsFirstBad text.now n }
    // Memory runs out only where a growth was refused.
    ensures memory { OnOutOfMemory result H.Refused }
{
    if is_too_long(text) {
        return Err(Fault::TooLong);
    }
    read_lines(heap, text)
}

#[tactic(auto, unfolding(crate::specs::Reading::with_lines, crate::specs::Reading::with_line, crate::specs::Reading::reading))]
fn read_lines<H: Heap>(heap: H, text: &[u8]) -> Result<Script, Fault>
    requires { length text.now ≤ most_script_bytes }
    ensures ok { Gives result (reading text.now) }
    ensures memory { OnOutOfMemory result H.Refused }
{
    let mut script = Script::new(heap.alloc());
    let mut rest = text;
    let mut count = 0u32;
    while !rest.is_empty() {
        let (line, after) = split_line(rest);
        count += 1;
        script.add_line(heap, count, line)?;
        rest = after;
    }
    if script.accounts().users().is_empty() {
        return Err(Fault::BadScript(count + 1));
    }
    Ok(script)
}
