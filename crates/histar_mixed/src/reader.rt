//! Reading a mixed session: the lines of a script, and lines `thread N CALL` with a raw call each.
ghost use Rattle.std.specs.Prelude.{◌≡◌, ◌≤◌, false, IfErr, IfOk, length};
ghost use Rattle.std.specs.Option.{option_copied};
ghost use Rattle.histar_raw_session.specs.Session.{SaysCall};
ghost use Rattle.histar_script.specs.Lines.{is_too_long as too_long, most_script_bytes};
ghost use Rattle.histar_mixed.specs.Mixed.{FindsMixed, IsBadRaw, IsLineFault, IsMixedFault};
ghost use Rattle.histar_mixed.specs.Mixed.{is_call, raw_part};
ghost use Rattle.histar_mixed.specs.Taking.{TakesLine, TakesUnix};

use crate::items::{Mark, MixedItem, in_order};
use histar_flat::Accounts;
use histar_raw_session::RawLine;
use histar_raw_session::read_session::{is_comment, read_call};
use histar_script::{Fault, Item, Script, is_too_long, read_item, split_line, split_word};
use std::alloc::Global;

/// The word in front of a raw call.
const THREAD_WORD: &[u8] = b"thread";

/// A mixed session: the accounts that it declares, and its call lines of both kinds.
#[derive(Drop)]
pub struct Mixed {
    pub accounts: Accounts,
    pub items: Vec<MixedItem>,
}

/// Returns the raw call in a line that begins with `thread `, as text.
pub fn raw_part(line: &[u8]) -> Option<&[u8]>
    ensures { option_copied result ≡ raw_part line.entry.now }
{
    let (word, rest) = split_word(line);
    if word == THREAD_WORD { rest } else { None }
}

/// Checks whether a line has a call.
fn is_call(item: &Item) -> bool
    ensures { result ≡ is_call item.now }
{
    match item {
        Item::Call(_, _) => true,
        Item::Comment => false,
        Item::User(_) => false,
        Item::Group(_) => false,
    }
}

/// Reads the raw call of line `number`.
fn read_raw_line(alloc: Global, number: u32, text: &[u8]) -> Result<RawLine, Fault>
    ensures ok { IfOk result (SaysCall number text.now) }
    ensures err { IfErr result (IsLineFault number (IsBadRaw text.now)) }
{
    if is_comment(text) {
        return Err(Fault::BadScript(number));
    }
    read_call(alloc, number, text)
}

/// Reads a line of the script, and returns whether it has a call.
fn read_unix_line(
    alloc: Global,
    number: u32,
    line: &[u8],
    script: &mut Script,
) -> Result<bool, Fault>
    ensures { TakesUnix number line.now script.old script.new result }
{
    let Some(item) = read_item(alloc, line)? else {
        return Err(Fault::BadScript(number));
    };
    let calls = is_call(&item);
    script.add(alloc, number, item)?;
    Ok(calls)
}

/// Reads a line of either kind.
fn read_line(
    alloc: Global,
    number: u32,
    line: &[u8],
    script: &mut Script,
    marks: &mut Vec<Mark>,
) -> Result<(), Fault>
    ensures { TakesLine number line.now script.old marks.old.items
        script.new marks.new.items result }
{
    match raw_part(line) {
        Some(text) => {
            marks.push(Mark::Raw(read_raw_line(alloc, number, text)?))?;
        }
        None => {
            if read_unix_line(alloc, number, line, script)? {
                marks.push(Mark::Unix)?;
            }
        }
    }
    Ok(())
}

/// Reads the lines of a text that is not too long.
fn read_lines(alloc: Global, text: &[u8]) -> Result<Mixed, Fault>
    requires few { length text.now ≤ most_script_bytes }
    requires short { too_long text.now ≡ false }
    ensures ok { IfOk result (FindsMixed text.now) }
    ensures err { IfErr result (IsMixedFault text.now) }
{
    let mut script = Script::new(alloc);
    let mut marks = Vec::new(alloc);
    let mut rest = text;
    let mut count = 0u32;
    while !rest.is_empty() {
        let (line, after) = split_line(rest);
        count += 1;
        read_line(alloc, count, line, &mut script, &mut marks)?;
        rest = after;
    }
    if script.accounts().users().is_empty() {
        return Err(Fault::BadScript(count + 1));
    }
    let (accounts, calls) = script.into_parts();
    let items = in_order(alloc, calls, marks)?;
    Ok(Mixed { accounts, items })
}

/// Reads a mixed session from its bytes. The whole text is read before a call is made. Its limits
/// are those of a script.
pub fn read_mixed(alloc: Global, text: &[u8]) -> Result<Mixed, Fault>
    ensures ok { IfOk result (FindsMixed text.now) }
    ensures err { IfErr result (IsMixedFault text.now) }
{
    if is_too_long(text) {
        return Err(Fault::TooLong);
    }
    read_lines(alloc, text)
}
