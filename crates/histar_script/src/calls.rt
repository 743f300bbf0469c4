//! Reading a line of a script. `Ok(None)` is a bad line. Paths, the bytes of a `write` or an `append` and the
//! members of a group are copied, and memory may run out.
ghost use Rattle.std.specs.Prelude.{◌≡◌, ◌++◌, drop, Some, IfOk, OnErr, option_map};
ghost use Rattle.std.specs.Option.{option_copied};
ghost use Rattle.histar_script.specs.CallForms.{a_path, a_mode, any_bytes, a_name, a_password, writing_calls, reading_calls};
ghost use Rattle.histar_script.specs.CallForms.{entry_calls, process_calls};
ghost use Rattle.histar_script.specs.Reading.{user_of, two_values_of, lone_call_of, call_among, call_of, call_item, words_item, item_of};
ghost use Rattle.histar_script.specs.Reading.{group_item, user_item};

use crate::groups::read_group;
use crate::items::Item;
use crate::lines::{is_plain, split_word};
use histar_base::Bytes;
use histar_flat::{
    Mode, Name, OwnedPath, Password, UnixCall, User, read_mode, read_name, read_owned_path,
    read_password, read_process, read_status, read_user_name,
};
use histar_heap::Heap;
use std::alloc::AllocError;

/// Reads `NAME PASSWORD`, where NAME may be a user's.
#[tactic(auto, unfolding(crate::specs::Reading::user_of))]
fn read_user(text: &[u8]) -> Option<User>
    ensures { result ≡ user_of text.now }
{
    let (word, rest) = split_word(text);
    let name = read_user_name(word)?;
    let password = read_password(rest?)?;
    Some(User { name, password })
}

/// Reads `PATH MODE`.
#[tactic(auto, unfolding(crate::specs::Reading::two_values_of))]
fn read_path_and_mode<H: Heap>(
    heap: H,
    text: &[u8],
) -> Result<Option<(OwnedPath, Mode)>, AllocError>
    ensures ok { IfOk result (λ values. values ≡ two_values_of a_path a_mode text.now) }
    ensures memory { OnErr result H.Refused }
{
    let (word, rest) = split_word(text);
    let Some(path) = read_owned_path(heap, word)? else {
        return Ok(None);
    };
    let Some(mode) = rest.and_then(|mode| read_mode(mode)) else {
        return Ok(None);
    };
    Ok(Some((path, mode)))
}

/// Reads `PATH BYTES`.
#[tactic(auto, unfolding(crate::specs::Reading::two_values_of))]
fn read_path_and_bytes<H: Heap>(
    heap: H,
    text: &[u8],
) -> Result<Option<(OwnedPath, Bytes)>, AllocError>
    ensures ok { IfOk result (λ values. values ≡ two_values_of a_path any_bytes text.now) }
    ensures memory { OnErr result H.Refused }
{
    let (word, rest) = split_word(text);
    let Some(path) = read_owned_path(heap, word)? else {
        return Ok(None);
    };
    let Some(bytes) = rest else {
        return Ok(None);
    };
    let bytes = Bytes::copy_of(heap, bytes)?;
    Ok(Some((path, bytes)))
}

/// Reads `PATH NAME`.
#[tactic(auto, unfolding(crate::specs::Reading::two_values_of))]
fn read_path_and_name<H: Heap>(
    heap: H,
    text: &[u8],
) -> Result<Option<(OwnedPath, Name)>, AllocError>
    ensures ok { IfOk result (λ values. values ≡ two_values_of a_path a_name text.now) }
    ensures memory { OnErr result H.Refused }
{
    let (word, rest) = split_word(text);
    let Some(path) = read_owned_path(heap, word)? else {
        return Ok(None);
    };
    let Some(name) = rest.and_then(|name| read_name(name)) else {
        return Ok(None);
    };
    Ok(Some((path, name)))
}

/// Reads `NAME PASSWORD`, with any name.
#[tactic(auto, unfolding(crate::specs::Reading::two_values_of))]
fn read_name_and_password(text: &[u8]) -> Option<(Name, Password)>
    ensures { result ≡ two_values_of a_name a_password text.now }
{
    let (word, rest) = split_word(text);
    let name = read_name(word)?;
    let password = read_password(rest?)?;
    Some((name, password))
}

/// Reads a call: its word, and its arguments.
#[tactic(auto, unfolding(crate::specs::Reading::call_of), using(crate::proofs::FormsBack::none_without_argument))]
pub fn read_call<H: Heap>(heap: H, text: &[u8]) -> Result<Option<UnixCall>, AllocError>
    ensures ok { IfOk result (λ call. call ≡ call_of text.now) }
    ensures memory { OnErr result H.Refused }
{
    let (word, rest) = split_word(text);
    if word == b"spawn".as_slice() {
        return Ok(lone_call(UnixCall::Spawn, rest));
    }
    if word == b"whoami".as_slice() {
        return Ok(lone_call(UnixCall::Whoami, rest));
    }
    match rest {
        None => Ok(None),
        Some(rest) => writing_call(heap, word, rest),
    }
}

/// Returns a call that has no argument, or `None` if something follows its word.
fn lone_call(call: UnixCall, rest: Option<&[u8]>) -> Option<UnixCall>
    ensures { result ≡ lone_call_of call (option_copied rest.entry) }
{
    match rest {
        None => Some(call),
        Some(_) => {
            drop(call);
            None
        }
    }
}

/// Reads the arguments of a call whose word is `word`, if it is a call that writes, or one of the later
/// groups.
fn writing_call<H: Heap>(heap: H, word: &[u8], rest: &[u8]) -> Result<Option<UnixCall>, AllocError>
    ensures ok { IfOk result (λ call.
        call ≡ call_among (writing_calls ++ reading_calls ++ entry_calls ++ process_calls) word.now (Some rest.now)) }
    ensures memory { OnErr result H.Refused }
{
    if word == b"create".as_slice() {
        create_call(heap, rest)
    } else if word == b"mkdir".as_slice() {
        mkdir_call(heap, rest)
    } else {
        bytes_call(heap, word, rest)
    }
}

// Reads the arguments of `create`. Each call of two arguments has its own function, since one for all would clear
// the room for the arguments of each of them.
#[inline(never)]
fn create_call<H: Heap>(heap: H, rest: &[u8]) -> Result<Option<UnixCall>, AllocError>
    ensures ok { IfOk result (λ call. call ≡
        option_map (λ values. UnixCall.Create values.0 values.1) (two_values_of a_path a_mode rest.now)) }
    ensures memory { OnErr result H.Refused }
{
    let values = read_path_and_mode(heap, rest)?;
    Ok(values.map(|(path, mode)| UnixCall::Create(path, mode)))
}

// Reads the arguments of `mkdir`.
#[inline(never)]
fn mkdir_call<H: Heap>(heap: H, rest: &[u8]) -> Result<Option<UnixCall>, AllocError>
    ensures ok { IfOk result (λ call. call ≡
        option_map (λ values. UnixCall.Mkdir values.0 values.1) (two_values_of a_path a_mode rest.now)) }
    ensures memory { OnErr result H.Refused }
{
    let values = read_path_and_mode(heap, rest)?;
    Ok(values.map(|(path, mode)| UnixCall::Mkdir(path, mode)))
}

// Reads the arguments of `write`.
#[inline(never)]
fn write_call<H: Heap>(heap: H, rest: &[u8]) -> Result<Option<UnixCall>, AllocError>
    ensures ok { IfOk result (λ call. call ≡
        option_map (λ values. UnixCall.Write values.0 values.1) (two_values_of a_path any_bytes rest.now)) }
    ensures memory { OnErr result H.Refused }
{
    let values = read_path_and_bytes(heap, rest)?;
    Ok(values.map(|(path, bytes)| UnixCall::Write(path, bytes)))
}

// Reads the arguments of `append`.
#[inline(never)]
fn append_call<H: Heap>(heap: H, rest: &[u8]) -> Result<Option<UnixCall>, AllocError>
    ensures ok { IfOk result (λ call. call ≡
        option_map (λ values. UnixCall.Append values.0 values.1) (two_values_of a_path any_bytes rest.now)) }
    ensures memory { OnErr result H.Refused }
{
    let values = read_path_and_bytes(heap, rest)?;
    Ok(values.map(|(path, bytes)| UnixCall::Append(path, bytes)))
}

/// Reads the arguments of a call whose word is `word`, if it is a call that writes bytes, or one of the later
/// groups.
fn bytes_call<H: Heap>(heap: H, word: &[u8], rest: &[u8]) -> Result<Option<UnixCall>, AllocError>
    ensures ok { IfOk result (λ call.
        call ≡ call_among (drop 2 writing_calls ++ reading_calls ++ entry_calls ++ process_calls) word.now (Some rest.now)) }
    ensures memory { OnErr result H.Refused }
{
    if word == b"write".as_slice() {
        write_call(heap, rest)
    } else if word == b"append".as_slice() {
        append_call(heap, rest)
    } else {
        reading_call(heap, word, rest)
    }
}

/// Reads the arguments of a call whose word is `word`, if it is a call that reads, or one of the later
/// groups.
fn reading_call<H: Heap>(heap: H, word: &[u8], rest: &[u8]) -> Result<Option<UnixCall>, AllocError>
    ensures ok { IfOk result (λ call.
        call ≡ call_among (reading_calls ++ entry_calls ++ process_calls) word.now (Some rest.now)) }
    ensures memory { OnErr result H.Refused }
{
    if word == b"read".as_slice() {
        Ok(read_owned_path(heap, rest)?.map(UnixCall::Read))
    } else if word == b"list".as_slice() {
        Ok(read_owned_path(heap, rest)?.map(UnixCall::List))
    } else if word == b"stat".as_slice() {
        Ok(read_owned_path(heap, rest)?.map(UnixCall::Stat))
    } else {
        entry_call(heap, word, rest)
    }
}

/// Reads the arguments of a call whose word is `word`, if it is a call on an entry, or of a process.
#[inline(never)]
fn entry_call<H: Heap>(heap: H, word: &[u8], rest: &[u8]) -> Result<Option<UnixCall>, AllocError>
    ensures ok { IfOk result (λ call.
        call ≡ call_among (entry_calls ++ process_calls) word.now (Some rest.now)) }
    ensures memory { OnErr result H.Refused }
{
    if word == b"unlink".as_slice() {
        Ok(read_owned_path(heap, rest)?.map(UnixCall::Unlink))
    } else if word == b"rmdir".as_slice() {
        Ok(read_owned_path(heap, rest)?.map(UnixCall::Rmdir))
    } else if word == b"rmtree".as_slice() {
        Ok(read_owned_path(heap, rest)?.map(UnixCall::Rmtree))
    } else {
        rename_or_wrap(heap, word, rest)
    }
}

/// Reads the arguments of a call whose word is `word`, if it is `rename`, `wrap` or a call of processes.
fn rename_or_wrap<H: Heap>(
    heap: H,
    word: &[u8],
    rest: &[u8],
) -> Result<Option<UnixCall>, AllocError>
    ensures ok { IfOk result (λ call.
        call ≡ call_among (drop 3 entry_calls ++ process_calls) word.now (Some rest.now)) }
    ensures memory { OnErr result H.Refused }
{
    if word == b"rename".as_slice() {
        let values = read_path_and_name(heap, rest)?;
        Ok(values.map(|(path, name)| UnixCall::Rename(path, name)))
    } else if word == b"wrap".as_slice() {
        Ok(read_owned_path(heap, rest)?.map(UnixCall::Wrap))
    } else {
        Ok(process_call(word, rest))
    }
}

/// Reads the arguments of a call whose word is `word`, if it is a call of processes.
fn process_call(word: &[u8], rest: &[u8]) -> Option<UnixCall>
    ensures { result ≡ call_among process_calls word.now (Some rest.now) }
{
    if word == b"exit".as_slice() {
        read_status(rest).map(UnixCall::Exit)
    } else if word == b"status".as_slice() {
        read_process(rest).map(UnixCall::Status)
    } else if word == b"kill".as_slice() {
        read_process(rest).map(UnixCall::Kill)
    } else if word == b"login".as_slice() {
        let values = read_name_and_password(rest);
        values.map(|(name, password)| UnixCall::Login(name, password))
    } else {
        None
    }
}

/// Reads `user NAME PASSWORD`, `group NAME USER..` or `PROC CALL`.
#[tactic(auto, unfolding(crate::specs::Reading::words_item))]
fn read_words<H: Heap>(heap: H, line: &[u8]) -> Result<Option<Item>, AllocError>
    ensures ok { IfOk result (λ item. item ≡ words_item line.now) }
    ensures memory { OnErr result H.Refused }
{
    let (word, rest) = split_word(line);
    let Some(rest) = rest else {
        return Ok(None);
    };
    if word == b"user".as_slice() {
        return Ok(user_item(rest));
    }
    if word == b"group".as_slice() {
        return group_item(heap, rest);
    }
    read_process_call(heap, word, rest)
}

// Reads what follows the word of a line that declares a user. Few lines do, so it is apart from the others.
#[inline(never)]
fn user_item(rest: &[u8]) -> Option<Item>
    ensures { result ≡ user_item rest.now }
{
    read_user(rest).map(Item::User)
}

// Reads what follows the word of a line that declares a group.
#[inline(never)]
fn group_item<H: Heap>(heap: H, rest: &[u8]) -> Result<Option<Item>, AllocError>
    ensures ok { IfOk result (λ item. item ≡ group_item rest.now) }
    ensures memory { OnErr result H.Refused }
{
    Ok(read_group(heap, rest)?.map(Item::Group))
}

/// Reads `CALL` behind a word that may be a process.
fn read_process_call<H: Heap>(heap: H, word: &[u8], rest: &[u8]) -> Result<Option<Item>, AllocError>
    ensures ok { IfOk result (λ item. item ≡ call_item word.now rest.now) }
    ensures memory { OnErr result H.Refused }
{
    let Some(process) = read_process(word) else {
        return Ok(None);
    };
    let Some(call) = read_call(heap, rest)? else {
        return Ok(None);
    };
    Ok(Some(Item::Call(process, call)))
}

/// Returns what a line says, or `None` if the line is bad.
#[tactic(auto, unfolding(crate::specs::Reading::item_of))]
pub fn read_item<H: Heap>(heap: H, line: &[u8]) -> Result<Option<Item>, AllocError>
    ensures ok { IfOk result (λ item. item ≡ item_of line.now) }
    ensures memory { OnErr result H.Refused }
{
    if line.is_empty() {
        return Ok(Some(Item::Comment));
    }
    if !is_plain(line) {
        return Ok(None);
    }
    if line[0] == b'#' {
        return Ok(Some(Item::Comment));
    }
    read_words(heap, line)
}
