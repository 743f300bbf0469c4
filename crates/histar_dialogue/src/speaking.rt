//! Lines without a process, which are read as lines of one.
ghost use Rattle.std.specs.Prelude.{◌≡◌, IfOk};
ghost use Rattle.histar_dialogue.specs.Talk.{is_no_process, lacks_process, spoken};

use histar_flat::{ProcName, read_process};
use histar_script::split_word;
use histar_texts::push_process;
use std::alloc::{AllocError, Global};

/// Returns a line as it is read: behind the process, if there is one and the line lacks one.
pub(crate) fn spoken(
    alloc: Global,
    speaker: &Option<ProcName>,
    line: &[u8],
) -> Result<Vec<u8>, AllocError>
    ensures { IfOk result (λ text. text.items ≡ spoken speaker.now line.now) }
{
    let mut text = Vec::new(alloc);
    if let Some(process) = speaker {
        if lacks_process(line) {
            push_process(alloc, &mut text, process)?;
            text.push(b' ')?;
        }
    }
    text.extend_from_slice(line)?;
    Ok(text)
}

/// Checks whether a line begins with no process, and is no comment and no declaration.
fn lacks_process(line: &[u8]) -> bool
    ensures { result ≡ lacks_process line.now }
{
    match line {
        [] => false,
        [b'#', ..] => false,
        _ => {
            let (word, _) = split_word(line);
            is_no_process(word)
        }
    }
}

/// Checks whether a word is no process, and begins no declaration.
fn is_no_process(word: &[u8]) -> bool
    ensures { result ≡ is_no_process word.now }
{
    word != b"user".as_slice() && word != b"group".as_slice() && read_process(word).is_none()
}
