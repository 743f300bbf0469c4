//! Lines as JSON.
ghost use Rattle.std.specs.Prelude.{◌≡◌, ◌++◌, IfOk, OnOk, encode_utf8_all, string_bytes};
ghost use Rattle.std.specs.List.{flat_map};
ghost use Rattle.histar_script.specs.Lines.{lines_of};
ghost use Rattle.histar_script.specs.Laws.{EndsItsLines};
ghost use Rattle.histar_output.specs.Facts.{AreFacts};
ghost use Rattle.histar_output.specs.Written.{fact_line, text_line};

use crate::forms::{Form, write_fact};
use histar_script::split_line;
use json::Writer;
use std::alloc::{AllocError, Global};
use std::string::String;

/// Returns a JSON object for each line of a text that a subcommand wrote, on a line of its own.
pub fn json_lines(alloc: Global, form: Form, text: &[u8]) -> Result<Vec<u8>, AllocError>
    ensures facts { IfOk result (λ out. AreFacts form (lines_of text.now) (lines_of out.items)) }
    ensures ends { IfOk result (λ out. EndsItsLines out.items) }
{
    fact_lines(alloc, form, text)
}

/// Returns the facts of the lines of a text.
fn fact_lines(alloc: Global, form: Form, text: &[u8]) -> Result<Vec<u8>, AllocError>
    ensures { IfOk result (λ out. out.items ≡ flat_map (fact_line form) (lines_of text.now)) }
{
    let mut out = Vec::new(alloc);
    let mut rest = text;
    'lines: while !rest.is_empty() {
        let (line, after) = split_line(rest);
        push_fact(alloc, &mut out, form, line)?;
        rest = after;
    }
    Ok(out)
}

/// Adds the fact of a line.
fn push_fact(alloc: Global, out: &mut Vec<u8>, form: Form, line: &[u8]) -> Result<(), AllocError>
    ensures { OnOk result (out.new.items ≡ out.old.items ++ fact_line form line.now) }
{
    match std::str::from_utf8(line) {
        Ok(text) => push_text_fact(alloc, out, form, text),
        Err(_) => {
            let text = characters(alloc, line)?;
            push_text_fact(alloc, out, form, text.as_str())
        }
    }
}

/// Returns the characters that have these bytes as their numbers.
fn characters(alloc: Global, bytes: &[u8]) -> Result<String, AllocError>
    ensures { IfOk result (λ text. string_bytes text ≡ encode_utf8_all bytes.now) }
{
    let mut text = String::new(alloc);
    for byte in bytes {
        text.push(char::from(*byte))?;
    }
    Ok(text)
}

/// Adds the fact of a text.
fn push_text_fact(
    alloc: Global,
    out: &mut Vec<u8>,
    form: Form,
    text: &str,
) -> Result<(), AllocError>
    ensures { OnOk result (out.new.items ≡ out.old.items ++ text_line form text.now) }
{
    let mut writer = Writer::new(Vec::new(alloc));
    writer.begin_object()?;
    write_fact(&mut writer, form, text)?;
    let fact = writer.into_inner();
    out.extend_from_slice(fact.as_slice())?;
    out.push(b'\n')?;
    Ok(())
}
