//! The JSON that parts of a line make.
ghost use Rattle.std.specs.Prelude.{map};
ghost use Rattle.json.specs.Tree.{items_tokens, json_tokens};
ghost use Rattle.histar_output.specs.Cuts.{unmarked, words_of};
ghost use Rattle.histar_output.specs.Parts.{strings, value_of};
ghost use Rattle.histar_output.specs.Written.{Adds, holder_tokens, right_tokens};

use crate::cuts::{cut_at, first_word, is_same, unmarked};
use crate::parts::Kind;
use json::Writer;
use std::alloc::AllocError;

/// Writes the value of a kind that a text is.
pub(crate) fn write_value(writer: &mut Writer, kind: Kind, text: &str) -> Result<(), AllocError>
    ensures { Adds result writer.old writer.new (json_tokens (value_of kind text.now)) }
{
    match kind {
        Kind::Text => writer.string(text),
        Kind::Number => write_number(writer, text),
        Kind::Names => write_names(writer, text),
        Kind::Holders => write_holders(writer, text),
        Kind::Rights => write_rights(writer, text),
    }
}

/// Writes a text as a number, or as a string if it is none.
fn write_number(writer: &mut Writer, text: &str) -> Result<(), AllocError>
    ensures { Adds result writer.old writer.new (json_tokens (value_of Kind.Number text.now)) }
{
    if json::is_number(text) {
        writer.number(text)
    } else {
        writer.string(text)
    }
}

/// Writes the names in a text as an array.
fn write_names(writer: &mut Writer, text: &str) -> Result<(), AllocError>
    ensures { Adds result writer.old writer.new (json_tokens (value_of Kind.Names text.now)) }
{
    writer.begin_array()?;
    if is_same(text, "nobody") {
        writer.end_array()
    } else {
        write_words(writer, text)
    }
}

/// Writes the words of a text, each without the `!` at its end, and closes the array.
fn write_words(writer: &mut Writer, text: &str) -> Result<(), AllocError>
    ensures { Adds result writer.old writer.new (items_tokens (strings (map unmarked (words_of text.now)))) }
{
    let mut rest = text;
    'words: while !rest.is_empty() {
        let (word, behind) = first_word(rest);
        writer.string(unmarked(word).0)?;
        rest = behind;
    }
    writer.end_array()
}

/// Writes those words of a text as an array that end with `!`, without it.
fn write_holders(writer: &mut Writer, text: &str) -> Result<(), AllocError>
    ensures { Adds result writer.old writer.new (json_tokens (value_of Kind.Holders text.now)) }
{
    writer.begin_array()?;
    let mut rest = text;
    'words: while !rest.is_empty() {
        let (word, behind) = first_word(rest);
        write_holder(writer, word)?;
        rest = behind;
    }
    writer.end_array()
}

/// Writes a word without the `!` at its end, if it ends with one.
fn write_holder(writer: &mut Writer, word: &str) -> Result<(), AllocError>
    ensures { Adds result writer.old writer.new (holder_tokens word.now) }
{
    let (name, is_holder) = unmarked(word);
    if is_holder {
        writer.string(name)?;
    }
    Ok(())
}

/// Writes the rights in a text as an object.
fn write_rights(writer: &mut Writer, text: &str) -> Result<(), AllocError>
    ensures { Adds result writer.old writer.new (json_tokens (value_of Kind.Rights text.now)) }
{
    writer.begin_object()?;
    let mut rest = text;
    'words: while !rest.is_empty() {
        let (word, behind) = first_word(rest);
        write_right(writer, word)?;
        rest = behind;
    }
    writer.end_object()
}

/// Writes a word `WHO:RIGHTS` as a member.
fn write_right(writer: &mut Writer, word: &str) -> Result<(), AllocError>
    ensures { Adds result writer.old writer.new (right_tokens word.now) }
{
    let (who, rights) = cut_at(word, ":");
    writer.key(who)?;
    writer.string(rights.unwrap_or(""))
}
