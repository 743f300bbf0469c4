//! The parts by which a line is read, and the members of an object that they make.
ghost use Rattle.std.specs.Prelude.{◌≡◌, Some, IfOk, map};
ghost use Rattle.std.specs.Option.{option_copied};
ghost use Rattle.json.specs.Tree.{members_tokens};
ghost use Rattle.histar_output.specs.Parts.{left_by, member_of, members_of};
ghost use Rattle.histar_output.specs.Written.{Adds, member_tokens, part_of};

use crate::cuts::{cut_at, cut_last};
use crate::values::write_value;
use json::Writer;
use std::alloc::AllocError;

/// What a text is made: a string, a number, an array of names or of the names with `!`, or an object with
/// rights.
#[derive(Clone, Copy)]
pub enum Kind {
    Text,
    Number,
    Names,
    Holders,
    Rights,
}

/// A part of a line.
#[derive(Clone, Copy)]
pub enum Part {
    /// A member with this name, of the text up to a mark, which is passed over.
    Upto(&'static str, Kind, &'static str),
    /// A member with this name, of the text up to the last such mark, which is passed over.
    UptoLast(&'static str, Kind, &'static str),
    /// A member with this name, of all that is left, which stays.
    Rest(&'static str, Kind),
    /// No member: the text up to a mark, and the mark, are passed over.
    Past(&'static str),
    /// A member with this name that is true or false.
    Is(&'static str, bool),
}

/// Writes the members that parts make of a line, one after another, and closes the object.
pub(crate) fn write_members(
    writer: &mut Writer,
    parts: &[Part],
    line: &str,
) -> Result<(), AllocError>
    ensures { Adds result writer.old writer.new
        (members_tokens (members_of (map part_of parts.now) (Some line.now))) }
{
    let mut left = Some(line);
    'parts: for part in parts {
        let Some(text) = left else {
            return writer.end_object();
        };
        left = write_part(writer, *part, text)?;
    }
    writer.end_object()
}

/// Writes the member that a part makes of a text, if it makes one, and returns what is left of the text.
fn write_part<'a>(
    writer: &mut Writer,
    part: Part,
    text: &'a str,
) -> Result<Option<&'a str>, AllocError>
    ensures left { IfOk result (λ left. option_copied left ≡ left_by (part_of part) text.now) }
    ensures written { Adds result writer.old writer.new (member_tokens (member_of (part_of part) text.now)) }
{
    match part {
        Part::Upto(name, kind, mark) => {
            let (value, left) = cut_at(text, mark);
            writer.key(name)?;
            write_value(writer, kind, value)?;
            Ok(left)
        }
        Part::UptoLast(name, kind, mark) => {
            let (value, left) = cut_last(text, mark);
            writer.key(name)?;
            write_value(writer, kind, value)?;
            Ok(left)
        }
        Part::Rest(name, kind) => {
            writer.key(name)?;
            write_value(writer, kind, text)?;
            Ok(Some(text))
        }
        Part::Past(mark) => Ok(cut_at(text, mark).1),
        Part::Is(name, is_so) => {
            writer.key(name)?;
            writer.boolean(is_so)?;
            Ok(Some(text))
        }
    }
}
