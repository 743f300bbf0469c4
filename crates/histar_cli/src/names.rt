//! The name of a file as it is shown on a line.
ghost use Rattle.std.specs.Prelude.{◌≡◌, ◌++◌, IfOk, OnOk};
ghost use Rattle.std.specs.List.{flat_map};
ghost use Rattle.histar_cli.specs.Names.{shown_byte};

use std::alloc::{AllocError, Global};

/// Returns the name of a file with each line feed written as `\n`, so that it stays on one line.
pub(crate) fn shown_name(alloc: Global, path: &[u8]) -> Result<Vec<u8>, AllocError>
    ensures { IfOk result (λ name. name.items ≡ flat_map shown_byte path.now) }
{
    let mut name = Vec::new(alloc);
    for byte in path {
        push_shown(&mut name, *byte)?;
    }
    Ok(name)
}

/// Adds a byte of a name, or `\n` for a line feed.
fn push_shown(name: &mut Vec<u8>, byte: u8) -> Result<(), AllocError>
    ensures { OnOk result (name.new.items ≡ name.old.items ++ shown_byte byte) }
{
    if byte == b'\n' {
        name.extend_from_slice(b"\\n")?;
    } else {
        name.push(byte)?;
    }
    Ok(())
}
