//! Bytes as text of a page: escaped bytes are never markup, and a reader gets the bytes back.
ghost use Rattle.std.specs.Prelude.{◌≡◌, ◌++◌, OnOk};
ghost use Rattle.histar_page.specs.Escape.{escaped, escaped_byte};
ghost use Rattle.histar_page.specs.Reading.{BytesAreRead, EscapedIsText};

use std::alloc::AllocError;

/// Adds bytes to a page as text. Bytes that are not ASCII are added unchanged.
pub fn push_escaped(page: &mut Vec<u8>, bytes: &[u8]) -> Result<(), AllocError>
    ensures { OnOk result (page.new.items ≡ page.old.items ++ escaped bytes.now) }
{
    let mut rest = bytes;
    'bytes: while let [byte, more @ ..] = rest {
        push_byte(page, *byte)?;
        rest = more;
    }
    Ok(())
}

/// Adds a byte to a page as text.
fn push_byte(page: &mut Vec<u8>, byte: u8) -> Result<(), AllocError>
    ensures { OnOk result (page.new.items ≡ page.old.items ++ escaped_byte byte) }
{
    match byte {
        b'<' => page.extend_from_slice(b"&lt;"),
        b'>' => page.extend_from_slice(b"&gt;"),
        b'&' => page.extend_from_slice(b"&amp;"),
        b'"' => page.extend_from_slice(b"&quot;"),
        b'\'' => page.extend_from_slice(b"&#39;"),
        _ => page.extend_from_slice(&[byte]),
    }
}

/// Shows that a reader of the page gets exactly the bytes back. The law is the contract of a function that does nothing.
pub fn bytes_are_read()
    ensures { BytesAreRead }
{}

/// Shows that escaped bytes have no byte that begins or ends markup or an attribute: each `&` among them begins one of
/// five references. The law is the contract of a function that does nothing.
pub fn escaped_is_text()
    ensures { EscapedIsText }
{}
