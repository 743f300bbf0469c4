//! A directory that is read from bytes and written as bytes again; bytes that are cut off are no directory.
use histar_layout::{read_dir, write_dir};
use std::test::Fail;

/// A directory whose entry `a` leads to a file, object 12.
const LISTING: &[u8] = b"\x01af\0\0\0\0\0\0\0\x0c\0\0\0\0\0\0\0\0";

#[test]
fn a_directory_is_written_as_it_was_read(rt: HostRuntime) -> Result<(), Fail> {
    let directory = read_dir(rt.alloc(), LISTING)?.ok_or("a directory")?;
    assert_eq!(rt; directory.len(), 1);
    let written = write_dir(rt.alloc(), &directory)?;
    assert_eq!(rt; written.as_slice(), LISTING);
    Ok(())
}

#[test]
fn a_directory_that_is_cut_off_is_none(rt: HostRuntime) -> Result<(), Fail> {
    let cut = &LISTING[..LISTING.len() - 1];
    assert!(rt; read_dir(rt.alloc(), cut)?.is_none());
    Ok(())
}
