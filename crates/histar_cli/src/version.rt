//! What an installed program says of itself.

use std::rt::Files;
use std::{env, fs};

/// The file that an installation writes, from the folder above that of the program.
const VERSION_FILE: &str = "share/histar/version";

/// Reads the version of an installed program, the commit that it was built of, and that it was proved. There is none where
/// the program isn't installed.
pub fn installed_version<R: Files + AllocGlobal>(rt: &R) -> Option<String> {
    let program = env::current_exe(rt).ok()?;
    let prefix = program.as_path().parent()?.parent()?;
    let file = prefix.join(rt.alloc(), VERSION_FILE).ok()?;
    fs::read_to_string(rt, file).ok()
}
