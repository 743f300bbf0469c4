//! A writer that keeps as much of a text as it takes to see that the text is too long to be shown.
ghost use Rattle.std.specs.Prelude.{◌≡◌, [], Some};

use histar_page::is_long;
use std::alloc::Global;
use std::io;
use std::io::Write;

/// Keeps what is written to it until that is too long to be shown, and takes no more then.
#[derive(Drop)]
pub(crate) struct Front {
    kept: Vec<u8>,
}

impl Front {
    /// Returns a writer that has kept nothing.
    pub fn new(alloc: Global) -> Front
        ensures { result.kept.items ≡ [] }
    {
        Front {
            kept: Vec::new(alloc),
        }
    }

    /// Returns what was kept.
    pub fn into_kept(self) -> Vec<u8>
        ensures { result ≡ self.kept }
    {
        let Front { kept } = self;
        kept
    }
}

impl Write for Front {
    ghost contents = { λ front. Some front.kept.items };

    fn write(&mut self, bytes: &[u8]) -> io::Result<usize> {
        if is_long(self.kept.as_slice()) {
            return Ok(0);
        }
        self.kept.write(bytes)
    }

    fn flush(&mut self) -> io::Result<()> {
        Ok(())
    }
}
