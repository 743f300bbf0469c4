//! The first lines of a text.
ghost use Rattle.std.specs.Prelude.{◌≡◌, ◌≤◌, length};
ghost use Rattle.histar_dialogue.specs.Talk.{bytes_of_lines};

/// Returns how many bytes the first lines of a text have, or all if it has fewer lines.
pub(crate) fn bytes_of_lines(text: &[u8], lines: u64) -> usize
    ensures count { result ≡ bytes_of_lines lines text.now }
    ensures within { result ≤ length text.now }
{
    let mut left = lines;
    'bytes: for at in 0..text.len() {
        if left == 0 {
            return at;
        }
        if text[at] == b'\n' {
            left -= 1;
        }
    }
    text.len()
}
