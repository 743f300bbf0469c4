//! Texts cut at marks.
ghost use Rattle.std.specs.Prelude.{◌≡◌, ◌<◌, ◌∷◌, length};
ghost use Rattle.std.specs.Option.{option_copied};
ghost use Rattle.std.specs.Str.{bytes_eq};
ghost use Rattle.histar_output.specs.Cuts.{begins, behind, cut_at, cut_last, is_marked, unmarked, words_of};

/// Checks whether a text begins with a mark.
pub(crate) fn begins(text: &str, mark: &str) -> bool
    ensures { result ≡ begins mark.now text.now }
{
    text.as_bytes().starts_with(mark.as_bytes())
}

/// Checks whether two texts are the same.
pub(crate) fn is_same(text: &str, other: &str) -> bool
    ensures { result ≡ bytes_eq text.now other.now }
{
    text.as_bytes() == other.as_bytes()
}

/// Returns the text before the first mark, and the one behind the mark, if it comes.
pub(crate) fn cut_at<'a>(text: &'a str, mark: &str) -> (&'a str, Option<&'a str>)
    ensures before { result.0.now ≡ (cut_at mark.now text.now).0 }
    ensures behind { option_copied result.1 ≡ (cut_at mark.now text.now).1 }
{
    match text.split_once(mark) {
        None => (text, None),
        Some((before, behind)) => (before, Some(behind)),
    }
}

/// Returns the text before the last mark, and the one behind the mark, if it comes.
pub(crate) fn cut_last<'a>(text: &'a str, mark: &str) -> (&'a str, Option<&'a str>)
    ensures before { result.0.now ≡ (cut_last mark.now text.now).0 }
    ensures behind { option_copied result.1 ≡ (cut_last mark.now text.now).1 }
{
    match text.rsplit_once(mark) {
        None => (text, None),
        Some((before, behind)) => (before, Some(behind)),
    }
}

/// Returns what is behind the first mark in a text, or nothing if it doesn't come.
pub(crate) fn behind<'a>(text: &'a str, mark: &str) -> &'a str
    ensures { result.now ≡ behind mark.now text.now }
{
    cut_at(text, mark).1.unwrap_or("")
}

/// Returns the first word of a text that is not empty, and what follows the space behind it.
pub(crate) fn first_word(text: &str) -> (&str, &str)
    requires { 0 < length text.now }
    ensures first { words_of text.now ≡ result.0.now ∷ words_of result.1.now }
    ensures shorter { length result.1.now < length text.now }
{
    let (word, behind) = cut_at(text, " ");
    (word, behind.unwrap_or(""))
}

/// Returns a word without the `!` at its end, and whether it ends with one.
pub(crate) fn unmarked(word: &str) -> (&str, bool)
    ensures word { result.0.now ≡ unmarked word.now }
    ensures mark { result.1 ≡ is_marked word.now }
{
    match word.strip_suffix('!') {
        None => (word, false),
        Some(name) => (name, true),
    }
}
