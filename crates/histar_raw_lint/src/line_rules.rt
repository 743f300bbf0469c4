//! The rules for the words of any line.
ghost use Rattle.std.specs.Prelude.{◌≡◌};
ghost use Rattle.std.specs.Option.{option_copied};
ghost use Rattle.histar_lint.specs.Lines.{first_sentence};
ghost use Rattle.histar_raw_lint.specs.Rules.{word_rules};

use histar_lint::line_rules::space_sentence;
use histar_script::split_word;

/// Returns the sentence of the first rule that the words of a line break.
pub(crate) fn word_sentence(line: &[u8]) -> Option<&'static str>
    ensures { option_copied result ≡ first_sentence (word_rules line.now) }
{
    if let Some(said) = space_sentence(line, None) {
        return Some(said);
    }
    if split_word(line).1.is_none() {
        return Some("a line is `THREAD CALL`, as in `2 make_category`");
    }
    None
}
