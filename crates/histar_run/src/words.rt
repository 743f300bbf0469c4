//! The words of the command line that are taken: `run`, and behind it FILE and flags.
ghost use Rattle.std.specs.Prelude.{◌≡◌, map, option_map};
ghost use Rattle.histar_run.specs.Words.{asked_by, asked_text, is_new_file, is_new_flag};

/// What a run is asked for: its file, and what it prints besides the replies.
#[derive(Clone, Copy)]
pub struct Asked<'a> {
    pub file: &'a str,
    pub tree: bool,
    pub trace: bool,
}

/// Checks whether a word is a flag that wasn't given yet.
fn is_new_flag(is_given: bool, flag: &str, word: &str) -> bool
    ensures { result ≡ is_new_flag is_given flag.now word.now }
{
    !is_given && word == flag
}

/// Checks whether a word is FILE, which wasn't given yet: `-`, or a word that doesn't begin with `-`.
fn is_new_file(file: Option<&str>, word: &str) -> bool
    ensures { result ≡ is_new_file (option_map (λ f. f.now) file.entry) word.now }
{
    file.is_none() && !matches!(word.as_bytes(), [b'-', _, ..])
}

/// Returns what the words ask for, the program's own name first, if they ask for a plain run.
pub fn read_words<'a>(words: &[&'a str]) -> Option<Asked<'a>>
    ensures { option_map asked_text result ≡ asked_by (map (λ word. word.now) words.now) }
{
    let [_, command, flags @ ..] = words else {
        return None;
    };
    if *command != "run" {
        return None;
    }
    let mut rest = flags;
    let mut tree = false;
    let mut trace = false;
    let mut file = None;
    'words: while let [word, more @ ..] = rest {
        if is_new_flag(tree, "--tree", word) {
            tree = true;
        } else if is_new_flag(trace, "--trace", word) {
            trace = true;
        } else if is_new_file(file, word) {
            file = Some(*word);
        } else {
            return None;
        }
        rest = more;
    }
    let file = file?;
    Some(Asked { file, tree, trace })
}
