//! The verdict of a comparison.
use histar_flat::Path;
use std::fmt;

/// The verdict of a comparison of a script's run with the run of the script without the calls of a job.
#[derive(Clone, Copy)]
pub enum Verdict {
    /// All outsiders have the same replies, and the trees are the same outside the job.
    Same,
    /// No `wrap` started the job.
    NoJob,
    /// The number of the first line of an outsider at which the replies differ.
    Line(u32),
    /// The first path outside the job at which the trees differ, if all outsiders have the same replies.
    Tree(Path),
}

/// Prints a verdict as `same`, `no job`, `line` with the number of the line, or `tree` with the path.
impl fmt::Display for Verdict {
    ghost use Rattle.std.specs.Prelude.{Some};
    ghost use Rattle.histar_noninterference.specs.VerdictText.{verdict_text};

    ghost output = { λ verdict. Some (verdict_text verdict) };

    fn fmt<W: fmt::Write>(&self, f: &mut fmt::Formatter<W>) -> fmt::Result {
        match self {
            Verdict::Same => write!(f, "same"),
            Verdict::NoJob => write!(f, "no job"),
            Verdict::Line(number) => write!(f, "line {number}"),
            Verdict::Tree(path) => write!(f, "tree {path}"),
        }
    }
}
