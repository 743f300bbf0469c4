//! A verdict, with what each of two runs prints where they differ.
ghost use Rattle.std.specs.Prelude.{◌≡◌, ◌++◌, codes, IfOk, IsErrOf, IsTrue, OnErr, OnOk};
ghost use Rattle.histar_comparison.specs.Explained.{IsReleased, ObservesText, asked_release, asked_sides};
ghost use Rattle.histar_comparison.specs.Explained.{explained_difference, explanation};
ghost use Rattle.histar_comparison.specs.Explained.{found_behind, found_text, has_difference, kept_on, line_at_path};
ghost use Rattle.histar_comparison.specs.Explained.{release_line, seen_of, side_text, verdict_line};
ghost use Rattle.histar_script.specs.Lines.{is_too_long as too_long};
ghost use Rattle.histar_noninterference.specs.VerdictText.{verdict_text};
ghost use Rattle.histar_script.specs.Memory.{OnOutOfMemory};
ghost use Rattle.histar_script.specs.Outcome.{Gives};

use crate::comparison::find_difference;
use crate::observation::{Observation, observe};
use histar_base::Bytes;
use histar_flat::{Path, ProcName};
use histar_heap::Heap;
use histar_noninterference::{ShownReply, Verdict, first_line};
use histar_script::{Fault, read_script};
use histar_texts::{push_number, push_path};
use std::alloc::AllocError;

/// The verdict of a comparison of two runs, with what each prints there.
#[derive(Drop)]
pub struct Explained {
    pub verdict: Verdict,
    /// What the run with the job prints where they differ: the reply, or the line of the tree. It is empty if
    /// the runs don't differ, and if the path is in the other tree alone.
    pub with_job: Bytes,
    /// What the run without the job prints there.
    pub without_job: Bytes,
    /// The line that released what the job made: after the job's start, the first `rmdir` or `wrap` of the
    /// process that started it which is answered otherwise without the job.
    pub released: Option<u32>,
}

/// Compares two runs of a script as `compare` does, and returns with the verdict what each run prints where
/// they differ, and the line that released what the job made.
pub fn explain_comparison<H: Heap>(heap: H, text: &[u8], job: &ProcName) -> Result<Explained, Fault>
    ensures exact { Gives result (explanation job.now text.now) }
    ensures long { IsTrue (too_long text.now) → IsErrOf result Fault.TooLong }
    // Where outsiders see a difference, a line released what the job made.
    ensures released { IfOk result (λ found. IsReleased found) }
    ensures memory { OnOutOfMemory result H.Refused }
{
    let script = read_script(heap, text)?;
    let first = observe(heap, script, job)?;
    explain_against(heap, text, job, &first)
}

/// Compares the run of a script, which was observed, with the one without a job, and returns the same.
pub(crate) fn explain_against<H: Heap>(
    heap: H,
    text: &[u8],
    job: &ProcName,
    first: &Observation,
) -> Result<Explained, Fault>
    requires { ObservesText job.now text.now first.now }
    ensures exact { Gives result (explanation job.now text.now) }
    ensures released { IfOk result (λ found. IsReleased found) }
    ensures memory { OnOutOfMemory result H.Refused }
{
    if !first.replies.is_started() {
        return Ok(Explained {
            verdict: Verdict::NoJob,
            with_job: Bytes::new(heap.alloc()),
            without_job: Bytes::new(heap.alloc()),
            released: None,
        });
    }
    let rest = read_script(heap, text)?.without(job);
    let second = observe(heap, rest, job)?;
    Ok(explain_difference(heap, first, &second)?)
}

/// Returns the verdict on two observed runs, with what each printed where they differ.
fn explain_difference<H: Heap>(
    heap: H,
    first: &Observation,
    second: &Observation,
) -> Result<Explained, AllocError>
    ensures ok { IfOk result (λ found. found ≡ explained_difference first.now second.now) }
    ensures memory { OnErr result H.Refused }
{
    let verdict = find_difference(first, second);
    Ok(Explained {
        verdict,
        with_job: printed(heap, first, &verdict)?,
        without_job: printed(heap, second, &verdict)?,
        released: first_line(first.replies.revealing(), second.replies.revealing()),
    })
}

/// Returns what one run printed where a verdict says that two differ.
fn printed<H: Heap>(heap: H, seen: &Observation, verdict: &Verdict) -> Result<Bytes, AllocError>
    ensures ok { IfOk result (λ text. text ≡ seen_of seen.now verdict.now) }
    ensures memory { OnErr result H.Refused }
{
    match verdict {
        Verdict::Same | Verdict::NoJob => Ok(Bytes::new(heap.alloc())),
        Verdict::Line(line) => Bytes::copy_of(heap, reply_on(seen.replies.shown(), *line)),
        Verdict::Tree(path) => Bytes::copy_of(heap, line_at(seen.tree.as_slice(), path)),
    }
}

/// Returns the text of the reply to a line, or nothing where there is none.
fn reply_on(replies: &[ShownReply], line: u32) -> &[u8]
    ensures { result.now ≡ kept_on line replies.now }
{
    for reply in replies {
        if reply.line == line {
            return reply.text.as_slice();
        }
    }
    &[]
}

/// Returns what is printed of a path, or nothing where it is not in the tree.
fn line_at<'a>(tree: &'a [(Path, Bytes)], path: &Path) -> &'a [u8]
    ensures { result.now ≡ line_at_path path.now tree.now }
{
    for line in tree {
        if line.0 == *path {
            return line.1.as_slice();
        }
    }
    &[]
}

impl Explained {
    /// Returns the line of the verdict. If that is asked for, it has what each run prints where they differ,
    /// the run with the job first, and a line before it names the line that released what the job made.
    pub fn line<H: Heap>(&self, heap: H, why: bool) -> Result<Vec<u8>, AllocError>
        ensures ok { IfOk result (λ line. line.items ≡ found_text why self.now) }
        ensures memory { OnErr result H.Refused }
    {
        self.lines_behind(heap, b"", why)
    }

    /// Returns the same, with each line behind these words.
    pub(crate) fn lines_behind<H: Heap>(
        &self,
        heap: H,
        front: &[u8],
        why: bool,
    ) -> Result<Vec<u8>, AllocError>
        ensures ok { IfOk result (λ text. text.items ≡ found_behind front.now why self.now) }
        ensures memory { OnErr result H.Refused }
    {
        let mut text = Vec::new(heap.alloc());
        self.push_release(heap, &mut text, front, why)?;
        self.push_verdict(heap, &mut text, front, why)?;
        Ok(text)
    }

    /// Adds the line that names the one which released what the job made, if that is asked for and the runs
    /// differ.
    fn push_release<H: Heap>(
        &self,
        heap: H,
        text: &mut Vec<u8>,
        front: &[u8],
        why: bool,
    ) -> Result<(), AllocError>
        ensures ok { OnOk result (text.new.items
            ≡ text.old.items ++ asked_release front.now why self.now) }
        ensures memory { OnErr result H.Refused }
    {
        if why && has_difference(&self.verdict) {
            push_release_line(heap, text, front, self.released)?;
        }
        Ok(())
    }

    /// Adds the line of the verdict, behind these words.
    fn push_verdict<H: Heap>(
        &self,
        heap: H,
        text: &mut Vec<u8>,
        front: &[u8],
        why: bool,
    ) -> Result<(), AllocError>
        ensures ok { OnOk result (text.new.items
            ≡ text.old.items ++ verdict_line front.now why self.now) }
        ensures memory { OnErr result H.Refused }
    {
        heap.extend(text, front)?;
        push_words(heap, text, &self.verdict)?;
        self.push_sides(heap, text, why)?;
        heap.extend(text, b"\n")
    }

    /// Adds what each run prints where they differ, if that is asked for.
    fn push_sides<H: Heap>(&self, heap: H, line: &mut Vec<u8>, why: bool) -> Result<(), AllocError>
        ensures ok { OnOk result (line.new.items ≡ line.old.items ++ asked_sides why self.now) }
        ensures memory { OnErr result H.Refused }
    {
        if !why {
            return Ok(());
        }
        match self.verdict {
            Verdict::Same | Verdict::NoJob => Ok(()),
            Verdict::Line(_) | Verdict::Tree(_) => {
                push_both(
                    heap,
                    line,
                    self.with_job.as_slice(),
                    self.without_job.as_slice(),
                )
            }
        }
    }
}

/// Adds the words of a verdict, as they are printed.
fn push_words<H: Heap>(heap: H, text: &mut Vec<u8>, verdict: &Verdict) -> Result<(), AllocError>
    ensures ok { OnOk result (text.new.items ≡ text.old.items ++ verdict_text verdict.now) }
    ensures memory { OnErr result H.Refused }
{
    match verdict {
        Verdict::Same => heap.extend(text, b"same"),
        Verdict::NoJob => heap.extend(text, b"no job"),
        Verdict::Line(number) => {
            heap.extend(text, b"line ")?;
            push_number(heap, text, *number)
        }
        Verdict::Tree(path) => {
            heap.extend(text, b"tree ")?;
            push_path(heap, text, path)
        }
    }
}

/// Adds both sides of a difference to a line.
fn push_both<H: Heap>(
    heap: H,
    line: &mut Vec<u8>,
    with_job: &[u8],
    without_job: &[u8],
) -> Result<(), AllocError>
    ensures ok { OnOk result (line.new.items ≡ line.old.items
        ++ (codes ": " ++ side_text with_job.now ++ codes " | " ++ side_text without_job.now)) }
    ensures memory { OnErr result H.Refused }
{
    heap.extend(line, b": ")?;
    heap.extend(line, side(with_job))?;
    heap.extend(line, b" | ")?;
    heap.extend(line, side(without_job))
}

/// Returns what one run prints, or the word `nothing`.
fn side(text: &[u8]) -> &[u8]
    ensures { result.now ≡ side_text text.now }
{
    if text.is_empty() { b"nothing" } else { text }
}

/// Checks whether a verdict says that outsiders see a difference.
fn has_difference(verdict: &Verdict) -> bool
    ensures { result ≡ has_difference verdict.now }
{
    match verdict {
        Verdict::Same | Verdict::NoJob => false,
        Verdict::Line(_) | Verdict::Tree(_) => true,
    }
}

/// Adds the line that names the one which released what the job made, if there is one, behind these words.
fn push_release_line<H: Heap>(
    heap: H,
    text: &mut Vec<u8>,
    front: &[u8],
    released: Option<u32>,
) -> Result<(), AllocError>
    ensures ok { OnOk result (text.new.items ≡ text.old.items ++ release_line front.now released) }
    ensures memory { OnErr result H.Refused }
{
    let Some(line) = released else {
        return Ok(());
    };
    heap.extend(text, front)?;
    heap.extend(text, b"released by line ")?;
    push_number(heap, text, line)?;
    heap.extend(text, b"\n")
}
