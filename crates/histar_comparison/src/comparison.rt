//! Comparing two runs of a script.
ghost use Rattle.std.specs.Prelude.{◌≡◌, IfOk, IsErrOf, IsTrue};
ghost use Rattle.histar_comparison.specs.Compared.{IsQuietScript, comparison, difference};
ghost use Rattle.histar_noninterference.specs.declared.verdict.Verdict.TheVariants.{Same};
ghost use Rattle.histar_script.specs.Lines.{is_too_long as too_long};
ghost use Rattle.histar_script.specs.Memory.{OnOutOfMemory};
ghost use Rattle.histar_script.specs.Outcome.{Gives};

use crate::observation::{Observation, observe};
use histar_flat::ProcName;
use histar_heap::Heap;
use histar_noninterference::{Verdict, first_difference, first_line};
use histar_script::{Fault, read_script};

/// Runs a script twice, each time on a machine of its own: as it is, and without the lines of a job,
/// which is named by its first process. It compares the replies to outsiders, and then the trees
/// after the last line, but for what lies below the job's directory. An outsider is any process that is
/// neither in the job nor the one that started it.
///
/// A script that `run` refuses is refused with the same fault; no fault of a device is
/// returned.
pub fn compare<H: Heap>(heap: H, text: &[u8], job: &ProcName) -> Result<Verdict, Fault>
    // The result that the flat rules give for the two runs, unless memory runs out.
    ensures exact { Gives result (comparison job.now text.now) }
    // The length of the script is tested first, and takes no memory.
    ensures long { IsTrue (too_long text.now) → IsErrOf result Fault.TooLong }
    // If the process that started the job calls no `rmdir` and no `wrap` later, outsiders see no change.
    ensures isolated { IsQuietScript job.now text.now → IfOk result (λ found. found ≡ Same) }
    // It answers out of memory only where the heap refused memory, in this comparison.
    ensures memory { OnOutOfMemory result H.Refused }
{
    let script = read_script(heap, text)?;
    let first = observe(heap, script, job)?;
    if !first.replies.is_started() {
        return Ok(Verdict::NoJob);
    }
    let rest = read_script(heap, text)?.without(job);
    let second = observe(heap, rest, job)?;
    Ok(find_difference(&first, &second))
}

/// Returns the verdict on two observed runs.
pub(crate) fn find_difference(first: &Observation, second: &Observation) -> Verdict
    ensures { result ≡ difference first.now second.now }
{
    let replies = &first.replies;
    let others = &second.replies;
    if let Some(line) = first_line(replies.shown(), others.shown()) {
        return Verdict::Line(line);
    }
    match first_difference(
        first.tree.as_slice(),
        second.tree.as_slice(),
        replies.directory(),
        others.directory(),
    ) {
        Some(path) => Verdict::Tree(path),
        None => Verdict::Same,
    }
}
