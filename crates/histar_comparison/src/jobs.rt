//! The jobs that a script starts, each compared.
ghost use Rattle.std.specs.Prelude.{◌≡◌, IfOk, IsErrOf, IsTrue, OnErr};
ghost use Rattle.histar_comparison.specs.Jobs.{GivesVerdicts, IsRunOf, is_wrap, job_started, job_text};
ghost use Rattle.histar_comparison.specs.Jobs.{jobs_started, verdicts_of};
ghost use Rattle.histar_comparison.specs.Whole.{answered};
ghost use Rattle.histar_script.specs.Lines.{is_too_long as too_long};
ghost use Rattle.histar_script.specs.Memory.{OnOutOfMemory};
ghost use Rattle.histar_script.specs.Reading.{script_of};

use crate::explained::{Explained, explain_against};
use crate::observation::Observation;
use crate::whole::{Whole, replies_kept, run_whole};
use histar_flat::{CallLine, ProcName, Reply, UnixCall};
use histar_heap::Heap;
use histar_script::{Fault, read_script};
use histar_texts::push_process;
use std::alloc::AllocError;

/// A job, by its first process, and the verdict on the script without it.
#[derive(Drop)]
pub struct JobVerdict {
    pub job: ProcName,
    pub found: Explained,
}

impl JobVerdict {
    /// Returns the line of the job's verdict, behind the job. If that is asked for, it has what each run prints
    /// where they differ, and a line before it, behind the job too, names the line that released what the job
    /// made.
    pub fn line<H: Heap>(&self, heap: H, why: bool) -> Result<Vec<u8>, AllocError>
        ensures ok { IfOk result (λ line. line.items ≡ job_text why self.now) }
        ensures memory { OnErr result H.Refused }
    {
        let mut front = Vec::new(heap.alloc());
        push_process(heap, &mut front, &self.job)?;
        heap.extend(&mut front, b" ")?;
        self.found.lines_behind(heap, front.as_slice(), why)
    }
}

/// Compares a script with the script without each job that it starts, one after another, as `compare` does.
/// It runs the whole script once, and each job costs one more run.
pub fn compare_all<H: Heap>(heap: H, text: &[u8]) -> Result<Vec<JobVerdict>, Fault>
    // The verdict that the flat rules give for each job of the script, in the order in which they start.
    ensures exact { GivesVerdicts result (verdicts_of (script_of text.now)) }
    ensures long { IsTrue (too_long text.now) → IsErrOf result Fault.TooLong }
    ensures memory { OnOutOfMemory result H.Refused }
{
    let script = read_script(heap, text)?;
    let whole = run_whole(heap, script)?;
    let (_accounts, calls) = read_script(heap, text)?.into_parts();
    compare_each(heap, text, calls.as_slice(), whole)
}

/// Returns the jobs that these replies to calls start, in their order.
fn jobs_in<H: Heap>(
    heap: H,
    calls: &[CallLine],
    replies: &[Reply],
) -> Result<Vec<ProcName>, AllocError>
    ensures ok { IfOk result (λ jobs. jobs.items ≡ jobs_started (answered calls.now replies.now)) }
    ensures memory { OnErr result H.Refused }
{
    let mut jobs = Vec::new(heap.alloc());
    let (mut calls, mut replies) = (calls, replies);
    'answers: while let [call, later @ ..] = calls {
        let [reply, others @ ..] = replies else {
            return Ok(jobs);
        };
        if let Some(job) = job_started(is_wrap(&call.call), reply) {
            heap.push(&mut jobs, job)?;
        }
        calls = later;
        replies = others;
    }
    Ok(jobs)
}

/// Checks whether a call wraps a job.
fn is_wrap(call: &UnixCall) -> bool
    ensures { result ≡ is_wrap call.now }
{
    matches!(call, UnixCall::Wrap(_))
}

/// Returns the job that a reply starts, if its call wraps one.
fn job_started(wraps: bool, reply: &Reply) -> Option<ProcName>
    ensures { result ≡ job_started wraps reply.now }
{
    match reply {
        Reply::Child(job) if wraps => Some(*job),
        _ => None,
    }
}

/// Compares a script with the script without each of the jobs that it starts, by its run, in which these calls were
/// answered.
fn compare_each<H: Heap>(
    heap: H,
    text: &[u8],
    calls: &[CallLine],
    whole: Whole,
) -> Result<Vec<JobVerdict>, Fault>
    requires { IsRunOf text.now calls.now whole }
    ensures exact { GivesVerdicts result (verdicts_of (script_of text.now)) }
    ensures memory { OnOutOfMemory result H.Refused }
{
    let Whole { replies, mut tree } = whole;
    let replies = replies.as_slice();
    let jobs = jobs_in(heap, calls, replies)?;
    let mut verdicts = Vec::new(heap.alloc());
    'jobs: for job in &jobs {
        let first = Observation {
            replies: replies_kept(heap, job, calls, replies)?,
            tree,
        };
        let found = explain_against(heap, text, job, &first);
        tree = first.tree;
        let verdict = JobVerdict {
            job: *job,
            found: found?,
        };
        heap.push(&mut verdicts, verdict)?;
    }
    Ok(verdicts)
}
