//! The jobs of a process, from the own label of its thread.
ghost use Rattle.std.specs.Prelude.{◌≡◌, not, IfOk, OnErr};
ghost use Rattle.histar_layout.specs.Jobs.{is_empty, is_three, jobs_in};

use histar_heap::Heap;
use histar_label::{Category, Label, Level};
use std::alloc::AllocError;

/// Checks whether a level is 3.
pub fn is_three(level: Level) -> bool
    ensures { result ≡ is_three level }
{
    matches!(level, Level::L3)
}

/// Checks whether the process of a thread is in a job.
pub fn is_in_job(own: &Label) -> bool
    ensures { result ≡ not (is_empty (jobs_in own.now)) }
{
    let exceptions = own.exceptions();
    for &(_, level) in exceptions {
        if is_three(level) {
            return true;
        }
    }
    false
}

/// Returns the categories of the jobs that the process of a thread is in.
pub fn jobs_in<H: Heap>(heap: H, own: &Label) -> Result<Vec<Category>, AllocError>
    ensures ok { IfOk result (λ jobs. jobs.items ≡ jobs_in own.now) }
    ensures memory { OnErr result H.Refused }
{
    let mut jobs = Vec::new(heap.alloc());
    let exceptions = own.exceptions();
    for &(category, level) in exceptions {
        if is_three(level) {
            heap.push(&mut jobs, category)?;
        }
    }
    Ok(jobs)
}
