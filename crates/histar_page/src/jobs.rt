//! The jobs of a session.
ghost use Rattle.std.specs.Prelude.{◌≡◌, ◌++◌, IfOk, OnOk};
ghost use Rattle.std.specs.List.{flat_map};
ghost use Rattle.histar_script.specs.Lines.{lines_of};
ghost use Rattle.histar_page.specs.Texts.{texts};
ghost use Rattle.histar_page.specs.Lines.{words_of};
ghost use Rattle.histar_page.specs.Drawing.{has_letter, is_in_a_job, is_within, job_begun, job_on, jobs_of, process_of};

use crate::files::COLON;
use crate::lines::{LineKind, after_word, among, lines_in, or_nothing, words_in};
use crate::story::call_on;
use histar_flat::split_at_first;
use std::alloc::{AllocError, Global};

/// The call that begins a job.
const WRAP: &[u8] = b"wrap";

/// Returns the jobs of a session, in the order in which they started.
pub(crate) fn jobs_of<'a>(
    alloc: Global,
    script: &'a [u8],
    output: &'a [u8],
) -> Result<Vec<&'a [u8]>, AllocError>
    ensures { IfOk result (λ jobs.
        texts jobs.items ≡ jobs_of (lines_of script.entry.now) (lines_of output.entry.now)) }
{
    let script = lines_in(alloc, script)?;
    let output = lines_in(alloc, output)?;
    let replies = among(alloc, LineKind::Reply, output.as_slice())?;
    jobs_in(alloc, script.as_slice(), replies.as_slice())
}

/// Returns the first processes of the jobs that calls have begun, by their replies.
fn jobs_in<'a>(
    alloc: Global,
    script: &[&'a [u8]],
    replies: &[&'a [u8]],
) -> Result<Vec<&'a [u8]>, AllocError>
    ensures { IfOk result (λ jobs.
        texts jobs.items ≡ flat_map (job_on (texts script.now)) (texts replies.now)) }
{
    let mut jobs = Vec::new(alloc);
    let mut rest = replies;
    'replies: while let [reply, more @ ..] = rest {
        push_job(alloc, &mut jobs, call_on(script, reply), after_word(reply))?;
        rest = more;
    }
    Ok(jobs)
}

/// Adds the first process of the job that a call with this reply has begun, if it has begun one.
fn push_job<'a>(
    alloc: Global,
    jobs: &mut Vec<&'a [u8]>,
    call: &'a [u8],
    reply: &'a [u8],
) -> Result<(), AllocError>
    ensures { OnOk result (texts jobs.new.items
        ≡ texts jobs.old.items ++ job_begun (words_of call.now) (words_of reply.now)) }
{
    let call = words_in(alloc, call)?;
    let reply = words_in(alloc, reply)?;
    jobs.extend_from_slice(job_begun(call.as_slice(), reply.as_slice()))
}

/// Returns the first process of a job, if the words of a call and of its reply say that one has begun.
fn job_begun<'s, 'a>(call: &[&[u8]], reply: &'s [&'a [u8]]) -> &'s [&'a [u8]]
    ensures { texts result.now ≡ job_begun (texts call.now) (texts reply.entry.now) }
{
    let [_, word, ..] = call else {
        return &[];
    };
    let [_, _] = reply else {
        return &[];
    };
    if *word == WRAP { &reply[1..] } else { &[] }
}

/// Checks whether a process is the first of a job or below it.
pub(crate) fn is_within(job: &[u8], process: &[u8]) -> bool
    ensures { result ≡ is_within job.now process.now }
{
    match job {
        [] => match process {
            [] => true,
            [next, ..] => *next == b'.',
        },
        [first, job @ ..] => match process {
            [] => false,
            [other, process @ ..] => *first == *other && is_within(job, process),
        },
    }
}

/// Checks whether a process is in one of these jobs.
pub(crate) fn is_in_a_job(jobs: &[&[u8]], process: &[u8]) -> bool
    ensures { result ≡ is_in_a_job (texts jobs.now) process.now }
{
    let mut rest = jobs;
    'jobs: while let [job, more @ ..] = rest {
        if is_within(job, process) {
            return true;
        }
        rest = more;
    }
    false
}

/// Returns the process of a cell.
pub(crate) fn process_of(cell: &[u8]) -> &[u8]
    ensures { result.now ≡ process_of cell.entry.now }
{
    split_at_first(cell, COLON).0
}

/// Checks whether the letters of a cell's rights have this one.
pub(crate) fn has_letter(letter: u8, cell: &[u8]) -> bool
    ensures { result ≡ has_letter letter cell.now }
{
    let letters = or_nothing(split_at_first(cell, COLON).1);
    letters.iter().any(|b| *b == letter)
}
