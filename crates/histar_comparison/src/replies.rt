//! What is kept of the replies to a script.
ghost use Rattle.std.specs.Prelude.{◌≡◌, ◌∷◌, ◌&&◌, ◌||◌, OnErr, OnOk, option_map};
ghost use Rattle.histar_noninterference.specs.Comparison.{is_outsider};
ghost use Rattle.histar_noninterference.specs.Following.{left_without};
ghost use Rattle.histar_noninterference.specs.Isolation.{is_rmdir_or_wrap};
ghost use Rattle.histar_base.specs.Paths.{same};
ghost use Rattle.histar_flat.specs.PathOrder.{parent};
ghost use Rattle.histar_flat.specs.FlatState.{moved};
ghost use Rattle.histar_comparison.specs.Replies.{directory_after, is_start, no_replies, once_done, reveals};
ghost use Rattle.histar_comparison.specs.Replies.{shown_by, with_shown, wrap_path};

use histar_base::Bytes;
use histar_flat::{Name, Path, ProcName, Reply, UnixCall};
use histar_heap::Heap;
use histar_noninterference::ShownReply;
use histar_shell::reply_text;
use std::alloc::{AllocError, Global};
use std::marker::Model;

/// The reply to a line.
#[derive(Clone, Copy)]
pub struct LineReply<'a> {
    /// The number of the line.
    pub line: u32,
    /// The process that made its call.
    pub process: &'a ProcName,
    pub reply: &'a Reply,
    /// Whether it is one by which the process that started the job can reveal it.
    pub reveals: bool,
}

/// What is kept of the replies to a script while it runs.
#[derive(Drop)]
pub struct Replies {
    /// Whether the reply to a `wrap` was the job's name.
    is_started: bool,
    /// The replies to outsiders, in their order.
    shown: Vec<ShownReply>,
    /// The replies to the `rmdir`s and `wrap`s by which the process that started the job can reveal it.
    revealing: Vec<ShownReply>,
    /// Where the job's directory is, from when it was made until it is removed.
    directory: Option<Path>,
}

impl Model for Replies {
    ghost use Rattle.histar_comparison.specs.Replies.{RepliesModel};

    ghost Value = { RepliesModel };

    ghost view = { λ r. record {
      is_started = r.is_started;
      shown = r.shown.items;
      revealing = r.revealing.items;
      directory = r.directory;
    } };
}

impl Replies {
    /// Returns what is kept before the first line: nothing.
    pub fn new(alloc: Global) -> Replies
        ensures { result ≡ no_replies }
    {
        Replies {
            is_started: false,
            shown: Vec::new(alloc),
            revealing: Vec::new(alloc),
            directory: None,
        }
    }

    /// Returns whether a `wrap` started the job.
    pub fn is_started(&self) -> bool
        ensures { result ≡ self.now.is_started }
    {
        self.is_started
    }

    /// Lends the replies to outsiders.
    pub fn shown(&self) -> &[ShownReply]
        ensures { result.now ≡ self.now.shown }
    {
        self.shown.as_slice()
    }

    /// Lends the replies by which the process that started the job can reveal it.
    pub fn revealing(&self) -> &[ShownReply]
        ensures { result.now ≡ self.now.revealing }
    {
        self.revealing.as_slice()
    }

    /// Returns where the job's directory is.
    pub fn directory(&self) -> Option<Path>
        ensures { result ≡ self.now.directory }
    {
        self.directory
    }

    /// Checks whether the process that started the job can reveal it by this call.
    pub fn reveals(&self, job: &ProcName, process: &ProcName, call: &UnixCall) -> bool
        ensures { result ≡ reveals job.now self.now.is_started process.now call.now }
    {
        self.is_started && may_reveal(job, process, call)
    }

    /// Follows the job's directory over a reply to a call: `wraps` is the path in which the call wraps a job,
    /// and `done` is where the directory is once the call is done.
    pub fn follow(&mut self, job: &ProcName, wraps: Option<Path>, done: Option<Path>, reply: &Reply)
        ensures { self.new ≡ record {
          is_started = self.old.is_started || is_start job.now wraps reply.now;
          shown = self.old.shown;
          revealing = self.old.revealing;
          directory = directory_after job.now self.old.directory wraps done reply.now;
        } }
    {
        match reply {
            Reply::Done => self.directory = done,
            Reply::Child(child) if wraps.is_some() && *job == *child => {
                self.is_started = true;
                self.directory = wraps;
            }
            _ => {}
        }
    }

    /// Keeps the reply to a line, if its process is an outsider, and if it reveals the job.
    pub fn show<H: Heap>(
        &mut self,
        heap: H,
        job: &ProcName,
        shown: &LineReply,
    ) -> Result<(), AllocError>
        ensures ok { let a = shown.now in OnOk result (self.new ≡ record self.old {
          shown = shown_by job.now self.old.shown a.line a.process.now a.reply.now;
          revealing = with_shown a.reveals self.old.revealing a.line a.reply.now;
        }) }
        ensures memory { OnErr result H.Refused }
    {
        let LineReply {
            line,
            process,
            reply,
            reveals,
        } = *shown;
        push_if(
            heap,
            &mut self.shown,
            is_outsider(job, process),
            line,
            reply,
        )?;
        push_if(heap, &mut self.revealing, reveals, line, reply)
    }
}

/// Adds the reply to a line to the replies that are kept, if the test holds.
fn push_if<H: Heap>(
    heap: H,
    kept: &mut Vec<ShownReply>,
    test: bool,
    line: u32,
    reply: &Reply,
) -> Result<(), AllocError>
    ensures ok { OnOk result (kept.new.items ≡ with_shown test kept.old.items line reply.now) }
    ensures memory { OnErr result H.Refused }
{
    if test {
        let text = Bytes::from_vec(reply_text(heap, reply)?);
        heap.push(kept, ShownReply { line, text })?;
    }
    Ok(())
}

/// Checks whether a call is a `rmdir` or a `wrap` of the process that started the job.
fn may_reveal(job: &ProcName, process: &ProcName, call: &UnixCall) -> bool
    ensures { result ≡ (same (parent job.now) process.now && is_rmdir_or_wrap call.now) }
{
    is_parent(process, job) && is_rmdir_or_wrap(call)
}

/// Checks whether a call is a `rmdir` or a `wrap`.
fn is_rmdir_or_wrap(call: &UnixCall) -> bool
    ensures { result ≡ is_rmdir_or_wrap call.now }
{
    matches!(call, UnixCall::Rmdir(_) | UnixCall::Wrap(_))
}

/// Checks that a process is not in the job, and is not the one that started it.
fn is_outsider(job: &ProcName, process: &ProcName) -> bool
    ensures { result ≡ is_outsider job.now process.now }
{
    !process.is_at_or_below(job) && !is_parent(process, job)
}

/// Returns the directory in which a call wraps a job.
pub fn wrap_path(call: &UnixCall) -> Option<Path>
    ensures { result ≡ wrap_path call.now }
{
    match call {
        UnixCall::Wrap(path) => Some(path.path()),
        _ => None,
    }
}

/// Returns where a job's directory is once a call is done.
pub fn once_done(directory: Option<Path>, call: &UnixCall) -> Option<Path>
    ensures { result ≡ once_done directory call.now }
{
    match call {
        UnixCall::Unlink(path) => left_without(&path.path(), directory),
        UnixCall::Rmdir(path) => left_without(&path.path(), directory),
        UnixCall::Rmtree(path) => left_without(&path.path(), directory),
        UnixCall::Rename(path, name) => renamed(directory, &path.path(), *name),
        _ => directory,
    }
}

/// Returns the directory, unless it is removed with what is at the path.
fn left_without(path: &Path, directory: Option<Path>) -> Option<Path>
    ensures { result ≡ left_without path.now directory }
{
    match directory {
        Some(directory) if !directory.is_at_or_below(path) => Some(directory),
        _ => None,
    }
}

/// Returns the directory once the entry at the path has a new name.
fn renamed(directory: Option<Path>, path: &Path, name: Name) -> Option<Path>
    ensures { result ≡ option_map (moved path.now (name ∷ parent path.now)) directory }
{
    match directory {
        Some(directory) => Some(directory.renamed(path, name)),
        None => None,
    }
}

/// Checks whether a process started the job.
fn is_parent(process: &ProcName, job: &ProcName) -> bool
    ensures { result ≡ same (parent job.now) process.now }
{
    match job.numbers() {
        [_, above @ ..] => above == process.numbers(),
        [] => process.numbers().is_empty(),
    }
}
