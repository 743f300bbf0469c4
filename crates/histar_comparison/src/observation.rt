//! Running a script, and keeping what a comparison needs.
ghost use Rattle.std.specs.Prelude.{◌≡◌, IfOk, OnErr, OnOk};
ghost use Rattle.histar_comparison.specs.Memory.{FailsForMemory};
ghost use Rattle.histar_comparison.specs.Observation.{CanRun, EndsWithTree, KeepsReplies, KeepsReply};
ghost use Rattle.histar_comparison.specs.Observation.{Observes, ShowsTree, observation};
ghost use Rattle.histar_shell.specs.Ending.{HasTree};
ghost use Rattle.histar_shell.specs.Memory.{StillShows};

use crate::replies::{LineReply, Replies, once_done, wrap_path};
use histar_base::Bytes;
use histar_flat::{CallLine, Path, ProcName};
use histar_heap::Heap;
use histar_label::{InternStore, LabelStore};
use histar_script::Script;
use histar_shell::{Machine, node_text};
use std::alloc::AllocError;
use std::marker::Model;

/// The parts of the run of a script that a comparison needs.
#[derive(Drop)]
pub struct Observation {
    pub replies: Replies,
    /// Each path of the tree after the last call with what is printed of it, by rising paths.
    pub tree: Vec<(Path, Bytes)>,
}

impl Model for Observation {
    ghost use Rattle.histar_comparison.specs.Observation.{ObservationModel};

    ghost Value = { ObservationModel };

    ghost view = { λ o. record { replies = o.replies; tree = o.tree.items } };
}

/// How many answers of label comparisons each machine remembers.
pub(crate) const REMEMBERED_ANSWERS: usize = 256;

/// Runs a script on a machine of its own.
pub fn observe<H: Heap>(heap: H, script: Script, job: &ProcName) -> Result<Observation, AllocError>
    requires { CanRun script }
    ensures ok { IfOk result (λ seen. seen ≡ observation job.now script) }
    ensures memory { OnErr result H.Refused }
{
    let store = InternStore::new(heap, REMEMBERED_ANSWERS)?;
    let (accounts, calls) = script.into_parts();
    let Ok(mut machine) = Machine::boot(heap, store, accounts) else {
        return Err(AllocError);
    };
    let seen = observe_run(heap, &mut machine, job, calls);
    drop(machine);
    seen
}

/// Makes the calls on a machine that was booted, and keeps the replies and the tree after the last call.
fn observe_run<H: Heap, S: LabelStore + Drop>(
    heap: H,
    machine: &mut Machine<S>,
    job: &ProcName,
    calls: Vec<CallLine>,
) -> Result<Observation, AllocError>
    requires { EndsWithTree job.now machine.old calls.items }
    ensures ok { IfOk result (Observes job.now machine.old machine.new calls.items) }
    ensures memory { FailsForMemory H.Refused machine.old result }
{
    let mut replies = Replies::new(heap.alloc());
    observe_calls(heap, machine, job, calls, &mut replies)?;
    let tree = show_tree(heap, machine)?;
    Ok(Observation { replies, tree })
}

/// Makes the calls on the machine in their order, and keeps the replies.
fn observe_calls<H: Heap, S: LabelStore + Drop>(
    heap: H,
    machine: &mut Machine<S>,
    job: &ProcName,
    calls: Vec<CallLine>,
    replies: &mut Replies,
) -> Result<(), AllocError>
    ensures ok { OnOk result (KeepsReplies job.now machine.old machine.new replies.old replies.new calls.items) }
    ensures memory { FailsForMemory H.Refused machine.old result }
{
    'calls: for call in calls {
        observe_call(heap, machine, job, call, replies)?;
    }
    Ok(())
}

/// Makes one call on the machine, and keeps the reply.
fn observe_call<H: Heap, S: LabelStore + Drop>(
    heap: H,
    machine: &mut Machine<S>,
    job: &ProcName,
    call: CallLine,
    replies: &mut Replies,
) -> Result<(), AllocError>
    ensures ok { OnOk result (KeepsReply job.now machine.old machine.new replies.old replies.new call) }
    ensures shows { OnOk result (StillShows machine.old machine.new) }
    ensures memory { FailsForMemory H.Refused machine.old result }
{
    let CallLine {
        line,
        process,
        call,
    } = call;
    let wraps = wrap_path(&call);
    let done = once_done(replies.directory(), &call);
    let reveals = replies.reveals(job, &process, &call);
    let Ok(reply) = machine.step(heap, line, &process, call) else {
        return Err(AllocError);
    };
    replies.follow(job, wraps, done, &reply);
    let shown = LineReply {
        line,
        process: &process,
        reply: &reply,
        reveals,
    };
    replies.show(heap, job, &shown)
}

/// Returns the lines of the tree of a machine.
pub(crate) fn show_tree<H: Heap, S: LabelStore + Drop>(
    heap: H,
    machine: &Machine<S>,
) -> Result<Vec<(Path, Bytes)>, AllocError>
    requires { HasTree machine.now }
    ensures ok { IfOk result (λ lines. ShowsTree machine.now lines.items) }
    ensures memory { OnErr result H.Refused }
{
    let tree = machine.tree(heap)?;
    let mut lines = Vec::new(heap.alloc());
    'nodes: for node in &tree {
        let bytes = machine.bytes_of(node);
        let text = node_text(heap, &node.path, node.stat(), bytes)?;
        heap.push(&mut lines, (node.path, Bytes::from_vec(text)))?;
    }
    Ok(lines)
}
