//! The run of a whole script, from which each of its jobs is looked at.
ghost use Rattle.std.specs.Prelude.{◌≡◌, ◌∷◌, IfOk, OnErr, OnOk};
ghost use Rattle.histar_comparison.specs.Memory.{FailsForMemory};
ghost use Rattle.histar_comparison.specs.Observation.{CanRun};
ghost use Rattle.histar_comparison.specs.Replies.{no_replies, with_reply, with_replies};
ghost use Rattle.histar_shell.specs.Memory.{StillShows};
ghost use Rattle.histar_comparison.specs.Whole.{EndsWithATree, IsWhole, KeepsAnswer, KeepsAnswers, RunsWhole, answered};

use crate::observation::{REMEMBERED_ANSWERS, show_tree};
use crate::replies::{LineReply, Replies, once_done, wrap_path};
use histar_base::Bytes;
use histar_flat::{CallLine, Path, ProcName, Reply};
use histar_heap::Heap;
use histar_label::{InternStore, LabelStore};
use histar_script::Script;
use histar_shell::Machine;
use std::alloc::AllocError;

/// What a script is answered, and the tree after its last call.
#[derive(Drop)]
pub(crate) struct Whole {
    /// The replies, in the order of the calls.
    pub(crate) replies: Vec<Reply>,
    /// Each path of the tree after the last call with what is printed of it, by rising paths.
    pub(crate) tree: Vec<(Path, Bytes)>,
}

/// Runs a script on a machine of its own.
pub(crate) fn run_whole<H: Heap>(heap: H, script: Script) -> Result<Whole, AllocError>
    requires { CanRun script }
    ensures ok { IfOk result (IsWhole script) }
    ensures memory { OnErr result H.Refused }
{
    let store = InternStore::new(heap, REMEMBERED_ANSWERS)?;
    let (accounts, calls) = script.into_parts();
    let Ok(mut machine) = Machine::boot(heap, store, accounts) else {
        return Err(AllocError);
    };
    let whole = run_calls(heap, &mut machine, calls);
    drop(machine);
    whole
}

/// Makes the calls on a machine that was booted, and keeps the replies and the tree after the last call.
fn run_calls<H: Heap, S: LabelStore + Drop>(
    heap: H,
    machine: &mut Machine<S>,
    calls: Vec<CallLine>,
) -> Result<Whole, AllocError>
    requires { EndsWithATree machine.old calls.items }
    ensures ok { IfOk result (RunsWhole machine.old machine.new calls.items) }
    ensures memory { FailsForMemory H.Refused machine.old result }
{
    let mut replies = Vec::new(heap.alloc());
    answer_calls(heap, machine, calls, &mut replies)?;
    let tree = show_tree(heap, machine)?;
    Ok(Whole { replies, tree })
}

/// Makes the calls on the machine in their order, and keeps the replies.
fn answer_calls<H: Heap, S: LabelStore + Drop>(
    heap: H,
    machine: &mut Machine<S>,
    calls: Vec<CallLine>,
    replies: &mut Vec<Reply>,
) -> Result<(), AllocError>
    ensures ok { OnOk result (KeepsAnswers machine.old machine.new replies.old.items replies.new.items
        calls.items) }
    ensures memory { FailsForMemory H.Refused machine.old result }
{
    'calls: for call in calls {
        answer_call(heap, machine, call, replies)?;
    }
    Ok(())
}

/// Makes one call on the machine, and keeps the reply.
fn answer_call<H: Heap, S: LabelStore + Drop>(
    heap: H,
    machine: &mut Machine<S>,
    call: CallLine,
    replies: &mut Vec<Reply>,
) -> Result<(), AllocError>
    ensures ok { OnOk result (KeepsAnswer machine.old machine.new replies.old.items replies.new.items call) }
    ensures shows { OnOk result (StillShows machine.old machine.new) }
    ensures memory { FailsForMemory H.Refused machine.old result }
{
    let CallLine {
        line,
        process,
        call,
    } = call;
    let Ok(reply) = machine.step(heap, line, &process, call) else {
        return Err(AllocError);
    };
    heap.push(replies, reply)?;
    Ok(())
}

/// Returns what a comparison without a job keeps of these replies to these calls. No call is made.
pub(crate) fn replies_kept<H: Heap>(
    heap: H,
    job: &ProcName,
    calls: &[CallLine],
    replies: &[Reply],
) -> Result<Replies, AllocError>
    ensures ok { IfOk result (λ kept. kept
        ≡ with_replies job.now no_replies (answered calls.now replies.now)) }
    ensures memory { OnErr result H.Refused }
{
    let mut kept = Replies::new(heap.alloc());
    let (mut calls, mut replies) = (calls, replies);
    'answers: while let [call, later @ ..] = calls {
        let [reply, others @ ..] = replies else {
            return Ok(kept);
        };
        keep_reply(heap, &mut kept, job, call, reply)?;
        calls = later;
        replies = others;
    }
    Ok(kept)
}

/// Keeps the reply to a call.
fn keep_reply<H: Heap>(
    heap: H,
    kept: &mut Replies,
    job: &ProcName,
    call: &CallLine,
    reply: &Reply,
) -> Result<(), AllocError>
    ensures ok { OnOk result (kept.new
        ≡ with_reply job.now kept.old (record { call = call.now; reply = reply.now })) }
    ensures memory { OnErr result H.Refused }
{
    let wraps = wrap_path(&call.call);
    let done = once_done(kept.directory(), &call.call);
    let reveals = kept.reveals(job, &call.process, &call.call);
    kept.follow(job, wraps, done, reply);
    let shown = LineReply {
        line: call.line,
        process: &call.process,
        reply,
        reveals,
    };
    kept.show(heap, job, &shown)
}
