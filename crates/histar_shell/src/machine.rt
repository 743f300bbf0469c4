//! The machine: a labelled kernel with its start state, and what each call line has it do.
ghost use Rattle.std.specs.Prelude.{◌≡◌, ◌≤◌, ◌⊎◌, IfOk, IsTrue, OnErr, length};
ghost use Rattle.histar_rules.specs.Rules.{greatest};
ghost use Rattle.histar_programs.specs.Refusals.{settled};
ghost use Rattle.histar_script.specs.Script.{IsDeclared};
ghost use Rattle.histar_shell.specs.Machine.{AnswersLine, IsStart, IsTraced, Makes};
ghost use Rattle.histar_shell.specs.RawCalls.{MakesRaw};
ghost use Rattle.histar_shell.specs.Ending.{HasTree, IsTreeIn};
ghost use Rattle.histar_shell.specs.Meaning.{FollowsMeaning, ShowsStart};
ghost use Rattle.histar_syscall.specs.KernelModel.{state};
ghost use Rattle.histar_readout.specs.TreeEntries.{node_bytes};

use crate::calls::{
    CallKind, kind_of, make_entry_call, make_process_call, make_reading_call, make_writing_call,
};
use crate::raw::make_raw;
use histar_flat::{Accounts, ProcName, Reply, UnixCall, each_call_is_right};
use histar_heap::Heap;
use histar_label::LabelStore;
use histar_layout::UserTable;
use histar_login::boot;
use histar_object::ObjId;
use histar_programs::{CallError, Roots, Stopped, Unix, find_caller, settle};
use histar_readout::{TreeNode, bytes_of, tree_of};
use histar_rules::{Denied, RawCall};
use histar_syscall::{Answer, Kernel, Trace as KernelTrace};
use std::alloc::AllocError;
use std::marker::Model;

/// The raw calls of a run, in their order.
#[derive(Drop)]
pub struct Trace {
    kept: KernelTrace,
}

impl Model for Trace {
    ghost use Rattle.std.specs.Prelude.{List};
    ghost use Rattle.std.specs.Coded.{coded_list};
    ghost use Rattle.histar_trace.specs.declared.entries.TraceEntry.{TraceEntry};
    ghost use Rattle.histar_trace.specs.contracts.entries.TraceEntry as entry;

    ghost Value = { List TraceEntry };

    ghost coded = { coded_list entry.the_row.coded };

    ghost view = { λ t. t.kept.entries };
}

impl Trace {
    /// Lends the trace as the kernel kept it.
    pub fn kept(&self) -> &KernelTrace
        ensures { result.now.entries ≡ self.now }
    {
        &self.kept
    }
}

/// A labelled kernel that runs the calls of a script, over any store of labels. It keeps no map of
/// files or users' rights beside the kernel: the kernel alone grants and refuses.
#[derive(Drop)]
pub struct Machine<S: LabelStore + Drop> {
    kernel: Kernel<S>,
    roots: Roots,
    users: UserTable,
    is_stopped: bool,
}

impl<S: LabelStore + Drop> Model for Machine<S> {
    ghost use Rattle.histar_shell.specs.Machine.{MachineModel, coded_machine_model, IsTraced};

    ghost Value = { MachineModel };

    ghost coded = { coded_machine_model };

    ghost view = { λ m. record {
      kernel = m.kernel;
      roots = m.roots;
      users = m.users;
      is_stopped = m.is_stopped;
    } };

    ghost invariant = { λ m. IsTraced m.kernel };
}

impl<S: LabelStore + Drop> Machine<S> {
    /// Boots a machine with these users and groups by its raw calls, before the first call of a
    /// script: `/` is the first user's, readable and empty, and process 0 is nobody's. It keeps the names of
    /// the users and their groups, and none of the passwords.
    pub fn boot<H: Heap>(heap: H, store: S, accounts: Accounts) -> Result<Self, Stopped>
        requires { IsDeclared accounts }
        ensures starts { IfOk result (IsStart accounts) }
        ensures shows { IfOk result (ShowsStart accounts) }
        ensures memory { OnErr result H.Refused }
    {
        let users = UserTable::of(heap, &accounts)?;
        let (kernel, roots) = boot(heap, store, &accounts)?;
        Ok(Machine {
            kernel,
            roots,
            users,
            is_stopped: false,
        })
    }

    /// Makes one call of a process, on this line of the script. `Gone` for a process that was never born,
    /// has exited or was killed. After the first `Stopped` it does nothing and answers `Stopped`.
    pub fn step<H: Heap>(
        &mut self,
        heap: H,
        line: u32,
        process: &ProcName,
        call: UnixCall,
    ) -> Result<Reply, Stopped>
        ensures answers { AnswersLine self.old self.new line process.now call result }
        ensures means { FollowsMeaning H.Refused self.old self.new line process.now call result }
    {
        if self.is_stopped {
            drop(call);
            return Err(Stopped);
        }
        each_call_is_right(&call);
        let Some(caller) = find_caller(&self.kernel, self.roots.home, process) else {
            drop(call);
            return Ok(Reply::Gone);
        };
        self.kernel.begin(line);
        let unix = Unix {
            roots: &self.roots,
            users: &self.users,
            process,
            caller: &caller,
        };
        let outcome = make(heap, &mut self.kernel, &unix, call);
        entries_are_counted(&self.kernel);
        let result = settle(outcome);
        self.is_stopped = result.is_err();
        result
    }

    /// Makes a raw call of a thread as it stands, on this line of the script. It stops where memory runs out,
    /// and after the first `Stopped` it does nothing and answers `Stopped`.
    pub fn raw_call<H: Heap>(
        &mut self,
        heap: H,
        line: u32,
        thread: ObjId,
        call: RawCall,
    ) -> Result<Result<Answer, Denied>, Stopped>
        ensures makes { MakesRaw self.old self.new line thread call result }
        ensures memory { OnErr result (IsTrue self.old.is_stopped ⊎ H.Refused) }
    {
        if self.is_stopped {
            drop(call);
            Err(Stopped)
        } else {
            let result = make_raw(heap, &mut self.kernel, line, thread, call);
            self.is_stopped = result.is_err();
            result
        }
    }

    /// Lends the raw calls made so far.
    pub fn trace(&self) -> &KernelTrace
        ensures { result.now.entries ≡ self.now.kernel.trace }
    {
        self.kernel.trace()
    }

    /// Returns the files and directories, by rising paths, read off the kernel's own objects with no raw
    /// call.
    pub fn tree<H: Heap>(&self, heap: H) -> Result<Vec<TreeNode>, AllocError>
        requires { HasTree self.now }
        ensures ok { IfOk result (λ tree. IsTreeIn self.now tree.items) }
        ensures memory { OnErr result H.Refused }
    {
        match tree_of(heap, &self.kernel, &self.roots, &self.users)? {
            Some(tree) => Ok(tree),
            None => unreachable!(),
        }
    }

    /// Returns the bytes of a file that the tree lists, lent by the kernel's table; of a directory there
    /// are none. What a tree doesn't list, for example a password, is not lent.
    pub fn bytes_of(&self, node: &TreeNode) -> &[u8]
        ensures { result.now ≡ node_bytes (state self.now.kernel) node.now }
    {
        bytes_of(&self.kernel, node)
    }

    /// Lends the kernel, to look at its table with no raw call.
    pub fn kernel(&self) -> &Kernel<S>
        ensures { result.now ≡ self.now.kernel }
    {
        &self.kernel
    }

    /// Returns where `/` and process 0 are.
    pub fn roots(&self) -> &Roots
        ensures { result.now ≡ self.now.roots }
    {
        &self.roots
    }

    /// Lends the users and the groups, with no passwords.
    pub fn users(&self) -> &UserTable
        ensures { result.now ≡ self.now.users }
    {
        &self.users
    }

    /// Moves out the raw calls made so far: a run of the kernel from its empty state to the machine's. It leaks
    /// the kernel's objects: a program that ends soon takes no time to free them.
    pub fn leak_into_trace(self) -> Trace
        ensures trace { result ≡ self.kernel.trace }
        ensures run { IsTraced self.kernel }
    {
        Trace {
            kept: self.kernel.leak_into_trace(),
        }
    }
}

/// Says that the entries of a kernel's trace are no more than a number of 64 bits counts. A kernel whose raw
/// calls are these has not spent a counter.
fn entries_are_counted<S: LabelStore + Drop>(kernel: &Kernel<S>)
    ensures { length kernel.now.trace ≤ greatest }
{
    kernel.trace().len();
}

/// Makes one call of a process on the line that was begun.
fn make<H: Heap, S: LabelStore + Drop>(
    heap: H,
    kernel: &mut Kernel<S>,
    unix: &Unix,
    call: UnixCall,
) -> Result<Reply, CallError>
    ensures { Makes H.Refused unix.now.users.now unix.now.roots.now unix.now.process.now unix.now.caller.now
        kernel.old kernel.new call (settled result) }
{
    match kind_of(&call) {
        CallKind::Reading => make_reading_call(heap, kernel, unix, call),
        CallKind::Writing => make_writing_call(heap, kernel, unix, call),
        CallKind::Entries => make_entry_call(heap, kernel, unix, call),
        CallKind::Processes => make_process_call(heap, kernel, unix, call),
    }
}
