//! The calls of a line, by kind: each runs the program of its call.
ghost use Rattle.std.specs.Prelude.{◌≡◌};
ghost use Rattle.histar_programs.specs.Refusals.{settled};
ghost use Rattle.histar_shell.specs.Machine.{Makes, kind_of};
ghost use Rattle.histar_shell.specs.declared.calls.CallKind.TheVariants.{Entries, Processes, Reading, Writing};

use histar_calls::{append, create, list, mkdir, read, stat, write};
use histar_flat::{Reply, UnixCall};
use histar_heap::Heap;
use histar_label::LabelStore;
use histar_login::login;
use histar_moves::{rename, rmdir, rmtree, unlink};
use histar_process::{exit, kill, spawn, status, whoami};
use histar_programs::{CallError, Unix};
use histar_syscall::Kernel;
use histar_wrap::wrap;

/// What kind of call a call is.
#[derive(Clone, Copy)]
pub(crate) enum CallKind {
    /// It reads a file or a directory, or asks what is known of one.
    Reading,
    /// It makes a file or a directory, or writes a file.
    Writing,
    /// It removes or renames an entry of a directory.
    Entries,
    /// It is on processes and their users.
    Processes,
}

/// Returns the kind of a call.
pub(crate) fn kind_of(call: &UnixCall) -> CallKind
    ensures { result ≡ kind_of call.now }
{
    match call {
        UnixCall::Read(_) | UnixCall::List(_) | UnixCall::Stat(_) => CallKind::Reading,
        UnixCall::Create(..) | UnixCall::Mkdir(..) => CallKind::Writing,
        UnixCall::Write(..) | UnixCall::Append(..) => CallKind::Writing,
        UnixCall::Unlink(_) | UnixCall::Rmdir(_) => CallKind::Entries,
        UnixCall::Rmtree(_) | UnixCall::Rename(..) => CallKind::Entries,
        _ => CallKind::Processes,
    }
}

/// Makes a call that reads a file or a directory, or asks what is known of one.
pub(crate) fn make_reading_call<H: Heap, S: LabelStore + Drop>(
    heap: H,
    kernel: &mut Kernel<S>,
    unix: &Unix,
    call: UnixCall,
) -> Result<Reply, CallError>
    requires { kind_of call ≡ Reading }
    ensures { Makes H.Refused unix.now.users.now unix.now.roots.now unix.now.process.now unix.now.caller.now
        kernel.old kernel.new call (settled result) }
{
    match call {
        UnixCall::Read(path) => read::read(heap, kernel, unix, path.names()),
        UnixCall::List(path) => list::list(heap, kernel, unix, path.names()),
        UnixCall::Stat(path) => stat::stat(heap, kernel, unix, path.names()),
        _ => unreachable!(),
    }
}

/// Makes a call that makes a file or a directory, or writes a file.
pub(crate) fn make_writing_call<H: Heap, S: LabelStore + Drop>(
    heap: H,
    kernel: &mut Kernel<S>,
    unix: &Unix,
    call: UnixCall,
) -> Result<Reply, CallError>
    requires { kind_of call ≡ Writing }
    ensures { Makes H.Refused unix.now.users.now unix.now.roots.now unix.now.process.now unix.now.caller.now
        kernel.old kernel.new call (settled result) }
{
    match call {
        UnixCall::Create(path, mode) => create::create(heap, kernel, unix, path.names(), mode),
        UnixCall::Mkdir(path, mode) => mkdir::mkdir(heap, kernel, unix, path.names(), mode),
        UnixCall::Write(path, bytes) => write::write(heap, kernel, unix, path.names(), bytes),
        UnixCall::Append(path, bytes) => append::append(heap, kernel, unix, path.names(), bytes),
        _ => unreachable!(),
    }
}

/// Makes a call on the entries of a directory.
pub(crate) fn make_entry_call<H: Heap, S: LabelStore + Drop>(
    heap: H,
    kernel: &mut Kernel<S>,
    unix: &Unix,
    call: UnixCall,
) -> Result<Reply, CallError>
    requires { kind_of call ≡ Entries }
    ensures { Makes H.Refused unix.now.users.now unix.now.roots.now unix.now.process.now unix.now.caller.now
        kernel.old kernel.new call (settled result) }
{
    match call {
        UnixCall::Unlink(path) => unlink::unlink(heap, kernel, unix, path.names()),
        UnixCall::Rmdir(path) => rmdir::rmdir(heap, kernel, unix, path.names()),
        UnixCall::Rmtree(path) => rmtree::rmtree(heap, kernel, unix, path.names()),
        UnixCall::Rename(path, name) => rename::rename(heap, kernel, unix, path.names(), &name),
        _ => unreachable!(),
    }
}

/// Makes a call on processes and their users.
pub(crate) fn make_process_call<H: Heap, S: LabelStore + Drop>(
    heap: H,
    kernel: &mut Kernel<S>,
    unix: &Unix,
    call: UnixCall,
) -> Result<Reply, CallError>
    requires { kind_of call ≡ Processes }
    ensures { Makes H.Refused unix.now.users.now unix.now.roots.now unix.now.process.now unix.now.caller.now
        kernel.old kernel.new call (settled result) }
{
    match call {
        UnixCall::Spawn => spawn::spawn(heap, kernel, unix),
        UnixCall::Exit(number) => exit::exit(heap, kernel, unix, number),
        UnixCall::Status(name) => status::status(heap, kernel, unix, &name),
        UnixCall::Kill(name) => kill::kill(heap, kernel, unix, &name),
        UnixCall::Whoami => whoami::whoami(heap, kernel, unix),
        UnixCall::Login(name, password) => login::login(heap, kernel, unix, name, password),
        UnixCall::Wrap(path) => wrap::wrap(heap, kernel, unix, path.names()),
        _ => unreachable!(),
    }
}
