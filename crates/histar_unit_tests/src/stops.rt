//! Machines that stop where memory runs out, and what they have done by then. With ample memory none stops:
//! `.ci/failing-calls` has each allocation of these tests fail in turn.
ghost use Rattle.std.specs.Prelude.{◌<◌, length};

use histar_flat::CallLine;
use histar_label::PlainStore;
use histar_rawtext::trace_line;
use histar_script::read_script;
use histar_shell::Machine;
use histar_syscall::Trace;
use std::alloc::{AllocError, Global};
use std::process::Abort;
use std::test::Fail;

/// A process is born and logs in, writes, wraps a job that writes too, and removes all of that.
const SCRIPT: &[u8] = b"user root rr\n\
    0 spawn\n\
    0 login root rr\n\
    0 mkdir /d private\n\
    0 create /d/f readable\n\
    0 write /d/f hello\n\
    0 append /d/f world\n\
    0 wrap /j\n\
    0.2 create /j/out open\n\
    0 list /j\n\
    0 rename /j k\n\
    0.1 exit 3\n\
    0 status 0.1\n\
    0 kill 0.2\n\
    0 rmtree /k\n\
    0 unlink /d/f\n\
    0 rmdir /d\n";

/// Makes calls on a machine, and returns whether it stopped. From then on it answers nothing else, and makes
/// no raw call.
fn has_stopped(
    rt: &impl Abort,
    alloc: Global,
    machine: &mut Machine<PlainStore>,
    calls: Vec<CallLine>,
) -> bool {
    let mut has_stopped = false;
    for call_line in calls {
        let CallLine {
            line,
            process,
            call,
        } = call_line;
        let made = machine.trace().len();
        let is_stopped = machine.step(alloc, line, &process, call).is_err();
        if has_stopped {
            assert!(rt; is_stopped, "an answer to line {line}");
            assert_eq!(rt; machine.trace().len(), made);
        }
        has_stopped = is_stopped;
    }
    has_stopped
}

/// Returns a machine after the script, and whether it stopped.
fn machine_after(
    rt: &impl Abort,
    alloc: Global,
    script: &[u8],
) -> Result<(Machine<PlainStore>, bool), Fail> {
    let (accounts, calls) = read_script(alloc, script)?.into_parts();
    let booted = Machine::boot(alloc, PlainStore::new(alloc), accounts);
    let mut machine = booted.map_err(|_| AllocError)?;
    let is_stopped = has_stopped(rt, alloc, &mut machine, calls);
    Ok((machine, is_stopped))
}

/// Returns the line of the entry at a place of a trace.
fn line_at(alloc: Global, trace: &Trace, at: usize) -> Result<Vec<u8>, AllocError>
    requires { at < length trace.now.entries }
{
    let entry = trace.entry(alloc, at)?;
    let line = trace_line(alloc, &entry);
    drop(entry);
    line
}

/// Compares each entry of a trace with the one at its place in another, which has at least as many.
fn check_beginning(
    rt: &impl Abort,
    alloc: Global,
    trace: &Trace,
    ample: &Trace,
) -> Result<(), Fail> {
    assert!(rt; trace.len() <= ample.len());
    for at in 0..trace.len() {
        let line = line_at(alloc, trace, at)?;
        let other = line_at(alloc, ample, at)?;
        assert_eq!(rt; line.as_slice(), other.as_slice());
    }
    Ok(())
}

/// Compares the traces of two machines, each of which stopped or didn't.
fn compare(
    rt: &impl Abort,
    alloc: Global,
    stopped: (bool, bool),
    trace: &Trace,
    other: &Trace,
) -> Result<(), Fail> {
    let (is_stopped, is_other_stopped) = stopped;
    if is_other_stopped {
        assert!(rt; !is_stopped, "one allocation stopped both");
        return check_beginning(rt, alloc, other, trace);
    }
    if !is_stopped {
        assert_eq!(rt; trace.len(), other.len());
    }
    check_beginning(rt, alloc, trace, other)
}

/// Compares the trace of a machine, which stopped or didn't, with that of another one after the same script.
fn compare_with_another(
    rt: &impl Abort,
    alloc: Global,
    is_stopped: bool,
    trace: &Trace,
) -> Result<(), Fail> {
    let (other, is_other_stopped) = machine_after(rt, alloc, SCRIPT)?;
    let stopped = (is_stopped, is_other_stopped);
    let compared = compare(rt, alloc, stopped, trace, other.trace());
    drop(other);
    compared
}

#[test]
fn a_stopped_machine_has_a_beginning_of_the_ample_trace(rt: HostRuntime) -> Result<(), Fail> {
    let alloc = rt.alloc();
    let (machine, is_stopped) = machine_after(&rt, alloc, SCRIPT)?;
    let compared = compare_with_another(&rt, alloc, is_stopped, machine.trace());
    drop(machine);
    compared
}
