//! An attack on the Unix library, from bytes to bytes.
ghost use Rattle.std.specs.Prelude.{◌≡◌, false, IfErr, IfOk, IfSome};
ghost use Rattle.histar_io.specs.Device.{CountsFailure};
ghost use Rattle.histar_script.specs.Runs.{LeavesSink, RunsInput, is_read_failed, is_write_failed};
ghost use Rattle.histar_attack.specs.Answering.{GivesOutput};
ghost use Rattle.histar_attack.specs.Attack.{GivesAttack, WritesAttack, first_unix, from_raw};

use crate::confinement::job_category;
use crate::handling::{LineRule, answer_before, handle_all};
use crate::texts::push_trace_if;
use histar_command::{Command, run_command};
use histar_flat::{CallLine, ProcName};
use histar_io::{Sink, Source, write_bytes};
use histar_label::{InternStore, LabelStore};
use histar_mixed::{Mixed, MixedItem, read_mixed};
use histar_script::Fault;
use histar_shell::Machine;
use std::alloc::{AllocError, Global};

/// How many answers of label comparisons are remembered.
const REMEMBERED_ANSWERS: usize = 256;

/// What is written where the job's first process doesn't run.
const NO_JOB: &[u8] = b"no job\n";

/// What is done beside an attack.
#[derive(Clone, Copy)]
pub struct AttackOptions {
    /// Writes the trace at the end: a line for each raw call, those of boot first.
    pub trace: bool,
    /// Makes each Unix call, also one whose process is inside.
    pub follow: bool,
}

/// The calls before the first raw call, and the others.
#[derive(Drop)]
struct Parts {
    before: Vec<CallLine>,
    later: Vec<MixedItem>,
}

/// Reads a mixed session, makes its calls, and writes a line for each call: of a Unix call the
/// reply, and of a raw call the answer or the denial. From the first raw call on it makes a raw
/// call only if its thread is tainted in the category of the job, and a Unix call only if its
/// process is outside; of other calls it writes why they are not made. If the first process of the
/// job doesn't run at the first raw call, or at the end where there is none, it writes `no job`
/// alone.
///
/// The whole session is read and checked before the first call. It writes once all calls are made.
/// It doesn't flush the sink.
pub fn attack<R: Source, W: Sink>(
    alloc: Global,
    job: &ProcName,
    reader: &mut R,
    writer: &mut W,
    options: AttackOptions,
) -> Result<(), Fault>
    // After a bad session, one that is too long or a failed read, the sink is as it was.
    ensures nothing { IfErr result (LeavesSink writer.old writer.new) }

    // A device has failed exactly if its fault is returned.
    ensures reads { CountsFailure (R.failures reader.old) (R.failures reader.new)
        (is_read_failed result) }
    ensures writes { CountsFailure (W.failures writer.old) (W.failures writer.new)
        (is_write_failed result) }

    // Some bytes of the source were read, to its end but never more than 1,048,577, and run as a
    // mixed session: its fault is returned, or what became of its calls is written; and unless
    // calls inside are followed, the Unix calls that were made are answered as the rules say for a
    // script of these alone.
    ensures runs { RunsInput (WritesAttack options job.now) (R.left reader.old) (R.left reader.new)
        (W.written writer.old) (W.written writer.new) result }

    // If the input is known, the session of the whole input was run.
    ensures known { IfSome (R.left reader.old)
        (λ input. WritesAttack options job.now input
        (W.written writer.old) (W.written writer.new) result) }
{
    run_command(alloc, reader, writer, Attacking { job, options })
}

/// The command of `attack`.
#[derive(Drop)]
struct Attacking<'a> {
    job: &'a ProcName,
    options: AttackOptions,
}

impl<'a> Command for Attacking<'a> {
    ghost use Rattle.std.proofs.Common.{rules};

    type Answer = ();

    type Memory = Global;

    ghost Runs = { λ command. WritesAttack command.options command.job.now };

    fn on_text<W: Sink>(self, alloc: Global, text: Vec<u8>, writer: &mut W) -> Result<(), Fault> {
        attack_text(alloc, text.as_slice(), self.job, writer, self.options)
    }

    ghost unread = { Prim.search rules };

    ghost long = { Prim.search rules };
}

/// Makes the calls of the mixed session in a text, and writes what became of them.
fn attack_text<W: Sink>(
    alloc: Global,
    text: &[u8],
    job: &ProcName,
    writer: &mut W,
    options: AttackOptions,
) -> Result<(), Fault>
    ensures nothing { IfErr result (LeavesSink writer.old writer.new) }
    ensures reads { is_read_failed result ≡ false }
    ensures writes { CountsFailure (W.failures writer.old) (W.failures writer.new)
        (is_write_failed result) }
    ensures runs { WritesAttack options job.now text.now
        (W.written writer.old) (W.written writer.new) result }
{
    let output = attack_output(alloc, text, job, options)?;
    write_bytes(writer, output.as_slice())?;
    Ok(())
}

/// Returns what is written of the mixed session in a text.
fn attack_output(
    alloc: Global,
    text: &[u8],
    job: &ProcName,
    options: AttackOptions,
) -> Result<Vec<u8>, Fault>
    ensures { GivesAttack options job.now text.now result }
{
    let Mixed { accounts, items } = read_mixed(alloc, text)?;
    let parts = parted(alloc, items)?;
    let store = InternStore::new(alloc, REMEMBERED_ANSWERS)?;
    let Ok(mut machine) = Machine::boot(alloc, store, accounts) else {
        return Err(Fault::OutOfMemory);
    };
    let output = run_attack(alloc, &mut machine, job, parts, options);
    drop(machine);
    output
}

/// Parts the calls before the first raw call from the others.
fn parted(alloc: Global, items: Vec<MixedItem>) -> Result<Parts, AllocError>
    ensures before { IfOk result (λ parts. parts.before.items ≡ first_unix items.items) }
    ensures later { IfOk result (λ parts. parts.later.items ≡ from_raw items.items) }
{
    let mut before = Vec::new(alloc);
    let mut later = Vec::new(alloc);
    'items: for item in items {
        match item {
            MixedItem::Raw(asked) => later.push(MixedItem::Raw(asked))?,
            MixedItem::Unix(call) => {
                if later.is_empty() {
                    before.push(call)?;
                } else {
                    later.push(MixedItem::Unix(call))?;
                }
            }
        }
    }
    Ok(Parts { before, later })
}

/// Makes the calls before an attack and those of the attack, and returns what is written of them.
fn run_attack<S: LabelStore + Drop>(
    alloc: Global,
    machine: &mut Machine<S>,
    job: &ProcName,
    parts: Parts,
    options: AttackOptions,
) -> Result<Vec<u8>, Fault>
    ensures ok { IfOk result (λ output.
        GivesOutput options job.now machine.old parts output.items) }
    ensures faults { IfErr result (λ fault. fault ≡ Fault.OutOfMemory) }
{
    let Parts { before, later } = parts;
    let mut output = Vec::new(alloc);
    answer_before(alloc, machine, before, &mut output)?;
    let first = machine.roots().home;
    let Some(category) = job_category(machine.kernel(), &first, job) else {
        return Ok(Vec::from_slice(alloc, NO_JOB)?);
    };
    let rule = LineRule {
        category,
        follow: options.follow,
    };
    handle_all(alloc, machine, &rule, later, &mut output)?;
    push_trace_if(alloc, &mut output, machine.trace(), options.trace)?;
    Ok(output)
}
