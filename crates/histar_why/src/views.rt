//! What the call of a process is about, as the machine's own objects show it.
ghost use Rattle.std.specs.Prelude.{◌≡◌, ◌≤◌, length, option_map, true, IfOk};
ghost use Rattle.histar_flat.specs.Words.{most_numbers};
ghost use Rattle.histar_syscall.specs.KernelModel.{state};
ghost use Rattle.histar_why.specs.Names.{node_at, process_of};
ghost use Rattle.histar_why.specs.Reasons.{process_reason_of};
ghost use Rattle.histar_why.specs.Views.{AreFactsOf, CountsEntries, CountsIn, IsBeside, asks_empty};
ghost use Rattle.histar_why.specs.Views.{asks_room, search_by, unfound_by};

use crate::asked::{Asked, Part};
use crate::causes::unknown;
use crate::names::{Caller, Reader, names_of, node_at};
use crate::reasons::{ProcessReason, beside};
use crate::ways::{Spot, Way, way_to};
use histar_flat::ProcName;
use histar_label::LabelStore;
use histar_layout::{Target, UserTable, read_dir};
use histar_readout::resolve::resolve;
use histar_syscall::Kernel;
use std::alloc::{AllocError, Global};

/// What was read for a call.
#[derive(Clone, Copy)]
pub(crate) struct Facts {
    /// The way to the path.
    pub way: Way,
    /// How many entries there are in the directory of the path, and at the path, where the call
    /// needs to know.
    pub above: usize,
    pub here: usize,
    /// Whether something in that directory has the name that the call gives.
    pub beside: bool,
    /// Why the process doesn't find the one that is named.
    pub sought: Option<ProcessReason>,
}

/// What a call is about.
#[derive(Drop)]
pub(crate) struct View<'a, 'u, 'c, 'f> {
    pub asked: &'a Asked,
    pub users: &'u UserTable,
    /// The process that makes the call.
    pub caller: &'c Caller,
    pub facts: &'f Facts,
}

/// Reads what a call of this process is about.
pub(crate) fn facts_of<S: LabelStore + Drop>(
    alloc: Global,
    reader: &Reader<S>,
    caller: &Caller,
    asked: &Asked,
) -> Result<Facts, AllocError>
    ensures { IfOk result
        (AreFactsOf reader.now.users.now reader.now.roots.now reader.now.births.now
        (state reader.now.kernel.now) (process_of caller.now) asked.now) }
{
    let way = way_to(alloc, reader, caller, asked.path.names())?;
    Ok(Facts {
        way,
        above: count_if(asks_room(asked), alloc, reader.kernel, &way.above)?,
        here: count_if(asks_empty(asked), alloc, reader.kernel, &way.here)?,
        beside: is_beside(reader, asked),
        sought: search(alloc, reader, caller, asked.other.numbers())?,
    })
}

/// Checks whether a call needs room in the directory of its path.
fn asks_room(asked: &Asked) -> bool
    ensures { result ≡ asks_room asked.now.parts.now }
{
    asked
        .parts
        .iter()
        .any(|part| matches!(part, Part::HasRoomAbove))
}

/// Checks whether a call needs the directory at its path to be empty.
fn asks_empty(asked: &Asked) -> bool
    ensures { result ≡ asks_empty asked.now.parts.now }
{
    asked.parts.iter().any(|part| matches!(part, Part::IsEmpty))
}

/// Counts the entries of the directory that is there, if they are asked for.
fn count_if<S: LabelStore + Drop>(
    is_asked: bool,
    alloc: Global,
    kernel: &Kernel<S>,
    spot: &Option<Spot>,
) -> Result<usize, AllocError>
    ensures { IfOk result (λ n. is_asked ≡ true → CountsEntries (state kernel.now) spot.now n) }
{
    if is_asked {
        count_at(alloc, kernel, spot)
    } else {
        Ok(0)
    }
}

/// Counts the entries of the directory that is there. Where none is, there are none.
fn count_at<S: LabelStore + Drop>(
    alloc: Global,
    kernel: &Kernel<S>,
    spot: &Option<Spot>,
) -> Result<usize, AllocError>
    ensures { IfOk result (CountsEntries (state kernel.now) spot.now) }
{
    match spot {
        None => Ok(0),
        Some(spot) => count_in(alloc, kernel, &spot.target),
    }
}

/// Counts the entries of a directory. A file has none.
fn count_in<S: LabelStore + Drop>(
    alloc: Global,
    kernel: &Kernel<S>,
    target: &Target,
) -> Result<usize, AllocError>
    ensures { IfOk result (CountsIn (state kernel.now) target.now) }
{
    let Target::Directory(_, listing) = target else {
        return Ok(0);
    };
    match read_dir(alloc, kernel.bytes(*listing))? {
        Some(directory) => Ok(directory.len()),
        None => Ok(0),
    }
}

/// Checks whether something has the name that a call gives, in the directory of its path.
fn is_beside<S: LabelStore + Drop>(reader: &Reader<S>, asked: &Asked) -> bool
    ensures { IsBeside (state reader.now.kernel.now) reader.now.roots.now asked.now result }
{
    match asked.beside {
        None => false,
        Some(name) => resolve(reader.kernel, reader.roots, &beside(&asked.path, name)).is_some(),
    }
}

/// Returns why a process doesn't find the one of these numbers: the first on the search that is not
/// there, or that it doesn't see.
fn search<S: LabelStore + Drop>(
    alloc: Global,
    reader: &Reader<S>,
    caller: &Caller,
    numbers: &[u8],
) -> Result<Option<ProcessReason>, AllocError>
    requires { length numbers.now ≤ most_numbers }
    ensures { IfOk result (λ found. option_map process_reason_of found
        ≡ search_by reader.now.users.now reader.now.births.now (state reader.now.kernel.now)
        reader.now.roots.now.home (process_of caller.now) numbers.now) }
{
    let [_, above @ ..] = numbers else {
        return Ok(None);
    };
    match search(alloc, reader, caller, above)? {
        Some(reason) => Ok(Some(reason)),
        None => unfound(alloc, reader, caller, &name_of(numbers)),
    }
}

/// Returns why a process doesn't find the one of this name, if it finds those above it.
fn unfound<S: LabelStore + Drop>(
    alloc: Global,
    reader: &Reader<S>,
    caller: &Caller,
    name: &ProcName,
) -> Result<Option<ProcessReason>, AllocError>
    ensures { IfOk result (λ found. option_map process_reason_of found
        ≡ unfound_by reader.now.births.now (process_of caller.now) name.now
        (node_at reader.now.users.now (state reader.now.kernel.now) reader.now.roots.now.home
        name.now)) }
{
    let Some(node) = node_at(alloc, reader, name)? else {
        return Ok(Some(ProcessReason::NoProcess(*name)));
    };
    let jobs = names_of(alloc, reader.births, node.chain.as_slice())?;
    match unknown(caller, jobs.as_slice()) {
        Some(job) => Ok(Some(ProcessReason::IsUnseen(*name, job))),
        None => Ok(None),
    }
}

/// Returns the name of these numbers, of which the last comes first.
pub(crate) fn name_of(numbers: &[u8]) -> ProcName
    requires { length numbers.now ≤ most_numbers }
    ensures { result ≡ numbers.now }
{
    match numbers {
        [] => ProcName::zero(),
        [number, above @ ..] => name_of(above).child(*number),
    }
}
