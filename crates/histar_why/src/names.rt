//! Processes with their jobs by name, read off a kernel's own objects.
ghost use Rattle.std.specs.Prelude.{◌≡◌, map, option_map, IfOk};
ghost use Rattle.histar_flat.specs.Classes.{knows};
ghost use Rattle.histar_syscall.specs.KernelModel.{state};
ghost use Rattle.histar_why.specs.Names.{caller_by, job_named, node_at, process_of};

use crate::causes::has;
use histar_flat::{Name, ProcName};
use histar_label::{Category, LabelStore};
use histar_layout::UserTable;
use histar_names::Purpose;
use histar_programs::{Roots, home_at};
use histar_readout::{Life, ProcessError, ProcessNode, read_process};
use histar_syscall::Kernel;
use std::alloc::{AllocError, Global};

/// Where reasons are read: a machine's own objects, and the names of its jobs.
#[derive(Drop)]
pub(crate) struct Reader<'k, S: LabelStore + Drop> {
    pub kernel: &'k Kernel<S>,
    /// Where boot left `/` and process 0.
    pub roots: &'k Roots,
    /// The users and the groups, with no passwords.
    pub users: &'k UserTable,
    /// For each category, by its number, what it was made for.
    pub births: &'k [Option<Purpose>],
}

/// A process that runs, with each of its jobs by name.
#[derive(Drop)]
pub(crate) struct Caller {
    pub user: Name,
    /// The jobs that it is in, outermost first.
    pub chain: Vec<ProcName>,
    /// The jobs that it holds.
    pub held: Vec<ProcName>,
    /// The number of children that were born to it.
    pub born: u8,
}

impl Caller {
    /// Checks whether it is in a job or holds it.
    pub fn knows(&self, job: &ProcName) -> bool
        ensures { result ≡ knows (process_of self.now) job.now }
    {
        has(self.chain.as_slice(), job) || has(self.held.as_slice(), job)
    }
}

/// Reads the process of this name, whether it runs or has exited.
pub(crate) fn node_at<S: LabelStore + Drop>(
    alloc: Global,
    reader: &Reader<S>,
    name: &ProcName,
) -> Result<Option<ProcessNode>, AllocError>
    ensures { IfOk result (λ found. found
        ≡ node_at reader.now.users.now (state reader.now.kernel.now) reader.now.roots.now.home
        name.now) }
{
    let Some(home) = home_at(reader.kernel, reader.roots.home, name.numbers()) else {
        return Ok(None);
    };
    match read_process(alloc, reader.kernel, reader.users, name, &home) {
        Ok(node) => Ok(Some(node)),
        Err(ProcessError::NoProcess) => Ok(None),
        Err(ProcessError::OutOfMemory) => Err(AllocError),
    }
}

/// Returns a process with its jobs by name, if it runs.
pub(crate) fn caller_of(
    alloc: Global,
    births: &[Option<Purpose>],
    node: &ProcessNode,
) -> Result<Option<Caller>, AllocError>
    ensures { IfOk result (λ found. option_map process_of found ≡ caller_by births.now node.now) }
{
    match &node.life {
        Life::Exited(_) => Ok(None),
        Life::Running { user, held } => Ok(Some(Caller {
            user: *user,
            chain: names_of(alloc, births, node.chain.as_slice())?,
            held: names_of(alloc, births, held.as_slice())?,
            born: node.born,
        })),
    }
}

/// Returns the names of the jobs of these categories.
pub(crate) fn names_of(
    alloc: Global,
    births: &[Option<Purpose>],
    categories: &[Category],
) -> Result<Vec<ProcName>, AllocError>
    ensures { IfOk result (λ names. names.items ≡ map (job_named births.now) categories.now) }
{
    let mut names = Vec::new(alloc);
    for &category in categories {
        names.push(job_named(births, category))?;
    }
    Ok(names)
}

/// Returns the name of the job of a category, or process 0 where it was made for none.
fn job_named(births: &[Option<Purpose>], category: Category) -> ProcName
    ensures { result ≡ job_named births.now category }
{
    match births.get(category.number() as usize) {
        Some(Some(Purpose::Job(job))) => *job,
        _ => ProcName::zero(),
    }
}
