//! What was gathered of the tables of several states.
ghost use Rattle.std.specs.Prelude.{◌≡◌, [], IfOk, OnOk};
ghost use Rattle.histar_base.specs.Paths.{path_cmp};
ghost use Rattle.histar_flat.specs.Accounts.{Accounts};
ghost use Rattle.histar_rights.specs.Running.{process_cmp};
ghost use Rattle.histar_ever.specs.Gathering.{AddsTable, AreKeys, Gathers, letters_at as letters_of};

use crate::gather::Gather;
use crate::gathering::{Letters, add_lines, add_paths, add_processes, letters_at};
use crate::member::Member;
use histar_access::table_of;
use histar_diff::Table;
use histar_flat::{Path, ProcName};
use histar_label::LabelStore;
use histar_rights::Rights;
use histar_shell::Machine;
use std::alloc::{AllocError, Global};
use std::collections::{BTreeMap, BTreeSet};

/// The paths that were there and the processes that ran in one of several states, and the letters that these
/// had at those.
#[derive(Drop)]
pub(crate) struct Ever {
    paths: BTreeSet<Path>,
    processes: BTreeSet<Member>,
    letters: Letters,
}

impl Ever {
    /// Makes one with nothing gathered.
    pub(crate) fn new(alloc: Global) -> Self
        ensures { (accounts : Accounts) → Gathers accounts [] result }
    {
        Ever {
            paths: BTreeSet::new(alloc),
            processes: BTreeSet::new(alloc),
            letters: BTreeMap::new(alloc),
        }
    }

    /// Adds the table of one more state. Its cost doesn't grow with what was gathered, but for the depth of
    /// trees.
    pub(crate) fn add(&mut self, table: &Table) -> Result<(), AllocError>
        ensures { OnOk result (AddsTable table.now self.old self.new) }
    {
        add_paths(&mut self.paths, table.lines.as_slice())?;
        add_processes(&mut self.processes, table.processes.as_slice())?;
        add_lines(
            &mut self.letters,
            table.processes.as_slice(),
            table.lines.as_slice(),
        )
    }

    /// Returns the paths, in their order.
    pub(crate) fn paths(&self, alloc: Global) -> Result<Vec<Path>, AllocError>
        ensures { IfOk result (λ paths. AreKeys self.now.paths.keys path_cmp paths.items) }
    {
        let mut paths = Vec::new(alloc);
        for path in &self.paths {
            paths.push(*path)?;
        }
        Ok(paths)
    }

    /// Returns the processes, in the order of their names.
    pub(crate) fn processes(&self, alloc: Global) -> Result<Vec<ProcName>, AllocError>
        ensures { IfOk result (λ names. AreKeys self.now.processes.keys process_cmp names.items) }
    {
        let mut names = Vec::new(alloc);
        for member in &self.processes {
            names.push(member.name)?;
        }
        Ok(names)
    }

    /// Returns the letters of a path and a process.
    pub(crate) fn letters(&self, path: &Path, process: &ProcName) -> Rights
        ensures { result ≡ letters_of self.now.letters path.now process.now }
    {
        letters_at(&self.letters, path, process)
    }
}

impl Gather for Ever {
    ghost use Rattle.histar_ever.specs.Gathering.{Gathers as gathers_rights};

    ghost Gathers = { gathers_rights };

    fn add_state<S: LabelStore + Drop>(
        &mut self,
        alloc: Global,
        machine: &Machine<S>,
    ) -> Result<(), AllocError> {
        let table = table_of(alloc, machine)?;
        self.add(&table)
    }

    fn adds_nothing_again() {}
}
