//! Additions to what was gathered.
ghost use Rattle.std.specs.Prelude.{◌≡◌, OnOk};
ghost use Rattle.histar_ever.specs.Ever.{either};
ghost use Rattle.histar_ever.specs.Gathering.{AddsLines, AddsPaths, AddsProcesses, AddsRights, AddsRow};
ghost use Rattle.histar_ever.specs.Gathering.{letters_at as letters_of};

use crate::member::Member;
use histar_diff::{Runner, TableLine};
use histar_flat::{Path, ProcName};
use histar_rights::Rights;
use std::alloc::AllocError;
use std::collections::{BTreeMap, BTreeSet};

/// Letters by paths and processes.
pub(crate) type Letters = BTreeMap<(Path, Member), Rights>;

/// Adds the paths of the lines of a table.
pub(crate) fn add_paths(paths: &mut BTreeSet<Path>, lines: &[TableLine]) -> Result<(), AllocError>
    ensures { OnOk result (AddsPaths lines.now paths.old paths.new) }
{
    for line in lines {
        paths.insert(line.path)?;
    }
    Ok(())
}

/// Adds the processes of a table.
pub(crate) fn add_processes(
    processes: &mut BTreeSet<Member>,
    runners: &[Runner],
) -> Result<(), AllocError>
    ensures { OnOk result (AddsProcesses runners.now processes.old processes.new) }
{
    for runner in runners {
        processes.insert(Member {
            name: runner.process,
        })?;
    }
    Ok(())
}

/// Adds the rights of these processes on the lines of a table.
pub(crate) fn add_lines(
    letters: &mut Letters,
    runners: &[Runner],
    lines: &[TableLine],
) -> Result<(), AllocError>
    ensures { OnOk result (AddsLines runners.now lines.now letters.old letters.new) }
{
    for line in lines {
        add_row(letters, line.path, runners, line.rights.as_slice())?;
    }
    Ok(())
}

/// Adds the rights of these processes at a path.
fn add_row(
    letters: &mut Letters,
    path: Path,
    runners: &[Runner],
    rights: &[Rights],
) -> Result<(), AllocError>
    ensures { OnOk result (AddsRow path runners.now rights.now letters.old letters.new) }
{
    let (mut runners, mut rights) = (runners, rights);
    'cells: while let [runner, others @ ..] = runners {
        let [one, more @ ..] = rights else {
            return Ok(());
        };
        add_rights(letters, path, runner.process, *one)?;
        runners = others;
        rights = more;
    }
    Ok(())
}

/// Adds the rights of a process at a path to those that it had there.
fn add_rights(
    letters: &mut Letters,
    path: Path,
    process: ProcName,
    rights: Rights,
) -> Result<(), AllocError>
    ensures { OnOk result (AddsRights (path, process) rights letters.old letters.new) }
{
    let had = letters_at(letters, &path, &process);
    letters.insert((path, Member { name: process }), either(had, rights))?;
    Ok(())
}

/// Returns the letters of a path and a process, or none if nothing was added there.
pub(crate) fn letters_at(letters: &Letters, path: &Path, process: &ProcName) -> Rights
    ensures { result ≡ letters_of letters.now path.now process.now }
{
    let place = (*path, Member { name: *process });
    letters.get(&place).copied().unwrap_or(Rights::NONE)
}

/// Returns the letters of one or of the other.
pub(crate) fn either(a: Rights, b: Rights) -> Rights
    ensures { result ≡ either a b }
{
    Rights {
        stat: a.stat || b.stat,
        read: a.read || b.read,
        write: a.write || b.write,
        remove: a.remove || b.remove,
    }
}
