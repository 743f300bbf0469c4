//! The processes above a process.
ghost use Rattle.std.specs.Prelude.{◌≡◌, map, OnOk};
ghost use Rattle.histar_trust.specs.Findings.{named_jobs, next_lineage};

use crate::members::numbers;
use histar_flat::ProcName;
use histar_readout::ProcessNode;
use std::alloc::{AllocError, Global};

/// A process, and the jobs that it is in, by the numbers of their categories.
#[derive(Drop)]
pub struct Ancestor {
    pub name: ProcName,
    pub jobs: Vec<u64>,
}

/// Goes on from one process, with those above it, to the next process: it leaves those above that one too, and
/// adds it.
pub fn go_down(
    alloc: Global,
    ancestors: &mut Vec<Ancestor>,
    node: &ProcessNode,
) -> Result<(), AllocError>
    ensures { OnOk result (map named_jobs ancestors.new.items
        ≡ next_lineage (map named_jobs ancestors.old.items) node.now) }
{
    ancestors.truncate(node.name.numbers().len());
    let jobs = numbers(alloc, node.chain.as_slice())?;
    Ok(ancestors.push(Ancestor {
        name: node.name,
        jobs,
    })?)
}
