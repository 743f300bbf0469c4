//! The breach of a claim on a machine.
ghost use Rattle.std.specs.Prelude.{IfOk, map};
ghost use Rattle.histar_prefix.specs.Listing.{HasProcesses};
ghost use Rattle.histar_rights.specs.Users.{somebody};
ghost use Rattle.histar_never.specs.declared.breaches.Holder.TheVariants.{AProcess};
ghost use Rattle.histar_never.specs.Machines.{FindsBreach, IsBreachAmong, IsBreachByAll};
ghost use Rattle.histar_never.specs.Machines.{IsBreachByOne};
ghost use Rattle.histar_never.specs.Machines.{IsBreachByUsers, IsBreachOf, IsNodeBreach};
ghost use Rattle.histar_never.specs.Machines.{IsUserBreach};

use crate::breaches::{Breach, Holder, breach_by};
use crate::claims::Never;
use crate::whom::Whom;
use histar_cells::{nobody, rights_of, rights_of_user, user_of_process};
use histar_flat::{Name, ProcName};
use histar_label::LabelStore;
use histar_prefix::processes;
use histar_readout::{Life, ProcessNode};
use histar_shell::Machine;
use std::alloc::{AllocError, Global};

/// Returns the breach of a claim on a machine, by the first that is meant and has one of the
/// letters.
///
/// It stops at the first one. Of a claim on one process it looks at that process alone, and takes
/// no memory.
pub fn breach_on<S: LabelStore + Drop>(
    alloc: Global,
    machine: &Machine<S>,
    never: &Never,
) -> Result<Option<Breach>, AllocError>
    requires { HasProcesses machine.now }
    ensures { IfOk result (FindsBreach machine.now never.now) }
{
    match &never.whom {
        Whom::OfProcess(process) => Ok(breach_of_one(machine, never, process)),
        Whom::OfUser(_) => breach_of_many(alloc, machine, never),
        Whom::AllBut(_) => breach_of_many(alloc, machine, never),
    }
}

/// Returns the breach of a claim by a process, if it runs and has one of the letters.
fn breach_of_one<S: LabelStore + Drop>(
    machine: &Machine<S>,
    never: &Never,
    process: &ProcName,
) -> Option<Breach>
    ensures { IsBreachByOne machine.now never.now process.now result }
{
    let user = user_of_process(machine, process)?;
    breach_of_process(machine, never, process, user)
}

/// Returns the breach of a claim by a process with this user, if the process has one of the
/// letters.
fn breach_of_process<S: LabelStore + Drop>(
    machine: &Machine<S>,
    never: &Never,
    process: &ProcName,
    user: Name,
) -> Option<Breach>
    ensures { IsBreachOf machine.now never.now (AProcess process.now user) result }
{
    let path = never.path.path();
    let rights = rights_of(machine, &path, process);
    breach_by(never.letters, Holder::AProcess(*process, user), rights)
}

/// Returns the breach of a claim by a process, if it runs, is meant and has one of the letters.
fn breach_of_node<S: LabelStore + Drop>(
    machine: &Machine<S>,
    never: &Never,
    node: &ProcessNode,
) -> Option<Breach>
    ensures { IsNodeBreach machine.now never.now node.now result }
{
    let Life::Running { user, .. } = &node.life else {
        return None;
    };
    if !never.whom.is_meant(&node.name, *user) {
        return None;
    }
    breach_of_process(machine, never, &node.name, *user)
}

/// Returns the breach of a claim by the first of these processes that breaks it.
fn breach_among<S: LabelStore + Drop>(
    machine: &Machine<S>,
    never: &Never,
    nodes: &[ProcessNode],
) -> Option<Breach>
    ensures { IsBreachAmong machine.now never.now nodes.now result }
{
    let mut rest = nodes;
    'nodes: while let [node, more @ ..] = rest {
        if let Some(breach) = breach_of_node(machine, never, node) {
            return Some(breach);
        }
        rest = more;
    }
    None
}

/// Returns the breach of a claim by whoever logs in as this user, if the user is meant and has one
/// of the letters.
fn breach_of_user<S: LabelStore + Drop>(
    alloc: Global,
    machine: &Machine<S>,
    never: &Never,
    user: Name,
) -> Result<Option<Breach>, AllocError>
    ensures { IfOk result (IsUserBreach machine.now never.now user) }
{
    if !never.whom.is_meant_user(user) {
        return Ok(None);
    }
    let path = never.path.path();
    let rights = rights_of_user(alloc, machine, &path, user)?;
    Ok(breach_by(never.letters, Holder::AUser(user), rights))
}

/// Returns the breach of a claim by the first of the declared users that breaks it.
fn breach_of_declared<S: LabelStore + Drop>(
    alloc: Global,
    machine: &Machine<S>,
    never: &Never,
) -> Result<Option<Breach>, AllocError>
    ensures { IfOk result (IsBreachByUsers machine.now never.now
        (map (λ user. user.name) machine.now.users.users)) }
{
    let users = machine.users();
    for place in 0..users.len() {
        let breach = breach_of_user(alloc, machine, never, users.name_at(place))?;
        if breach.is_some() {
            return Ok(breach);
        }
    }
    Ok(None)
}

/// Returns the breach of a claim by nobody, or else by the first of the declared users that breaks
/// it.
fn breach_of_users<S: LabelStore + Drop>(
    alloc: Global,
    machine: &Machine<S>,
    never: &Never,
) -> Result<Option<Breach>, AllocError>
    ensures { IfOk result (IsBreachByUsers machine.now never.now (somebody machine.now.users)) }
{
    let breach = breach_of_user(alloc, machine, never, nobody())?;
    if breach.is_some() {
        return Ok(breach);
    }
    breach_of_declared(alloc, machine, never)
}

/// Returns the breach of a claim by the first running process that breaks it, or else by the first
/// user.
fn breach_of_many<S: LabelStore + Drop>(
    alloc: Global,
    machine: &Machine<S>,
    never: &Never,
) -> Result<Option<Breach>, AllocError>
    requires { HasProcesses machine.now }
    ensures { IfOk result (IsBreachByAll machine.now never.now) }
{
    let processes = processes(alloc, machine)?;
    let breach = breach_among(machine, never, processes.as_slice());
    if breach.is_some() {
        return Ok(breach);
    }
    breach_of_users(alloc, machine, never)
}
