//! The running processes of a machine, and its users.
ghost use Rattle.std.specs.Prelude.{◌≡◌, IfOk, map, option_map, Some};
ghost use Rattle.std.specs.List.{filter_map};
ghost use Rattle.histar_trust.specs.Findings.{names_of, runner_of, running_node};

use histar_flat::Name;
use histar_label::Category;
use histar_layout::UserTable;
use histar_readout::{Life, ProcessNode};
use histar_secrecy::Member;
use std::alloc::{AllocError, Global};

/// Returns the processes that run.
pub fn members_among(alloc: Global, processes: &[ProcessNode]) -> Result<Vec<Member>, AllocError>
    ensures { IfOk result (λ members.
        map runner_of members.items ≡ filter_map running_node processes.now) }
{
    let mut members = Vec::new(alloc);
    for process in processes {
        if let Some(member) = member_of(alloc, process)? {
            members.push(member)?;
        }
    }
    Ok(members)
}

/// Returns a process with its user and its jobs, if it runs.
pub fn member_of(alloc: Global, process: &ProcessNode) -> Result<Option<Member>, AllocError>
    ensures { IfOk result (λ member. option_map runner_of member ≡ running_node process.now) }
{
    let Life::Running { user, held } = &process.life else {
        return Ok(None);
    };
    Ok(Some(Member {
        name: process.name,
        user: *user,
        jobs: numbers(alloc, process.chain.as_slice())?,
        held: numbers(alloc, held.as_slice())?,
    }))
}

/// Returns the numbers of categories.
pub fn numbers(alloc: Global, categories: &[Category]) -> Result<Vec<u64>, AllocError>
    ensures { IfOk result (λ numbers. numbers.items ≡ categories.now) }
{
    let mut numbers = Vec::with_capacity(alloc, categories.len())?;
    for category in categories {
        numbers.push(category.number())?;
    }
    Ok(numbers)
}

/// Returns the names of the users, in their order.
pub fn user_names(alloc: Global, users: &UserTable) -> Result<Vec<Name>, AllocError>
    ensures { IfOk result (λ names. names.items ≡ names_of users.now) }
{
    let mut names = Vec::with_capacity(alloc, users.len())?;
    for place in 0..users.len() {
        names.push(users.name_at(place))?;
    }
    Ok(names)
}
