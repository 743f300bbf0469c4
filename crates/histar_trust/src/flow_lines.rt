//! To whom each running process can pass on what it learns.
ghost use Rattle.std.specs.Prelude.{◌≡◌, ◌++◌, IfOk, OnOk};
ghost use Rattle.std.specs.List.{flat_map, list_all, list_any};
ghost use Rattle.histar_trust.specs.FlowFindings.{has_number, is_shown_free, is_shown_observer, knows_number};
ghost use Rattle.histar_trust.specs.FlowFindings.{shown_flow, shown_flows, shown_free, shown_free_name, shown_line};
ghost use Rattle.histar_trust.specs.FlowFindings.{shown_name, shown_observer, shown_observers, shows_held, ShowsFlows};
ghost use Rattle.histar_trust.specs.Findings.{HasState};

use crate::members::members_among;
use histar_label::LabelStore;
use histar_prefix::processes;
use histar_secrecy::Member;
use histar_shell::Machine;
use histar_texts::push_process;
use std::alloc::{AllocError, Global};

/// Returns a line of the processes that run in no job, if there are any, and then one for each that runs in
/// a job, by names: all other processes that know each job that it is in.
///
/// The processes are read once, and each is compared with each.
pub fn flow_lines<S: LabelStore + Drop>(
    alloc: Global,
    machine: &Machine<S>,
) -> Result<Vec<u8>, AllocError>
    requires { HasState machine.now }
    ensures { IfOk result (λ text. ShowsFlows machine.now text.items) }
{
    let processes = processes(alloc, machine)?;
    let members = members_among(alloc, processes.as_slice())?;
    lines_among(alloc, members.as_slice())
}

/// Returns the lines of the processes that run.
fn lines_among(alloc: Global, members: &[Member]) -> Result<Vec<u8>, AllocError>
    ensures { IfOk result (λ text. text.items ≡ shown_flows members.now) }
{
    let mut text = Vec::new(alloc);
    push_free(&mut text, members)?;
    push_flows(&mut text, members)?;
    Ok(text)
}

/// Adds the line of the processes that are in no job, if there are any.
fn push_free(text: &mut Vec<u8>, members: &[Member]) -> Result<(), AllocError>
    ensures { OnOk result (text.new.items ≡ text.old.items ++ shown_free members.now) }
{
    if !is_one_free(members) {
        return Ok(());
    }
    text.extend_from_slice(b"free")?;
    push_free_names(text, members)?;
    text.extend_from_slice(b" tell everyone\n")
}

/// Checks whether one of these processes is in no job.
fn is_one_free(members: &[Member]) -> bool
    ensures { result ≡ list_any is_shown_free members.now }
{
    members.iter().any(|member| is_free(member))
}

/// Checks whether a process is in no job.
fn is_free(member: &Member) -> bool
    ensures { result ≡ is_shown_free member.now }
{
    member.jobs.is_empty()
}

/// Adds each process that is in no job after a space.
fn push_free_names(text: &mut Vec<u8>, members: &[Member]) -> Result<(), AllocError>
    ensures { OnOk result (text.new.items
        ≡ text.old.items ++ flat_map shown_free_name members.now) }
{
    for member in members {
        push_free_name(text, member)?;
    }
    Ok(())
}

/// Adds a process after a space, if it is in no job.
fn push_free_name(text: &mut Vec<u8>, member: &Member) -> Result<(), AllocError>
    ensures { OnOk result (text.new.items ≡ text.old.items ++ shown_free_name member.now) }
{
    if !is_free(member) {
        return Ok(());
    }
    text.extend_from_slice(b" ")?;
    push_process(*text.allocator(), text, &member.name)
}

/// Adds a line for each process that is in a job.
fn push_flows(text: &mut Vec<u8>, members: &[Member]) -> Result<(), AllocError>
    ensures { OnOk result (text.new.items
        ≡ text.old.items ++ flat_map (shown_flow members.now) members.now) }
{
    for member in members {
        push_flow(text, members, member)?;
    }
    Ok(())
}

/// Adds the line of a process, if it is in a job.
fn push_flow(text: &mut Vec<u8>, members: &[Member], from: &Member) -> Result<(), AllocError>
    ensures { OnOk result (text.new.items ≡ text.old.items ++ shown_flow members.now from.now) }
{
    if is_free(from) {
        return Ok(());
    }
    push_line(text, members, from)
}

/// Adds the line of a process.
fn push_line(text: &mut Vec<u8>, members: &[Member], from: &Member) -> Result<(), AllocError>
    ensures { OnOk result (text.new.items ≡ text.old.items ++ shown_line members.now from.now) }
{
    push_process(*text.allocator(), text, &from.name)?;
    text.extend_from_slice(b" ")?;
    text.extend_from_slice(from.user.as_bytes())?;
    text.extend_from_slice(b" tells")?;
    push_observers(text, members, from)?;
    text.extend_from_slice(b"\n")
}

/// Adds the observers of a process, or that there are none.
fn push_observers(text: &mut Vec<u8>, members: &[Member], from: &Member) -> Result<(), AllocError>
    ensures { OnOk result (text.new.items
        ≡ text.old.items ++ shown_observers members.now from.now) }
{
    if !is_observed(members, from) {
        return text.extend_from_slice(b" nobody");
    }
    push_each_observer(text, members, from)
}

/// Checks whether a process has an observer.
fn is_observed(members: &[Member], from: &Member) -> bool
    ensures { result ≡ list_any (is_shown_observer from.now) members.now }
{
    members.iter().any(|member| is_observer(from, member))
}

/// Adds each observer of a process.
fn push_each_observer(
    text: &mut Vec<u8>,
    members: &[Member],
    from: &Member,
) -> Result<(), AllocError>
    ensures { OnOk result (text.new.items
        ≡ text.old.items ++ flat_map (shown_observer from.now) members.now) }
{
    for member in members {
        push_observer(text, from, member)?;
    }
    Ok(())
}

/// Adds a process, if it is an observer of the first one.
fn push_observer(text: &mut Vec<u8>, from: &Member, member: &Member) -> Result<(), AllocError>
    ensures { OnOk result (text.new.items
        ≡ text.old.items ++ shown_observer from.now member.now) }
{
    if !is_observer(from, member) {
        return Ok(());
    }
    push_name(text, from, member)
}

/// Adds a process after a space, and `!` behind it if it holds a job that the first one is in.
fn push_name(text: &mut Vec<u8>, from: &Member, member: &Member) -> Result<(), AllocError>
    ensures { OnOk result (text.new.items ≡ text.old.items ++ shown_name from.now member.now) }
{
    text.extend_from_slice(b" ")?;
    push_process(*text.allocator(), text, &member.name)?;
    if !holds_one(from, member) {
        return Ok(());
    }
    text.extend_from_slice(b"!")
}

/// Checks whether a process is another one than the first, and knows each job that the first one is in.
fn is_observer(from: &Member, member: &Member) -> bool
    ensures { result ≡ is_shown_observer from.now member.now }
{
    from.name != member.name && knows_all(member, from.jobs.as_slice())
}

/// Checks whether a process knows each of these jobs: it is in the job, or holds it.
fn knows_all(member: &Member, jobs: &[u64]) -> bool
    ensures { result ≡ list_all (knows_number member.now) jobs.now }
{
    jobs.iter().all(|job| knows(member, *job))
}

/// Checks whether a process is in the job, or holds it.
fn knows(member: &Member, job: u64) -> bool
    ensures { result ≡ knows_number member.now job }
{
    has(member.jobs.as_slice(), job) || has(member.held.as_slice(), job)
}

/// Checks whether a process holds a job that the first one is in.
fn holds_one(from: &Member, member: &Member) -> bool
    ensures { result ≡ shows_held from.now member.now }
{
    from.jobs
        .iter()
        .any(|job| has(member.held.as_slice(), *job))
}

/// Checks whether the job is one of these.
fn has(jobs: &[u64], job: u64) -> bool
    ensures { result ≡ has_number jobs.now job }
{
    jobs.iter().any(|other| job == *other)
}
