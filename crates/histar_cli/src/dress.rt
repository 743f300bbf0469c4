//! The form in which a task writes, by the flags of the command line.

use crate::output::Dress;
use histar_command_line::{Request, Task};
use histar_output::Form;

/// Returns the form in which a task writes, given whether refusals are in colour where nothing is said, or `None` where the
/// word after `--color` is none of three.
pub fn dress_of(request: &Request<'_>, automatic: bool) -> Option<Dress> {
    let colours = match request.shape.color {
        None | Some("auto") => automatic,
        Some("always") => true,
        Some("never") => false,
        Some(_) => return None,
    };
    Some(match (request.shape.json, form_of(&request.task)) {
        (true, Some(form)) => Dress::Json(form),
        _ if colours && has_refusals(&request.task) => Dress::Coloured,
        _ => Dress::Plain,
    })
}

/// Checks whether a task writes refusals that are set in colour.
fn has_refusals(task: &Task<'_>) -> bool {
    matches!(task, Task::Run(_, _, _) | Task::Try(_, _, _))
}

/// Returns the form of the lines that a task writes, if they can be written as JSON.
fn form_of(task: &Task<'_>) -> Option<Form> {
    match task {
        Task::Run(_, _, _) => Some(Form::Run),
        Task::Access(_, _, _) => Some(Form::Access),
        Task::Trust(_, _, _, _) => Some(Form::Trust),
        Task::Flows(_, _) => Some(Form::Flows),
        Task::Check(_, _, _, _) => Some(Form::Check),
        Task::CheckAll(_, _, _) => Some(Form::CheckAll),
        Task::Diff(_, _, _, flags) if flags.users => Some(Form::DiffUsers),
        Task::Diff(_, _, _, _) => Some(Form::Diff),
        Task::Test(_, _) => Some(Form::Test),
        Task::Lint(_, _, _) => Some(Form::Lint),
        _ => None,
    }
}
