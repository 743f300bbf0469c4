//! What changed between two scripts, from bytes to bytes.
ghost use Rattle.std.specs.Prelude.{◌≡◌, false, IfErr, IfSome};
ghost use Rattle.histar_io.specs.Device.{CountsFailure};
ghost use Rattle.histar_script.specs.Runs.{LeavesSink, is_read_failed, is_write_failed};
ghost use Rattle.histar_access.specs.Diff.{ComparesInputs, ComparesTexts, CountsOneFailure};
ghost use Rattle.histar_access.specs.Diff.{ReadsChanges, ReadsProcessChanges, ReadsTable};
ghost use Rattle.histar_access.specs.Diff.{ReadsUserChanges, ReadsUsersTable};
ghost use Rattle.histar_access.specs.Diff.{lone_shown, lone_users_shown, shown as shown_changes};
ghost use Rattle.histar_access.specs.Diff.{user_changes_shown};

use crate::rights_table::table_of;
use crate::users_rights::users_table_of;
use histar_diff::{
    Differences, Table, UserDifferences, UsersTable, differences_between, keep_gains,
    keep_user_gains, text_of, user_differences_between, users_text_of,
};
use histar_io::{Sink, Source, read_input, write_bytes};
use histar_prefix::{discard, machine_before};
use histar_script::Fault;
use std::alloc::Global;

/// What `diff` compares and writes.
#[derive(Clone, Copy)]
pub struct DiffOptions {
    /// The line before which the calls of the old script are run, or `None` for all.
    pub old_at: Option<u32>,
    /// The same of the new script.
    pub new_at: Option<u32>,
    /// Whether it writes only the lines of new processes or users, and those where the new script
    /// gives a letter that the old one doesn't.
    pub more: bool,
    /// Whether it compares the rights of users, and not those of processes.
    pub users: bool,
}

/// Reads two scripts, runs each on a machine of its own, and writes what changed from the old one to the new
/// one: a line for each process that runs after one of them only, and a line for each path and process that
/// runs after both whose letters differ, or only those that the options ask for. It returns whether no line was
/// to be written.
///
/// With `users` it compares the columns of `access_users`: a line for each user that one script
/// alone declares, and a line for each path and user of both whose letters differ.
///
/// Both scripts are read whole before the first call of either, and all lines are computed before the first one
/// is written. It doesn't flush the sink.
pub fn diff<R: Source, Q: Source, W: Sink>(
    alloc: Global,
    old_script: &mut R,
    new_script: &mut Q,
    writer: &mut W,
    options: DiffOptions,
) -> Result<bool, Fault>
    // After a bad script, one that is too long or a failed read, the sink is as it was.
    ensures nothing { IfErr result (LeavesSink writer.old writer.new) }

    // A device has failed exactly if its fault is returned; of the sources only one has.
    ensures reads { CountsOneFailure (R.failures old_script.old) (R.failures old_script.new)
        (Q.failures new_script.old) (Q.failures new_script.new) (is_read_failed result) }
    ensures writes { CountsFailure (W.failures writer.old) (W.failures writer.new) (is_write_failed result) }

    // Some bytes of each source were read, to its end but never more than 1,048,577: the first fault of their
    // scripts is returned, or exactly the lines of what changed between their flat states that the options ask for
    // are written.
    ensures runs { ComparesInputs options
        (R.left old_script.old, Q.left new_script.old) (R.left old_script.new, Q.left new_script.new)
        (W.written writer.old) (W.written writer.new) result }

    // If both inputs are known, this is what changed from the script of the old one to that of the new one.
    ensures known { IfSome (R.left old_script.old) (λ a. IfSome (Q.left new_script.old) (λ b.
        ComparesTexts options a b (W.written writer.old) (W.written writer.new) result)) }
{
    let old = read_input(alloc, old_script)?;
    let new = read_input(alloc, new_script)?;
    compare_texts(alloc, old.as_slice(), new.as_slice(), writer, options)
}

/// Writes what changed between the scripts in two texts.
fn compare_texts<W: Sink>(
    alloc: Global,
    old: &[u8],
    new: &[u8],
    writer: &mut W,
    options: DiffOptions,
) -> Result<bool, Fault>
    ensures nothing { IfErr result (LeavesSink writer.old writer.new) }
    ensures reads { is_read_failed result ≡ false }
    ensures writes { CountsFailure (W.failures writer.old) (W.failures writer.new) (is_write_failed result) }
    ensures runs { ComparesTexts options old.now new.now
        (W.written writer.old) (W.written writer.new) result }
{
    let text = changes_text(alloc, old, new, options)?;
    let lines = text.as_slice();
    write_bytes(writer, lines)?;
    Ok(lines.is_empty())
}

/// Returns the lines of what changed between the scripts in two texts.
fn changes_text(
    alloc: Global,
    old: &[u8],
    new: &[u8],
    options: DiffOptions,
) -> Result<Vec<u8>, Fault>
    ensures { ReadsChanges options old.now new.now result }
{
    if options.users {
        user_changes_text(alloc, old, new, options)
    } else {
        process_changes_text(alloc, old, new, options)
    }
}

/// Returns the lines of what changed for processes between the scripts in two texts.
fn process_changes_text(
    alloc: Global,
    old: &[u8],
    new: &[u8],
    options: DiffOptions,
) -> Result<Vec<u8>, Fault>
    ensures { ReadsProcessChanges options old.now new.now result }
{
    let before = table_before(alloc, old, options.old_at)?;
    let after = table_before(alloc, new, options.new_at)?;
    let differences = differences_between(alloc, &before, &after)?;
    let differences = shown(differences, options.more);
    Ok(text_of(alloc, &differences)?)
}

/// Returns these differences, or only those that give more.
fn shown(mut differences: Differences, more: bool) -> Differences
    ensures lone { result.lone.items ≡ lone_shown more differences.lone.items }
    ensures pairs { result.pairs.items ≡ shown_changes more differences.pairs.items }
{
    if more {
        keep_gains(&mut differences);
    }
    differences
}

/// Returns the table of the script in a text, before a line if one is given.
fn table_before(alloc: Global, text: &[u8], at: Option<u32>) -> Result<Table, Fault>
    ensures { ReadsTable at text.now result }
{
    let machine = machine_before(alloc, text, at)?;
    let table = table_of(alloc, &machine);
    discard(machine);
    Ok(table?)
}

/// Returns the lines of what changed for users between the scripts in two texts.
fn user_changes_text(
    alloc: Global,
    old: &[u8],
    new: &[u8],
    options: DiffOptions,
) -> Result<Vec<u8>, Fault>
    ensures { ReadsUserChanges options old.now new.now result }
{
    let before = users_before(alloc, old, options.old_at)?;
    let after = users_before(alloc, new, options.new_at)?;
    let differences = user_differences_between(alloc, &before, &after)?;
    let differences = shown_users(differences, options.more);
    Ok(users_text_of(alloc, &differences)?)
}

/// Returns these differences, or only those that give more.
fn shown_users(mut differences: UserDifferences, more: bool) -> UserDifferences
    ensures lone { result.lone.items ≡ lone_users_shown more differences.lone.items }
    ensures pairs { result.pairs.items ≡ user_changes_shown more differences.pairs.items }
{
    if more {
        keep_user_gains(&mut differences);
    }
    differences
}

/// Returns the table by users of the script in a text, before a line if one is given.
fn users_before(alloc: Global, text: &[u8], at: Option<u32>) -> Result<UsersTable, Fault>
    ensures { ReadsUsersTable at text.now result }
{
    let machine = machine_before(alloc, text, at)?;
    let table = users_table_of(alloc, &machine);
    discard(machine);
    Ok(table?)
}
