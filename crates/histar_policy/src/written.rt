//! Which users wrote at which paths.
ghost use Rattle.std.specs.Prelude.{◌≡◌, [], IfOk, OnOk, option_copied};
ghost use Rattle.histar_policy.specs.declared.notes.Event.TheVariants as events;
ghost use Rattle.histar_policy.specs.Writes.{AddsWrite, AreWrites, is_other_writer, with_writer, written_by_another};

use crate::notes::{Event, Note};
use histar_flat::{Name, Path};
use std::alloc::{AllocError, Global};
use std::collections::BTreeMap;

/// Who wrote at a path.
#[derive(Drop)]
enum Writer {
    /// This user alone.
    One(Name),
    /// Several users.
    Several,
}

/// Who wrote at each path.
#[derive(Drop)]
pub(crate) struct Written {
    writers: BTreeMap<Path, Writer>,
}

impl Written {
    /// Makes one in which nobody wrote anything.
    fn new(alloc: Global) -> Self
        ensures { AreWrites result [] }
    {
        Written {
            writers: BTreeMap::new(alloc),
        }
    }

    /// Adds that a user wrote at a path.
    fn add(&mut self, user: &Name, path: &Path) -> Result<(), AllocError>
        ensures { OnOk result (AddsWrite self.old self.new (events.Wrote user.now path.now)) }
    {
        let writer = with_writer(self.writers.get(path), user);
        self.writers.insert(*path, writer)?;
        Ok(())
    }

    /// Checks whether another user than this one wrote at a path.
    pub(crate) fn by_another(&self, user: &Name, path: &Path) -> bool
        ensures { result ≡ written_by_another self.now user.now path.now }
    {
        is_other_writer(user, self.writers.get(path))
    }
}

/// Returns who wrote at a path, with this user.
fn with_writer(before: Option<&Writer>, user: &Name) -> Writer
    ensures { result ≡ with_writer (option_copied before.entry) user.now }
{
    match before {
        None => Writer::One(*user),
        Some(Writer::One(one)) if *one == *user => Writer::One(*one),
        Some(_) => Writer::Several,
    }
}

/// Checks whether another user than this one is among those that wrote at a path.
fn is_other_writer(user: &Name, writer: Option<&Writer>) -> bool
    ensures { result ≡ is_other_writer user.now (option_copied writer.entry) }
{
    match writer {
        None => false,
        Some(Writer::One(one)) => *one != *user,
        Some(Writer::Several) => true,
    }
}

/// Adds what a call line wrote, if it wrote something.
fn add_write(written: &mut Written, event: &Event) -> Result<(), AllocError>
    ensures { OnOk result (AddsWrite written.old written.new event.now) }
{
    match event {
        Event::Wrote(user, path) => written.add(user, &path.path()),
        _ => Ok(()),
    }
}

/// Returns who wrote at each path in a script.
pub(crate) fn written_in(alloc: Global, script: &[Note]) -> Result<Written, AllocError>
    ensures { IfOk result (λ written. AreWrites written script.now) }
{
    let mut written = Written::new(alloc);
    'notes: for note in script {
        add_write(&mut written, &note.event)?;
    }
    Ok(written)
}
