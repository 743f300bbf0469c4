//! Why a process doesn't run.
ghost use Rattle.std.specs.Prelude.{◌≡◌, ◌≤◌, length};
ghost use Rattle.histar_flat.specs.Words.{most_numbers};
ghost use Rattle.histar_syscall.specs.KernelModel.{state};
ghost use Rattle.histar_why.specs.Absences.{absence_by, absence_of, first_absent_by, is_given_by};
ghost use Rattle.histar_why.specs.Absences.{was_given_by};

use crate::views::name_of;
use histar_flat::ProcName;
use histar_label::LabelStore;
use histar_layout::read_status;
use histar_programs::{Roots, home_at};
use histar_syscall::Kernel;

/// Why a process is gone.
#[derive(Clone, Copy)]
pub(crate) enum Absence {
    /// It has exited.
    HasExited,
    /// Its number was never given, or one in its name.
    WasNeverStarted,
    /// This process was killed, which it is or is below.
    WasKilled(ProcName),
}

/// Returns why the process of this name doesn't run, where it doesn't.
pub(crate) fn absence_of<S: LabelStore + Drop>(
    kernel: &Kernel<S>,
    roots: &Roots,
    name: &ProcName,
) -> Absence
    ensures { absence_of result ≡ absence_by (state kernel.now) roots.now.home name.now }
{
    let numbers = name.numbers();
    if home_at(kernel, roots.home, numbers).is_some() {
        Absence::HasExited
    } else if is_given(kernel, roots, numbers) {
        Absence::WasKilled(first_absent(kernel, roots, numbers))
    } else {
        Absence::WasNeverStarted
    }
}

/// Checks whether each number was given to a child that was born to the process before it.
fn is_given<S: LabelStore + Drop>(kernel: &Kernel<S>, roots: &Roots, numbers: &[u8]) -> bool
    ensures { result ≡ is_given_by (state kernel.now) roots.now.home numbers.now }
{
    let [number, above @ ..] = numbers else {
        return true;
    };
    was_given(kernel, roots, above, *number) && is_given(kernel, roots, above)
}

/// Checks whether a process has given this number to a child. A process that is not there has given
/// every number.
fn was_given<S: LabelStore + Drop>(
    kernel: &Kernel<S>,
    roots: &Roots,
    above: &[u8],
    number: u8,
) -> bool
    ensures { result ≡ was_given_by (state kernel.now) roots.now.home above.now number }
{
    let Some(home) = home_at(kernel, roots.home, above) else {
        return true;
    };
    match read_status(kernel.bytes(home.segment)) {
        Some(head) => 1 <= number && number <= head.born,
        None => true,
    }
}

/// Returns the process of these numbers, or the one above it that is under a process that is there.
fn first_absent<S: LabelStore + Drop>(kernel: &Kernel<S>, roots: &Roots, numbers: &[u8]) -> ProcName
    requires { length numbers.now ≤ most_numbers }
    ensures { result ≡ first_absent_by (state kernel.now) roots.now.home numbers.now }
{
    let [_, above @ ..] = numbers else {
        return ProcName::zero();
    };
    if home_at(kernel, roots.home, above).is_some() {
        name_of(numbers)
    } else {
        first_absent(kernel, roots, above)
    }
}
