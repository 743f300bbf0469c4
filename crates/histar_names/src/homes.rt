//! Names of processes by their numbers.
ghost use Rattle.std.specs.Prelude.{◌≡◌, ◌≤◌, length};
ghost use Rattle.histar_flat.specs.Words.{most_numbers};

use histar_flat::ProcName;

/// Returns the name of these numbers, the last number first.
pub(crate) fn name_of(numbers: &[u8]) -> ProcName
    requires { length numbers.now ≤ most_numbers }
    ensures { result ≡ numbers.now }
{
    match numbers {
        [] => ProcName::zero(),
        [number, above @ ..] => name_of(above).child(*number),
    }
}
