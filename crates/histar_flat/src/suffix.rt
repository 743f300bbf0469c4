//! Whether one path or process lies below another.
ghost use Rattle.std.specs.Prelude.{◌≡◌};
ghost use Rattle.histar_flat.specs.PathOrder.{is_under};

/// Returns whether `names`, the last one first, is `above`, or lies below it.
pub(crate) fn is_under<T: PartialEq>(above: &[T], names: &[T]) -> bool
    ensures { result ≡ is_under T.eq above.now names.now }
{
    above.len() <= names.len() && above == &names[names.len() - above.len()..]
}
