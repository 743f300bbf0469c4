//! The kinds of objects, by name.
ghost use Rattle.std.specs.Prelude.{◌≡◌};
ghost use Rattle.histar_rules.specs.Kinds.{kind_of};

use histar_object::Kind;

/// The kind of an object, without its content.
#[derive(Clone, Copy, Debug, PartialEq, Eq)]
pub enum ObjectKind {
    /// Bytes.
    Segment,
    /// Links to other objects.
    Container,
    /// A thread.
    Thread,
    /// A gate.
    Gate,
}

impl ObjectKind {
    /// Returns the name of a kind.
    pub(crate) fn of<L>(kind: &Kind<L>) -> ObjectKind
        ensures { result ≡ kind_of kind.now }
    {
        match kind {
            Kind::Segment(_) => ObjectKind::Segment,
            Kind::Container(_) => ObjectKind::Container,
            Kind::Thread(_) => ObjectKind::Thread,
            Kind::Gate(_, _) => ObjectKind::Gate,
        }
    }
}
