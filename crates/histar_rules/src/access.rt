//! Who makes a raw call, and on what.
ghost use Rattle.std.specs.Prelude.{◌≡◌};

use histar_object::ObjId;

/// A thread that makes an object, and the container that is to link it.
#[derive(Clone, Copy)]
pub struct Maker {
    /// The thread.
    pub thread: ObjId,
    /// The container.
    pub container: ObjId,
}

impl Maker {
    /// Names a thread and a container.
    pub fn new(thread: ObjId, container: ObjId) -> Maker
        ensures { result ≡ record { thread = thread; container = container } }
    {
        Maker { thread, container }
    }
}

/// A thread's access to an object: the thread names the object by a container that links it.
#[derive(Clone, Copy)]
pub struct Access {
    /// The thread.
    pub thread: ObjId,
    /// The container.
    pub container: ObjId,
    /// The object.
    pub object: ObjId,
}

impl Access {
    /// Names a thread, a container and an object.
    pub fn new(thread: ObjId, container: ObjId, object: ObjId) -> Access
        ensures { result ≡ record { thread = thread; container = container; object = object } }
    {
        Access {
            thread,
            container,
            object,
        }
    }
}
