//! Where the objects that boot made are found.
use histar_object::ObjId;

/// Where a directory is found.
#[derive(Clone, Copy, Debug)]
pub struct Place {
    /// Its container, which links its directory segment and what its entries lead to.
    pub container: ObjId,
    /// Its directory segment, which spells its entries.
    pub listing: ObjId,
}

/// Where a process is found.
#[derive(Clone, Copy, Debug)]
pub struct Home {
    /// Its container, which links its process segment, its internal container and the containers of its
    /// children.
    pub container: ObjId,
    /// Its process segment, which holds its status and lists its children.
    pub segment: ObjId,
}

/// Where the calls of the Unix library find `/` and process 0.
#[derive(Clone, Copy, Debug)]
pub struct Roots {
    /// The place of `/`.
    pub slash: Place,
    /// Where process 0 is found.
    pub home: Home,
}
