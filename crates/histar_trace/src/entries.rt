//! The entries of a trace.

use histar_object::ObjId;
use histar_rules::{Denied, RawCall};

/// One raw call in the trace: its line, its thread, and the reason of its denial, if it was denied.
#[derive(Drop)]
pub struct TraceEntry {
    pub line: u32,
    pub thread: ObjId,
    pub call: RawCall,
    pub denied: Option<Denied>,
}
