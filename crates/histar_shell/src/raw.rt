//! Raw calls of threads, made as they stand.
ghost use Rattle.std.specs.Prelude.{OnErr};
ghost use Rattle.histar_shell.specs.RawCalls.{MakesRawCall};

use histar_heap::Heap;
use histar_label::LabelStore;
use histar_object::ObjId;
use histar_programs::Stopped;
use histar_rules::{Denied, RawCall, Refusal};
use histar_syscall::{Answer, Kernel};

/// Makes a raw call of a thread on a line. `Stopped` where memory runs out.
pub(crate) fn make_raw<H: Heap, S: LabelStore + Drop>(
    heap: H,
    kernel: &mut Kernel<S>,
    line: u32,
    thread: ObjId,
    call: RawCall,
) -> Result<Result<Answer, Denied>, Stopped>
    ensures makes { MakesRawCall kernel.old kernel.new line thread call result }
    ensures memory { OnErr result H.Refused }
{
    kernel.begin(line);
    match kernel.call(heap, thread, call) {
        Ok(answer) => Ok(Ok(answer)),
        Err(Refusal::Denied(denied)) => Ok(Err(denied)),
        Err(Refusal::OutOfMemory) => Err(Stopped),
    }
}
