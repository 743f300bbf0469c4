//! The output of a run with explanations, held in memory.
ghost use Rattle.std.specs.Prelude.{◌≡◌};
ghost use Rattle.histar_run_explain.specs.Output.{GivesText, IsExplainedOutput, in_memory};

use crate::session::explain_script;
use histar_io::Counted;
use histar_script::Fault;
use histar_shell::Options;
use std::alloc::Global;

/// Returns the output of a run of the script that a text is, with the explanations of its denials.
pub fn explained_output(alloc: Global, text: &[u8], options: Options) -> Result<Vec<u8>, Fault>
    ensures { GivesText (IsExplainedOutput options) text.now result }
{
    let mut reader = Counted::new(text);
    let mut writer = Counted::new(Vec::new(alloc));
    match explain_script(alloc, &mut reader, &mut writer, options) {
        Ok(()) => Ok(writer.into_inner()),
        Err(fault) => Err(in_memory(fault)),
    }
}

/// Returns the fault of a run whose devices are memory, which fail only where memory runs out.
pub fn in_memory(fault: Fault) -> Fault
    ensures { result ≡ in_memory fault }
{
    match fault {
        Fault::ReadFailed | Fault::WriteFailed => Fault::OutOfMemory,
        _ => fault,
    }
}
