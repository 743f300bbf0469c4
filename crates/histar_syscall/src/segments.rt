//! The raw calls on segments.
ghost use Rattle.histar_rules.specs.Rules.{Decides, DecidesAs};
ghost use Rattle.histar_rules.specs.declared.raw.RawCall.TheVariants as calls;
ghost use Rattle.histar_rules.specs.Memory.{OnOutOfMemory};

use histar_base::Bytes;
use histar_heap::Heap;
use histar_label::{Label, LabelStore};
use histar_object::{Kind, ObjId};
use histar_rules::{Access, LabelledObjects, Maker, Refusal};

/// Makes a segment in a container, and returns its number.
pub fn make_segment<H: Heap, S: LabelStore + Drop>(
    objects: &mut LabelledObjects<S>,
    heap: H,
    maker: &Maker,
    label: Label,
    bytes: &Bytes,
) -> Result<ObjId, Refusal>
    ensures ok { Decides objects.old objects.new maker.now.thread
        (calls.MakeSegment maker.now.container label bytes.now) result }
    ensures memory { OnOutOfMemory result H.Refused }
{
    objects.check_new(maker, &label, bytes.len())?;
    let number = objects.next_object();
    let content = bytes.copy(heap)?;
    objects.add(heap, maker.container, label, Kind::Segment(content))?;
    Ok(number)
}

/// Checks that a segment that the container links may be read. Its bytes are lent afterwards.
pub fn check_read<H: Heap, S: LabelStore + Drop>(
    heap: H,
    objects: &mut LabelledObjects<S>,
    access: &Access,
) -> Result<(), Refusal>
    ensures ok { DecidesAs objects.old objects.new access.now.thread
        (calls.Read access.now.container access.now.object) result (λ _. Unit {0}) }
    ensures memory { OnOutOfMemory result H.Refused }
{
    Ok(objects.check_read(access)?)
}

/// Reads a segment that the container links, and returns a copy of its bytes.
pub fn read<H: Heap, S: LabelStore + Drop>(
    objects: &mut LabelledObjects<S>,
    heap: H,
    access: &Access,
) -> Result<Bytes, Refusal>
    ensures ok { Decides objects.old objects.new access.now.thread
        (calls.Read access.now.container access.now.object) result }
    ensures memory { OnOutOfMemory result H.Refused }
{
    objects.read(heap, access)
}

/// Keeps the first bytes of a segment that the container links, at most `keep`, and appends new ones.
pub fn write<H: Heap, S: LabelStore + Drop>(
    objects: &mut LabelledObjects<S>,
    heap: H,
    access: &Access,
    keep: u32,
    bytes: &Bytes,
) -> Result<(), Refusal>
    ensures ok { Decides objects.old objects.new access.now.thread
        (calls.Write access.now.container access.now.object keep bytes.now) result }
    ensures memory { OnOutOfMemory result H.Refused }
{
    objects.check_write(access, keep, bytes)?;
    objects.splice(heap, access.object, keep, bytes)?;
    Ok(())
}
