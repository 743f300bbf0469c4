//! What a call looks up of its thread and of the container that it names, in one look-up each.
ghost use Rattle.std.specs.Prelude.{◌≡◌, IfOk, IsSome, Some};
ghost use Rattle.histar_base.specs.Refusals.{unless, ◌orelse◌};
ghost use Rattle.histar_label.specs.Store.{label_at};
ghost use Rattle.histar_object.specs.Objects.{objects_of, thread_of, is_present, is_container};
ghost use Rattle.histar_container.specs.Shown.{AllStand};
ghost use Rattle.histar_rules.specs.Finds.{FindsThread, container_of, state_shown};
ghost use Rattle.histar_rules.specs.Rules.{no_container, no_making, no_link, FailsAt};
ghost use Rattle.histar_rules.specs.declared.raw.Denied.TheVariants.{NoEntry, BadKind};

use crate::access::{Access, Maker};
use crate::raw::Denied;
use histar_label::{Label, LabelStore};
use histar_object::{Kind, Links, ObjId, Table};

/// A thread and a container that it may observe, as the look-up found them.
#[derive(Clone, Copy)]
pub(crate) struct Observed<'t, L> {
    /// The thread's own label.
    pub(crate) own: L,
    /// The thread's clearance.
    pub(crate) own_clearance: L,
    /// The container's label.
    pub(crate) label: L,
    /// The links of the container.
    pub(crate) links: &'t Links,
}

/// Looks up a thread: its label and its clearance.
pub(crate) fn thread_in<L: Copy>(table: &Table<L>, thread: ObjId) -> Option<(L, L)>
    ensures { FindsThread (objects_of table.now thread) result }
{
    let object = table.get(thread)?;
    let Kind::Thread(clearance) = object.kind else {
        return None;
    };
    Some((object.label, clearance))
}

/// Looks up a container: its label and its links.
pub(crate) fn container_in<L: Copy>(
    table: &Table<L>,
    container: ObjId,
) -> Result<(L, &Links), Denied>
    ensures answer { FailsAt (unless (is_present (objects_of table.now container)) NoEntry
        orelse unless (is_container (objects_of table.now container)) BadKind) result }
    ensures found { IfOk result (λ found. objects_of table.now container
        ≡ Some (container_of found.0 found.1.now)) }
{
    let Some(object) = table.get(container) else {
        return Err(Denied::NoEntry);
    };
    let Kind::Container(links) = &object.kind else {
        return Err(Denied::BadKind);
    };
    Ok((object.label, links))
}

/// Makes the first checks of every call that names a container: the thread may observe it.
pub(crate) fn observed_in<'t, S: LabelStore>(
    store: &mut S,
    table: &'t Table<S::Id>,
    thread: ObjId,
    container: ObjId,
) -> Result<Observed<'t, S::Id>, Denied>
    requires { AllStand (S.labels store.old) (objects_of table.now) }
    ensures answer { FailsAt (no_container (state_shown (S.labels store.old) table.now) thread
        container) result }
    ensures thread { IfOk result (λ found. objects_of table.now thread
        ≡ Some (thread_of found.own found.own_clearance)) }
    ensures container { IfOk result (λ found. objects_of table.now container
        ≡ Some (container_of found.label found.links.now)) }
    ensures unchanged { S.labels store.new ≡ S.labels store.old }
{
    let Some((own, own_clearance)) = thread_in(table, thread) else {
        return Err(Denied::NoThread);
    };
    let (label, links) = container_in(table, container)?;
    if store.below_raised(label, own) {
        Ok(Observed {
            own,
            own_clearance,
            label,
            links,
        })
    } else {
        Err(Denied::Observe)
    }
}

/// Makes the checks of every call that makes an object in a container, up to those of the new labels.
pub(crate) fn modified_in<'t, S: LabelStore>(
    store: &mut S,
    table: &'t Table<S::Id>,
    maker: &Maker,
) -> Result<Observed<'t, S::Id>, Denied>
    requires { AllStand (S.labels store.old) (objects_of table.now) }
    ensures answer { FailsAt (no_making (state_shown (S.labels store.old) table.now)
        maker.now.thread maker.now.container) result }
    ensures thread { IfOk result (λ found. objects_of table.now maker.now.thread
        ≡ Some (thread_of found.own found.own_clearance)) }
    ensures unchanged { S.labels store.new ≡ S.labels store.old }
{
    let found = observed_in(store, table, maker.thread, maker.container)?;
    if store.below(found.own, found.label) {
        Ok(found)
    } else {
        Err(Denied::Modify)
    }
}

/// Looks up the labels that two Ids stand for.
pub(crate) fn labels_in<S: LabelStore>(store: &S, first: S::Id, second: S::Id) -> (&Label, &Label)
    requires first { IsSome (S.labels store.now first) }
    requires second { IsSome (S.labels store.now second) }
    ensures first { result.0.now ≡ label_at (S.labels store.now) first }
    ensures second { result.1.now ≡ label_at (S.labels store.now) second }
{
    (store.get(first).unwrap(), store.get(second).unwrap())
}

/// Makes the first checks of every call that names an object in a container: the container links it.
pub(crate) fn linked_in<'t, S: LabelStore>(
    store: &mut S,
    table: &'t Table<S::Id>,
    access: &Access,
) -> Result<Observed<'t, S::Id>, Denied>
    requires { AllStand (S.labels store.old) (objects_of table.now) }
    ensures answer { FailsAt (no_link (state_shown (S.labels store.old) table.now)
        access.now.thread access.now.container access.now.object) result }
    ensures thread { IfOk result (λ found. objects_of table.now access.now.thread
        ≡ Some (thread_of found.own found.own_clearance)) }
    ensures container { IfOk result (λ found. objects_of table.now access.now.container
        ≡ Some (container_of found.label found.links.now)) }
    ensures unchanged { S.labels store.new ≡ S.labels store.old }
{
    let found = observed_in(store, table, access.thread, access.container)?;
    if found.links.contains(access.object) {
        Ok(found)
    } else {
        Err(Denied::NoEntry)
    }
}
