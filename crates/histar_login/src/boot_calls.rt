//! Boots a machine by raw calls of its boot thread.
ghost use Rattle.std.specs.Prelude.{◌≡◌, ℕ, [], ◌+◌, ◌*◌, ◌<◌, ◌≤◌, ◌++◌, length, IfOk, OnOk, OnErr};
ghost use Rattle.histar_object.specs.State.{empty_state};
ghost use Rattle.histar_rules.specs.Sound.{root_number};
ghost use Rattle.histar_rules.specs.declared.raw.RawCall.TheVariants as calls;
ghost use Rattle.histar_syscall.specs.KernelModel.{state};
ghost use Rattle.histar_layout.specs.Categories.{write_category};
ghost use Rattle.histar_layout.specs.Labelling.{written_by};
ghost use Rattle.histar_login.specs.Boot.{HasBegunBoot, IsBooted, gate_call, inner_call, last_call};
ghost use Rattle.histar_programs.specs.Start.{boot_thread_number};
ghost use Rattle.histar_login.specs.Boot.{listing_call, outer_call, password_call, slash_call, status_call, table_call};
ghost use Rattle.histar_login.specs.Boot.{thread_call};
ghost use Rattle.histar_login.specs.Booting.{Allows, BeginsDirectory, BeginsOn, BeginsProcess, BeginsUser, BeginsUsers, BootsOn};
ghost use Rattle.histar_login.specs.Booting.{Grants, HasRoom, IsAnywhere, IsBeforeDirectory, IsBeforeUser, IsFirstDirectory};
ghost use Rattle.histar_login.specs.Booting.{IsFirstHome, IsUnderWay, IsUndenied, MakesDirectory};
ghost use Rattle.histar_login.specs.Booting.{MakesProcess, MakesUser, MakesUsers, Passes, categories_part, two_categories};
ghost use Rattle.histar_programs.specs.Start.{first_process_bytes, start_state, roots_of};

use crate::gates::gate_labels;
use crate::table::user_table;
use histar_base::Bytes;
use histar_flat::{Accounts, User};
use histar_heap::Heap;
use histar_label::{Category, Label, LabelStore, Level};
use histar_layout::{label_of, owners_among, read_category, write_category};
use histar_object::{Entry, ObjId};
use histar_programs::{Home, Place, Roots, Stopped};
use histar_rules::ROOT;
use histar_syscall::{Kernel, Refusal};
use std::alloc::AllocError;

/// The category that the boot thread alone owns.
const BOOT: u64 = 1;

/// Returns the root container, which the empty kernel has.
fn root_container() -> ObjId
    ensures { result ≡ root_number }
{
    ObjId::new(ROOT)
}

/// Returns the boot thread, which the empty kernel has.
fn boot_thread() -> ObjId
    ensures { result ≡ boot_thread_number }
{
    ObjId::new(2)
}

/// Returns the answer of a raw call of boot. None is denied, so boot stops only where memory runs out.
fn granted<A: Drop>(answer: Result<A, Refusal>) -> Result<A, Stopped>
    requires { IsUndenied answer }
    ensures { Passes answer result }
{
    match answer {
        Ok(a) => Ok(a),
        Err(Refusal::OutOfMemory) => Err(Stopped),
        Err(Refusal::Denied(_)) => unreachable!(),
    }
}

/// Makes a category, which the boot thread then owns.
fn make_category<H: Heap, S: LabelStore + Drop>(
    heap: H,
    kernel: &mut Kernel<S>,
) -> Result<Category, Stopped>
    requires { Allows kernel.old calls.MakeCategory }
    ensures grants { Grants kernel.old kernel.new calls.MakeCategory result }
    ensures memory { OnErr result H.Refused }
{
    granted(kernel.make_category(heap, boot_thread()))
}

/// Makes the two categories of a user, of a group, or of nobody.
fn make_two_categories<H: Heap, S: LabelStore + Drop>(
    heap: H,
    kernel: &mut Kernel<S>,
) -> Result<(), Stopped>
    requires { IsUnderWay (HasRoom 2 0) kernel.old }
    ensures ok { OnOk result (BootsOn kernel.old kernel.new IsAnywhere two_categories) }
    ensures err { OnErr result (BeginsOn kernel.old kernel.new IsAnywhere two_categories) }
    ensures memory { OnErr result H.Refused }
{
    make_category(heap, kernel)?;
    make_category(heap, kernel)?;
    Ok(())
}

/// Makes this many pairs of categories.
fn make_categories<H: Heap, S: LabelStore + Drop>(
    heap: H,
    kernel: &mut Kernel<S>,
    count: usize,
) -> Result<(), Stopped>
    requires { IsUnderWay (HasRoom (2 * count) 0) kernel.old }
    ensures ok { OnOk result (BootsOn kernel.old kernel.new IsAnywhere (categories_part count)) }
    ensures err { OnErr result (BeginsOn kernel.old kernel.new IsAnywhere (categories_part count)) }
    ensures memory { OnErr result H.Refused }
{
    for _ in 0..count {
        make_two_categories(heap, kernel)?;
    }
    Ok(())
}

/// Makes a segment with a user's password.
fn make_password<H: Heap, S: LabelStore + Drop>(
    heap: H,
    kernel: &mut Kernel<S>,
    number: u8,
    password: &[u8],
) -> Result<ObjId, Stopped>
    requires { Allows kernel.old (password_call number password.now) }
    ensures grants { Grants kernel.old kernel.new (password_call number password.now) result }
    ensures memory { OnErr result H.Refused }
{
    let (read, write) = (read_category(number), write_category(number));
    let secret = label_of(heap, Level::L1, &[(read, Level::L3), (write, Level::L0)])?;
    let password = Bytes::copy_of(heap, password)?;
    granted(kernel.make_segment(heap, boot_thread(), root_container(), secret, password))
}

/// Makes the gate that gives the categories of a user and of its groups.
fn make_login_gate<H: Heap, S: LabelStore + Drop>(
    heap: H,
    kernel: &mut Kernel<S>,
    number: u8,
    owners: &[u8],
) -> Result<ObjId, Stopped>
    requires { Allows kernel.old (gate_call number owners.now) }
    ensures grants { Grants kernel.old kernel.new (gate_call number owners.now) result }
    ensures memory { OnErr result H.Refused }
{
    let (given, clearance) = gate_labels(heap, owners)?;
    let entry = Entry::Login(number);
    granted(kernel.make_gate(
        heap,
        boot_thread(),
        root_container(),
        given,
        clearance,
        entry,
    ))
}

/// Makes the password and the gate of a user.
fn make_user<H: Heap, S: LabelStore + Drop>(
    heap: H,
    kernel: &mut Kernel<S>,
    accounts: &Accounts,
    number: u8,
    user: &User,
) -> Result<(), Stopped>
    requires number { number ≤ length accounts.now.users }
    requires begins { IsUnderWay (IsBeforeUser accounts.now number) kernel.old }
    ensures ok { OnOk result (MakesUser kernel.old kernel.new accounts.now number user.now) }
    ensures err { OnErr result (BeginsUser kernel.old kernel.new accounts.now number user.now) }
    ensures memory { OnErr result H.Refused }
{
    let users = accounts.users();
    let groups = accounts.groups();
    let owners = owners_among(heap, users.len(), groups, number, user.name)?;
    make_password(heap, kernel, number, user.password.as_bytes())?;
    make_login_gate(heap, kernel, number, owners.as_slice())?;
    Ok(())
}

/// Makes the passwords and the gates of all users.
fn make_users<H: Heap, S: LabelStore + Drop>(
    heap: H,
    kernel: &mut Kernel<S>,
    accounts: &Accounts,
) -> Result<(), Stopped>
    requires { IsUnderWay (IsBeforeUser accounts.now 1) kernel.old }
    ensures ok { OnOk result (MakesUsers kernel.old kernel.new accounts.now) }
    ensures err { OnErr result (BeginsUsers kernel.old kernel.new accounts.now) }
    ensures memory { OnErr result H.Refused }
{
    let users = accounts.users();
    for (i, user) in users.iter().enumerate() {
        make_user(heap, kernel, accounts, i as u8 + 1, user)?;
    }
    Ok(())
}

/// Makes the user table, which no thread may write once the boot thread is gone.
fn make_user_table<H: Heap, S: LabelStore + Drop>(
    heap: H,
    kernel: &mut Kernel<S>,
    accounts: &Accounts,
) -> Result<ObjId, Stopped>
    requires { IsUnderWay (IsBeforeDirectory accounts.now) kernel.old }
    ensures grants { Grants kernel.old kernel.new (table_call accounts.now) result }
    ensures memory { OnErr result H.Refused }
{
    let guarded = label_of(heap, Level::L1, &[(Category::new(BOOT), Level::L0)])?;
    let table = user_table(heap, accounts)?;
    granted(kernel.make_segment(heap, boot_thread(), root_container(), guarded, table))
}

/// Returns the label of what the first user alone may write, and everyone may read.
fn first_users_label<H: Heap>(heap: H) -> Result<Label, AllocError>
    ensures ok { IfOk result (λ label. label ≡ written_by (write_category 1)) }
    ensures memory { OnErr result H.Refused }
{
    label_of(heap, Level::L1, &[(write_category(1), Level::L0)])
}

/// Makes the container of `/`.
fn make_slash<H: Heap, S: LabelStore + Drop>(
    heap: H,
    kernel: &mut Kernel<S>,
) -> Result<ObjId, Stopped>
    requires { Allows kernel.old slash_call }
    ensures grants { Grants kernel.old kernel.new slash_call result }
    ensures memory { OnErr result H.Refused }
{
    let label = first_users_label(heap)?;
    granted(kernel.make_container(heap, boot_thread(), root_container(), label))
}

/// Makes the directory segment of `/`, which has no entry yet.
fn make_listing<H: Heap, S: LabelStore + Drop>(
    heap: H,
    kernel: &mut Kernel<S>,
    slash: ObjId,
) -> Result<ObjId, Stopped>
    requires { Allows kernel.old (listing_call slash) }
    ensures grants { Grants kernel.old kernel.new (listing_call slash) result }
    ensures memory { OnErr result H.Refused }
{
    let label = first_users_label(heap)?;
    let empty = Bytes::new(heap.alloc());
    granted(kernel.make_segment(heap, boot_thread(), slash, label, empty))
}

/// Makes the user table, and `/` with its directory segment, which are the first user's to write.
fn make_directory<H: Heap, S: LabelStore + Drop>(
    heap: H,
    kernel: &mut Kernel<S>,
    accounts: &Accounts,
) -> Result<Place, Stopped>
    requires some { 0 < length accounts.now.users }
    requires begins { IsUnderWay (IsBeforeDirectory accounts.now) kernel.old }
    ensures boots { OnOk result (MakesDirectory kernel.old kernel.new accounts.now) }
    ensures slash { IfOk result (IsFirstDirectory kernel.old accounts.now) }
    ensures err { OnErr result (BeginsDirectory kernel.old kernel.new accounts.now) }
    ensures memory { OnErr result H.Refused }
{
    make_user_table(heap, kernel, accounts)?;
    let container = make_slash(heap, kernel)?;
    let listing = make_listing(heap, kernel, container)?;
    Ok(Place { container, listing })
}

/// Returns the bytes of the process segment of process 0: it runs, and no child was born.
fn process_bytes<H: Heap>(heap: H, internal: ObjId, thread: ObjId) -> Result<Bytes, AllocError>
    ensures ok { IfOk result (λ b. b ≡ first_process_bytes internal thread) }
    ensures memory { OnErr result H.Refused }
{
    let mut bytes = heap.copy_of(b"r\0\0")?;
    heap.extend(&mut bytes, &internal.number().to_be_bytes())?;
    heap.extend(&mut bytes, &thread.number().to_be_bytes())?;
    Ok(Bytes::from_vec(bytes))
}

/// Makes the container of process 0.
fn make_outer<H: Heap, S: LabelStore + Drop>(
    heap: H,
    kernel: &mut Kernel<S>,
    write: Category,
) -> Result<ObjId, Stopped>
    requires { Allows kernel.old (outer_call write) }
    ensures grants { Grants kernel.old kernel.new (outer_call write) result }
    ensures memory { OnErr result H.Refused }
{
    let label = label_of(heap, Level::L1, &[(write, Level::L0)])?;
    granted(kernel.make_container(heap, boot_thread(), root_container(), label))
}

/// Makes the internal container of process 0.
fn make_internal<H: Heap, S: LabelStore + Drop>(
    heap: H,
    kernel: &mut Kernel<S>,
    outer: ObjId,
    read: Category,
    write: Category,
) -> Result<ObjId, Stopped>
    requires { Allows kernel.old (inner_call outer read write) }
    ensures grants { Grants kernel.old kernel.new (inner_call outer read write) result }
    ensures memory { OnErr result H.Refused }
{
    let secret = label_of(heap, Level::L1, &[(read, Level::L3), (write, Level::L0)])?;
    granted(kernel.make_container(heap, boot_thread(), outer, secret))
}

/// Makes the thread of process 0.
fn make_first_thread<H: Heap, S: LabelStore + Drop>(
    heap: H,
    kernel: &mut Kernel<S>,
    internal: ObjId,
    read: Category,
    write: Category,
) -> Result<ObjId, Stopped>
    requires { Allows kernel.old (thread_call internal read write) }
    ensures grants { Grants kernel.old kernel.new (thread_call internal read write) result }
    ensures memory { OnErr result H.Refused }
{
    let own = label_of(
        heap,
        Level::L1,
        &[(read, Level::Star), (write, Level::Star)],
    )?;
    let clearance = label_of(heap, Level::L2, &[(read, Level::L3), (write, Level::L3)])?;
    granted(kernel.make_thread(heap, boot_thread(), internal, own, clearance))
}

/// Makes the process segment of process 0.
fn make_status<H: Heap, S: LabelStore + Drop>(
    heap: H,
    kernel: &mut Kernel<S>,
    outer: ObjId,
    write: Category,
    internal: ObjId,
    thread: ObjId,
) -> Result<ObjId, Stopped>
    requires { Allows kernel.old (status_call outer write internal thread) }
    ensures grants { Grants kernel.old kernel.new (status_call outer write internal thread) result }
    ensures memory { OnErr result H.Refused }
{
    let guarded = label_of(heap, Level::L1, &[(write, Level::L0)])?;
    let bytes = process_bytes(heap, internal, thread)?;
    granted(kernel.make_segment(heap, boot_thread(), outer, guarded, bytes))
}

/// Makes process 0: its two categories, its container, its internal container, its thread, and its
/// process segment. Returns where the process is found.
fn make_process<H: Heap, S: LabelStore + Drop>(
    heap: H,
    kernel: &mut Kernel<S>,
) -> Result<Home, Stopped>
    requires { IsUnderWay (HasRoom 2 4) kernel.old }
    ensures boots { OnOk result (MakesProcess kernel.old kernel.new) }
    ensures home { IfOk result (IsFirstHome kernel.old) }
    ensures err { OnErr result (BeginsProcess kernel.old kernel.new) }
    ensures memory { OnErr result H.Refused }
{
    let read = make_category(heap, kernel)?;
    let write = make_category(heap, kernel)?;
    let outer = make_outer(heap, kernel, write)?;
    let internal = make_internal(heap, kernel, outer, read, write)?;
    let thread = make_first_thread(heap, kernel, internal, read, write)?;
    let segment = make_status(heap, kernel, outer, write, internal, thread)?;
    Ok(Home {
        container: outer,
        segment,
    })
}

/// Unlinks the boot thread.
fn unlink_boot_thread<H: Heap, S: LabelStore + Drop>(
    heap: H,
    kernel: &mut Kernel<S>,
) -> Result<(), Stopped>
    requires { Allows kernel.old last_call }
    ensures grants { Grants kernel.old kernel.new last_call result }
    ensures memory { OnErr result H.Refused }
{
    granted(kernel.unlink(heap, boot_thread(), root_container(), boot_thread()))
}

/// Makes the raw calls of boot on the empty kernel: the boot thread makes two categories for nobody,
/// for each user and for each group, the users' passwords and gates, the user table, `/`, and process
/// 0, and unlinks itself. Returns where `/` and process 0 are found. Where it stops, each call that
/// it made was granted.
fn boot_on<H: Heap, S: LabelStore + Drop>(
    heap: H,
    kernel: &mut Kernel<S>,
    accounts: &Accounts,
) -> Result<Roots, Stopped>
    requires some { 0 < length accounts.now.users }
    requires state { state kernel.old ≡ empty_state }
    requires trace { kernel.old.trace ≡ [] }
    requires line { kernel.old.line ≡ 0 }
    ensures booted { OnOk result (IsBooted accounts.now kernel.new) }
    ensures state { OnOk result (state kernel.new ≡ start_state accounts.now) }
    ensures roots { IfOk result (λ roots. roots ≡ roots_of (length accounts.now.users)) }
    ensures err { OnErr result (HasBegunBoot accounts.now kernel.old kernel.new) }
    ensures memory { OnErr result H.Refused }
{
    make_categories(
        heap,
        kernel,
        1 + accounts.users().len() + accounts.groups().len(),
    )?;
    make_users(heap, kernel, accounts)?;
    let slash = make_directory(heap, kernel, accounts)?;
    let home = make_process(heap, kernel)?;
    unlink_boot_thread(heap, kernel)?;
    Ok(Roots { slash, home })
}

/// Boots a machine, and returns its kernel, and where `/` and process 0 are found. It stops only where memory
/// runs out. The first user writes `/`, so there is one.
pub fn boot<H: Heap, S: LabelStore + Drop>(
    heap: H,
    store: S,
    accounts: &Accounts,
) -> Result<(Kernel<S>, Roots), Stopped>
    requires { 0 < length accounts.now.users }
    ensures booted { IfOk result (λ r. IsBooted accounts.now r.0) }
    ensures state { IfOk result (λ r. state r.0 ≡ start_state accounts.now) }
    ensures roots { IfOk result (λ r. r.1 ≡ roots_of (length accounts.now.users)) }
    ensures memory { OnErr result H.Refused }
{
    let mut kernel = Kernel::new(heap, store)?;
    let roots = boot_on(heap, &mut kernel, accounts)?;
    Ok((kernel, roots))
}
