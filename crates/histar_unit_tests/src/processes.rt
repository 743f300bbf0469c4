//! What is found in a kernel's own objects: `/` after boot, and the processes before and after births,
//! a login and an exit.
ghost use Rattle.std.specs.Prelude.{IfOk};
ghost use Rattle.histar_layout.specs.UserTable.{HaveOwnNames};

use histar_flat::{
    Accounts, Name, Password, Path, ProcName, User, read_name, read_password, read_user_name,
};
use histar_label::PlainStore;
use histar_layout::{Chain, Target, UserTable};
use histar_login::{boot, login};
use histar_process::{exit, spawn};
use histar_programs::{Home, Roots, Unix, find_caller};
use histar_readout::{Life, ProcessNode, procs_of, resolve};
use histar_syscall::Kernel;
use histar_wrap::wrap;
use std::alloc::Global;
use std::process::Abort;
use std::test::Fail;

/// What is expected of a process.
struct Row {
    /// The numbers of its name, the last number first.
    numbers: &'static [u8],
    /// The categories of the jobs that it is in.
    chain: &'static [u64],
    life: Expected,
    /// How many children were born to it.
    born: u8,
}

/// Whether a process is expected to run.
enum Expected {
    /// It runs as this user, and holds the jobs of these categories.
    Running(&'static [u8], &'static [u64]),
    /// It has exited with this number.
    Exited(u8),
}

/// Boot made categories 1 to 7: its own, two for nobody, two for `root` and two for process 0.
const AFTER_BOOT: &[Row] = &[Row {
    numbers: &[],
    chain: &[],
    life: Expected::Running(b"nobody", &[]),
    born: 0,
}];

/// Child 1 has categories 8 and 9. Category 10 is the job's, whose first process is child 2.
const AT_THE_END: &[Row] = &[
    Row {
        numbers: &[],
        chain: &[],
        life: Expected::Running(b"root", &[10]),
        born: 2,
    },
    Row {
        numbers: &[1],
        chain: &[],
        life: Expected::Exited(5),
        born: 0,
    },
    Row {
        numbers: &[2],
        chain: &[10],
        life: Expected::Running(b"root", &[]),
        born: 0,
    },
];

/// Returns accounts with one user, `root`.
pub fn accounts(alloc: Global) -> Result<Accounts, Fail>
    ensures { IfOk result (λ accounts. HaveOwnNames accounts.users) }
{
    let mut accounts = Accounts::new(alloc);
    let (name, password) = root()?;
    accounts.add_user(alloc, User { name, password })?;
    Ok(accounts)
}

/// Returns the user's name and password.
fn root() -> Result<(Name, Password), Fail> {
    let name = read_user_name(b"root").ok_or("a name")?;
    let password = read_password(b"rr").ok_or("a password")?;
    Ok((name, password))
}

/// Checks that `/` leads to where boot left it.
fn check_slash(rt: &impl Abort, kernel: &Kernel<PlainStore>, roots: &Roots) {
    let place = roots.slash;
    let found = resolve::resolve(kernel, roots, &Path::root());
    assert!(rt; found == Some(Target::Directory(place.container, place.listing)));
}

/// Returns the processes of a kernel.
fn listed(
    alloc: Global,
    kernel: &Kernel<PlainStore>,
    roots: &Roots,
    users: &UserTable,
) -> Result<Vec<ProcessNode>, Fail> {
    let listed = procs_of(alloc, kernel, roots, users)?.ok_or("processes")?;
    Ok(listed)
}

/// Checks that these are the expected processes.
fn check_processes(rt: &impl Abort, processes: &[ProcessNode], rows: &[Row]) {
    assert_eq!(rt; processes.len(), rows.len());
    for (node, row) in processes.iter().zip(rows.iter()) {
        check_process(rt, node, row);
    }
}

/// Checks that this is the expected process.
fn check_process(rt: &impl Abort, node: &ProcessNode, row: &Row) {
    assert_eq!(rt; node.name.numbers(), row.numbers);
    assert!(rt; are_jobs(&node.chain, row.chain));
    assert!(rt; is_life(&node.life, &row.life));
    assert_eq!(rt; node.born, row.born);
}

/// Checks whether the jobs have these categories.
fn are_jobs(jobs: &Chain, numbers: &[u64]) -> bool {
    let categories = jobs.as_slice();
    let mut pairs = categories.iter().zip(numbers.iter());
    categories.len() == numbers.len() && pairs.all(|(c, number)| c.number() == *number)
}

/// Checks whether a process lives as expected.
fn is_life(life: &Life, expected: &Expected) -> bool {
    match (life, expected) {
        (Life::Running { user, held }, Expected::Running(name, numbers)) => {
            user.as_bytes() == *name && are_jobs(held, numbers)
        }
        (Life::Exited(number), Expected::Exited(other)) => number == other,
        _ => false,
    }
}

/// Makes a child of process 0 be born and exit.
fn bear_child(alloc: Global, kernel: &mut Kernel<PlainStore>, unix: &Unix) -> Result<(), Fail> {
    spawn::spawn(alloc, kernel, unix)?;
    let one = ProcName::zero().child(1);
    let child = find_caller(kernel, unix.roots.home, &one).ok_or("child 1")?;
    let childs = Unix {
        roots: unix.roots,
        users: unix.users,
        process: &one,
        caller: &child,
    };
    exit::exit(alloc, kernel, &childs, 5)?;
    Ok(())
}

/// Makes a child be born and exit, then makes process 0 log in and begin a job.
fn make_calls(
    alloc: Global,
    kernel: &mut Kernel<PlainStore>,
    roots: &Roots,
    users: &UserTable,
) -> Result<(), Fail> {
    let zero = ProcName::zero();
    let caller = find_caller(kernel, roots.home, &zero).ok_or("process 0")?;
    let unix = Unix {
        roots,
        users,
        process: &zero,
        caller: &caller,
    };
    bear_child(alloc, kernel, &unix)?;
    let (name, password) = root()?;
    login::login(alloc, kernel, &unix, name, password)?;
    let scratch = [read_name(b"scratch").ok_or("a name")?];
    wrap::wrap(alloc, kernel, &unix, &scratch)?;
    Ok(())
}

#[test]
fn slash_and_the_processes_are_found(rt: HostRuntime) -> Result<(), Fail> {
    let alloc = rt.alloc();
    let accounts = accounts(alloc)?;
    assert!(rt; !accounts.users().is_empty());
    let users = UserTable::of(alloc, &accounts)?;
    let (mut kernel, roots) = boot(alloc, PlainStore::new(alloc), &accounts)?;
    let checked = check_session(&rt, alloc, &mut kernel, &roots, &users);
    drop(kernel);
    checked
}

/// Checks what is found after boot, and after the calls.
fn check_session(
    rt: &impl Abort,
    alloc: Global,
    kernel: &mut Kernel<PlainStore>,
    roots: &Roots,
    users: &UserTable,
) -> Result<(), Fail> {
    check_slash(rt, kernel, roots);
    let booted = listed(alloc, kernel, roots, users)?;
    check_processes(rt, booted.as_slice(), AFTER_BOOT);
    make_calls(alloc, kernel, roots, users)?;
    let ended = listed(alloc, kernel, roots, users)?;
    check_processes(rt, ended.as_slice(), AT_THE_END);
    Ok(())
}

#[test]
fn no_forged_thread_is_found(rt: HostRuntime) -> Result<(), Fail> {
    let alloc = rt.alloc();
    let accounts = accounts(alloc)?;
    assert!(rt; !accounts.users().is_empty());
    let users = UserTable::of(alloc, &accounts)?;
    let (mut kernel, roots) = boot(alloc, PlainStore::new(alloc), &accounts)?;
    let checked = check_forgery(&rt, alloc, &mut kernel, &roots, &users);
    drop(kernel);
    checked
}

/// Checks that a job which writes its wrapper's status into its own process segment is found no more. The
/// status names the wrapper's internal container and thread, which the job's container doesn't link.
fn check_forgery(
    rt: &impl Abort,
    alloc: Global,
    kernel: &mut Kernel<PlainStore>,
    roots: &Roots,
    users: &UserTable,
) -> Result<(), Fail> {
    make_calls(alloc, kernel, roots, users)?;
    let wrapper = find_caller(kernel, roots.home, &ProcName::zero()).ok_or("the wrapper")?;
    let name = ProcName::zero().child(2);
    let job = find_caller(kernel, roots.home, &name).ok_or("the job")?;
    let Home { container, segment } = wrapper.home;
    let status = kernel.read_copy(alloc, job.thread, container, segment)?;
    let Home { container, segment } = job.home;
    kernel.write(alloc, job.thread, container, segment, 0, status)?;
    assert!(rt; find_caller(kernel, roots.home, &name).is_none());
    Ok(())
}
