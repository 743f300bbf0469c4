//! The forms of the subcommands: their names, their arguments and their help.
ghost use Rattle.std.specs.Prelude.{◌≡◌};
ghost use Rattle.histar_command_line.specs.Forms.{form_app, run_app, raw_app, check_app, access_app, diff_app, lint_app};
ghost use Rattle.histar_command_line.specs.Forms.{attack_app, flows_app, leak_app, report_app, shell_app, test_app, trust_app, try_app};

/// An argument of a subcommand.
#[derive(Clone, Copy)]
pub enum Argument<'a> {
    /// A flag `--NAME`: its name, and its help.
    Flag(&'a str, &'a str),
    /// A required word: its name, and its help.
    Word(&'a str, &'a str),
    /// A word that is required unless a flag is given: its name, the name of the flag, and its help.
    Unless(&'a str, &'a str, &'a str),
    /// A word that may be there: its name, and its help.
    Optional(&'a str, &'a str),
    /// One or more words: their name, and their help.
    Words(&'a str, &'a str),
    /// A word after a flag: its name, the name of the flag, and its help.
    Valued(&'a str, &'a str, &'a str),
    /// A word after a flag that has a letter too: its name, the name of the flag, its letter, and its help.
    Lettered(&'a str, &'a str, char, &'a str),
}

/// A subcommand.
#[derive(Clone, Copy)]
pub struct Form<'a> {
    pub name: &'a str,
    /// What the subcommand does, in one line.
    pub about: &'a str,
    /// The end of its help: what its output means, and an example.
    pub after_help: &'a str,
    pub arguments: &'a [Argument<'a>],
}

/// The help of FILE, in most subcommands.
const SCRIPT: &str = "The script: users, groups, and calls of processes";

/// The help of the flag that stops a run before a line.
const AT: &str = "Stop before the call on this line";

/// The help of the flag that asks for JSON.
const JSON: &str = "Print each line as a JSON object";

/// The help of the flag that asks for colour.
const COLOR: &str =
    "Print refusals in red: always, never, or auto, which is at a terminal without NO_COLOR";

/// Returns `run [--tree] [--trace] [--why] [--explain] [--calls] [--json] [--color WHEN] [--at LINE] FILE`.
pub(crate) fn run<'a>() -> Form<'a>
    ensures { form_app result ≡ run_app }
{
    Form {
        name: "run",
        about: "Run a script and print a reply for each call",
        after_help: "Example:
  histar run --tree --trace examples/first.histar",
        arguments: &[
            Argument::Flag("tree", "Print each file and directory after the last call"),
            Argument::Flag(
                "trace",
                "Print each raw call of the kernel, and why it was denied",
            ),
            Argument::Flag("why", "Print why each call was refused, by the rules"),
            Argument::Flag("explain", "Print why each denied raw call was denied"),
            Argument::Flag("calls", "Print each reply behind its call"),
            Argument::Flag("json", JSON),
            Argument::Valued("WHEN", "color", COLOR),
            Argument::Valued("LINE", "at", AT),
            Argument::Word("FILE", SCRIPT),
        ],
    }
}

/// Returns `try [--color WHEN] [--at LINE] FILE CALL..`.
pub(crate) fn try_calls<'a>() -> Form<'a>
    ensures { form_app result ≡ try_app }
{
    Form {
        name: "try",
        about: "Run a script, make more calls behind it, and print the replies to these alone",
        after_help: "Each CALL is a line of a script. It is printed with its number and its reply, as `run --calls --why` prints it.

Example:
  histar try --at 21 examples/scan.histar '0.2 read /tmp/letters' '0.2 stat /tmp/letters'
prints
  21  0.2 read /tmp/letters  EACCES
  !21 EACCES: 0.2 (bob) may not read /tmp/letters: it is private, of alice
  22  0.2 stat /tmp/letters  ok file alice private",
        arguments: &[
            Argument::Valued("WHEN", "color", COLOR),
            Argument::Valued(
                "LINE",
                "at",
                "Make the calls before this line in place of the end",
            ),
            Argument::Word("FILE", SCRIPT),
            Argument::Words(
                "CALL",
                "The calls, each `PROC CALL` as on a line of a script",
            ),
        ],
    }
}

/// Returns `shell [FILE]`.
pub(crate) fn shell<'a>() -> Form<'a>
    ensures { form_app result ≡ shell_app }
{
    Form {
        name: "shell",
        about: "Read lines of a script from standard input, and answer each before the next is read",
        after_help: "A right line is added to the session, and a call is answered as `run --why` answers it. A bad line is answered with
the sentence of `lint`, and is not added. The lines of FILE are the first. `:help` lists the commands.

Example:
  histar shell examples/scan.histar
prints, among others, the lines
  20 EACCES
  !20 EACCES: 0.2 (bob) may not read /tmp/scan: it is scratch, of alice
and then answers each line that it reads",
        arguments: &[Argument::Optional("FILE", SCRIPT)],
    }
}

/// Returns `raw [--explain] FILE`.
pub(crate) fn raw<'a>() -> Form<'a>
    ensures { form_app result ≡ raw_app }
{
    Form {
        name: "raw",
        about: "Run a session of raw kernel calls and print an answer or a denial for each",
        after_help: "Example:
  histar raw --explain examples/missing_keys.raw",
        arguments: &[
            Argument::Flag("explain", "Print why each denied call was denied"),
            Argument::Word("FILE", "The session: raw calls, each of a thread"),
        ],
    }
}

/// Returns `check [--why] [--all] [--exit-code] [--json] [--at LINE] JOB [FILE]`.
pub(crate) fn check<'a>() -> Form<'a>
    ensures { form_app result ≡ check_app }
{
    Form {
        name: "check",
        about: "Run a script with and without a job and print what differs for outsiders",
        after_help: "Example:
  histar check 0.1.1 examples/scan.histar
prints
  same

--why adds the `rmdir` or `wrap` that released what the job made, and what each run prints where they
differ; the run with the job comes first:
  released by line 13
  line 14: ok j/ | ok

Usage with --all: histar check --all [OPTIONS] <FILE>
Each job that the script starts has a line:
  histar check --all examples/scan.histar
prints
  0.1.1 same

Exit status: 0; with --exit-code it is 5 for anything but same",
        arguments: &[
            Argument::Flag(
                "why",
                "Print both replies, or both lines of the tree, where the runs differ",
            ),
            Argument::Flag(
                "all",
                "Leave out each job that the script starts, one after another",
            ),
            Argument::Flag("exit-code", "End with status 5 unless the answer is `same`"),
            Argument::Flag("json", JSON),
            Argument::Valued("LINE", "at", AT),
            Argument::Word(
                "JOB",
                "The job: the name of its first process; with --all the script",
            ),
            Argument::Unless("FILE", "all", SCRIPT),
        ],
    }
}

/// Returns `access [--users] [--ever] [--json] [--at LINE] FILE`.
pub(crate) fn access<'a>() -> Form<'a>
    ensures { form_app result ≡ access_app }
{
    Form {
        name: "access",
        about: "Run a script and print for each path what each process may do there",
        after_help: "Each line is a path, what is there, its owner and its mode, and for each running process its rights:
  s  it may ask for owner and mode
  r  it may read the file, or list the directory
  w  it may write the file, or make something in the directory
  d  it may take it away
  -  it may not

With --users there are rights for `nobody` and for each user in place of the processes: those of a process that has
just logged in as the user, and is in no job.

With --ever each line is a path that was there before some line or after the last, and for each process that ran, or
with --users for each user, the rights that it had at one time or another.

Example:
  histar access examples/access/tenants.histar
prints, among others, the line
  /srv/drop/bolt/orders file - group:bolt 0:---- 0.1:---- 0.2:srwd 0.3:---- 0.4:---- 0.4.1:srwd",
        arguments: &[
            Argument::Flag(
                "users",
                "Print the rights of each user, and not of each process",
            ),
            Argument::Flag(
                "ever",
                "Print the rights that were there before any line or after the last",
            ),
            Argument::Flag("json", JSON),
            Argument::Valued("LINE", "at", AT),
            Argument::Word("FILE", SCRIPT),
        ],
    }
}

/// Returns `diff [--users] [--more] [--json] [--at LINE] OLD NEW`.
pub(crate) fn diff<'a>() -> Form<'a>
    ensures { form_app result ≡ diff_app }
{
    Form {
        name: "diff",
        about: "Run two scripts and print whose rights differ at which path",
        after_help: "Each line is a path, a process, its user, and its rights after the old script and after the new one: `....`
where the path is not there. Before these comes a line for each process that runs after one of them alone:
  process PROC USER gone
  process PROC USER new

Exit status: 0 where no line is printed, 5 where one is

Example:
  histar diff examples/policy_before.histar examples/policy_after.histar
prints, among others, the line
  /home 0.1 alice srw- sr--

With --more nothing is printed where the new script permits no more than the old one.

With --users the rights are those of `nobody` and of each user that both scripts declare, as `access --users` prints
them, and before the lines of paths comes a line for each user that one of them alone declares:
  user NAME gone
  user NAME new",
        arguments: &[
            Argument::Flag(
                "users",
                "Compare the rights of each user, and not of each process",
            ),
            Argument::Flag(
                "more",
                "Print only the lines where the new script gives a letter that the old one doesn't",
            ),
            Argument::Flag("json", JSON),
            Argument::Valued(
                "LINE",
                "at",
                "Stop before the calls on this line of both; OLD:NEW gives a line of each",
            ),
            Argument::Word("OLD", "The old script"),
            Argument::Word("NEW", "The new script"),
        ],
    }
}

/// Returns `trust [--why] [--json] [--at LINE] PATH FILE`.
pub(crate) fn trust<'a>() -> Form<'a>
    ensures { form_app result ≡ trust_app }
{
    Form {
        name: "trust",
        about: "Run a script and print which processes could leak or change what is at a path",
        after_help: "After what is at PATH, or `no entry`, comes a line for each running process and for each user. A
process reaches a file if it may read it, and each directory above it:
  trusted PROC USER    it reaches the file, and may hand on what it read
  confined PROC USER   it reaches the file, and what it writes only those read who may read all of the way
  outside PROC USER    it doesn't reach the file
  login USER           a process that logs in as USER would reach the file
  changer PROC USER    it may write what is at PATH, or a directory on the way, and reaches its directory
  changer-login USER   a process that logs in as USER could

Whoever is not confined may act: the first to be told anything of the file is a trusted process, or one
that it has started since.

Example:
  histar trust --at 21 /tmp/letters examples/scan.histar
prints, among others, the line
  confined 0.1.1 alice

With --why the line of a changer ends with ` by` and the first path on the way that it may write, and the line
of a confined process with ` by job` and the job that confines it.",
        arguments: &[
            Argument::Flag(
                "why",
                "Print by which path each changes, and by which job each is confined",
            ),
            Argument::Flag("json", JSON),
            Argument::Valued("LINE", "at", AT),
            Argument::Word("PATH", "The path of a file or a directory"),
            Argument::Word("FILE", SCRIPT),
        ],
    }
}

/// Returns `leak [--at LINE] PATH FILE`.
pub(crate) fn leak<'a>() -> Form<'a>
    ensures { form_app result ≡ leak_app }
{
    Form {
        name: "leak",
        about: "Run a script and print the calls by which processes leak or change what is at a path",
        after_help: "For each line `trusted`, `login`, `changer` and `changer-login` of `trust` there is a paragraph: who does it, and
to whom, then the calls with their replies. Each paragraph can be put behind the script, and `histar test` passes it.

Example:
  histar leak --at 21 /tmp/letters examples/scan.histar
prints, among others, the lines
  # trusted 0.1 alice tells 0 root, 0.2 bob
  0.1 read /tmp/letters
  #= = the code is 1234",
        arguments: &[
            Argument::Valued("LINE", "at", AT),
            Argument::Word("PATH", "The path of a file or a directory"),
            Argument::Word("FILE", SCRIPT),
        ],
    }
}

/// Returns `flows [--json] [--at LINE] FILE`.
pub(crate) fn flows<'a>() -> Form<'a>
    ensures { form_app result ≡ flows_app }
{
    Form {
        name: "flows",
        about: "Run a script and print which process can pass on what it knows to which others",
        after_help: "Everyone can observe the processes that are in no job: they are on the first line. Each other line is a running
process in a job, its user, and the running processes that know every job that it is in. An exclamation mark
is behind those that hold one of these jobs: they may pass on what the job made.

Example:
  histar flows --at 21 examples/scan.histar
prints
  free 0 0.1 0.2 tell everyone
  0.1.1 alice tells 0.1!",
        arguments: &[
            Argument::Flag("json", JSON),
            Argument::Valued("LINE", "at", AT),
            Argument::Word("FILE", SCRIPT),
        ],
    }
}

/// Returns `attack [--trace] [--follow] JOB FILE`.
pub(crate) fn attack<'a>() -> Form<'a>
    ensures { form_app result ≡ attack_app }
{
    Form {
        name: "attack",
        about: "Run a script in which threads of a job bypass the Unix library by raw calls",
        after_help: "FILE has the lines of a script, and between them lines `thread N CALL`: a raw call of the thread N, as in a raw
session. The numbers of threads and objects are those of `run --trace`. Each line has a reply, or:
  not confined   the thread is not tainted in the category of JOB, and the raw call is not made
  inside         after the first raw call: the process is in JOB, started it, or is found through what JOB may
                 have written, and the call is not made
Where the first process of JOB doesn't run when the first raw call comes, `no job` is printed alone.

Example:
  histar attack 0.1.1 examples/attack/deputy.attack
prints, among others, the lines
  21 Modify
  25 inside
  28 EACCES",
        arguments: &[
            Argument::Flag("trace", "Print each raw call of the kernel"),
            Argument::Flag(
                "follow",
                "Make the calls that are inside too: nothing is promised of their replies",
            ),
            Argument::Word("JOB", "The job: the name of its first process"),
            Argument::Word("FILE", "The script with raw calls between its lines"),
        ],
    }
}

/// Returns `lint [--raw] [--attack] [--policy] [--exit-code] [--json] FILE..`.
pub(crate) fn lint<'a>() -> Form<'a>
    ensures { form_app result ≡ lint_app }
{
    Form {
        name: "lint",
        about: "Print why scripts are bad: the first bad line of each, and the rule that it breaks",
        after_help: "Nothing is printed of a right script. Of a bad one it is FILE, the number of its first bad line, and a sentence.

With --policy a right script has a line for each call of a process that was never started, each wrong password, each
job that is never used, each file or directory that not everyone reads and that another user may take away, and each
file for a group that no one but its maker writes, though others may.

Exit status: 0 where all scripts are right, 1 where one is bad; with --exit-code 5 where --policy printed a line

Example:
  histar lint examples/lint/no_mode.histar
prints
  examples/lint/no_mode.histar:4: the call is `PROC create PATH MODE`",
        arguments: &[
            Argument::Flag("raw", "FILE is a session of raw calls"),
            Argument::Flag(
                "attack",
                "FILE is a script with raw calls between its lines, as `attack` reads it",
            ),
            Argument::Flag(
                "policy",
                "FILE is a script: print what is odd in a right one, too",
            ),
            Argument::Flag(
                "exit-code",
                "End with status 5 where --policy prints something",
            ),
            Argument::Flag("json", JSON),
            Argument::Words("FILE", "The scripts, or the sessions of raw calls"),
        ],
    }
}

/// Returns `report [--output PAGE] [--at LINE] FILE`.
pub(crate) fn report<'a>() -> Form<'a>
    ensures { form_app result ≡ report_app }
{
    Form {
        name: "report",
        about: "Run a script and print the session as one HTML page",
        after_help: "With --output the page is written to a file of this name, whole: where something fails, a file that was there
before is kept as it was.

Example:
  histar report --output scan.html examples/scan.histar",
        arguments: &[
            Argument::Lettered(
                "PAGE",
                "output",
                'o',
                "Write the page to this file, and not to standard output",
            ),
            Argument::Valued("LINE", "at", AT),
            Argument::Word("FILE", SCRIPT),
        ],
    }
}

/// Returns `test [--strict] [--json] FILE..`.
pub(crate) fn test<'a>() -> Form<'a>
    ensures { form_app result ≡ test_app }
{
    Form {
        name: "test",
        about: "Run scripts and compare the replies and rights with those that they expect",
        after_help: "A comment that begins with `#= ` says what the call line before it is to be answered:
  0.1 read /tmp/diary
  #= EACCES

A comment that begins with `#! ` says which rights a process is to have at a path there, as `access` prints them:
  #! /tmp/diary 0.1 s---

A comment that begins with `#trusted ` says which processes are to be trusted with a file there, and no others:
  #trusted /tmp/diary 0.1

A comment that begins with `#never ` says which rights a process, a user, or all but some users are never to have:
  #never /tmp/diary all-but alice rw

The output has the form of the Test Anything Protocol: the number of expectations, and a line for each. With
--strict each call that is refused and has no expectation is `not ok` too; the number is then on the last line.

Exit status: 0 where all are met, 5 where one is not

Example:
  histar test examples/sessions/a_secret.histar",
        arguments: &[
            Argument::Flag(
                "strict",
                "Miss each call that is refused and of which nothing is expected",
            ),
            Argument::Flag("json", JSON),
            Argument::Words("FILE", "The scripts, with what they expect"),
        ],
    }
}
