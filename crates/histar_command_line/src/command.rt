//! The command line as `clap` reads and explains it.
ghost use Rattle.std.specs.Prelude.{◌≡◌, false, IfOk, fold, map};
ghost use Rattle.clap.specs.declared.builder.command.Command.TheViews.{out-Command};
ghost use Rattle.clap.specs.Words.{app_of, rule_of, with_subcommand};
ghost use Rattle.histar_command_line.specs.Forms.{argument_rule, form_app, form_shape, histar_app, named_app};

use crate::forms::{self, Argument, Form};
use clap::{Arg, ArgAction, Command};
use std::alloc::{AllocError, Global};

/// The version of the program.
pub const VERSION: &str = "0.1.0";

/// The purpose of the program, in its help.
const ABOUT: &str =
    "Runs sessions of Unix calls on a labelled kernel, which grants and refuses by comparing labels alone";

/// The end of the program's help.
const AFTER_HELP: &str = "Example:
  histar run --tree --trace examples/first.histar

Exit status:
  0  it was done, or help was asked for
  1  the script or the session is bad or too long
  2  the command line is refused, JOB is no process, PATH is no path, LINE is no number, or CALL is no call
  3  out of memory
  4  FILE can't be read, or the output can't be written
  5  what was asked is not so

A FILE that is - is standard input.";

/// Returns an argument, as `clap` reads it.
fn arg_of<'a>(alloc: Global, argument: Argument<'a>) -> Result<Arg<'a>, AllocError>
    ensures rule { IfOk result (λ arg. rule_of arg ≡ argument_rule argument.entry) }
    ensures local { IfOk result (λ arg. arg.global ≡ false) }
{
    match argument {
        Argument::Flag(name, help) => Ok(
            Arg::new(alloc, name)
                .long(name)
                .action(ArgAction::SetTrue)
                .help(help),
        ),
        Argument::Word(name, help) => Ok(Arg::new(alloc, name).required(true).help(help)),
        Argument::Unless(name, flag, help) => Arg::new(alloc, name)
            .help(help)
            .required_unless_present(flag),
        Argument::Optional(name, help) => Ok(Arg::new(alloc, name).help(help)),
        Argument::Words(name, help) => Ok(
            Arg::new(alloc, name)
                .required(true)
                .num_args(1..)
                .help(help),
        ),
        Argument::Valued(name, flag, help) => Ok(
            Arg::new(alloc, name)
                .long(flag)
                .action(ArgAction::Set)
                .help(help),
        ),
        Argument::Lettered(name, flag, letter, help) => Ok(
            Arg::new(alloc, name)
                .long(flag)
                .short(letter)
                .action(ArgAction::Set)
                .help(help),
        ),
    }
}

/// Returns a subcommand, as `clap` reads and explains it.
fn subcommand_of<'a>(alloc: Global, form: &Form<'a>) -> Result<Command<'a>, AllocError>
    ensures app { IfOk result (λ c. app_of c ≡ form_app form.now) }
    ensures local { IfOk result (λ c. (out-Command c).has_globals ≡ false) }
{
    let mut command = Command::new(alloc, form.name)
        .about(form.about)
        .after_help(form.after_help);
    'arguments: for argument in form.arguments {
        let arg = arg_of(alloc, *argument)?;
        command = command.arg(arg)?;
    }
    Ok(command)
}

/// Adds a subcommand to the program.
fn add<'a>(alloc: Global, histar: Command<'a>, form: &Form<'a>) -> Result<Command<'a>, AllocError>
    ensures { IfOk result (λ c. app_of c ≡ with_subcommand (app_of histar.entry) (form_app form.now).top) }
{
    let subcommand = subcommand_of(alloc, form)?;
    histar.subcommand(subcommand)
}

/// Adds subcommands to the program, one after another.
fn add_each<'a>(
    alloc: Global,
    mut histar: Command<'a>,
    forms: &[Form<'a>],
) -> Result<Command<'a>, AllocError>
    ensures { IfOk result (λ c. app_of c
        ≡ fold with_subcommand (app_of histar.entry) (map form_shape forms.now)) }
{
    'forms: for form in forms {
        histar = add(alloc, histar, form)?;
    }
    Ok(histar)
}

/// Returns the program without its subcommands.
fn named<'a>(alloc: Global) -> Result<Command<'a>, AllocError>
    ensures { IfOk result (λ c. app_of c ≡ named_app) }
{
    Command::new(alloc, "histar")
        .version(VERSION)
        .about(ABOUT)
        .after_help(AFTER_HELP)
        .arg_required_else_help(true)
        .bin_name("histar")
}

/// Returns the program, as `clap` reads and explains it.
pub(crate) fn command<'a>(alloc: Global) -> Result<Command<'a>, AllocError>
    ensures { IfOk result (λ c. app_of c ≡ histar_app) }
{
    let histar = named(alloc)?;
    let forms = [
        forms::run(),
        forms::try_calls(),
        forms::shell(),
        forms::raw(),
        forms::check(),
        forms::access(),
        forms::diff(),
        forms::trust(),
        forms::leak(),
        forms::flows(),
        forms::attack(),
        forms::lint(),
        forms::report(),
        forms::test(),
    ];
    add_each(alloc, histar, &forms)
}
