//! The `clap` command of a form, and what it finds in the words.

ghost use Rattle.std.specs.Prelude.{◌≡◌, ◌≢◌, ◌↔◌, [], false, fold, map, string_bytes, IfOk, IsErrOf};
ghost use Rattle.clap.specs.Words.{app_of, fault_of, kind_of, matches_of, rule_of, with_rule};
ghost use Rattle.clap.specs.Walk.{texts};
ghost use Rattle.orca_words.specs.Forms.{bare, command_of, form_in, option_rule, positional_rule};
ghost use Rattle.orca_words.specs.RequestIn.{rows_in};

use crate::WordsFault;
use crate::forms::Form;
use clap::error::ErrorKind;
use clap::{Arg, ArgAction, ArgMatches, Command, Error};
use std::alloc::{AllocError, Global};

/// What the command of a form finds in the words after the first one.
pub(crate) fn parse<'a>(
    alloc: Global,
    form: &Form,
    words: &'a [String],
) -> Result<ArgMatches<'a>, WordsFault>
    ensures accepted { IfOk result (λ found.
        fault_of (command_of (form_in form.now)) (map string_bytes words.now) ≡ []) }
    ensures found { IfOk result (λ found.
        rows_in found ≡ matches_of (command_of (form_in form.now)) (map string_bytes words.now)) }
    ensures refused { IsErrOf result WordsFault.Usage
        → fault_of (command_of (form_in form.now)) (map string_bytes words.now) ≢ [] }
{
    let command = command_of(alloc, form)?;
    match command.try_get_matches_from(words) {
        Ok(found) => Ok(found),
        Err(error) => Err(fault(&error)),
    }
}

/// The fault of words that were not parsed.
fn fault(error: &Error) -> WordsFault
    ensures { (result ≡ WordsFault.Memory) ↔ (kind_of error.now ≡ ErrorKind.OutOfMemory) }
{
    match error.kind() {
        ErrorKind::OutOfMemory => WordsFault::Memory,
        _ => WordsFault::Usage,
    }
}

/// The command of a form. It reads the words after the first one, and has no flag for help or for a
/// version.
fn command_of<'a>(alloc: Global, form: &Form) -> Result<Command<'a>, AllocError>
    ensures { IfOk result (λ command. app_of command ≡ command_of (form_in form.now)) }
{
    let &(word, positionals, options, _) = form;
    let command = Command::new(alloc, word)
        .no_binary_name(true)
        .disable_help_flag(true);
    let command = with_positionals(alloc, command, positionals)?;
    with_options(alloc, command, options)
}

/// The command with these positionals, in this order.
fn with_positionals<'a>(
    alloc: Global,
    mut command: Command<'a>,
    names: &'static [&'static str],
) -> Result<Command<'a>, AllocError>
    ensures { IfOk result (λ full. app_of full
        ≡ fold with_rule (app_of command.entry) (map positional_rule (texts names.entry.now))) }
{
    for name in names {
        command = command.arg(positional(alloc, name))?;
    }
    Ok(command)
}

/// The command with these options.
fn with_options<'a>(
    alloc: Global,
    mut command: Command<'a>,
    names: &'static [&'static str],
) -> Result<Command<'a>, AllocError>
    ensures { IfOk result (λ full. app_of full
        ≡ fold with_rule (app_of command.entry) (map option_rule (texts names.entry.now))) }
{
    for name in names {
        command = command.arg(option(alloc, name))?;
    }
    Ok(command)
}

/// A positional that has to be there.
fn positional<'a>(alloc: Global, name: &'a str) -> Arg<'a>
    ensures rule { rule_of result ≡ positional_rule name.now }
    ensures global { result.global ≡ false }
{
    Arg::new(alloc, name).required(true).action(ArgAction::Set)
}

/// An option that sets one text.
fn option<'a>(alloc: Global, name: &'a str) -> Arg<'a>
    ensures rule { rule_of result ≡ option_rule name.now }
    ensures global { result.global ≡ false }
{
    Arg::new(alloc, name).long(name)
}
