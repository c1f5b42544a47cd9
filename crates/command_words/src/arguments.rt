// The arguments of a command, read by clap.
ghost use Rattle.std.specs.Prelude.{◌≡◌, ◌≢◌, IfOk, map, string_bytes, [], Err, true, false};
ghost use Rattle.std.specs.Option.{option_map};
ghost use Rattle.clap.specs.Words.{app_of, found_of, rows_of, matches_of, fault_of, with_rule, is_simple_and_free};
ghost use Rattle.command_words.specs.Apps.{rule_of, bare_app, app_of_form, with_rules, found_in, has_lone_dash, asks, HasFew};
ghost use Rattle.command_words.specs.Words.{arguments, kind_of, is_among};
ghost use Rattle.command_words.specs.Forms.{form_of, texts};

use clap::error::ErrorKind;
use clap::{Arg, ArgAction, ArgMatches, Command};
use std::alloc::{AllocError, Global};
use tpf_base::OutOfMemory;

/// Why words were refused.
#[derive(Clone, Copy, PartialEq, Eq)]
enum WordsFault {
    Usage,
    OutOfMemory,
}

/// What an argument is: one by its place, `--name value` or `--name`.
#[derive(Clone, Copy)]
enum Role {
    Positional,
    Option,
    Flag,
}

fn with_argument<'a>(
    command: Command<'a>,
    alloc: Global,
    role: Role,
    name: &'a str,
) -> Result<Command<'a>, AllocError>
    ensures { IfOk result (λ c. app_of c ≡ with_rule (app_of command.entry) (rule_of role name.entry.now)) }
{
    match role {
        Role::Positional => command.arg(Arg::new(alloc, name).action(ArgAction::Set)),
        Role::Option => command.arg(Arg::new(alloc, name).long(name).action(ArgAction::Set)),
        Role::Flag => command.arg(Arg::new(alloc, name).long(name).action(ArgAction::SetTrue)),
    }
}

fn with_arguments<'a>(
    command: Command<'a>,
    alloc: Global,
    role: Role,
    names: &[&'a str],
) -> Result<Command<'a>, AllocError>
    ensures { IfOk result (λ c. app_of c ≡ with_rules (app_of command.entry) (map (rule_of role) (texts names.now))) }
{
    let mut command = command;
    for name in names {
        command = with_argument(command, alloc, role, name)?;
    }
    Ok(command)
}

fn bare_command<'a>(alloc: Global) -> Command<'a>
    ensures { app_of result ≡ bare_app }
{
    Command::new(alloc, "tpf")
        .no_binary_name(true)
        .disable_help_flag(true)
        .disable_version_flag(true)
        .disable_help_subcommand(true)
}

/// The command with these arguments.
fn command_with<'a>(
    alloc: Global,
    positionals: &[&'a str],
    options: &[&'a str],
    flags: &[&'a str],
) -> Result<Command<'a>, AllocError>
    ensures { IfOk result (λ c. app_of c ≡ app_of_form (form_of positionals.now options.now flags.now)) }
{
    let command = bare_command(alloc);
    let command = with_arguments(command, alloc, Role::Positional, positionals)?;
    let command = with_arguments(command, alloc, Role::Option, options)?;
    with_arguments(command, alloc, Role::Flag, flags)
}

/// The arguments that a command reads in words.
fn matches_by<'a>(command: Command<'a>, words: &'a [String]) -> Result<ArgMatches<'a>, WordsFault>
    requires { is_simple_and_free (app_of command) ≡ true }
    ensures rows { IfOk result (λ m. rows_of (found_of m) ≡
        matches_of (app_of command.entry) (map string_bytes words.entry.now)) }
    ensures taken { IfOk result (λ m. fault_of (app_of command.entry) (map string_bytes words.entry.now) ≡ []) }
    ensures refused { result ≡ Err WordsFault.Usage
        → fault_of (app_of command.entry) (map string_bytes words.entry.now) ≢ [] }
{
    match command.try_get_matches_from(words) {
        Ok(matches) => Ok(matches),
        Err(error) => match error.kind() {
            ErrorKind::OutOfMemory => Err(WordsFault::OutOfMemory),
            _ => Err(WordsFault::Usage),
        },
    }
}

fn is_among(name: &[u8], names: &[&str]) -> bool
    ensures { result ≡ is_among name.now (texts names.now) }
{
    for other in names {
        if other.as_bytes() == name {
            return true;
        }
    }
    false
}

/// Whether the value of an option has to come next, behind this word.
fn asks(options: &[&str], word: &[u8]) -> bool
    ensures { result ≡ asks (texts options.now) (kind_of word.now) }
{
    match word {
        [b'-', b'-', name @ ..] => {
            !name.is_empty() && !name.contains(&b'=') && is_among(name, options)
        }
        _ => false,
    }
}

/// Whether `-` stands for the value of an option as a word of its own, which clap would take.
#[tactic(auto, unfolding(crate::specs::Apps::has_lone_dash))]
fn has_lone_dash(options: &[&str], words: &[String]) -> bool
    ensures { result ≡ has_lone_dash (texts options.now) false (map string_bytes words.now) }
{
    let mut waits = false;
    for word in words {
        if waits && word.as_str() == "-" {
            return true;
        }
        if word.as_str() == "--" {
            return false;
        }
        waits = asks(options, word.as_bytes());
    }
    false
}

/// The arguments in the words after a command's name, of a command with these positionals, options
/// and flags; `None` where the words are refused.
pub fn arguments_of<'a>(
    alloc: Global,
    positionals: &[&'a str],
    options: &[&'a str],
    flags: &[&'a str],
    words: &'a [String],
) -> Result<Option<ArgMatches<'a>>, OutOfMemory>
    requires few { HasFew (texts positionals.now) }
    requires free { is_simple_and_free (app_of_form (form_of positionals.now options.now flags.now)) ≡ true }
    ensures { IfOk result (λ o. option_map found_in o ≡
        arguments (form_of positionals.now options.now flags.now) (map string_bytes words.entry.now)) }
{
    if has_lone_dash(options, words) {
        return Ok(None);
    }
    let Ok(command) = command_with(alloc, positionals, options, flags) else {
        return Err(OutOfMemory);
    };
    match matches_by(command, words) {
        Ok(matches) => Ok(Some(matches)),
        Err(WordsFault::Usage) => Ok(None),
        Err(WordsFault::OutOfMemory) => Err(OutOfMemory),
    }
}
