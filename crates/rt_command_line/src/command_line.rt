//! The words of the command line, as clap reads them by the table.

use crate::help_texts;
use crate::table::{Choice, OTHERS, Program, Row, SHELLS, Takes, Wanted, commands, named};
use crate::version::VERSION;
use clap::{Arg, ArgAction, ArgMatches, Command, Error};
use std::alloc::{AllocError, Global};

/// An option with what it takes.
fn option_taking<'a>(alloc: Global, name: &'static str, takes: Takes) -> Arg<'a> {
    let option = Arg::new(alloc, name).long(name);
    match takes {
        Takes::Nothing => option.action(ArgAction::SetTrue),
        Takes::Word(value) | Takes::Task(value) => option.value_name(value),
        Takes::Words(value) => option.value_name(value).action(ArgAction::Append),
        Takes::Number(value, _, _) | Takes::Bytes(value, _) => {
            option.value_name(value).allow_negative_numbers(true)
        }
        Takes::Some(words) => option
            .value_name("LIST")
            .value_delimiter(',')
            .value_parser(words),
        Takes::Tasks => option.value_name("LIST").value_delimiter(','),
    }
}

/// An option, as clap has it.
fn option<'a>(alloc: Global, choice: &Choice) -> Result<Arg<'a>, AllocError> {
    let Choice(name, takes, wanted, help) = *choice;
    let option = option_taking(alloc, name, takes).help(help);
    match wanted {
        Wanted::No => Ok(option),
        Wanted::Yes => Ok(option.required(true)),
        Wanted::Else(value) => Ok(option.default_value(value)),
        Wanted::Without(other) => option.conflicts_with(other),
        Wanted::WithoutAny(others) => option.conflicts_with_all(others),
        Wanted::With(other) => option.requires_arg(other),
    }
}

/// A command, as clap has it.
fn command<'a>(alloc: Global, row: &Row) -> Result<Command<'a>, AllocError> {
    let mut command = Command::new(alloc, row.name)
        .about(row.about)
        .after_help(row.help);
    for (name, help) in row.files {
        command = command.arg(Arg::new(alloc, *name).required(true).help(*help))?;
    }
    for choice in row.options {
        command = command.arg(option(alloc, choice)?)?;
    }
    Ok(command)
}

fn whole_command<'a>(alloc: Global) -> Result<Command<'a>, AllocError> {
    let mut whole = Command::new(alloc, "rt_sim")
        .version(VERSION)
        .about("Simulates tasks on one RISC-V hart, tick by tick")
        .after_help(help_texts::PROGRAM)
        .subcommand_required(true);
    for row in &commands() {
        whole = whole.subcommand(command(alloc, row)?)?;
    }
    let [(completions, about), (manual, about_it), _] = OTHERS;
    let shell = Arg::new(alloc, "SHELL")
        .required(true)
        .help("bash, zsh or fish")
        .value_parser(SHELLS);
    let completions = Command::new(alloc, completions).about(about).arg(shell)?;
    whole
        .subcommand(completions)?
        .subcommand(Command::new(alloc, manual).about(about_it))
}

/// Reads the words, the first of which is the program's own name.
///
/// # Errors
///
/// The words ask for help, or for nothing that there is, or there is no memory.
pub fn read_words<'a>(alloc: Global, words: &'a [String]) -> Result<ArgMatches<'a>, Error> {
    whole_command(alloc)?.try_get_matches_from(words)
}

/// What a command does, by its name, and the name of the first file that it names.
pub fn program_named(name: &str) -> Option<(Program, &'static str)> {
    let row = named(name)?;
    let (file, _) = row.files.first()?;
    Some((row.program, *file))
}
