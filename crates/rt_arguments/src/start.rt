//! What `main` does: words in, and an exit status.

use crate::host::{Asked, Escaped, LaidFile, ProgramFault, Terminals, perform, tell};
use crate::misread::Misread;
use crate::near::Near;
use crate::requests::{excepted_of, failings_of, hides_progress, laid_of, request_of};
use clap::ArgMatches;
use clap::error::ErrorKind;
use rt_command_line::pages::{Page, Printed};
use rt_command_line::reasons::Named;
use rt_command_line::{ABOUT, Misfit, read_words};
use rt_programs::SimFault;
use rt_sink::{OverWrite, put_bytes};
use std::alloc::AllocError;
use std::env::Env;
use std::fmt::Display;
use std::io::Input;
use std::process::ExitCode;
use std::rt::Files;
use std::time::Clock;
use std::{env, io};

/// Prints a text to the standard output. The device's fault counts the bytes that were delivered.
fn print_text<R: Print + AllocGlobal, D: Display>(rt: &R, text: &D) -> Result<(), SimFault> {
    let text = format!(in rt.alloc(); "{text}")?;
    let mut out = OverWrite::new(io::writer(rt));
    Ok(put_bytes(&mut out, text.as_bytes())?)
}

/// Prints what helps to the standard output.
fn print_help<R: Print + Eprint + AllocGlobal, D: Display>(rt: &R, text: &D) -> ExitCode {
    match print_text(rt, text) {
        Ok(()) => ExitCode::SUCCESS,
        Err(fault) => tell(rt, ProgramFault::Sim(fault)),
    }
}

/// Reports a fault of the words on the standard error.
fn tell_fault<R: Eprint + AllocGlobal, D: Display>(rt: &R, fault: &D) -> ExitCode {
    let Ok(text) = format!(in rt.alloc(); "{fault}") else {
        return tell(rt, ProgramFault::Sim(SimFault::Memory));
    };
    // There is nothing left to do where this fails.
    let _ = eprint!(rt; "{}", Escaped::lines(&text));
    ExitCode::from(2)
}

/// The word that is to be explained, by `help WORD`.
fn asked_word(words: &[String]) -> Option<&str> {
    match words {
        [_, help, word] if help.as_str() == "help" => Some(word.as_str()),
        _ => None,
    }
}

/// Whether the words ask for all that the program says of itself.
fn asks_about(words: &[String]) -> bool {
    match words {
        [_, version, verbose] => matches!(
            (version.as_str(), verbose.as_str()),
            ("--version", "--verbose") | ("-V", "-V")
        ),
        _ => false,
    }
}

/// Explains a word that is no command: the reasons of that name, or what programs print by it. Else it is a fault, and the nearest word
/// that is explained is proposed.
#[inline(never)]
fn explain<R: Print + Eprint + AllocGlobal>(rt: &R, word: &str, error: &clap::Error) -> ExitCode {
    match (Named::by(word), Printed::by(word)) {
        (Some(named), _) => print_help(rt, &named),
        (None, Some(printed)) => print_help(rt, &printed),
        (None, None) => match Near::of(rt.alloc(), word) {
            Ok(Some(near)) => tell_fault(rt, &near),
            Ok(None) => tell_fault(rt, error),
            Err(AllocError) => tell(rt, ProgramFault::Sim(SimFault::Memory)),
        },
    }
}

/// The page that is asked for, if one is.
fn asked_page(matches: &ArgMatches<'_>) -> Option<Page> {
    match matches.subcommand()? {
        ("man", _) => Some(Page::Manual),
        ("completions", matches) => match matches.get_str("SHELL")? {
            "bash" => Some(Page::Bash),
            "zsh" => Some(Page::Zsh),
            _ => Some(Page::Fish),
        },
        _ => None,
    }
}

/// Prints what the table of commands makes.
#[inline(never)]
fn print_page<R: Print + Eprint + AllocGlobal>(rt: &R, page: Page) -> ExitCode {
    print_help(rt, &page)
}

/// Prints clap's own text: help to the standard output, and a fault to the standard error. Where clap has no such command, a word is
/// explained.
fn tell_words<R: Print + Eprint + AllocGlobal>(
    rt: &R,
    words: &[String],
    error: &clap::Error,
) -> ExitCode {
    if error.kind() == ErrorKind::OutOfMemory {
        return tell(rt, ProgramFault::Sim(SimFault::Memory));
    }
    if !error.use_stderr() {
        return print_help(rt, error);
    }
    match asked_word(words) {
        Some(word) => explain(rt, word, error),
        None => tell_fault(rt, error),
    }
}

/// Tells that the words ask for nothing, and which option is wrong.
fn tell_misread<R: Eprint + AllocGlobal>(rt: &R, matches: &ArgMatches<'_>) -> ExitCode {
    if let Some(misfit) = Misfit::of(matches) {
        return tell_fault(rt, &misfit);
    }
    let status = tell(rt, ProgramFault::Words);
    if let Some(misread) = Misread::of(matches) {
        // There is nothing left to do where this fails.
        let _ = eprintln!(rt; "  {misread}");
    }
    status
}

/// The words of the command line.
fn words<R: Env + AllocGlobal>(rt: &R) -> Result<Vec<String>, ProgramFault<'static>> {
    let words = match env::args(rt) {
        Ok(args) => args.collect(rt.alloc()),
        Err(error) if error.kind() == io::ErrorKind::OutOfMemory => Err(AllocError),
        Err(_) => return Err(ProgramFault::Words),
    };
    words.map_err(|_| ProgramFault::Sim(SimFault::Memory))
}

/// Does what the matches ask for, with the failures that are asked for looked for, or with these files in the image that is made.
fn ask<R: Print + Eprint + AllocGlobal + Files + Env + Input + Clock>(
    rt: &R,
    matches: &ArgMatches<'_>,
    asked: Asked<'_>,
    laid: &[LaidFile<'_>],
    terminals: Terminals,
) -> ExitCode {
    match request_of(matches, asked, laid) {
        Some(request) => perform(rt, request, terminals),
        None => tell_misread(rt, matches),
    }
}

/// Does what the command line asks for, and tells the fault on the standard error. Where the input is typed at a terminal, a session asks
/// for it; where the standard error is one, it shows how far a run has come, unless that is to be hidden.
pub fn run<R: Print + Eprint + AllocGlobal + Files + Env + Input + Clock>(
    rt: &R,
    terminals: Terminals,
) -> ExitCode {
    let words = match words(rt) {
        Ok(words) => words,
        Err(fault) => return tell(rt, fault),
    };
    if asks_about(&words) {
        return print_help(rt, &ABOUT);
    }
    let matches = match read_words(rt.alloc(), &words) {
        Ok(matches) => matches,
        Err(error) => return tell_words(rt, &words, &error),
    };
    if let Some(page) = asked_page(&matches) {
        return print_page(rt, page);
    }
    let (Ok(fail_on), Ok(except), Ok(laid)) = (
        failings_of(rt.alloc(), &matches),
        excepted_of(rt.alloc(), &matches),
        laid_of(rt.alloc(), &matches),
    ) else {
        return tell(rt, ProgramFault::Sim(SimFault::Memory));
    };
    let asked = Asked {
        fail_on: &fail_on,
        except: &except,
    };
    let error = terminals.error && !hides_progress(&matches);
    ask(rt, &matches, asked, &laid, Terminals { error, ..terminals })
}
