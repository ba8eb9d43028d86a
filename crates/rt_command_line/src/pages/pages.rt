//! Texts that the table of commands makes: what a shell completes, and the page of the manual.

use crate::{Choice, OTHERS, PROGRAM, Row, SHELLS, Takes, commands};
use std::fmt;

/// A text that the table of commands makes.
#[derive(Clone, Copy)]
pub enum Page {
    Bash,
    Zsh,
    Fish,
    Manual,
}

impl fmt::Display for Page {
    fn fmt<W: fmt::Write>(&self, f: &mut fmt::Formatter<W>) -> fmt::Result {
        match self {
            Page::Bash => write_bash(f),
            Page::Zsh => write_zsh(f),
            Page::Fish => write_fish(f),
            Page::Manual => write_manual(f),
        }
    }
}

/// A text within single quotes of a shell, in which a mark stands before each colon that isn't to separate.
#[derive(Clone, Copy)]
struct Quoted {
    text: &'static str,
    marks_colons: bool,
}

impl fmt::Display for Quoted {
    fn fmt<W: fmt::Write>(&self, f: &mut fmt::Formatter<W>) -> fmt::Result {
        for letter in self.text.chars() {
            match letter {
                '\'' => f.write_str("'\\''")?,
                ':' if self.marks_colons => f.write_str("\\:")?,
                _ => write!(f, "{letter}")?,
            }
        }
        Ok(())
    }
}

/// The words of a list, each behind a blank.
fn write_words<W: fmt::Write>(f: &mut fmt::Formatter<W>, words: &[&str]) -> fmt::Result {
    for word in words {
        write!(f, " {word}")?;
    }
    Ok(())
}

/// The options of a command, each behind a blank.
fn write_options<W: fmt::Write>(f: &mut fmt::Formatter<W>, row: &Row) -> fmt::Result {
    for Choice(name, _, _, _) in row.options {
        write!(f, " --{name}")?;
    }
    Ok(())
}

/// Bash completes commands, options, the words of `--fail-on`, and else files.
#[inline(never)]
fn write_bash<W: fmt::Write>(f: &mut fmt::Formatter<W>) -> fmt::Result {
    f.write_str("_rt_sim() {\n  local words=\n  case ${COMP_WORDS[1]} in\n")?;
    for row in &commands() {
        write!(f, "    {}) words='", row.name)?;
        write_options(f, row)?;
        f.write_str("' ;;\n")?;
    }
    f.write_str("    completions) words='")?;
    write_words(f, SHELLS)?;
    f.write_str("' ;;\n  esac\n  [[ $COMP_CWORD == 1 || ${COMP_WORDS[1]} == help ]] && words='")?;
    for row in &commands() {
        write!(f, " {}", row.name)?;
    }
    for (name, _) in &OTHERS {
        write!(f, " {name}")?;
    }
    f.write_str("'\n  [[ ${COMP_WORDS[COMP_CWORD-1]} == --fail-on ]] && words='")?;
    write_words(f, failures())?;
    f.write_str(
        "'\n  COMPREPLY=($(compgen -W \"$words\" -- \"${COMP_WORDS[COMP_CWORD]}\"))\n}\ncomplete -o default -F _rt_sim rt_sim\n",
    )
}

/// The words of the option that takes the most of a list.
fn failures() -> &'static [&'static str] {
    let mut most: &[&str] = &[];
    for row in &commands() {
        for Choice(_, takes, _, _) in row.options {
            if let Takes::Some(words) = takes
                && words.len() > most.len()
            {
                most = *words;
            }
        }
    }
    most
}

/// An entry of a list of zsh: a name and what it does.
fn write_entry<W: fmt::Write>(
    f: &mut fmt::Formatter<W>,
    name: &str,
    about: &'static str,
) -> fmt::Result {
    let about = Quoted {
        text: about,
        marks_colons: true,
    };
    write!(f, " '{name}:{about}'")
}

/// The list of a command's options for zsh.
fn write_zsh_options<W: fmt::Write>(f: &mut fmt::Formatter<W>, row: &Row) -> fmt::Result {
    write!(f, "  {}) options=(", row.name)?;
    for choice in row.options {
        let Choice(name, _, _, about) = *choice;
        write_entry(f, name, about)?;
    }
    f.write_str(") ;;\n")
}

/// The list of all commands for zsh.
fn write_zsh_commands<W: fmt::Write>(f: &mut fmt::Formatter<W>) -> fmt::Result {
    f.write_str("commands=(")?;
    for row in &commands() {
        write_entry(f, row.name, row.about)?;
    }
    for other in &OTHERS {
        let (name, about) = *other;
        write_entry(f, name, about)?;
    }
    f.write_str(")\n")
}

/// Zsh shows what each command and option does.
#[inline(never)]
fn write_zsh<W: fmt::Write>(f: &mut fmt::Formatter<W>) -> fmt::Result {
    f.write_str("#compdef rt_sim\nlocal -a commands options\n")?;
    write_zsh_commands(f)?;
    f.write_str("case $words[2] in\n")?;
    for row in &commands() {
        write_zsh_options(f, row)?;
    }
    f.write_str(
        "esac\nif (( CURRENT == 2 )) || [[ $words[2] == help ]]; then\n  _describe command commands\nelif [[ $words[2] == completions ]]; then\n  compadd",
    )?;
    write_words(f, SHELLS)?;
    f.write_str(
        "\nelif [[ $words[CURRENT] == -* ]]; then\n  options=(--${^options})\n  _describe -o option options\nelse\n  _files\nfi\n",
    )
}

/// Fish shows what each command and option does.
#[inline(never)]
fn write_fish<W: fmt::Write>(f: &mut fmt::Formatter<W>) -> fmt::Result {
    for row in &commands() {
        write_fish_command(f, row.name, row.about)?;
        for Choice(name, takes, _, about) in row.options {
            let about = Quoted {
                text: about,
                marks_colons: false,
            };
            let value = if let Takes::Nothing = takes {
                ""
            } else {
                " -x"
            };
            write!(
                f,
                "complete -c rt_sim -n '__fish_seen_subcommand_from {}' -l {name}{value} -d '{about}'\n",
                row.name
            )?;
        }
    }
    for (name, about) in &OTHERS {
        write_fish_command(f, name, about)?;
    }
    f.write_str("complete -c rt_sim -n '__fish_seen_subcommand_from completions' -f -a '")?;
    write_words(f, SHELLS)?;
    f.write_str("'\n")
}

fn write_fish_command<W: fmt::Write>(
    f: &mut fmt::Formatter<W>,
    name: &str,
    about: &'static str,
) -> fmt::Result {
    let about = Quoted {
        text: about,
        marks_colons: false,
    };
    write!(
        f,
        "complete -c rt_sim -n __fish_use_subcommand -f -a {name} -d '{about}'\n"
    )
}

/// A text of the manual: what would command its formatter is escaped, and its lines stay.
#[derive(Clone, Copy)]
struct Plain(&'static str);

impl fmt::Display for Plain {
    fn fmt<W: fmt::Write>(&self, f: &mut fmt::Formatter<W>) -> fmt::Result {
        for line in self.0.lines() {
            f.write_str("\\&")?;
            for letter in line.chars() {
                match letter {
                    '\\' => f.write_str("\\e")?,
                    '-' => f.write_str("\\-")?,
                    _ => write!(f, "{letter}")?,
                }
            }
            f.write_str("\n")?;
        }
        Ok(())
    }
}

/// A command's section of the manual.
fn write_section<W: fmt::Write>(f: &mut fmt::Formatter<W>, row: &Row) -> fmt::Result {
    write!(f, ".SS {}", row.name)?;
    for (name, _) in row.files {
        write!(f, " {name}")?;
    }
    write!(f, "\n{}", Plain(row.about))?;
    for (name, about) in row.files {
        write!(f, ".TP\n{name}\n{}", Plain(about))?;
    }
    for Choice(name, takes, _, about) in row.options {
        write!(f, ".TP\n\\-\\-{name}")?;
        match takes {
            Takes::Nothing => {}
            Takes::Some(_) | Takes::Tasks => f.write_str(" LIST")?,
            Takes::Word(value)
            | Takes::Task(value)
            | Takes::Words(value)
            | Takes::Number(value, _, _)
            | Takes::Bytes(value, _) => { write!(f, " {value}")? }
        }
        write!(f, "\n{}", Plain(about))?;
    }
    write!(f, ".PP\n.nf\n{}.fi\n", Plain(row.help))
}

#[inline(never)]
fn write_manual<W: fmt::Write>(f: &mut fmt::Formatter<W>) -> fmt::Result {
    f.write_str(
        ".TH RT_SIM 1\n.SH NAME\nrt_sim \\- simulates tasks on one RISC\\-V hart, tick by tick\n.SH SYNOPSIS\n.B rt_sim\nCOMMAND FILE .. [OPTION ..]\n.SH DESCRIPTION\n.nf\n",
    )?;
    write!(f, "{}.fi\n.SH COMMANDS\n", Plain(PROGRAM))?;
    for row in &commands() {
        write_section(f, row)?;
    }
    for (name, about) in &OTHERS {
        write!(f, ".SS {name}\n{}", Plain(about))?;
    }
    Ok(())
}
