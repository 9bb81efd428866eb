//! The scripts by which shells complete the program's words. Names and options are those of the table of subcommands.

use crate::shell::{SHELLS, Shell};
use crate::subcommands::{Subcommand, VERBOSE, subcommands};
use crate::word::NamedArgument;
use std::alloc::{AllocError, Global};

// A script that has a case for each subcommand.
struct Cases {
    // What stands before the names of the subcommands, after them, and after the cases.
    head: &'static str,
    middle: &'static str,
    tail: &'static str,
    // What stands in a case before the words, after words beside which there may be files, and after others.
    open: &'static str,
    with_files: &'static str,
    alone: &'static str,
}

const BASH: Cases = Cases {
    head: "_camxpt() {\n\
\x20   local word=${COMP_WORDS[COMP_CWORD]} words= files=-f\n\
\x20   if [ \"$COMP_CWORD\" -eq 1 ]; then\n\
\x20       words=\"",
    middle: "--help --version\" files=\n\
\x20   else\n\
\x20       case ${COMP_WORDS[1]} in\n",
    tail: "\x20       esac\n\
\x20   fi\n\
\x20   mapfile -t COMPREPLY < <(compgen $files -W \"$words\" -- \"$word\")\n\
}\n\
complete -o filenames -F _camxpt camxpt\n",
    open: "words=\"",
    with_files: "\" ;;\n",
    alone: "\" files= ;;\n",
};

const ZSH: Cases = Cases {
    head: "#compdef camxpt\n\
_camxpt() {\n\
\x20   if (( CURRENT == 2 )); then\n\
\x20       compadd -- ",
    middle: "--help --version\n\
\x20   else\n\
\x20       case $words[2] in\n",
    tail: "\x20       esac\n\
\x20       _files\n\
\x20   fi\n\
}\n\
compdef _camxpt camxpt\n",
    open: "compadd -- ",
    with_files: " ;;\n",
    alone: "; return ;;\n",
};

const FISH_HEAD: &str = "complete -c camxpt -n __fish_use_subcommand -f -a \"";

const FISH_MIDDLE: &str = "\"\n\
complete -c camxpt -n __fish_use_subcommand -l version\n\
complete -c camxpt -l help\n";

// What stands before the subcommand's name in a line of fish on an argument.
const FISH_WORD: &str = "complete -c camxpt -n \"__fish_seen_subcommand_from ";

/// The script by which a shell completes the program's words.
pub(crate) fn script(alloc: Global, shell: Shell) -> Result<String, AllocError> {
    let mut script = String::new(alloc);
    match shell {
        Shell::Bash => push_cases(alloc, &mut script, &BASH)?,
        Shell::Zsh => push_cases(alloc, &mut script, &ZSH)?,
        Shell::Fish => push_fish(alloc, &mut script)?,
    }
    Ok(script)
}

// Puts the names of the subcommands after the script, each with a space after it.
fn push_names(script: &mut String) -> Result<(), AllocError> {
    for group in subcommands() {
        push_names_of(script, group)?;
    }
    script.push_str("help ")
}

fn push_names_of(script: &mut String, group: &[Subcommand]) -> Result<(), AllocError> {
    for subcommand in group {
        write!(script, "{} ", subcommand.name)?;
    }
    Ok(())
}

fn push_cases(alloc: Global, script: &mut String, shell: &Cases) -> Result<(), AllocError> {
    script.push_str(shell.head)?;
    push_names(script)?;
    script.push_str(shell.middle)?;
    for group in subcommands() {
        push_cases_of(alloc, script, shell, group)?;
    }
    write!(script, "            help) {}", shell.open)?;
    push_names(script)?;
    write!(script, "{}{}", shell.alone, shell.tail)
}

fn push_cases_of(
    alloc: Global,
    script: &mut String,
    shell: &Cases,
    group: &[Subcommand],
) -> Result<(), AllocError> {
    for subcommand in group {
        push_case(alloc, script, shell, subcommand)?;
    }
    Ok(())
}

// Puts the case of a subcommand after the script. Files complete the arguments of each that takes no shell's name.
fn push_case(
    alloc: Global,
    script: &mut String,
    shell: &Cases,
    subcommand: &Subcommand,
) -> Result<(), AllocError> {
    write!(script, "            {}) {}", subcommand.name, shell.open)?;
    let mut takes_shell = false;
    for word in subcommand.words {
        if matches!(word, NamedArgument::ShellName(_, _)) {
            write!(script, "{SHELLS} ")?;
            takes_shell = true;
        } else if let Some(option) = word.arg(alloc).get_long() {
            write!(script, "--{option} ")?;
        }
    }
    let end = if takes_shell {
        shell.alone
    } else {
        shell.with_files
    };
    write!(script, "--verbose --help{end}")
}

// Puts the lines of fish after the script: one for each option, and for what takes names of shells or subcommands.
fn push_fish(alloc: Global, script: &mut String) -> Result<(), AllocError> {
    script.push_str(FISH_HEAD)?;
    push_names(script)?;
    script.push_str(FISH_MIDDLE)?;
    for group in subcommands() {
        push_fish_lines(alloc, script, group)?;
    }
    write!(script, "{FISH_WORD}help\" -f -a \"")?;
    push_names(script)?;
    script.push_str("\"\n")
}

fn push_fish_lines(
    alloc: Global,
    script: &mut String,
    group: &[Subcommand],
) -> Result<(), AllocError> {
    for subcommand in group {
        for word in subcommand.words {
            push_fish_line(alloc, script, subcommand.name, *word)?;
        }
        push_fish_line(alloc, script, subcommand.name, VERBOSE)?;
    }
    Ok(())
}

// Puts the line of fish on an argument of the subcommand of this name after the script, unless files complete it.
fn push_fish_line(
    alloc: Global,
    script: &mut String,
    name: &str,
    word: NamedArgument,
) -> Result<(), AllocError> {
    if matches!(word, NamedArgument::ShellName(_, _)) {
        return writeln!(script, "{FISH_WORD}{name}\" -f -a \"{SHELLS}\"");
    }
    let arg = word.arg(alloc);
    let Some(option) = arg.get_long() else {
        return Ok(());
    };
    let value = if arg.get_action().takes_values() {
        " -x"
    } else {
        ""
    };
    writeln!(script, "{FISH_WORD}{name}\" -l {option}{value}")
}
