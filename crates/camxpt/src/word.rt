//! The arguments of the subcommands.

use clap::{Arg, ArgAction, value_parser};
use std::alloc::Global;

/// An argument of a subcommand: its name, then of an option with a value what the help calls the value, and last its line in the help.
/// An option has its name after two hyphens; a word goes by its place.
#[derive(Clone, Copy)]
pub(crate) enum NamedArgument {
    /// An option without a value.
    Flag(&'static str, &'static str),
    /// An option with a text.
    Text(&'static str, &'static str, &'static str),
    /// An option with a text, which can't be left out.
    NeededText(&'static str, &'static str, &'static str),
    /// An option with a text that may be given several times.
    Texts(&'static str, &'static str, &'static str),
    /// An option with one of these words.
    OneOf(&'static str, &'static str, &'static [&'static str], &'static str),
    /// The same, which can't be left out.
    NeededOneOf(&'static str, &'static str, &'static [&'static str], &'static str),
    /// An option with a number, which the help calls N.
    Number(&'static str, &'static str),
    /// The same of 32 bits.
    SmallNumber(&'static str, &'static str),
    /// A word.
    Word(&'static str, &'static str),
    /// A word that can't be left out.
    NeededWord(&'static str, &'static str),
    /// The same, which is a shell's name.
    ShellName(&'static str, &'static str),
    /// The same, which is a number.
    NeededNumber(&'static str, &'static str),
    /// Words of which one can't be left out.
    Words(&'static str, &'static str),
}

impl NamedArgument {
    /// The argument, as the command line takes and explains it.
    pub(crate) fn arg<'a>(self, alloc: Global) -> Arg<'a> {
        match self {
            NamedArgument::Flag(name, help) => word(alloc, name, help)
                .long(name)
                .action(ArgAction::SetTrue),
            NamedArgument::Text(name, value, help) => option(alloc, name, value, help),
            NamedArgument::NeededText(name, value, help) => {
                option(alloc, name, value, help).required(true)
            }
            NamedArgument::Texts(name, value, help) => {
                option(alloc, name, value, help).action(ArgAction::Append)
            }
            NamedArgument::OneOf(name, value, words, help) => {
                option(alloc, name, value, help).value_parser(words)
            }
            NamedArgument::NeededOneOf(name, value, words, help) => {
                option(alloc, name, value, help)
                    .value_parser(words)
                    .required(true)
            }
            NamedArgument::Number(name, help) => {
                option(alloc, name, "N", help).value_parser(value_parser!(usize))
            }
            NamedArgument::SmallNumber(name, help) => {
                option(alloc, name, "N", help).value_parser(value_parser!(u32))
            }
            NamedArgument::Word(name, help) => word(alloc, name, help),
            NamedArgument::NeededWord(name, help) | NamedArgument::ShellName(name, help) => {
                word(alloc, name, help).required(true)
            }
            NamedArgument::NeededNumber(name, help) => word(alloc, name, help)
                .required(true)
                .value_parser(value_parser!(u64)),
            NamedArgument::Words(name, help) => word(alloc, name, help)
                .required(true)
                .num_args(1..)
                .action(ArgAction::Append),
        }
    }
}

fn option<'a>(
    alloc: Global,
    name: &'static str,
    value: &'static str,
    help: &'static str,
) -> Arg<'a> {
    word(alloc, name, help).long(name).value_name(value)
}

fn word<'a>(alloc: Global, name: &'static str, help: &'static str) -> Arg<'a> {
    Arg::new(alloc, name).help(help)
}
