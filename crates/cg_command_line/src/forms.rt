//! Commands as tables: what each is called, its words and options, and what its help says.
use clap::{Arg, ArgAction, Command, value_parser};
use std::alloc::{AllocError, Global};

/// A command of the program.
#[derive(Clone, Copy)]
pub(crate) struct CommandForm {
    pub(crate) name: &'static str,
    pub(crate) about: &'static str,
    // What stands behind its help: examples, and what its status says.
    pub(crate) more: &'static str,
    pub(crate) words: &'static [WordForm],
}

/// A word or an option of a command, each with its name and then its help.
#[derive(Clone, Copy)]
pub(crate) enum WordForm {
    /// A word that has to be there.
    Needed(&'static str, &'static str),
    /// One such word, or more.
    Several(&'static str, &'static str),
    /// A word that is the last of these where it isn't given.
    Default(&'static str, &'static str, &'static str),
    /// An option without a value.
    Flag(&'static str, &'static str),
    /// The same, which can't stand beside these options.
    FlagApart(&'static str, &'static str, &'static [&'static str]),
    /// The same, with a letter.
    ShortFlag(&'static str, &'static str, char, &'static [&'static str]),
    /// An option with a value that is called so.
    Value(&'static str, &'static str, &'static str),
    /// The same, as often as one likes.
    Values(&'static str, &'static str, &'static str),
    /// The same, where the last of these options is given, too.
    ValueBeside(&'static str, &'static str, &'static str, &'static str),
    /// An option with a value that is called so, and is one of these.
    OneOf(&'static str, &'static str, &'static str, &'static [&'static str]),
    /// An option with a number that is called so, from 1 to so many, and the number where none is given.
    Number(&'static str, &'static str, &'static str, u32, &'static str),
}

impl CommandForm {
    // The command for clap.
    pub(crate) fn command<'a>(self, alloc: Global) -> Result<Command<'a>, AllocError> {
        let command = Command::new(alloc, self.name)
            .about(self.about)
            .after_help(self.more);
        with_words(alloc, command, self.words)
    }
}

/// The command with these words and options.
pub(crate) fn with_words<'a>(
    alloc: Global,
    mut command: Command<'a>,
    words: &[WordForm],
) -> Result<Command<'a>, AllocError> {
    for word in words {
        command = command.arg(word.arg(alloc)?)?;
    }
    Ok(command)
}

impl WordForm {
    // The word or option for clap.
    fn arg<'a>(self, alloc: Global) -> Result<Arg<'a>, AllocError> {
        match self {
            WordForm::Needed(name, help) => Ok(word(alloc, name, help).required(true)),
            WordForm::Several(name, help) => {
                Ok(word(alloc, name, help).required(true).num_args(1..))
            }
            WordForm::Default(name, help, value) => {
                Ok(word(alloc, name, help).default_value(value))
            }
            WordForm::Flag(name, help) => Ok(flag(alloc, name, help)),
            WordForm::FlagApart(name, help, others) => {
                flag(alloc, name, help).conflicts_with_all(others)
            }
            WordForm::ShortFlag(name, help, letter, others) => flag(alloc, name, help)
                .short(letter)
                .conflicts_with_all(others),
            WordForm::Value(name, help, value) => Ok(option(alloc, name, help).value_name(value)),
            WordForm::Values(name, help, value) => Ok(
                option(alloc, name, help)
                    .value_name(value)
                    .action(ArgAction::Append),
            ),
            WordForm::ValueBeside(name, help, value, other) => option(alloc, name, help)
                .value_name(value)
                .requires_arg(other),
            WordForm::OneOf(name, help, value, values) => Ok(
                option(alloc, name, help)
                    .value_name(value)
                    .value_parser(values),
            ),
            WordForm::Number(name, help, value, most, default) => Ok(
                option(alloc, name, help)
                    .value_name(value)
                    .value_parser(value_parser!(u32).range(1..=i64::from(most)))
                    .default_value(default),
            ),
        }
    }
}

// A word.
fn word<'a>(alloc: Global, name: &'a str, help: &'a str) -> Arg<'a> {
    Arg::new(alloc, name).help(help)
}

// An option.
fn option<'a>(alloc: Global, name: &'a str, help: &'a str) -> Arg<'a> {
    Arg::new(alloc, name).long(name).help(help)
}

// An option without a value.
fn flag<'a>(alloc: Global, name: &'a str, help: &'a str) -> Arg<'a> {
    option(alloc, name, help).action(ArgAction::SetTrue)
}
