//! A word of a command, and what it becomes for clap.

use clap::builder::ValueParser;
use clap::{Arg, ArgAction, Command};
use std::alloc::{AllocError, Global};

/// What is typed for a word, behind two dashes.
#[derive(Clone, Copy)]
pub(crate) enum Typed {
    /// Its name.
    Name,
    /// This.
    As(&'static str),
    /// Nothing: its place tells what it is.
    Nothing,
}

/// What stands behind a word.
#[derive(Clone, Copy)]
pub(crate) enum Values {
    /// Nothing: it is there or is not.
    Nothing,
    /// One text.
    Text,
    /// One of these names.
    Name(&'static [&'static str]),
    /// One number of 32 bits, from the first of these to the second.
    Number(i64, i64),
    /// One number of 64 bits, from the first of these to the second.
    Count(u64, u64),
    /// So many texts; it can be given again.
    Each(usize),
    /// So many texts and more.
    Many(usize),
}

/// A word of a command.
#[derive(Clone, Copy)]
pub(crate) struct Word {
    /// By what it is asked for once it is matched.
    pub(crate) name: &'static str,
    pub(crate) typed: Typed,
    /// What help calls its values.
    pub(crate) value_names: &'static [&'static str],
    pub(crate) help: &'static str,
    pub(crate) values: Values,
    /// Its value where it is not there.
    pub(crate) default: Option<&'static str>,
    pub(crate) is_required: bool,
    /// It is required where none of these is given.
    pub(crate) unless: &'static [&'static str],
    /// It is refused beside each of these.
    pub(crate) beside: &'static [&'static str],
    /// It is refused without one of these.
    pub(crate) without: &'static [&'static str],
}

/// A word that is there or is not.
pub(crate) const FLAG: Word = Word {
    name: "",
    typed: Typed::Name,
    value_names: &[],
    help: "",
    values: Values::Nothing,
    default: None,
    is_required: false,
    unless: &[],
    beside: &[],
    without: &[],
};

/// A word with a text behind it.
pub(crate) const TEXT: Word = Word {
    values: Values::Text,
    ..FLAG
};

/// A word with the path of a file behind it.
pub(crate) const FILE: Word = Word {
    value_names: &["FILE"],
    ..TEXT
};

/// A word with a number of any size behind it.
pub(crate) const COUNT: Word = Word {
    value_names: &["N"],
    values: Values::Count(0, u64::MAX),
    ..FLAG
};

impl Word {
    // What reads its values, where they are no mere texts.
    fn parser(self) -> Option<ValueParser<'static>> {
        match self.values {
            Values::Nothing | Values::Text | Values::Each(_) | Values::Many(_) => None,
            Values::Name(names) => Some(ValueParser::Names(names)),
            Values::Number(least, most) => Some(ValueParser::Signed(least, most)),
            Values::Count(least, most) => Some(ValueParser::Unsigned(least, most)),
        }
    }

    // With what stands behind it.
    fn with_values<'a>(self, argument: Arg<'a>) -> Arg<'a> {
        let argument = match self.values {
            Values::Nothing => return argument.action(ArgAction::SetTrue),
            Values::Each(count) => argument.num_args(count).action(ArgAction::Append),
            Values::Many(least) => argument.num_args(least..).action(ArgAction::Append),
            _ => argument.action(ArgAction::Set),
        };
        argument.value_names(self.value_names)
    }

    // With what is told of it, and whether it has to be there.
    fn with_help<'a>(self, argument: Arg<'a>) -> Arg<'a> {
        let argument = argument.help(self.help).required(self.is_required);
        let argument = match self.typed {
            Typed::Name => argument.long(self.name),
            Typed::As(typed) => argument.long(typed),
            Typed::Nothing => argument,
        };
        let argument = match self.parser() {
            Some(parser) => argument.value_parser(parser),
            None => argument,
        };
        match self.default {
            Some(default) => argument.default_value(default),
            None => argument,
        }
    }

    // As clap takes it.
    fn argument<'a>(self, alloc: Global) -> Result<Arg<'a>, AllocError> {
        let argument = self.with_help(self.with_values(Arg::new(alloc, self.name)));
        argument
            .required_unless_present_any(self.unless)?
            .conflicts_with_all(self.beside)?
            .requires_all(self.without)
    }
}

/// A command, and its words in their order.
#[derive(Clone, Copy)]
pub(crate) struct Subcommand {
    pub(crate) name: &'static str,
    pub(crate) about: &'static str,
    pub(crate) long_about: &'static str,
    pub(crate) words: &'static [Word],
}

impl Subcommand {
    // As clap takes it.
    fn command<'a>(self, alloc: Global) -> Result<Command<'a>, AllocError> {
        let mut command = Command::new(alloc, self.name)
            .about(self.about)
            .long_about(self.long_about);
        for word in self.words {
            command = command.arg(word.argument(alloc)?)?;
        }
        Ok(command)
    }

    /// The program with this command, too.
    pub(crate) fn add_to<'a>(
        self,
        alloc: Global,
        program: Command<'a>,
    ) -> Result<Command<'a>, AllocError> {
        let command = self.command(alloc)?;
        program.subcommand(command)
    }
}
