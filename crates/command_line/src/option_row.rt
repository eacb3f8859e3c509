//! A command and its options as data, and the clap argument of an option.

ghost use Rattle.std.specs.Prelude.{◌≡◌, false};
ghost use Rattle.clap.specs.Words.{rule_of};
ghost use Rattle.command_line.specs.CommandLine.{numbered, option, optional, optional_numbers, optional_values};
ghost use Rattle.command_line.specs.CommandRows.{rule_of_row};

use crate::help_text::{ASK_VALUES, START_VALUES};
use clap::builder::ValueParser;
use clap::{Arg, ArgAction};
use std::alloc::Global;

/// A command: its name, its description, the notes below its options in the help, and its options.
#[derive(Clone, Copy)]
pub(crate) struct CommandRow {
    pub(crate) name: &'static str,
    pub(crate) about: &'static str,
    pub(crate) notes: &'static str,
    pub(crate) options: &'static [OptionRow],
}

/// An option: its name, the name of its value in the help, and its description.
#[derive(Clone, Copy)]
pub(crate) enum OptionRow {
    /// Required; its value is a text.
    Needed(&'static str, &'static str, &'static str),
    /// Its value is a text.
    Optional(&'static str, &'static str, &'static str),
    /// Required; its value is a whole number from a least to a most.
    NeededNumber(&'static str, &'static str, &'static str, u64, u64),
    /// Its value is a whole number from a least to a most.
    Number(&'static str, &'static str, &'static str, u64, u64),
    /// It has no value.
    Flag(&'static str, &'static str),
    /// Its values are two whole numbers, CONNECTOR and SECONDS.
    Asking(&'static str, &'static str),
    /// Its values are two or three texts, CONNECTOR, TAG and FILE.
    Starting(&'static str, &'static str),
}

/// Returns the clap argument of an option in the command line's definition, with its name, its
/// value and its help.
pub(crate) fn arg_of<'a>(alloc: Global, row: &OptionRow) -> Arg<'a>
    ensures rule { rule_of result ≡ rule_of_row row.now }
    ensures global { result.global ≡ false }
{
    match *row {
        OptionRow::Needed(name, value, help) => {
            text_option(alloc, name, value, help).required(true)
        }
        OptionRow::Optional(name, value, help) => text_option(alloc, name, value, help),
        OptionRow::NeededNumber(name, value, help, least, most) => {
            number_option(alloc, name, value, help, least, most).required(true)
        }
        OptionRow::Number(name, value, help, least, most) => {
            number_option(alloc, name, value, help, least, most)
        }
        OptionRow::Flag(name, help) => option(alloc, name, help).action(ArgAction::SetTrue),
        OptionRow::Asking(name, help) => asking_option(alloc, name, help),
        OptionRow::Starting(name, help) => starting_option(alloc, name, help),
    }
}

/// Returns the clap argument of an option of the command line whose value is a text.
fn text_option<'a>(alloc: Global, name: &'a str, value: &'a str, help: &'a str) -> Arg<'a>
    ensures rule { rule_of result ≡ optional name.now }
    ensures global { result.global ≡ false }
{
    option(alloc, name, help).value_name(value)
}

/// Returns the clap argument of an option of the command line whose value is a whole number from a
/// least to a most.
fn number_option<'a>(
    alloc: Global,
    name: &'a str,
    value: &'a str,
    help: &'a str,
    least: u64,
    most: u64,
) -> Arg<'a>
    ensures rule { rule_of result ≡ numbered least most (optional name.now) }
    ensures global { result.global ≡ false }
{
    text_option(alloc, name, value, help).value_parser(ValueParser::unsigned(least, most))
}

/// Returns the clap argument of an option of the command line whose values are CONNECTOR and
/// SECONDS.
fn asking_option<'a>(alloc: Global, name: &'a str, help: &'a str) -> Arg<'a>
    ensures rule { rule_of result ≡ optional_numbers name.now 2147483647 }
    ensures global { result.global ≡ false }
{
    option(alloc, name, help)
        .num_args(2usize)
        .value_names(ASK_VALUES.as_slice())
        // Both become fields of a message, which are read as `i32`.
        .value_parser(ValueParser::unsigned(0, 2_147_483_647))
}

/// Returns the clap argument of an option of the command line whose values are CONNECTOR, TAG and
/// maybe FILE.
fn starting_option<'a>(alloc: Global, name: &'a str, help: &'a str) -> Arg<'a>
    ensures rule { rule_of result ≡ optional_values name.now }
    ensures global { result.global ≡ false }
{
    option(alloc, name, help)
        .num_args(2usize..=3usize)
        .value_names(START_VALUES.as_slice())
}

/// Returns the clap argument of an option of the command line that takes a value.
fn option<'a>(alloc: Global, name: &'a str, help: &'a str) -> Arg<'a>
    ensures rule { rule_of result ≡ option name.now }
    ensures global { result.global ≡ false }
{
    Arg::new(alloc, name)
        .long(name)
        .action(ArgAction::Set)
        .help(help)
}
