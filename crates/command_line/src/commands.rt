//! The program's commands, as clap defines them.

ghost use Rattle.std.specs.Prelude.{◌≡◌, IfOk, fold};
ghost use Rattle.clap.specs.Words.{app_of};
ghost use Rattle.command_line.specs.CommandLine.{central_app};
ghost use Rattle.command_line.specs.CommandRows.{app_of_row, with_command, with_row};

use crate::command_rows::command_rows;
use crate::help_text::{ABOUT, STATUSES, VERSION};
use crate::option_row::{CommandRow, OptionRow, arg_of};
use clap::Command;
use std::alloc::{AllocError, Global};

/// Returns the program's commands, with their help.
#[tactic(auto, unfolding(crate::specs::CommandLine::central_app))]
pub fn central_command<'a>(alloc: Global) -> Result<Command<'a>, AllocError>
    ensures { IfOk result (λ command. app_of command ≡ central_app) }
{
    let top = Command::new(alloc, "central")
        .version(VERSION)
        .about(ABOUT)
        .after_help(STATUSES)
        .subcommand_required(true);
    with_commands(alloc, top, &command_rows())
}

/// Adds commands with their options to the command line's definition for clap.
fn with_commands<'a>(
    alloc: Global,
    top: Command<'a>,
    rows: &[CommandRow],
) -> Result<Command<'a>, AllocError>
    ensures { IfOk result (λ added. app_of added ≡ fold with_command (app_of top.entry) rows.now) }
{
    let mut command = top;
    for row in rows {
        command = command.subcommand(command_of(alloc, row)?)?;
    }
    Ok(command)
}

/// Returns the clap command of a command of the command line, with its options.
fn command_of<'a>(alloc: Global, row: &CommandRow) -> Result<Command<'a>, AllocError>
    ensures { IfOk result (λ command. app_of command ≡ app_of_row row.now) }
{
    let plain = Command::new(alloc, row.name)
        .about(row.about)
        .after_help(row.notes);
    with_options(alloc, plain, row.options)
}

/// Adds options with their help to a command in the command line's definition for clap.
fn with_options<'a>(
    alloc: Global,
    plain: Command<'a>,
    rows: &[OptionRow],
) -> Result<Command<'a>, AllocError>
    ensures { IfOk result (λ added. app_of added ≡ fold with_row (app_of plain.entry) rows.now) }
{
    let mut command = plain;
    for row in rows {
        command = command.arg(arg_of(alloc, row))?;
    }
    Ok(command)
}
