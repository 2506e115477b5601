//! The command that clap is given. Each of its parts is a function of its own: clap's types are
//! large, and a proof goes over all that a function holds.
ghost use Rattle.std.specs.Prelude.{◌≡◌, true, IfOk};
ghost use Rattle.clap.specs.Words.{App, Rule, app_of, new_app, new_rule, with_rule};
ghost use Rattle.clap.specs.Words.{with_subcommand};
ghost use Rattle.program_arguments.specs.CommandLine.{HasOrderParser, boot_app, convert_app};
ghost use Rattle.program_arguments.specs.CommandLine.{digest_app, explain_app};
ghost use Rattle.program_arguments.specs.CommandLine.{top_app};
ghost use Rattle.program_arguments.specs.CommandLine.{line_app, out_rule, order_rule};
ghost use Rattle.program_arguments.specs.CommandLine.{image_flag_rule};
ghost use Rattle.program_arguments.specs.internal.CommandParts.{HasRule, IsApp};
ghost use Rattle.clap.specs.declared.builder.value_parser.ValueParser.TheVariants.{Names};

use clap::{Arg, ArgAction, Command};
use std::alloc::{AllocError, Global};

static ORDERS: [&str; 2] = ["forward", "reverse"];

/// An argument that must be given, by its place.
fn required_arg<'a>(global: Global, id: &'a str) -> Arg<'a>
    ensures { HasRule (record (new_rule id.entry.now) { required = true }) result }
{
    Arg::new(global, id).required(true)
}

/// The path of the image.
fn out_arg<'a>(global: Global) -> Arg<'a>
    ensures { HasRule out_rule result }
{
    Arg::new(global, "out").long("out").required(true)
}

/// The order of a file's pieces, one of these, which need not be given.
fn order_arg<'a>(global: Global, orders: &'a [&'a str]) -> Arg<'a>
    ensures { HasRule (order_rule (Names orders.entry)) result }
{
    Arg::new(global, "order").long("order").value_parser(orders)
}

/// That the file is an image, which need not be given.
fn image_flag<'a>(global: Global) -> Arg<'a>
    ensures { HasRule image_flag_rule result }
{
    Arg::new(global, "image")
        .long("image")
        .action(ArgAction::SetTrue)
}

/// A command that may be there, with one more argument.
fn add_arg<'a>(
    command: Result<Command<'a>, AllocError>,
    arg: Arg<'a>,
) -> Result<Command<'a>, AllocError>
    ensures { (app : App) (rule : Rule) → IfOk command.entry (IsApp app)
        → HasRule rule arg.entry → IfOk result (IsApp (with_rule app rule)) }
{
    command?.arg(arg)
}

/// A command that may be there, with a subcommand more that may be there.
fn add_subcommand<'a>(
    command: Result<Command<'a>, AllocError>,
    subcommand: Result<Command<'a>, AllocError>,
) -> Result<Command<'a>, AllocError>
    ensures { (app sub : App) → IfOk command.entry (IsApp app)
        → IfOk subcommand.entry (IsApp sub) → IfOk result (IsApp (with_subcommand app sub.top)) }
{
    let subcommand = subcommand?;
    command?.subcommand(subcommand)
}

/// A command of this name with one argument, which must be given.
fn command_of<'a>(global: Global, name: &'a str, id: &'a str) -> Result<Command<'a>, AllocError>
    ensures { IfOk result (IsApp
        (with_rule (new_app name.entry.now) (record (new_rule id.entry.now) { required = true }))) }
{
    Command::new(global, name).arg(required_arg(global, id))
}

fn boot_command<'a>(global: Global, orders: &'a [&'a str]) -> Result<Command<'a>, AllocError>
    ensures { IfOk result (IsApp (boot_app (Names orders.entry))) }
{
    let command = command_of(global, "boot", "desc");
    add_arg(add_arg(command, out_arg(global)), order_arg(global, orders))
}

fn explain_command<'a>(global: Global, orders: &'a [&'a str]) -> Result<Command<'a>, AllocError>
    ensures { IfOk result (IsApp (explain_app (Names orders.entry))) }
{
    add_arg(
        command_of(global, "explain", "desc"),
        order_arg(global, orders),
    )
}

fn convert_command<'a>(global: Global) -> Result<Command<'a>, AllocError>
    ensures { IfOk result (IsApp convert_app) }
{
    add_arg(command_of(global, "convert", "image"), out_arg(global))
}

fn digest_command<'a>(global: Global) -> Result<Command<'a>, AllocError>
    ensures { IfOk result (IsApp digest_app) }
{
    add_arg(command_of(global, "digest", "file"), image_flag(global))
}

/// The program's command, before it has subcommands.
fn top_command<'a>(global: Global) -> Command<'a>
    ensures { IsApp top_app result }
{
    Command::new(global, "bootcore")
        .subcommand_required(true)
        .disable_help_subcommand(true)
}

/// The program's command, with its subcommands, two of which take one of these orders.
fn command_with<'a>(global: Global, orders: &'a [&'a str]) -> Result<Command<'a>, AllocError>
    ensures { IfOk result (IsApp (line_app (Names orders.entry))) }
{
    let top = add_subcommand(Ok(top_command(global)), boot_command(global, orders));
    let top = add_subcommand(top, command_of(global, "map", "desc"));
    let top = add_subcommand(top, command_of(global, "walk", "image"));
    let top = add_subcommand(top, convert_command(global));
    let top = add_subcommand(top, explain_command(global, orders));
    add_subcommand(top, digest_command(global))
}

/// The program's command, with its subcommands.
pub fn line_command<'a>(global: Global) -> Result<Command<'a>, AllocError>
    ensures { IfOk result (λ c. HasOrderParser (λ parser. app_of c ≡ line_app parser)) }
{
    command_with(global, ORDERS.as_slice())
}
