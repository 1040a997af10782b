ghost use Rattle.std.specs.Prelude.{◌≡◌, false, IfOk};
ghost use Rattle.clap.specs.Words.{app_of, rule_of};
ghost use Rattle.command_words.specs.Program.{command_rule, users_rule, connections_rule, port_rule, seed_rule, count_rule, definition_rule, the_program};

use clap::{Arg, ArgAction, Command, value_parser};
use std::alloc::{AllocError, Global};

fn command_arg<'a>(alloc: Global) -> Arg<'a>
    ensures rule { rule_of result ≡ command_rule }
    ensures local { result.global ≡ false }
{
    Arg::new(alloc, "command")
        .action(ArgAction::Set)
        .required(true)
}

fn users_arg<'a>(alloc: Global) -> Arg<'a>
    ensures rule { rule_of result ≡ users_rule }
    ensures local { result.global ≡ false }
{
    Arg::new(alloc, "users")
        .long("users")
        .action(ArgAction::Set)
        .required(true)
}

fn definition_arg<'a>(alloc: Global) -> Arg<'a>
    ensures rule { rule_of result ≡ definition_rule }
    ensures local { result.global ≡ false }
{
    Arg::new(alloc, "definition")
        .long("definition")
        .action(ArgAction::SetTrue)
}

fn port_arg<'a>(alloc: Global) -> Arg<'a>
    ensures rule { rule_of result ≡ port_rule }
    ensures local { result.global ≡ false }
{
    let ports = value_parser!(u16).range(1..);
    Arg::new(alloc, "port")
        .long("port")
        .action(ArgAction::Set)
        .value_parser(ports)
        .default_value("7003")
}

fn connections_arg<'a>(alloc: Global) -> Arg<'a>
    ensures rule { rule_of result ≡ connections_rule }
    ensures local { result.global ≡ false }
{
    let numbers = value_parser!(u16).range(1..1001);
    Arg::new(alloc, "connections")
        .long("connections")
        .action(ArgAction::Set)
        .value_parser(numbers)
        .default_value("1")
}

fn seed_arg<'a>(alloc: Global) -> Arg<'a>
    ensures rule { rule_of result ≡ seed_rule }
    ensures local { result.global ≡ false }
{
    let numbers = value_parser!(u32);
    Arg::new(alloc, "seed")
        .long("seed")
        .action(ArgAction::Set)
        .value_parser(numbers)
        .default_value("1")
}

fn count_arg<'a>(alloc: Global) -> Arg<'a>
    ensures rule { rule_of result ≡ count_rule }
    ensures local { result.global ≡ false }
{
    let numbers = value_parser!(u16).range(1..1001);
    Arg::new(alloc, "count")
        .long("count")
        .action(ArgAction::Set)
        .value_parser(numbers)
        .default_value("100")
}

/// The program's command line: a command, and its options.
pub fn program<'a>(alloc: Global) -> Result<Command<'a>, AllocError>
    ensures { IfOk result (λ command. app_of command ≡ the_program) }
{
    let bare = Command::new(alloc, "ddlsrv").no_binary_name(true);
    let with_command = bare.arg(command_arg(alloc))?;
    let with_users = with_command.arg(users_arg(alloc))?;
    let with_connections = with_users.arg(connections_arg(alloc))?;
    let with_port = with_connections.arg(port_arg(alloc))?;
    let with_seed = with_port.arg(seed_arg(alloc))?;
    let with_count = with_seed.arg(count_arg(alloc))?;
    let with_definition = with_count.arg(definition_arg(alloc))?;
    Ok(with_definition)
}
