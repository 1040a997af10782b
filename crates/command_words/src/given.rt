ghost use Rattle.std.specs.Prelude.{◌≡◌, ◌≤◌, ◌↔◌, Some, codes, map, IfOk, IsTrue, MatchOption};
ghost use Rattle.std.specs.String.{string_bytes};
ghost use Rattle.clap.specs.Words.{fault_of, FailsBy, first_value, found_of, matches_of, rows_of};
ghost use Rattle.command_words.specs.Given.{AreRefused, IsGiven};
ghost use Rattle.command_words.specs.Matched.{HasNumber, HasText, HasValues, ReadsNumber};
ghost use Rattle.command_words.specs.Program.{the_program};

use crate::arguments::program;
use clap::error::ErrorKind;
use clap::{ArgMatches, Error};
use std::alloc::{AllocError, Global};

/// The values that the words of a command line give.
#[derive(Clone, Copy, Debug)]
pub struct Given<'a> {
    /// What the program is to do.
    pub command: &'a str,
    /// The users, as one text.
    pub users: &'a str,
    /// How many connections are taken.
    pub connections: u16,
    /// The port of the server's own machine.
    pub port: u16,
    /// Where a sample's numbers begin.
    pub seed: u32,
    /// How large a sample is.
    pub count: u16,
    /// Whether the Definition Schema is to be written.
    pub definition: bool,
}

// The arguments that the words have, or why they are refused.
fn matches<'a>(alloc: Global, words: &'a [String]) -> Result<ArgMatches<'a>, Error>
    ensures values { IfOk result HasValues }
    ensures rows { IfOk result (λ found. rows_of (found_of found) ≡ matches_of the_program (map (λ word. string_bytes word) words.entry.now)) }
    ensures refused { FailsBy (fault_of the_program (map (λ word. string_bytes word) words.entry.now)) result }
{
    program(alloc)?.try_get_matches_from(words)
}

// The text of an argument.
fn text<'a>(matches: &ArgMatches<'a>, id: &str) -> &'a str
    requires { HasText matches.now id.now }
    ensures { first_value (found_of matches.now) id.now ≡ Some result.now }
{
    match matches.get_str(id) {
        Some(text) => text,
        None => unreachable!(),
    }
}

// A number up to a thousand.
fn thousand(matches: &ArgMatches<'_>, id: &str) -> u16
    requires { HasNumber matches.now id.now 1 1000 }
    ensures number { ReadsNumber matches.now id.now result }
    ensures range { (1 ≤ result) × (result ≤ 1000) }
{
    match matches.get_one::<u16>(id) {
        Some(number) => number,
        None => unreachable!(),
    }
}

fn port(matches: &ArgMatches<'_>) -> u16
    requires { HasNumber matches.now (codes "port") 1 65535 }
    ensures number { ReadsNumber matches.now (codes "port") result }
    ensures range { 1 ≤ result }
{
    match matches.get_one::<u16>("port") {
        Some(number) => number,
        None => unreachable!(),
    }
}

fn seed(matches: &ArgMatches<'_>) -> u32
    requires { HasNumber matches.now (codes "seed") 0 4294967295 }
    ensures { ReadsNumber matches.now (codes "seed") result }
{
    match matches.get_one::<u32>("seed") {
        Some(number) => number,
        None => unreachable!(),
    }
}

// Whether the flag `--definition` is among the arguments.
fn has_definition(matches: &ArgMatches<'_>) -> bool
    ensures { IsTrue result ↔ (first_value (found_of matches.now) (codes "definition") ≡ Some (codes "true")) }
{
    matches
        .get_str("definition")
        .is_some_and(|value| value == "true")
}

/// What the words behind the program's name give, or `None` where they are refused: a command and options in any order. A call for help is
/// refused too.
pub fn given_by<'a>(alloc: Global, words: &'a [String]) -> Result<Option<Given<'a>>, AllocError>
    ensures { IfOk result (λ found. MatchOption found
        (AreRefused (map (λ word. string_bytes word) words.entry.now))
        (IsGiven (map (λ word. string_bytes word) words.entry.now))) }
{
    match matches(alloc, words) {
        Ok(found) => Ok(Some(Given {
            command: text(&found, "command"),
            users: text(&found, "users"),
            connections: thousand(&found, "connections"),
            port: port(&found),
            seed: seed(&found),
            count: thousand(&found, "count"),
            definition: has_definition(&found),
        })),
        Err(error) if error.kind() == ErrorKind::OutOfMemory => Err(AllocError),
        Err(_) => Ok(None),
    }
}
