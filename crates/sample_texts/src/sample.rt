//! The script.

ghost use Rattle.std.specs.Prelude.{◌≡◌, ◌≤◌, ◌++◌, flat_map, length, IfOk, OnOk};
ghost use Rattle.sample_texts.specs.Draws as draw;
ghost use Rattle.sample_texts.specs.Sample as spec;
ghost use Rattle.sample_texts.specs.Statements as texts;

use crate::draws::Draws;
use crate::round::{draw_round, put_round};
use crate::script::Script;
use crate::statements::{connect, create_schema};
use sql_names::Name;
use std::alloc::{AllocError, Global};

/// The most users that take part.
const PLAYERS: usize = 8;

fn put_opening(alloc: Global, script: &mut Script, user: &Name) -> Result<(), AllocError>
    ensures { OnOk result (script.new ≡ script.old ++ texts.opening user.now) }
{
    script.push(connect(alloc, user)?)?;
    script.push(create_schema(alloc, user)?)
}

fn put_openings(alloc: Global, script: &mut Script, users: &[Name]) -> Result<(), AllocError>
    ensures { OnOk result (script.new ≡ script.old ++ flat_map texts.opening users.now) }
{
    for user in users {
        put_opening(alloc, script, user)?;
    }
    Ok(())
}

fn put_rounds(
    alloc: Global,
    script: &mut Script,
    users: &[Name],
    seed: u64,
    count: u32,
) -> Result<(), AllocError>
    requires { 1 ≤ length users.now }
    ensures { OnOk result (script.new ≡ script.old ++ spec.rounds users.now seed count) }
{
    let mut draws = Draws { x: seed };
    for before in 0..count {
        let round = draw_round(users, before + 1, &mut draws)?;
        put_round(alloc, script, &round)?;
    }
    Ok(())
}

/// The script of the first eight of these users, or of all where they are fewer: each connects and makes a schema, and then there
/// are `count` rounds, each of 6, 8 or 10 statements. `Err` is want of memory.
pub fn sample_texts(
    alloc: Global,
    users: &[Name],
    seed: u64,
    count: u32,
) -> Result<Script, AllocError>
    requires { 1 ≤ length users.now }
    ensures { IfOk result (λ script. script ≡ spec.sample_texts users.now seed count) }
{
    let players = &users[..users.len().min(PLAYERS)];
    let mut script = Script::new(alloc);
    put_openings(alloc, &mut script, players)?;
    put_rounds(alloc, &mut script, players, seed, count)?;
    Ok(script)
}
