//! One round of a sample.

ghost use Rattle.std.specs.Prelude.{◌≡◌, ◌≤◌, ◌++◌, length, IfOk, OnOk};
ghost use Rattle.sample_texts.specs.Draws as draw;
ghost use Rattle.sample_texts.specs.Sample.{round_of};
ghost use Rattle.sample_texts.specs.Statements as spec;

use crate::draws::Draws;
use crate::script::Script;
use crate::statements::{
    create_table, create_view, drop_table, grant_table, grant_view, revoke_table, use_connection,
};
use sql_names::Name;
use std::alloc::{AllocError, Global};

/// Who takes part in a round, and how it ends.
#[derive(Drop)]
pub struct Round {
    pub number: u32,
    pub owner: Name,
    pub grantee: Name,
    pub reader: Name,
    pub revoked: bool,
    pub dropped: bool,
}

// A round of these users, as the next four numbers say.
pub fn draw_round(users: &[Name], number: u32, draws: &mut Draws) -> Result<Round, AllocError>
    requires { 1 ≤ length users.now }
    ensures round { IfOk result (λ round. round ≡ round_of users.now number draws.old.x) }
    ensures draws { draws.new.x ≡ draw.later 4 draws.old.x }
{
    let grantee = draws.below(users.len());
    let reader = draws.below(users.len());
    let revoked = draws.below(4) == 0;
    let dropped = draws.below(8) == 0;
    Ok(Round {
        number,
        owner: users[number as usize % users.len()].copy()?,
        grantee: users[grantee].copy()?,
        reader: users[reader].copy()?,
        revoked,
        dropped,
    })
}

fn put_grants(alloc: Global, script: &mut Script, round: &Round) -> Result<(), AllocError>
    ensures { OnOk result (script.new ≡ script.old ++ spec.grants round.now) }
{
    script.push(use_connection(alloc, &round.owner)?)?;
    script.push(create_table(alloc, round.number)?)?;
    script.push(grant_table(alloc, round.number, &round.grantee)?)?;
    script.push(use_connection(alloc, &round.grantee)?)?;
    script.push(create_view(alloc, round.number, &round.owner)?)?;
    script.push(grant_view(alloc, round.number, &round.reader)?)
}

fn put_revocation(alloc: Global, script: &mut Script, round: &Round) -> Result<(), AllocError>
    ensures { OnOk result (script.new ≡ script.old ++ spec.revocation round.now) }
{
    if round.revoked {
        script.push(use_connection(alloc, &round.owner)?)?;
        script.push(revoke_table(alloc, round.number, &round.grantee)?)?;
    }
    Ok(())
}

fn put_removal(alloc: Global, script: &mut Script, round: &Round) -> Result<(), AllocError>
    ensures { OnOk result (script.new ≡ script.old ++ spec.removal round.now) }
{
    if round.dropped {
        script.push(use_connection(alloc, &round.owner)?)?;
        script.push(drop_table(alloc, round.number)?)?;
    }
    Ok(())
}

// The statements of a round.
pub fn put_round(alloc: Global, script: &mut Script, round: &Round) -> Result<(), AllocError>
    ensures { OnOk result (script.new ≡ script.old ++ spec.round_texts round.now) }
{
    put_grants(alloc, script, round)?;
    put_revocation(alloc, script, round)?;
    put_removal(alloc, script, round)
}
