//! Which table of which FROM a name fits.

ghost use Rattle.std.specs.Prelude.{◌≡◌, bytes_eq};
ghost use Rattle.name_scopes.specs.Look as spec;

use crate::dictionary::Dictionary;
use crate::frames::{Frame, Frames, Tab};
use sql_tree::Name;

/// How a table is looked for: by a column that it has, or by the name that it is known by.
#[derive(Clone, Copy)]
pub enum By {
    Column,
    Known,
}

/// Which tables of a FROM fit.
#[derive(Clone, Copy)]
pub enum Fitting {
    Nowhere,
    One(usize),
    Several,
}

/// The scope and the place of the table that fits, from 0.
#[derive(Clone, Copy)]
pub enum Found {
    Missing,
    At(usize, usize),
    Twice,
}
/// Whether the two are the same bytes.

pub fn is_name(a: &Name, b: &Name) -> bool
    ensures { result ≡ bytes_eq a.now b.now }
{
    a.bytes() == b.bytes()
}

fn fits<D: Dictionary>(dictionary: &D, by: By, name: &Name, tab: &Tab) -> bool
    ensures { result ≡ spec.fits (D.known dictionary.now) by name.now tab.now }
{
    match by {
        By::Column => dictionary.sort_of(&tab.table, name).is_some(),
        By::Known => is_name(&tab.known, name),
    }
}

fn any_fits<D: Dictionary>(dictionary: &D, by: By, name: &Name, tabs: &[Tab]) -> bool
    ensures { result ≡ spec.any_fits (D.known dictionary.now) by name.now tabs.now }
{
    for tab in tabs {
        if fits(dictionary, by, name, tab) {
            return true;
        }
    }
    false
}

/// Which of the tables of one FROM that can be seen fit.
#[tactic(auto, unfolding(crate::specs::Look::fitting))]
pub fn fit_in<D: Dictionary>(dictionary: &D, by: By, name: &Name, frame: &Frame) -> Fitting
    ensures { result ≡ spec.fitting (D.known dictionary.now) by name.now frame.now }
{
    let tabs = frame.tables.as_slice();
    for at in frame.skip..tabs.len() {
        if fits(dictionary, by, name, &tabs[at]) {
            return if any_fits(dictionary, by, name, &tabs[at + 1..]) {
                Fitting::Several
            } else {
                Fitting::One(at)
            };
        }
    }
    Fitting::Nowhere
}

/// In the nearest FROM where a table fits.
#[tactic(auto, using(crate::proofs::Turns::drop_at))]
pub fn seek<D: Dictionary>(dictionary: &D, by: By, name: &Name, frames: &Frames) -> Found
    ensures { result ≡ spec.seek (D.known dictionary.now) by name.now 0 frames.now }
{
    for up in 0..frames.len() {
        match fit_in(dictionary, by, name, frames.at(up)) {
            Fitting::Nowhere => {}
            Fitting::One(at) => return Found::At(up, at),
            Fitting::Several => return Found::Twice,
        }
    }
    Found::Missing
}
