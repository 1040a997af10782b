//! The places of each authorization: the schemas that it owns, and the objects on which it has a right.

ghost use Rattle.std.specs.Prelude.{◌≡◌, None, Contains, IfOk, OnOk};
ghost use Rattle.std.specs.BTreeMap.{get};
ghost use Rattle.finite_chains.specs.Chains.{IsWithin};
ghost use Rattle.cat_items.specs.contracts.need.AuthOrd.TheImpl as order;
ghost use Rattle.own_places.specs.Places.{HasPlaces, HasPlacesOf, Keeps, places_at};

use cat_items::{Auth, Item};
use sql_tree::Path;
use std::alloc::{AllocError, Global};
use std::collections::BTreeMap;

/// For each authorization the schemas that it owns, each as a path of one name, and the objects on which it has a right.
///
/// It may list places that are gone, and never too few. The paths of an authorization stand in order, so that one is found in a few steps.
#[derive(Drop)]
pub struct OwnPlaces {
    lists: BTreeMap<Auth, Vec<Path>>,
}

/// Puts in a path at its place in the order, if it isn't there.
fn put_path(paths: &mut Vec<Path>, on: &Path) -> Result<(), AllocError>
    ensures kept { OnOk result (IsWithin paths.old.items paths.new.items) }
    ensures put { OnOk result (Contains paths.new.items on.now) }
{
    if let Err(at) = paths.as_slice().binary_search(on) {
        paths.insert(at, on.copy()?)?;
    }
    Ok(())
}

impl OwnPlaces {
    /// The places of these items. `Err` is want of memory.
    pub fn of(alloc: Global, items: &[Item]) -> Result<OwnPlaces, AllocError>
        ensures { IfOk result (HasPlaces items.now) }
    {
        let mut places = OwnPlaces {
            lists: BTreeMap::new(alloc),
        };
        places.note(alloc, items)?;
        Ok(places)
    }

    /// The places of an authorization. It takes no memory.
    pub fn at(&self, auth: &Auth) -> &[Path]
        ensures { result.now ≡ places_at self.now auth.now }
    {
        match self.lists.get(auth) {
            Some(paths) => paths.as_slice(),
            None => &[],
        }
    }

    /// Lists an authorization that has no place yet.
    fn begin(&mut self, alloc: Global, auth: &Auth, on: &Path) -> Result<(), AllocError>
        requires { get order.ghosts.cmp self.old.lists auth.now ≡ None }
        ensures kept { OnOk result (Keeps self.old self.new) }
        ensures put { OnOk result (Contains (places_at self.new auth.now) on.now) }
    {
        let mut paths = Vec::new(alloc);
        paths.push(on.copy()?)?;
        self.lists.insert(auth.copy()?, paths)?;
        Ok(())
    }

    /// Lists a place of an authorization.
    fn put(&mut self, alloc: Global, auth: &Auth, on: &Path) -> Result<(), AllocError>
        ensures kept { OnOk result (Keeps self.old self.new) }
        ensures put { OnOk result (Contains (places_at self.new auth.now) on.now) }
    {
        match self.lists.get_mut(auth) {
            Some(paths) => put_path(paths, on),
            None => self.begin(alloc, auth, on),
        }
    }

    /// Lists the place of one item, if it is a schema or a right.
    fn put_item(&mut self, alloc: Global, x: &Item) -> Result<(), AllocError>
        ensures kept { OnOk result (Keeps self.old self.new) }
        ensures put { OnOk result (HasPlacesOf x.now self.new) }
    {
        match x {
            Item::Schema(schema) => {
                let schema = schema.get();
                let owner = Auth::Named(schema.owner.copy()?);
                self.put(alloc, &owner, &Path::one(schema.name.copy()?))
            }
            Item::Held(right) => self.put(alloc, &right.get().grantee, &right.get().need.on),
            _ => Ok(()),
        }
    }

    /// Lists the places of more items. `Err` is want of memory: some of them may be listed then.
    pub fn note(&mut self, alloc: Global, items: &[Item]) -> Result<(), AllocError>
        ensures kept { OnOk result (Keeps self.old self.new) }
        ensures noted { OnOk result (HasPlaces items.now self.new) }
    {
        for x in items {
            self.put_item(alloc, x)?;
        }
        Ok(())
    }
}
