//! The places of a catalogue, as long as they are known.

ghost use Rattle.std.specs.Prelude.{IfOk, IfSome, List};
ghost use Rattle.cat_items.specs.declared.item.Item.{Item as ItemSpec};
ghost use Rattle.own_places.specs.Places.{HasPlaces};
ghost use Rattle.catalogue_edits.specs.KnownPlaces.{KnowsPlaces};

use cat_items::Item;
use own_places::OwnPlaces;
use std::alloc::{AllocError, Global};

/// Where each authorization has rights or owns, and how many items may come before this is found anew: what is gone is listed still, so
/// there are never more than two places for each item that there was then, and some.
#[derive(Drop)]
pub struct KnownPlaces {
    pub places: OwnPlaces,
    left: usize,
}

impl KnownPlaces {
    /// Those of these items. `Err` is want of memory.
    pub fn of(alloc: Global, items: &[Item]) -> Result<KnownPlaces, AllocError>
        ensures { IfOk result (λ known. HasPlaces items.now known.places) }
    {
        let places = OwnPlaces::of(alloc, items)?;
        Ok(KnownPlaces {
            places,
            left: items.len().saturating_add(64),
        })
    }

    /// With those of items that come; `None` where they have to be found anew, as where memory is wanting.
    fn with(self, alloc: Global, coming: &[Item]) -> Option<KnownPlaces>
        ensures { IfSome result (λ known. (c : List ItemSpec) → HasPlaces c self.places → HasPlaces c known.places × HasPlaces coming.now known.places) }
    {
        let KnownPlaces { mut places, left } = self;
        if left < coming.len() {
            return None;
        }
        match places.note(alloc, coming) {
            Ok(()) => Some(KnownPlaces {
                places,
                left: left - coming.len(),
            }),
            Err(_) => None,
        }
    }
}

/// Notes the places of items that come, where places are known. They are forgotten where memory is wanting, and after as many items as there were.
pub fn note_coming(alloc: Global, places: &mut Option<KnownPlaces>, coming: &[Item])
    ensures { (c : List ItemSpec) → KnowsPlaces c places.old → KnowsPlaces c places.new × KnowsPlaces coming.now places.new }
{
    if let Some(known) = places.take() {
        *places = known.with(alloc, coming);
    }
}
