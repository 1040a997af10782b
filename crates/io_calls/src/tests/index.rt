ghost use Rattle.std.specs.Prelude.{◌≡◌};

use item_index::{Index, Steps};
use std::alloc::{AllocError, Global};
use std::marker::Brand;
use std::sync::ledger::{Blank, Ledger};
use std::test::Fail;

/// What look-ups tell of two keys, of which the first rests on the second: the second key's number, that of a key that
/// isn't there, what the first rests on, and the dependents of the second at two places.
fn told_of_two<L: Ledger>(alloc: Global, blank: Blank) -> Result<[Option<usize>; 5], AllocError>
    requires name { blank.name ≡ L.name }
    requires parts { blank.parts ≡ L.parts }
    requires whole { blank.parts ≡ 1 }
{
    let mut steps: Steps<L> = Steps::new(blank);
    let mut index = Index::new(alloc)?;
    index.reserve(2, 1)?;
    let first = index.insert(10u32);
    let second = index.insert(20);
    index.link(first, second);
    Ok([
        index.node(&20, &mut steps),
        index.node(&30, &mut steps),
        index.rests(first, 0, &mut steps),
        index.dependents(second, 0, &mut steps),
        index.dependents(second, 1, &mut steps),
    ])
}

#[test]
fn two_keys_and_a_link_have_their_numbers(rt: HostRuntime) -> Result<(), Fail> {
    let told = told_of_two::<Brand>(rt.alloc(), Blank::new(1))?;
    assert_eq!(rt; told, [Some(1), None, Some(1), Some(0), None]);
    Ok(())
}
