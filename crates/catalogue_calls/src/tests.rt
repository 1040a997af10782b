//! Scripts whose outcomes are known, and samples.

use crate::reading::sample;
use crate::scripts::SCRIPTS;
use crate::walk::walked;
use sql_tree::Text;
use std::process::Abort;
use std::test::Fail;

fn utf8(text: &Text) -> &str {
    str::from_utf8(text.bytes()).unwrap_or("not UTF-8")
}

#[test]
fn scripts_come_to_the_same_both_ways(rt: HostRuntime) -> Result<(), Fail> {
    for script in SCRIPTS {
        let told = walked(rt.alloc(), script)?;
        for (row, wanted) in utf8(&told).lines().zip(script.lines()) {
            assert_eq!(rt; row, wanted);
        }
        assert_eq!(rt; utf8(&told).lines().count(), script.lines().count());
    }
    Ok(())
}

/// How many rounds a sample has.
const ROUNDS: u32 = 6;

/// Seeds whose samples have 7 REVOKEs and DROPs, and so 34 statements that edit the catalogue. All of them are done.
const SEEDS: [u64; 3] = [652, 753, 333];

#[test]
fn samples_come_to_the_same_both_ways(rt: HostRuntime) -> Result<(), Fail> {
    let alloc = rt.alloc();
    for seed in SEEDS {
        let told = walked(alloc, utf8(&sample(alloc, seed, ROUNDS)?))?;
        let done = utf8(&told).lines().filter(|row| row.contains(" => +"));
        assert_eq!(rt; done.count(), 34, "{seed}");
    }
    Ok(())
}
