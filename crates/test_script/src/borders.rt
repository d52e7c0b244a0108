//! The longest command, whole.
use crate::outcomes::{BAD_1, DONE, answered, joined};
use crate::wires::Plan;
use std::alloc::{AllocError, Global};
use std::test::Fail;
use test_assertions::{assert_equal, assert_holds};

// A command with 1,099,996 bytes, whose line has `spaces` bytes more than `HOST DRIVE CDB DATA` needs.
fn longest_command(alloc: Global, spaces: usize) -> Result<Vec<u8>, AllocError> {
    let mut script = joined(alloc, &["1 1 00 "])?;
    for _ in 0..spaces {
        script.push(b' ')?;
    }
    for _ in 0..1_099_996 {
        script.extend_from_slice(b"5a")?;
    }
    script.push(b'\n')?;
    Ok(script)
}

#[test]
fn the_longest_command(rt: HostRuntime) -> Result<(), Fail> {
    // 2,200,000 bytes, which are taken whole, whatever a drive replies, also by many reads and writes; one byte more.
    let script = longest_command(rt.alloc(), 1)?;
    assert_eq!(rt; script.len(), 2_200_001);
    let mut wanted = joined(rt.alloc(), &["GOOD 010100"])?;
    wanted.extend_from_slice(&script.as_slice()[8..])?;
    for (piece, taken) in [(usize::MAX, usize::MAX), (1_000, 17)] {
        let plan = Plan {
            piece,
            taken,
            ..Plan::whole()
        };
        let outcome = answered(rt.alloc(), script.as_slice(), plan);
        assert_equal!(rt; outcome.end, DONE; piece);
        assert_holds!(rt; outcome.text.as_slice() == wanted.as_slice(); piece);
    }
    let script = longest_command(rt.alloc(), 2)?;
    let outcome = answered(rt.alloc(), script.as_slice(), Plan::whole());
    assert_equal!(rt; (outcome.end, outcome.text.len()), (BAD_1, 0));
    Ok(())
}
