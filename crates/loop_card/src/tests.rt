// Worked examples.
use super::*;
use std::test::Fail;

#[test]
fn bytes_come_out_in_order(rt: HostRuntime) -> Result<(), Fail> {
    let (mut input, mut output) = Cable::split(rt.alloc(), 4)?;
    let mut out = [0; 3];
    assert_eq!(rt; input.push(&[1, 2, 3, 4, 5, 6]), 4);
    assert_eq!(rt; output.pull(&mut out), 3);
    assert_eq!(rt; out, [1, 2, 3]);
    assert_eq!(rt; input.push(&[5, 6]), 2);
    assert_eq!(rt;
        Cable::close(input, output).as_slice(),
        [4, 5, 6].as_slice()
    );
    Ok(())
}

#[test]
fn the_first_frames_are_left_out(rt: HostRuntime) {
    let taken = [1, 2, 3, 4, 5, 6];
    assert_eq!(rt; Cable::rest(&taken, 2, 0), taken.as_slice());
    assert_eq!(rt; Cable::rest(&taken, 2, 1), [3, 4, 5, 6].as_slice());
    assert_eq!(rt; Cable::rest(&taken, 2, 3).len(), 0);
    assert_eq!(rt; Cable::rest(&taken, 2, 4).len(), 0);
    assert_eq!(rt; Cable::rest(&taken, 32, 18446744073709551615).len(), 0);
}
