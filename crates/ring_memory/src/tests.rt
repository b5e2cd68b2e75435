use super::*;
use pcm_base::Shape;
use std::test::Fail;

#[test]
fn a_put_goes_on_at_the_front(rt: HostRuntime) -> Result<(), Fail> {
    let shape = Shape {
        frame_bytes: 1,
        channels: 1,
        period: 2,
        periods: 2,
        buffer: 4,
        boundary: 16,
    };
    let mut ring = Ring::new(rt.alloc(), &shape, false)?;
    let mut all = [7; 4];
    ring.get(0, &mut all);
    assert_eq!(rt; all, [0, 0, 0, 0]);
    ring.put(2, &[1, 2, 3]);
    ring.get(0, &mut all);
    assert_eq!(rt; all, [3, 0, 1, 2]);
    let mut three = [0; 3];
    ring.get(18, &mut three);
    assert_eq!(rt; three, [1, 2, 3]);
    ring.fill(4, 2, 128);
    ring.put(7, &[]);
    ring.get(0, &mut all);
    assert_eq!(rt; all, [128, 128, 1, 2]);
    ring.put_area(3, &[9, 8, 7], 1, 2);
    let mut io = [5; 4];
    ring.get_area(3, &mut io, 1, 2);
    assert_eq!(rt; io, [5, 8, 7, 5]);
    Ok(())
}

#[test]
fn channels_have_areas(rt: HostRuntime) -> Result<(), Fail> {
    let shape = Shape {
        frame_bytes: 2,
        channels: 2,
        period: 2,
        periods: 2,
        buffer: 4,
        boundary: 16,
    };
    let mut ring = Ring::new(rt.alloc(), &shape, true)?;
    ring.put_area(3, &[1, 2, 3, 11, 12, 13], 1, 2);
    assert_eq!(rt; ring.area(0), [3, 0, 0, 2].as_slice());
    assert_eq!(rt; ring.area(1), [13, 0, 0, 12].as_slice());
    let mut frames = [0; 4];
    ring.get(3, &mut frames);
    assert_eq!(rt; frames, [2, 12, 3, 13], "in order");
    ring.put(1, &[4, 14]);
    ring.fill(2, 1, 128);
    let mut io = [0; 8];
    ring.get_area(0, &mut io, 0, 4);
    assert_eq!(rt; io, [3, 4, 128, 2, 13, 14, 128, 12]);
    Ok(())
}
