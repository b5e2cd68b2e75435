use super::*;

#[test]
fn the_pointer_passes_the_boundary(rt: HostRuntime) {
    let shape = Shape {
        frame_bytes: 1,
        channels: 1,
        period: 2,
        periods: 2,
        buffer: 4,
        boundary: 16,
    };
    let mut ptr = HwPtr { base: 12, hw: 14 };
    assert_eq!(rt; advance(&mut ptr, &shape, 1), 3);
    assert_eq!(rt; ptr, HwPtr { base: 0, hw: 1 });
    assert_eq!(rt; advance(&mut ptr, &shape, 1), 0, "the card stands");
    assert_eq!(rt; ptr, HwPtr { base: 0, hw: 1 });
    assert_eq!(rt; advance(&mut ptr, &shape, 3), 2, "in the same buffer");
    assert_eq!(rt; ptr, HwPtr { base: 0, hw: 3 });
    assert_eq!(rt; advance(&mut ptr, &shape, 2), 3, "past the buffer's end");
    assert_eq!(rt; ptr, HwPtr { base: 4, hw: 6 });
}
