// What the shortest script begins with, and how long it is.
use super::*;

fn lines(text: &[u8]) -> usize {
    text.iter().filter(|b| **b == b'\n').count()
}

#[test]
fn the_first_script_has_a_hundred_rounds(rt: HostRuntime) -> Result<(), std::alloc::AllocError> {
    let text = gen_script(rt.alloc(), 0)?;
    assert_eq!(rt; lines(&text), 9);
    let text = gen_script(rt.alloc(), 1)?;
    assert_eq!(rt; lines(&text), 709);
    // The first number is 1103527590: four bytes a write, and four frames a movement.
    let round: &[u8] =
        b"prepare c0 s0\nwritei c0 s0 n 00010203\nwritei c1 s1 n 00010203\nmove s0 4\nirq s0\n";
    assert_eq!(rt; text.get(156..156 + round.len()), Some(round));
    Ok(())
}
