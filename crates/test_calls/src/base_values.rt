use std::alloc::{AllocError, Global};
use viz_base::{Boxed, List, Text, floor_div};

#[test]
fn floors(rt: HostRuntime) {
    for (a, d, floor) in [(7, 2, 3), (-7, 2, -4), (-8, 2, -4), (0, 5, 0), (-1, 64, -1)] {
        assert!(rt; floor_div(a, d) == floor, "{a} by {d}");
    }
}

fn short_list(alloc: Global) -> Result<List<u32>, AllocError> {
    let mut list = List::from_slice(alloc, &[3, 1, 2])?;
    list.push(9)?;
    list.truncate(2);
    Ok(list)
}

#[test]
fn holds_a_list(rt: HostRuntime) -> Result<(), AllocError> {
    let list = short_list(rt.alloc())?;
    assert!(rt; list.as_slice() == [3, 1].as_slice());
    assert!(rt; list.get(1).copied() == Some(1));
    Ok(())
}

fn word(alloc: Global) -> Result<Text, AllocError> {
    let mut text = Text::from_text(alloc, "ab")?;
    text.push('é')?;
    text.push_str("!")?;
    text.clone()
}

#[test]
fn holds_a_text(rt: HostRuntime) -> Result<(), AllocError> {
    let text = word(rt.alloc())?;
    assert!(rt; text.as_str() == "abé!");
    assert!(rt; text.len() == 5);
    assert!(rt; text.into_string().as_str() == "abé!");
    Ok(())
}

#[test]
fn holds_a_boxed_value(rt: HostRuntime) -> Result<(), AllocError> {
    let boxed = Boxed::new(rt.alloc(), 7u32)?;
    assert!(rt; boxed.into_inner() == 7);
    Ok(())
}
