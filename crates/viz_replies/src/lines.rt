ghost use Rattle.std.specs.Prelude.{◌≡◌, ◌++◌, ◌∷◌, [], codes, OnOk, IfOk};
ghost use Rattle.std.specs.List.{flat_map};
ghost use Rattle.viz_replies.specs.Lines.{spaced, numbered};
ghost use Rattle.viz_replies.specs.Screens.{spaced_part, spaced_side, spaced_world};

use crate::reply::{Answer, Reply};
use itoa::Buffer;
use std::alloc::{AllocError, Global};
use viz_base::{Axis, Mem, Rect, World};

/// A word after a space.
pub fn push_word(out: &mut Vec<u8>, word: &[u8]) -> Result<(), AllocError>
    ensures { OnOk result (out.new.items ≡ out.old.items ++ (codes " " ++ word.now)) }
{
    out.extend_from_slice(b" ")?;
    out.extend_from_slice(word)
}

/// A number after a space.
pub fn push_number(out: &mut Vec<u8>, number: u64) -> Result<(), AllocError>
    ensures { OnOk result (out.new.items ≡ out.old.items ++ spaced number) }
{
    let mut buffer = Buffer::new();
    out.extend_from_slice(b" ")?;
    out.extend_from_slice(buffer.format(number).as_bytes())
}

/// Numbers, each after a space.
fn push_numbers(out: &mut Vec<u8>, numbers: &[u64]) -> Result<(), AllocError>
    ensures { OnOk result (out.new.items ≡ out.old.items ++ flat_map spaced numbers.now) }
{
    for number in numbers {
        push_number(out, *number)?;
    }
    Ok(())
}

/// The width, the default font size and, in form 2 of a job, the height of a world.
pub fn push_world(out: &mut Vec<u8>, form: u8, world: World) -> Result<(), AllocError>
    ensures { OnOk result (out.new.items ≡ out.old.items ++ spaced_world form world) }
{
    push_number(out, u64::from(world.w))?;
    push_number(out, u64::from(world.s))?;
    if form == 2 {
        push_number(out, u64::from(world.h))?;
    }
    Ok(())
}

/// The ends of a side of a part.
fn push_side(out: &mut Vec<u8>, part: Rect, axis: Axis) -> Result<(), AllocError>
    ensures { OnOk result (out.new.items ≡ out.old.items ++ spaced_side part axis) }
{
    let side = part.side(axis);
    push_number(out, u64::from(side.least))?;
    push_number(out, u64::from(side.most))
}

/// The ends of a part's widths, of its default font sizes and, in form 2 of a job, of its heights.
pub fn push_part(out: &mut Vec<u8>, form: u8, part: Rect) -> Result<(), AllocError>
    ensures { OnOk result (out.new.items ≡ out.old.items ++ spaced_part form part) }
{
    push_side(out, part, Axis::Width)?;
    push_side(out, part, Axis::Size)?;
    if form == 2 {
        push_side(out, part, Axis::Height)?;
    }
    Ok(())
}

/// A line of words and numbers.
pub fn push_line(out: &mut Vec<u8>, words: &[u8], numbers: &[u64]) -> Result<(), AllocError>
    ensures { OnOk result (out.new.items ≡ out.old.items ++ numbered words.now numbers.now) }
{
    out.extend_from_slice(words)?;
    push_numbers(out, numbers)?;
    out.extend_from_slice(b"\n")
}

/// A line for each place that is blamed.
pub fn push_blamed(out: &mut Vec<u8>, places: &[u32]) -> Result<(), AllocError>
    ensures { OnOk result (out.new.items ≡ out.old.items ++ flat_map
        (λ place. numbered (codes "blame") (place ∷ [])) places.now) }
{
    for place in places {
        push_line(out, b"blame", &[u64::from(*place)])?;
    }
    Ok(())
}

/// A reply of one line of words and numbers.
pub fn numbered_line(
    alloc: Global,
    answer: Answer,
    words: &[u8],
    numbers: &[u64],
) -> Result<Reply, Mem>
    ensures { IfOk result (λ r. (r.answer ≡ answer)
        × (r.output.items ≡ numbered words.now numbers.now)) }
{
    let mut output = Vec::new(alloc);
    push_line(&mut output, words, numbers)?;
    Ok(Reply { answer, output })
}
