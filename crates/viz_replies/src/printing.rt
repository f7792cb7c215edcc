//! Renderings as lines of text.
ghost use Rattle.std.specs.Prelude.{◌≡◌, ◌++◌, OnOk, IfOk};
ghost use Rattle.viz_replies.specs.Print.{spaced, print_quad, print_line, print_box, printed};

use itoa::Buffer;
use std::alloc::{AllocError, Global};
use viz_base::{Kind, Mem, Placed, Quad, Rendering};

/// A number after a space.
fn push_number(out: &mut Vec<u8>, number: i128) -> Result<(), AllocError>
    ensures { OnOk result (out.new.items ≡ out.old.items ++ spaced number) }
{
    let mut buffer = Buffer::new();
    out.extend_from_slice(b" ")?;
    out.extend_from_slice(buffer.format(number).as_bytes())
}

/// A rectangle after its letter.
fn push_quad(out: &mut Vec<u8>, letter: &[u8], quad: &Quad<i128>) -> Result<(), AllocError>
    ensures { OnOk result (out.new.items ≡ out.old.items ++ print_quad letter.now quad.now) }
{
    out.extend_from_slice(b" ")?;
    out.extend_from_slice(letter)?;
    push_number(out, quad.left)?;
    push_number(out, quad.top)?;
    push_number(out, quad.right)?;
    push_number(out, quad.bottom)?;
    Ok(())
}

/// A box's line, after the word of its kind.
fn push_line(out: &mut Vec<u8>, word: &[u8], placed: &Placed<i128>) -> Result<(), AllocError>
    ensures { OnOk result (out.new.items ≡ out.old.items ++ print_line word.now placed.now) }
{
    out.extend_from_slice(word)?;
    push_number(out, i128::from(placed.node))?;
    push_quad(out, b"m", &placed.margin)?;
    push_quad(out, b"b", &placed.border)?;
    push_quad(out, b"p", &placed.padding)?;
    push_quad(out, b"c", &placed.content)?;
    out.extend_from_slice(b"\n")?;
    Ok(())
}

/// A box's line, if its kind has one.
fn push_box(out: &mut Vec<u8>, placed: &Placed<i128>) -> Result<(), AllocError>
    ensures { OnOk result (out.new.items ≡ out.old.items ++ print_box placed.now) }
{
    match placed.kind {
        Kind::Block => push_line(out, b"block", placed),
        Kind::Anon => push_line(out, b"anon", placed),
        Kind::Float => push_line(out, b"float", placed),
        Kind::Atomic => push_line(out, b"atomic", placed),
        Kind::Replaced => push_line(out, b"replaced", placed),
        Kind::Inline => push_line(out, b"inline", placed),
        Kind::Chars => push_line(out, b"text", placed),
        Kind::Line => push_line(out, b"line", placed),
        Kind::Break => Ok(()),
    }
}

/// The rendering as text: a line for each box, in units of 1/64 px. Its only error is `Mem`; no clause says when
/// that comes.
pub fn print(alloc: Global, rendering: &Rendering<i128>) -> Result<Vec<u8>, Mem>
    ensures { IfOk result (λ text. text.items ≡ printed rendering.now) }
{
    let mut out = Vec::new(alloc);
    for placed in rendering.boxes.as_slice() {
        push_box(&mut out, placed)?;
    }
    Ok(out)
}
