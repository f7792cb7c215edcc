//! The lines of a survey.
ghost use Rattle.std.specs.Prelude.{◌≡◌, ◌++◌, OnOk};
ghost use Rattle.std.specs.List.{flat_map, list_any};
ghost use Rattle.viz_replies.specs.Lines.{spaced};
ghost use Rattle.viz_tables.specs.Lines.{is_open, line_text, word_text};

use crate::words::{Line, Word};
use itoa::Buffer;
use std::alloc::AllocError;

/// What is said of the widths of a line.
fn word_text(word: Word) -> &'static str
    ensures { result.now ≡ word_text word }
{
    match word {
        Word::Holds => " holds\n",
        Word::Fails => " fails\n",
        Word::Undecided => " undecided\n",
    }
}

/// A number after a space.
pub(crate) fn push_number(out: &mut Vec<u8>, number: u64) -> Result<(), AllocError>
    ensures { OnOk result (out.new.items ≡ out.old.items ++ spaced number) }
{
    let mut buffer = Buffer::new();
    out.extend_from_slice(b" ")?;
    out.extend_from_slice(buffer.format(number).as_bytes())
}

/// The widths of a line, after spaces.
fn push_widths(out: &mut Vec<u8>, line: Line) -> Result<(), AllocError>
    ensures { OnOk result (out.new.items ≡ out.old.items ++ (spaced line.wl ++ spaced line.wh)) }
{
    push_number(out, u64::from(line.wl))?;
    push_number(out, u64::from(line.wh))
}

/// A line of a rule's survey.
fn push_line(out: &mut Vec<u8>, name: &[u8], line: Line) -> Result<(), AllocError>
    ensures { OnOk result (out.new.items ≡ out.old.items ++ line_text name.now line) }
{
    out.extend_from_slice(name)?;
    push_widths(out, line)?;
    out.extend_from_slice(word_text(line.word).as_bytes())
}

/// The lines of a rule's survey.
pub(crate) fn push_lines(out: &mut Vec<u8>, name: &[u8], lines: &[Line]) -> Result<(), AllocError>
    ensures { OnOk result (out.new.items
        ≡ out.old.items ++ flat_map (line_text name.now) lines.now) }
{
    for line in lines {
        push_line(out, name, *line)?;
    }
    Ok(())
}

/// Whether a line is undecided.
fn is_open(line: Line) -> bool
    ensures { result ≡ is_open line }
{
    match line.word {
        Word::Undecided => true,
        _ => false,
    }
}

/// Whether one of the lines is undecided.
pub(crate) fn some_open(lines: &[Line]) -> bool
    ensures { result ≡ list_any is_open lines.now }
{
    lines.iter().any(|line| is_open(*line))
}
