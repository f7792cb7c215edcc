ghost use Rattle.std.specs.Prelude.{◌≡◌, IsTrue, IfOk};
ghost use Rattle.cert_text.specs.steps.Read.{Reads};
ghost use Rattle.cert_text.specs.steps.Parts.{read_row, read_derivation};
ghost use Rattle.cert_text.specs.steps.Whole.{ReadsLines, piece_of, read_behind_le, read_deep, read_def, read_flat, read_form, read_head, read_leaf, read_lemma, read_piece, read_split, read_void};
ghost use Rattle.cert_text.specs.Texts.{piece_has_text};

use crate::cursor::{Cursor, Stop};
use crate::node_lines::NodeLines;
use crate::numbers::natural;
use crate::read::{MOST_TIMES, read_answers, read_derivation, read_row};
use crate::spelling::{MOST_CASES, WITH_LEMMAS};
use lin_proof::{Derivation, Row};
use std::alloc::Global;
use viz_base::Boxed;

/// The form in a certificate's first line.
fn read_form(cursor: &mut Cursor) -> Result<u8, Stop>
    ensures { Reads result (read_form cursor.old.rest.now) cursor.new.rest.now }
{
    if cursor.begins(b'1') {
        cursor.word(b"1")?;
        return Ok(1);
    }
    cursor.word(b"2")?;
    Ok(WITH_LEMMAS)
}

/// The first two lines: the certificate's form, and the job's digest.
pub fn read_head(cursor: &mut Cursor) -> Result<(u8, [u8; 32]), Stop>
    ensures { Reads result (read_head cursor.old.rest.now) cursor.new.rest.now }
{
    cursor.word(b"vizlog-cert ")?;
    let form = read_form(cursor)?;
    cursor.word(b"\njob ")?;
    let job = cursor.digest()?;
    cursor.word(b"\n")?;
    Ok((form, job))
}

// The walk over nodes goes some 500 levels deep. What needs much of the stack stands in calls that have returned
// before it descends, none of them inlined, and what they give lies in boxes.

/// A row in a box of its own, and what stands behind it.
#[inline(never)]
fn read_boxed_row(alloc: Global, cursor: &mut Cursor, is_def: bool) -> Result<Boxed<Row>, Stop>
    ensures { Reads result (read_row is_def cursor.old.rest.now) cursor.new.rest.now }
{
    let row = read_row(alloc, cursor, is_def)?;
    Ok(Boxed::new(alloc, row)?)
}

/// A derivation in a box of its own.
#[inline(never)]
fn read_boxed_derivation(alloc: Global, cursor: &mut Cursor) -> Result<Boxed<Derivation>, Stop>
    ensures { Reads result (read_derivation 64 cursor.old.rest.now) cursor.new.rest.now }
{
    let why = read_derivation(alloc, cursor, MOST_CASES)?;
    Ok(Boxed::new(alloc, why)?)
}

fn read_def(alloc: Global, cursor: &mut Cursor) -> Result<NodeLines, Stop>
    ensures { ReadsLines result (read_def cursor.old.rest.now) cursor.new.rest.now }
{
    cursor.word(b"def ")?;
    let row = read_boxed_row(alloc, cursor, true)?;
    let (divisor, _) = natural(cursor, (b'\n', b'\n'), 1, MOST_TIMES)?;
    Ok(NodeLines::Def(row, Boxed::new(alloc, divisor as i128)?))
}

fn read_split(alloc: Global, cursor: &mut Cursor) -> Result<NodeLines, Stop>
    ensures { ReadsLines result (read_split cursor.old.rest.now) cursor.new.rest.now }
{
    cursor.word(b"split ")?;
    Ok(NodeLines::Split(read_boxed_row(alloc, cursor, false)?))
}

/// What stands behind the "le" of a lemma.
fn read_lemma(alloc: Global, cursor: &mut Cursor) -> Result<NodeLines, Stop>
    ensures { ReadsLines result (read_lemma cursor.old.rest.now) cursor.new.rest.now }
{
    cursor.word(b"mma ")?;
    let row = read_boxed_row(alloc, cursor, false)?;
    let why = read_boxed_derivation(alloc, cursor)?;
    Ok(NodeLines::Lemma(row, why))
}

/// What stands behind the "le" of a leaf.
fn read_leaf(alloc: Global, cursor: &mut Cursor) -> Result<NodeLines, Stop>
    ensures { ReadsLines result (read_leaf cursor.old.rest.now) cursor.new.rest.now }
{
    cursor.word(b"af\n")?;
    Ok(NodeLines::Leaf(read_answers(alloc, cursor)?))
}

/// What stands behind "le": a leaf or, where lemmas may come, a lemma.
fn read_behind_le(alloc: Global, cursor: &mut Cursor, has_lemmas: bool) -> Result<NodeLines, Stop>
    ensures { ReadsLines result
        (read_behind_le has_lemmas cursor.old.rest.now) cursor.new.rest.now }
{
    if has_lemmas && cursor.begins(b'm') {
        read_lemma(alloc, cursor)
    } else {
        read_leaf(alloc, cursor)
    }
}

fn read_void(alloc: Global, cursor: &mut Cursor) -> Result<NodeLines, Stop>
    ensures { ReadsLines result (read_void cursor.old.rest.now) cursor.new.rest.now }
{
    cursor.word(b"void\n")?;
    Ok(NodeLines::Void(read_boxed_derivation(alloc, cursor)?))
}

/// A void, a grid, a leaf or, where lemmas may come, a lemma.
fn read_flat(alloc: Global, cursor: &mut Cursor, has_lemmas: bool) -> Result<NodeLines, Stop>
    ensures { ReadsLines result (read_flat has_lemmas cursor.old.rest.now) cursor.new.rest.now }
{
    if cursor.begins(b'v') {
        return read_void(alloc, cursor);
    }
    if cursor.begins(b'g') {
        cursor.word(b"grid\n")?;
        return Ok(NodeLines::Grid);
    }
    cursor.word(b"le")?;
    read_behind_le(alloc, cursor, has_lemmas)
}

/// Any node's lines; a lemma's where lemmas may come.
fn read_deep(alloc: Global, cursor: &mut Cursor, has_lemmas: bool) -> Result<NodeLines, Stop>
    ensures { ReadsLines result (read_deep has_lemmas cursor.old.rest.now) cursor.new.rest.now }
{
    if cursor.begins(b'd') {
        return read_def(alloc, cursor);
    }
    if cursor.begins(b's') {
        return read_split(alloc, cursor);
    }
    read_flat(alloc, cursor, has_lemmas)
}

fn read_any(alloc: Global, cursor: &mut Cursor, form: u8, levels: u16) -> Result<NodeLines, Stop>
    ensures { ReadsLines result (read_piece form levels cursor.old.rest.now) cursor.new.rest.now }
{
    if levels > 0 {
        read_deep(alloc, cursor, form == WITH_LEMMAS)
    } else {
        read_flat(alloc, cursor, false)
    }
}

/// The lines of a node, without those of the nodes below it, in a certificate of this form, where at most `levels`
/// defs, splits and lemmas may stand one in another.
#[inline(never)]
pub fn read_lines(
    alloc: Global,
    cursor: &mut Cursor,
    form: u8,
    levels: u16,
) -> Result<NodeLines, Stop>
    ensures gives { ReadsLines result
        (read_piece form levels cursor.old.rest.now) cursor.new.rest.now }
    ensures has { IfOk result (λ lines. IsTrue (piece_has_text form levels (piece_of lines))) }
{
    read_any(alloc, cursor, form, levels)
}
