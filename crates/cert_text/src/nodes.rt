ghost use Rattle.std.specs.Prelude.{◌≡◌, ◌-◌, MatchResult, IfOk, IsTrue};
ghost use Rattle.cert_text.specs.steps.Read.{Reads};
ghost use Rattle.cert_text.specs.steps.Whole.{piece_of, read_below, read_node, read_front, read_whole};
ghost use Rattle.cert_text.specs.Fault.{IsFault};
ghost use Rattle.cert_text.specs.Texts.{CertText, piece_has_text};

use crate::certificate::{Cert, CertFault, CertNode};
use crate::cursor::{Cursor, Stop};
use crate::node_lines::NodeLines;
use crate::pieces::{read_head, read_lines};
use crate::spelling::MOST_LEVELS;
use std::alloc::{AllocError, Global};
use viz_base::Boxed;

/// The certificate whose text the bytes are.
/// Faults: `Mem`, want of memory; `Grammar(at)`, exactly where no certificate spells the bytes, at
/// being the length of their longest prefix that is a prefix of some certificate's text.
pub fn read_cert(alloc: Global, bytes: &[u8]) -> Result<Cert, CertFault>
    ensures { MatchResult result (λ cert. CertText cert bytes.now)
        (λ fault. IsFault fault bytes.now) }
{
    let mut cursor = Cursor { rest: bytes };
    match read_whole(alloc, &mut cursor) {
        Ok(cert) => Ok(cert),
        Err(Stop::Mem) => Err(CertFault::Mem),
        Err(Stop::Refused) => Err(CertFault::Grammar((bytes.len() - cursor.rest.len()) as u64)),
    }
}

/// A certificate with nothing behind it.
fn read_whole(alloc: Global, cursor: &mut Cursor) -> Result<Cert, Stop>
    ensures { Reads result (read_whole cursor.old.rest.now) cursor.new.rest.now }
{
    let cert = read_front(alloc, cursor)?;
    if cursor.rest.is_empty() {
        Ok(cert)
    } else {
        Err(Stop::Refused)
    }
}

/// A certificate, whatever is behind it.
fn read_front(alloc: Global, cursor: &mut Cursor) -> Result<Cert, Stop>
    ensures { Reads result (read_front cursor.old.rest.now) cursor.new.rest.now }
{
    let (form, job) = read_head(cursor)?;
    let root = read_node(alloc, cursor, form, MOST_LEVELS)?.into_inner();
    Ok(Cert { form, job, root })
}

fn boxed(alloc: Global, node: CertNode) -> Result<Boxed<CertNode>, AllocError>
    ensures { IfOk result (λ boxed. boxed ≡ node) }
{
    Boxed::new(alloc, node)
}

/// A node in a certificate of this form, where at most `levels` defs, splits and lemmas may stand one in another.
#[cycle(nodes)]
fn read_node(
    alloc: Global,
    cursor: &mut Cursor,
    form: u8,
    levels: u16,
) -> Result<Boxed<CertNode>, Stop>
    ensures { Reads result (read_node form levels cursor.old.rest.now) cursor.new.rest.now }
{
    let lines = read_lines(alloc, cursor, form, levels)?;
    read_below(alloc, cursor, form, levels, lines)
}

/// The node of these lines, with what stands below it.
#[cycle(nodes)]
fn read_below(
    alloc: Global,
    cursor: &mut Cursor,
    form: u8,
    levels: u16,
    lines: NodeLines,
) -> Result<Boxed<CertNode>, Stop>
    requires { IsTrue (piece_has_text form levels (piece_of lines)) }
    ensures { Reads result (read_below (read_node form (levels - 1))
        (piece_of lines) cursor.old.rest.now) cursor.new.rest.now }
{
    match lines {
        NodeLines::Def(row, divisor) => {
            let below = read_node(alloc, cursor, form, levels - 1)?;
            Ok(boxed(alloc, CertNode::Def(row, divisor, below))?)
        }
        NodeLines::Split(row) => {
            let first = read_node(alloc, cursor, form, levels - 1)?;
            let second = read_node(alloc, cursor, form, levels - 1)?;
            Ok(boxed(alloc, CertNode::Split(row, first, second))?)
        }
        NodeLines::Lemma(row, why) => {
            let below = read_node(alloc, cursor, form, levels - 1)?;
            Ok(boxed(alloc, CertNode::Lemma(row, why, below))?)
        }
        NodeLines::Void(why) => Ok(boxed(alloc, CertNode::Void(why))?),
        NodeLines::Grid => Ok(boxed(alloc, CertNode::Grid)?),
        NodeLines::Leaf(answers) => Ok(boxed(alloc, CertNode::Leaf(answers))?),
    }
}
