ghost use Rattle.std.specs.Prelude.{◌≡◌};
ghost use Rattle.cert_text.specs.steps.Read.{Reads};
ghost use Rattle.cert_text.specs.steps.Stream.{read_due};

use crate::certificate::{CertFault, Piece};
use crate::cursor::{Cursor, Stop};
use crate::due::{Due, due_after};
use crate::node_lines::piece_of;
use crate::pieces::{read_head, read_lines};
use std::alloc::Global;
use std::marker::Model;

/// Reads a certificate piece by piece. It holds the bytes and what is due, which is no more than nodes stand one in
/// another, however long the text is. Contracts see the bytes taken and those that are left.
#[derive(Drop)]
pub struct Reader<'a> {
    bytes: &'a [u8],
    rest: &'a [u8],
    next: Option<Due>,
    later: Vec<Due>,
}

impl<'a> Model for Reader<'a> {
    ghost use Rattle.cert_text.specs.Pieces.{Reading};
    ghost use Rattle.cert_text.specs.steps.Stream.{Stands, taken_of};

    ghost Value = { Reading };

    ghost view = { λ r. record { taken = taken_of r.bytes.now r.rest.now; rest = r.rest.now } };

    ghost invariant = { λ r. Stands r.bytes.now r.rest.now r.next r.later.items };
}

/// The piece that is due.
fn read_due(alloc: Global, cursor: &mut Cursor, due: Due) -> Result<Piece, Stop>
    ensures { Reads result (read_due due cursor.old.rest.now) cursor.new.rest.now }
{
    match due {
        Due::Head => {
            let (form, job) = read_head(cursor)?;
            Ok(Piece::Head { form, job })
        }
        Due::Node { form, levels } => Ok(piece_of(read_lines(alloc, cursor, form, levels)?)),
    }
}

impl<'a> Reader<'a> {
    ghost use Rattle.std.specs.Prelude.{◌≡◌, [], length};
    ghost use Rattle.cert_text.specs.Pieces.{HasGiven, IsNext};

    /// A reader at the front of a text. Takes no memory.
    pub fn new(alloc: Global, bytes: &'a [u8]) -> Self
        ensures front { result ≡ record { taken = []; rest = bytes.now } }
        ensures given { HasGiven result [] }
    {
        Reader {
            bytes,
            rest: bytes,
            next: Some(Due::Head),
            later: Vec::new(alloc),
        }
    }

    /// How many bytes are taken.
    pub fn place(&self) -> u64
        ensures { result ≡ length self.now.taken }
    {
        (self.bytes.len() - self.rest.len()) as u64
    }

    /// The next piece, whose lines are taken; none, now and later, where the bytes taken are a whole certificate's
    /// text, whatever is left. A fault leaves the reader as it was. Faults: `Mem`, want of memory; `Grammar(at)`, now
    /// and later, where no prefix of the bytes is a certificate's text and no more piece's lines stand whole in them,
    /// at being the length of the longest prefix with which some certificate's text begins.
    pub fn next(&mut self) -> Result<Option<Piece>, CertFault>
        ensures { IsNext self.old result self.new }
    {
        let Some(due) = self.next else {
            return Ok(None);
        };
        let alloc = *self.later.allocator();
        let mut cursor = Cursor { rest: self.rest };
        match read_due(alloc, &mut cursor, due) {
            Ok(piece) => match due_after(due, &piece, &mut self.later) {
                Ok(next) => {
                    self.next = next;
                    self.rest = cursor.rest;
                    Ok(Some(piece))
                }
                Err(_) => Err(CertFault::Mem),
            },
            Err(Stop::Mem) => Err(CertFault::Mem),
            Err(Stop::Refused) => Err(CertFault::Grammar(
                (self.bytes.len() - cursor.rest.len()) as u64,
            )),
        }
    }
}
