ghost use Rattle.std.specs.Prelude.{◌+◌, ◌<◌, ◌^◌, IfOk};
ghost use Rattle.cert_text.specs.Nodes.{node_count};
ghost use Rattle.cert_semantics.specs.Axes.{axis_count};
ghost use Rattle.viz_renew.specs.Pieces.{ArePieces};

use crate::counts::Kept;
use crate::here::Here;
use crate::walk::keep_node;
use cert_check::Descent;
use cert_text::Cert;
use std::alloc::Global;
use viz_base::{Job, Mem};

/// How many leaves and grids a certificate has, and how many of them are kept under a job, whoever made it and for
/// whatever job; the digest isn't looked at. A grid is kept exactly where it and all nodes above it are well shaped,
/// the denials of the rows above are in `i128`, its numbers are, and the formula is true at each world of its path; a
/// leaf is kept only where so it is, and where the checker would accept it below lemmas that are derived. The only
/// fault is want of memory.
///
/// Each leaf takes one layout of the page, and so does each world of a grid's path, or two.
pub fn pieces(alloc: Global, job: &Job, cert: &Cert) -> Result<Kept, Mem>
    requires few { node_count cert.now.root + axis_count job.now.form < 2 ^ 32 }
    ensures { IfOk result (ArePieces job.now cert.now) }
{
    let mut descent = Descent::new(alloc, job)?;
    let here = Here {
        alloc,
        part: Some(job.range),
        kept: Kept::nothing(),
    };
    keep_node(&mut descent, &cert.root, here)
}
