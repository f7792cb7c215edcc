ghost use Rattle.std.specs.Prelude.{◌≡◌, ◌+◌, ◌++◌, IfOk, OnOk};
ghost use Rattle.viz_renew.specs.Kept.{no_sums, plus, share, sums_line};

use crate::counts::Kept;
use std::alloc::{AllocError, Global};
use viz_base::Mem;
use viz_replies::push_number;

/// How many leaves and grids the certificates of all parts have, and how many of them are kept.
#[derive(Clone, Copy)]
pub struct Sums {
    pub leaves: u64,
    pub leaves_kept: u64,
    pub grids: u64,
    pub grids_kept: u64,
}

/// A sum. No memory holds certificates whose nodes pass 64 bits.
fn added(sum: u64, count: u32) -> Result<u64, Mem>
    ensures { IfOk result (λ next. next ≡ sum + count) }
{
    sum.checked_add(u64::from(count)).ok_or(Mem)
}

/// A word, a count, and of how many it is.
fn push_share(out: &mut Vec<u8>, word: &[u8], kept: u64, all: u64) -> Result<(), AllocError>
    ensures { OnOk result (out.new.items ≡ out.old.items ++ share word.now kept all) }
{
    out.extend_from_slice(word)?;
    push_number(out, kept)?;
    out.extend_from_slice(b" of")?;
    push_number(out, all)
}

impl Sums {
    /// Of no part.
    pub fn nothing() -> Self
        ensures { result ≡ no_sums }
    {
        Sums {
            leaves: 0,
            leaves_kept: 0,
            grids: 0,
            grids_kept: 0,
        }
    }

    /// With those of a part more.
    pub fn plus(self, kept: Kept) -> Result<Self, Mem>
        ensures { IfOk result (λ next. next ≡ plus self kept) }
    {
        let leaves = added(self.leaves, kept.leaves)?;
        let leaves_kept = added(self.leaves_kept, kept.leaves_kept)?;
        let grids = added(self.grids, kept.grids)?;
        let grids_kept = added(self.grids_kept, kept.grids_kept)?;
        Ok(Sums {
            leaves,
            leaves_kept,
            grids,
            grids_kept,
        })
    }

    /// Their line.
    pub fn line(self, alloc: Global) -> Result<Vec<u8>, AllocError>
        ensures { IfOk result (λ line. line.items ≡ sums_line self) }
    {
        let mut line = Vec::new(alloc);
        push_share(&mut line, b"leaves", self.leaves_kept, self.leaves)?;
        push_share(&mut line, b" grids", self.grids_kept, self.grids)?;
        line.extend_from_slice(b"\n")?;
        Ok(line)
    }
}
