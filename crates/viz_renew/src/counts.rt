ghost use Rattle.std.specs.Prelude.{◌≡◌, IfOk};
ghost use Rattle.viz_renew.specs.Pieces.{nothing, raised, with_grid, with_leaf};

use viz_base::Mem;

/// How many leaves and grids a certificate has, and how many of them are kept under a job.
#[derive(Clone, Copy, Debug, PartialEq, Eq)]
pub struct Kept {
    pub leaves: u32,
    pub leaves_kept: u32,
    pub grids: u32,
    pub grids_kept: u32,
}

/// A count, and one more if so. No memory holds a certificate whose nodes pass 32 bits.
fn raised(count: u32, more: bool) -> Result<u32, Mem>
    ensures { IfOk result (λ next. next ≡ raised more count) }
{
    if more {
        count.checked_add(1).ok_or(Mem)
    } else {
        Ok(count)
    }
}

impl Kept {
    /// No leaf and no grid.
    pub fn nothing() -> Self
        ensures { result ≡ nothing }
    {
        Kept {
            leaves: 0,
            leaves_kept: 0,
            grids: 0,
            grids_kept: 0,
        }
    }

    /// A grid more, and whether it is kept.
    pub fn with_grid(self, is_kept: bool) -> Result<Self, Mem>
        ensures { IfOk result (λ next. next ≡ with_grid is_kept self) }
    {
        let grids = raised(self.grids, true)?;
        let grids_kept = raised(self.grids_kept, is_kept)?;
        Ok(Kept {
            leaves: self.leaves,
            leaves_kept: self.leaves_kept,
            grids,
            grids_kept,
        })
    }

    /// A leaf more, and whether it is kept.
    pub fn with_leaf(self, is_kept: bool) -> Result<Self, Mem>
        ensures { IfOk result (λ next. next ≡ with_leaf is_kept self) }
    {
        let leaves = raised(self.leaves, true)?;
        let leaves_kept = raised(self.leaves_kept, is_kept)?;
        Ok(Kept {
            leaves,
            leaves_kept,
            grids: self.grids,
            grids_kept: self.grids_kept,
        })
    }
}
