ghost use Rattle.std.specs.Prelude.{◌≡◌, ◌≤◌, ◌<◌, MatchOption, IfSome};
ghost use Rattle.std.proofs.Props.{props};
ghost use Rattle.viz_base.specs.declared.limits.TheConstants.{MOST_PIXELS, MOST_SIZE};
ghost use Rattle.viz_replies.specs.Generated.{sections_most};

use crate::generator::SECTIONS_MOST;
use viz_base::{Rect, Text8, World};

/// A viewport and a default font size at which pages can be laid out, in pixels.
#[derive(Clone, Copy)]
pub struct Screen {
    /// The viewport's width.
    pub w: u32,
    /// The default font size.
    pub s: u32,
    /// The viewport's height; None for the least of the job's range.
    pub h: Option<u32>,
    ghost narrow: { w ≤ MOST_PIXELS },
    ghost sized: { s ≤ MOST_SIZE },
    ghost low: { IfSome h (λ h. h ≤ MOST_PIXELS) } by { Prim.hlevel props },
}

impl Screen {
    ghost use Rattle.viz_replies.specs.Screens.{world_in};

    /// The world that it names for a job of a range.
    pub fn world_in(self, range: Rect) -> World
        ensures { result ≡ world_in self range }
    {
        World {
            w: self.w,
            s: self.s,
            h: self.h.unwrap_or(range.hl),
        }
    }
}

/// What is asked about a job.
#[derive(Drop)]
pub enum Question {
    /// The rendering of its page at a screen.
    Lay(Screen),
    /// A certificate that its assertion holds over its range, within so many turns.
    Prove(u64),
    /// The verdict on the certificate that these bytes spell.
    Check(Text8),
}

/// How many sections a generated job has.
#[derive(Clone, Copy)]
pub struct Sections {
    pub count: u32,
    ghost few: { count ≤ sections_most },
}

impl Sections {
    /// So many sections, if a generated job may have them.
    pub fn within(count: u64) -> Option<Sections>
        ensures { MatchOption result (sections_most < count) (λ sections. sections.count ≡ count) }
    {
        if count > u64::from(SECTIONS_MOST) {
            None
        } else {
            Some(Sections {
                count: count as u32,
            })
        }
    }
}
