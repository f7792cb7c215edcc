ghost use Rattle.std.specs.Prelude.{◌≡◌};
ghost use Rattle.viz_base.specs.Worlds.{side_of, with_side};

/// What a page is laid out for: the viewport's width and height and the default font size, in whole CSS pixels.
#[derive(Clone, Copy, Debug, PartialEq, Eq)]
pub struct World {
    /// Viewport width in pixels.
    pub w: u32,
    /// Default font size in pixels, the size that `font-size: medium` has.
    pub s: u32,
    /// Viewport height in pixels.
    pub h: u32,
}

/// One of the numbers that a world consists of.
#[derive(Clone, Copy, PartialEq, Eq)]
pub enum Axis {
    /// The viewport's width.
    Width,
    /// The default font size.
    Size,
    /// The viewport's height.
    Height,
}

/// The whole numbers from one to another, both included.
#[derive(Clone, Copy)]
pub struct Span {
    /// The first of them.
    pub least: u32,
    /// The last of them.
    pub most: u32,
}

/// A rectangle of worlds, both ends of each range included.
#[derive(Clone, Copy)]
pub struct Rect {
    /// The least width in pixels.
    pub wl: u32,
    /// The greatest width in pixels.
    pub wh: u32,
    /// The least default font size in pixels.
    pub sl: u32,
    /// The greatest default font size in pixels.
    pub sh: u32,
    /// The least height in pixels.
    pub hl: u32,
    /// The greatest height in pixels.
    pub hh: u32,
}

impl Rect {
    /// The numbers that the rectangle's worlds have on an axis.
    pub fn side(self, axis: Axis) -> Span
        ensures { result ≡ side_of axis self }
    {
        match axis {
            Axis::Width => Span {
                least: self.wl,
                most: self.wh,
            },
            Axis::Size => Span {
                least: self.sl,
                most: self.sh,
            },
            Axis::Height => Span {
                least: self.hl,
                most: self.hh,
            },
        }
    }

    /// The rectangle with other numbers on an axis.
    pub fn with_side(self, axis: Axis, side: Span) -> Rect
        ensures { result ≡ with_side axis self side }
    {
        match axis {
            Axis::Width => Rect {
                wl: side.least,
                wh: side.most,
                sl: self.sl,
                sh: self.sh,
                hl: self.hl,
                hh: self.hh,
            },
            Axis::Size => Rect {
                wl: self.wl,
                wh: self.wh,
                sl: side.least,
                sh: side.most,
                hl: self.hl,
                hh: self.hh,
            },
            Axis::Height => Rect {
                wl: self.wl,
                wh: self.wh,
                sl: self.sl,
                sh: self.sh,
                hl: side.least,
                hh: side.most,
            },
        }
    }
}
