//! The public calls, each by a calc that may halt, its engine within a `Latch`. Outside cases alone ask them: the
//! layout goes by the engines.
ghost use Rattle.std.specs.Prelude.{◌≤◌, length, IfOk, IfErr};
ghost use Rattle.std.specs.Str.{chars};
ghost use Rattle.viz_calc.specs.State.{Stands, Grows, AreOpen, Fits, Cause};
ghost use Rattle.layout_semantics.specs.Fonts.{font_size as font_size_of, line_height as line_height_of};
ghost use Rattle.layout_semantics.specs.Fonts.{ascent as ascent_of, descent as descent_of, text_width as text_width_of};
ghost use Rattle.layout_semantics.specs.Lengths.{used as used_length};
ghost use Rattle.lay_length.specs.Ways.{size_way, part_way, line_way, used_way};
ghost use Rattle.viz_base.specs.declared.limits.TheConstants.{MOST_CHARACTERS};

use crate::{fonts, lengths};
use viz_base::{BoxTree, Length};
use viz_calc::{Calc, Halt, Latch};

/// A length in a containing block of width `cb`, in 1/64 px; `auto` counts 0 (CSS 2.1, 4.3.2).
///
/// `Coeff` where a coefficient passes its limit; `Mem` and `Open` as the calc gives them.
pub fn used<C: Calc>(
    calc: &mut C,
    tree: &BoxTree,
    length: &Length,
    cb: &C::Num,
) -> Result<C::Num, Halt>
    ensures grows { Grows (C.state calc.old) (C.state calc.new) }
    ensures value { IfOk result (λ r. Stands (C.state calc.new) (C.at r)
        (λ e. used_length tree.now e.world length.now (C.at cb.now e))) }
    ensures kept { AreOpen (C.state calc.old).kept (C.state calc.new) }
    ensures cause { IfErr result (Cause (C.state calc.old) (C.state calc.new)
        (Fits (C.state calc.old) (λ e. used_way tree.now e.world length.now (C.at cb.now e)))) }
{
    let mut latch = Latch::new(calc);
    let used = lengths::used(&mut latch, tree, length, cb);
    latch.finish(used)
}

/// The font size of a node, in 1/64 px (CSS 2.1, 15.7). Errors as those of `used`.
pub fn font_size<C: Calc>(calc: &mut C, tree: &BoxTree, node: u32) -> Result<C::Num, Halt>
    ensures grows { Grows (C.state calc.old) (C.state calc.new) }
    ensures value { IfOk result (λ r. Stands (C.state calc.new) (C.at r)
        (λ e. font_size_of tree.now e.world node)) }
    ensures kept { AreOpen (C.state calc.old).kept (C.state calc.new) }
    ensures cause { IfErr result (Cause (C.state calc.old) (C.state calc.new)
        (Fits (C.state calc.old) (λ e. size_way tree.now e.world node))) }
{
    let mut latch = Latch::new(calc);
    let size = fonts::font_size(&mut latch, tree, node);
    latch.finish(size)
}

/// The line height of a node, in 1/64 px (CSS 2.1, 10.8.1). Errors as those of `used`.
pub fn line_height<C: Calc>(calc: &mut C, tree: &BoxTree, node: u32) -> Result<C::Num, Halt>
    ensures grows { Grows (C.state calc.old) (C.state calc.new) }
    ensures value { IfOk result (λ r. Stands (C.state calc.new) (C.at r)
        (λ e. line_height_of tree.now e.world node)) }
    ensures kept { AreOpen (C.state calc.old).kept (C.state calc.new) }
    ensures cause { IfErr result (Cause (C.state calc.old) (C.state calc.new)
        (Fits (C.state calc.old) (λ e. line_way tree.now e.world node))) }
{
    let mut latch = Latch::new(calc);
    let height = fonts::line_height(&mut latch, tree, node);
    latch.finish(height)
}

/// The ascent of a node's font, in 1/64 px (CSS 2.1, 10.8.1). Errors as those of `used`.
pub fn ascent<C: Calc>(calc: &mut C, tree: &BoxTree, node: u32) -> Result<C::Num, Halt>
    ensures grows { Grows (C.state calc.old) (C.state calc.new) }
    ensures value { IfOk result (λ r. Stands (C.state calc.new) (C.at r)
        (λ e. ascent_of tree.now e.world node)) }
    ensures kept { AreOpen (C.state calc.old).kept (C.state calc.new) }
    ensures cause { IfErr result (Cause (C.state calc.old) (C.state calc.new)
        (Fits (C.state calc.old) (λ e. part_way tree.now e.world node
        (ascent_of tree.now e.world node)))) }
{
    let mut latch = Latch::new(calc);
    let ascent = fonts::ascent(&mut latch, tree, node);
    latch.finish(ascent)
}

/// The descent of a node's font, in 1/64 px (CSS 2.1, 10.8.1). Errors as those of `used`.
pub fn descent<C: Calc>(calc: &mut C, tree: &BoxTree, node: u32) -> Result<C::Num, Halt>
    ensures grows { Grows (C.state calc.old) (C.state calc.new) }
    ensures value { IfOk result (λ r. Stands (C.state calc.new) (C.at r)
        (λ e. descent_of tree.now e.world node)) }
    ensures kept { AreOpen (C.state calc.old).kept (C.state calc.new) }
    ensures cause { IfErr result (Cause (C.state calc.old) (C.state calc.new)
        (Fits (C.state calc.old) (λ e. part_way tree.now e.world node
        (descent_of tree.now e.world node)))) }
{
    let mut latch = Latch::new(calc);
    let descent = fonts::descent(&mut latch, tree, node);
    latch.finish(descent)
}

/// The width of a text of at most 262,144 characters as one word, in 1/64 px: the sum of its advances,
/// and then the fraction. Errors as those of `used`.
pub fn text_width<C: Calc>(
    calc: &mut C,
    tree: &BoxTree,
    node: u32,
    text: &str,
) -> Result<C::Num, Halt>
    requires { length (chars text.now) ≤ MOST_CHARACTERS }
    ensures grows { Grows (C.state calc.old) (C.state calc.new) }
    ensures value { IfOk result (λ r. Stands (C.state calc.new) (C.at r)
        (λ e. text_width_of tree.now e.world node (chars text.now))) }
    ensures kept { AreOpen (C.state calc.old).kept (C.state calc.new) }
    ensures cause { IfErr result (Cause (C.state calc.old) (C.state calc.new)
        (Fits (C.state calc.old) (λ e. part_way tree.now e.world node
        (text_width_of tree.now e.world node (chars text.now))))) }
{
    let mut latch = Latch::new(calc);
    let width = fonts::text_width(&mut latch, tree, node, text);
    latch.finish(width)
}
