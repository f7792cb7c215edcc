ghost use Rattle.std.specs.Prelude.{◌≡◌, ℕ};
ghost use Rattle.viz_base.specs.Worlds.{along};
ghost use Rattle.cert_semantics.specs.Axes.{axis_count, axis_of, variable_of};
ghost use Rattle.cert_semantics.specs.Laws.{HaveVariables, HeightIsOfForm2};

use viz_base::{Axis, World};

/// How many axes a job of a form has variables for. The variables from this one on stand for floors.
pub fn axis_count(form: u8) -> u32
    ensures { result ≡ axis_count form }
{
    if form == 2 { 3 } else { 2 }
}

/// The axis that a variable of a row stands for in a job of a form.
pub fn axis_of(form: u8, variable: u32) -> Option<Axis>
    ensures { result ≡ axis_of form variable }
{
    match variable {
        0 => Some(Axis::Width),
        1 => Some(Axis::Size),
        2 if form == 2 => Some(Axis::Height),
        _ => None,
    }
}

/// The variable that stands for an axis, where the form has it: the height's is one in form 2 alone.
pub fn variable_of(axis: Axis) -> u32
    ensures { result ≡ variable_of axis }
{
    match axis {
        Axis::Width => 0,
        Axis::Size => 1,
        Axis::Height => 2,
    }
}

/// The number that a world has on an axis.
pub fn along(axis: Axis, world: World) -> u32
    ensures { result ≡ along axis world }
{
    match axis {
        Axis::Width => world.w,
        Axis::Size => world.s,
        Axis::Height => world.h,
    }
}

/// Each axis of a form has a variable, which stands for no other, and these are those below the count of axes; the
/// height has one in form 2 alone.
pub fn axes_have_variables()
    ensures have { (form : ℕ) → HaveVariables form }
    ensures height { HeightIsOfForm2 }
{}
