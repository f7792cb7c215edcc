ghost use Rattle.std.specs.Prelude.{ℤ, List, Option};
ghost use Rattle.std.specs.List.{AllByRecursion};
ghost use Rattle.layout_semantics.specs.Floats.{FloatBox, Floating, with_float};
ghost use Rattle.page_limits.specs.Bounds.{Bounds, IsBandIn, IsExtentIn, IsFloatIn, IsLevelIn, grown, levels_of};

/// Where floats, and all else that a float's place is found by, stay within bounds, there the float stays within these
/// bounds and its own size together, wherever it is placed (CSS 2.1, 9.5.1).
pub fn a_float_stays_within_reach()
    ensures { (b own : Bounds) (f : Floating) (floats : List FloatBox) (least : Option ℤ) (y : ℤ)
        → AllByRecursion (IsFloatIn b) floats → AllByRecursion (IsLevelIn b) (levels_of least y)
        → IsBandIn b f.cb → IsExtentIn own f.size
        → AllByRecursion (IsFloatIn (grown b own)) (with_float f floats least y) }
{}
