ghost use Rattle.std.specs.Prelude.{◌≡◌, ◌↔◌, ℤ, ◌≤ℤ◌, List, [], Contains, IsTrue};
ghost use Rattle.layout_laws.specs.Bands.{IsLeftOver};
ghost use Rattle.layout_laws.specs.Clearance.{IsApart};
ghost use Rattle.viz_base.specs.declared.layouts.Band.{Band};
ghost use Rattle.viz_base.specs.declared.layouts.Extent.{Extent};
ghost use Rattle.viz_base.specs.declared.layouts.Spot.{Spot};
ghost use Rattle.viz_base.specs.declared.styles.Side.{Side};
ghost use Rattle.layout_semantics.specs.Floats.{FloatBox, is_allowed, float_at, band_at};
ghost use Rattle.layout_laws.specs.FloatRules.{ObeysRules, IsNoFarther};

/// A place is allowed exactly where it obeys the rules for floats (CSS 2.1, 9.5.1, rules 1 to 7).
pub fn a_place_is_allowed_where_it_obeys_the_rules()
    ensures { (floats : List FloatBox) (side : Side) (width : ℤ) (cb : Band ℤ) (top : ℤ)
        (at : Spot ℤ) → IsTrue (is_allowed floats side width cb top at)
        ↔ ObeysRules floats side width cb top at }
{}

/// Whatever floats there are, a float has a place, and it obeys the rules.
pub fn a_floats_place_obeys_the_rules()
    ensures { (floats : List FloatBox) (side : Side) (size : Extent ℤ) (cb : Band ℤ) (top : ℤ)
        → ObeysRules floats side size.width cb top (float_at floats side size cb top) }
{}

/// No place that obeys them is higher (rule 8).
pub fn no_allowed_place_is_higher()
    ensures { (floats : List FloatBox) (side : Side) (size : Extent ℤ) (cb : Band ℤ) (top : ℤ)
        (at : Spot ℤ) → ObeysRules floats side size.width cb top at
        → (float_at floats side size cb top).y ≤ℤ at.y }
{}

/// None as high is farther to the float's side (rule 9).
pub fn no_allowed_place_as_high_is_farther_to_the_side()
    ensures { (floats : List FloatBox) (side : Side) (size : Extent ℤ) (cb : Band ℤ) (top : ℤ)
        (at : Spot ℤ) → ObeysRules floats side size.width cb top at
        → at.y ≡ (float_at floats side size cb top).y
        → IsNoFarther side at (float_at floats side size cb top) }
{}

/// The band at a span is what the floats that meet the span leave of the containing block (CSS 2.1, 9.5).
pub fn a_band_is_what_floats_leave()
    ensures { (floats : List FloatBox) (cb : Band ℤ) (y h : ℤ)
        → IsLeftOver floats cb y h (band_at floats cb y h) }
{}

/// Without floats it is the whole containing block.
pub fn a_band_without_floats_is_the_containing_block()
    ensures { (cb : Band ℤ) (y h : ℤ) → band_at [] cb y h ≡ cb }
{}

/// A float's outer box overlaps no earlier float's of its context.
pub fn a_float_overlaps_no_earlier_one()
    ensures { (floats : List FloatBox) (side : Side) (size : Extent ℤ) (cb : Band ℤ) (top : ℤ)
        (f : FloatBox) → Contains floats f → IsApart size (float_at floats side size cb top) f.box }
{}
