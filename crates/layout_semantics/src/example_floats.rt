ghost use Rattle.std.specs.Prelude.{◌≡◌, [], ◌∷◌};
ghost use Rattle.layout_semantics.specs.PlainPages.{TreeKeeps};
ghost use Rattle.layout_semantics.specs.Examples.{border_boxes, edges};
ghost use Rattle.layout_semantics.specs.ExampleFloats.{block_below_the_left_float, cleared_float};

/// `clear: left` puts a block below the left floats, and not below the right ones (CSS 2.1, 9.5.2).
pub fn block_below_the_left_float()
    ensures { (ok : TreeKeeps block_below_the_left_float)
        → border_boxes block_below_the_left_float ok
        ≡ edges 0 0 20480 5120 ∷ edges 0 0 20480 3840 ∷ edges 0 0 6400 3200
        ∷ edges 14080 0 20480 5120 ∷ edges 0 3200 20480 3840 ∷ [] }
{}

/// A float with `clear` has its top below the earlier floats of that side (CSS 2.1, 9.5.2).
pub fn cleared_float()
    ensures { (ok : TreeKeeps cleared_float)
        → border_boxes cleared_float ok
        ≡ edges 0 0 20480 6400 ∷ edges 0 0 20480 0 ∷ edges 0 0 6400 3200 ∷ edges 0 3200 6400 6400
        ∷ [] }
{}
