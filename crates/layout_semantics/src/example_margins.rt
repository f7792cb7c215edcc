ghost use Rattle.std.specs.Prelude.{◌≡◌, [], ◌∷◌};
ghost use Rattle.layout_semantics.specs.PlainPages.{TreeKeeps};
ghost use Rattle.layout_semantics.specs.Examples.{border_boxes, edges};
ghost use Rattle.layout_semantics.specs.ExampleMargins.{padding_between_margins, minimum_between_margins, minimum_keeps_last_margin, cleared_last_block};

/// A padding parts the top margin of a block from that of its first child (CSS 2.1, 8.3.1).
pub fn padding_between_margins()
    ensures { (ok : TreeKeeps padding_between_margins)
        → border_boxes padding_between_margins ok
        ≡ edges 0 0 20480 2240 ∷ edges 0 0 20480 2240 ∷ edges 0 0 20480 2240
        ∷ edges 0 1600 20480 2240 ∷ [] }
{}

/// The margins of an empty block with a minimum height do not adjoin one another (CSS 2.1, 8.3.1).
pub fn minimum_between_margins()
    ensures { (ok : TreeKeeps minimum_between_margins)
        → border_boxes minimum_between_margins ok
        ≡ edges 0 0 20480 5120 ∷ edges 0 0 20480 5120 ∷ edges 0 0 20480 640
        ∷ edges 0 1280 20480 2560 ∷ edges 0 4480 20480 5120 ∷ [] }
{}

/// In a block with a minimum height the bottom margin of the last child stays inside (CSS 2.1, 8.3.1 and 10.6.3).
pub fn minimum_keeps_last_margin()
    ensures { (ok : TreeKeeps minimum_keeps_last_margin)
        → border_boxes minimum_keeps_last_margin ok
        ≡ edges 0 0 20480 2560 ∷ edges 0 0 20480 2560 ∷ edges 0 0 20480 1920 ∷ edges 0 0 20480 640
        ∷ edges 0 1920 20480 2560 ∷ [] }
{}

/// The margins of a cleared empty block collapse with one another and stay inside its parent (CSS 2.1, 8.3.1), whose
/// height is 70px.
pub fn cleared_last_block()
    ensures { (ok : TreeKeeps cleared_last_block) → border_boxes cleared_last_block ok
        ≡ edges 0 0 20480 7040 ∷ edges 0 0 20480 7040 ∷ edges 0 0 20480 4480 ∷ edges 0 0 6400 3200
        ∷ edges 0 3200 20480 3200 ∷ edges 0 6400 20480 7040 ∷ [] }
{}
