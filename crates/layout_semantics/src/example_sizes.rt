ghost use Rattle.std.specs.Prelude.{◌≡◌, [], ◌∷◌};
ghost use Rattle.layout_semantics.specs.PlainPages.{TreeKeeps};
ghost use Rattle.layout_semantics.specs.Examples.{border_boxes, border_boxes_at, edges, rectangles, so_high};
ghost use Rattle.layout_semantics.specs.ExampleSizes.{centred_block, em_of_em, two_images, percentage_paddings, percentage_of_auto, percentage_of_viewport, minimum_height, twelve_edges};

/// Two automatic margins are equally wide (CSS 2.1, 10.3.3).
pub fn centred_block()
    ensures { (ok : TreeKeeps centred_block) → border_boxes centred_block ok
        ≡ edges 0 0 20480 640 ∷ edges 0 0 20480 640 ∷ edges 7040 0 13440 640 ∷ [] }
{}

/// A font size in em is of the parent's, and any other length in em of the element's own (CSS 2.1, 4.3.2): here 64px.
pub fn em_of_em()
    ensures { (ok : TreeKeeps em_of_em)
        → border_boxes em_of_em ok ≡ edges 0 0 20480 2048 ∷ edges 0 0 20480 2048
        ∷ edges 0 0 20480 2048 ∷ edges 0 0 4096 2048 ∷ [] }
{}

/// One size of an image that is given, the other follows by its ratio (CSS 2.1, 10.3.2 and 10.6.2): 40px by 20px, and
/// 20px by 10px.
pub fn two_images()
    ensures { (ok : TreeKeeps two_images) → border_boxes two_images ok
        ≡ edges 0 0 20480 1587 ∷ edges 0 0 20480 1587 ∷ edges 0 0 20480 1587 ∷ edges 0 0 2560 1280
        ∷ edges 2560 640 3840 1280 ∷ [] }
{}

/// A percentage of a padding, above and below too, is of the width of the containing block (CSS 2.1, 8.4): here 20px.
pub fn percentage_paddings()
    ensures { (ok : TreeKeeps percentage_paddings)
        → border_boxes percentage_paddings ok
        ≡ edges 0 0 20480 3200 ∷ edges 0 0 20480 3200 ∷ edges 0 0 12800 3200 ∷ edges 0 0 12800 3200
        ∷ edges 1280 1280 11520 1920 ∷ [] }
{}

/// A percentage of a height that is `auto` counts as `auto` (CSS 2.1, 10.5).
pub fn percentage_of_auto()
    ensures { (ok : TreeKeeps percentage_of_auto)
        → border_boxes percentage_of_auto ok
        ≡ edges 0 0 20480 640 ∷ edges 0 0 20480 640 ∷ edges 0 0 20480 640 ∷ edges 0 0 20480 640
        ∷ [] }
{}

/// A percentage of the height of the root is of the viewport's height (CSS 2.1, 10.1 and 10.5), whatever that is.
pub fn percentage_of_viewport()
    ensures low { (ok : TreeKeeps percentage_of_viewport)
        → border_boxes_at (so_high 600) percentage_of_viewport ok
        ≡ edges 0 0 20480 38400 ∷ edges 0 0 20480 640 ∷ edges 0 0 20480 640 ∷ [] }
    ensures high { (ok : TreeKeeps percentage_of_viewport)
        → border_boxes_at (so_high 700) percentage_of_viewport ok
        ≡ edges 0 0 20480 44800 ∷ edges 0 0 20480 640 ∷ edges 0 0 20480 640 ∷ [] }
{}

/// A box is no lower than its minimum height (CSS 2.1, 10.7).
pub fn minimum_height()
    ensures { (ok : TreeKeeps minimum_height)
        → border_boxes minimum_height ok
        ≡ edges 0 0 20480 1920 ∷ edges 0 0 20480 1920 ∷ edges 0 0 20480 1920 ∷ edges 0 0 20480 640
        ∷ [] }
{}

/// Each rectangle of a box is the next one around it without the strips of its edges (CSS 2.1, 8.1).
pub fn twelve_edges()
    ensures { (ok : TreeKeeps twelve_edges)
        → rectangles twelve_edges ok ≡ edges 0 0 20480 3584 ∷ edges 0 0 20480 3584
        ∷ edges 0 0 20480 3584 ∷ edges 0 0 20480 3584 ∷ edges 0 0 20480 0 ∷ edges 0 0 20480 0
        ∷ edges 0 0 20480 0 ∷ edges 0 0 20480 0 ∷ edges 0 0 9088 3584 ∷ edges 256 64 8960 3392
        ∷ edges 768 384 8576 2944 ∷ edges 1536 960 7936 2240 ∷ [] }
{}
