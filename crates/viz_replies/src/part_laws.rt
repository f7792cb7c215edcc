ghost use Rattle.viz_replies.specs.Parts.{HaveRanges, HaveRangesWith, PartsTell};

use page_media::{chosen_are_met, each_world_has_one_part, features_are_all, guarded_is_if};

/// Law: what a job file says has a range, also under another assertion. The jobs of its parts are 1 to 12, all over
/// that range, and at each world of it their formulas are all true exactly where the assertion as it is written is true
/// of the job at the world.
pub fn parts_tell()
    ensures tell { PartsTell }
    ensures ranges { HaveRanges }
    ensures ranges_with { HaveRangesWith }
{
    features_are_all();
    chosen_are_met();
    each_world_has_one_part();
    guarded_is_if();
}
