ghost use Rattle.viz_replies.specs.Laws.{OneJobThere, PartsAreTrueThere, PartsHold};

use crate::part_laws::parts_tell;
use page_build::one_answer;

/// Law: the jobs of the parts of a range all hold exactly where the assertion as it is written is true everywhere, and
/// all are true at a world of the range exactly where it is true there. Where bytes spell the jobs of the parts, they
/// spell one job at each world of the range.
pub fn parts_hold()
    ensures everywhere { PartsHold }
    ensures there { PartsAreTrueThere }
    ensures one { OneJobThere }
{
    one_answer();
    parts_tell();
}
