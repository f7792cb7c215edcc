ghost use Rattle.page_build.specs.Laws.{OneAnswer};

use css_cascade::{one_cascade, one_pseudo_cascade};
use page_pseudo::one_growth;
use vis_read::one_answer as one_formula;

/// Law: bytes spell at most one list of jobs, or are refused in one way, and never both; and so at each width and size.
pub fn one_answer()
    ensures { OneAnswer }
{
    one_cascade();
    one_pseudo_cascade();
    one_growth();
    one_formula();
}
