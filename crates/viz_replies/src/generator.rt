ghost use Rattle.std.specs.Prelude.{◌≡◌, ◌<◌, ◌↔◌, ◌++◌, IfOk, IsErrOf};
ghost use Rattle.viz_replies.specs.Generated.{after_sections, before_sections, job_text, sections_most};

use crate::faults::GenFault;
use crate::sections::push_sections;
use std::alloc::{AllocError, Global};

/// No job has more sections.
pub const SECTIONS_MOST: u32 = 1_000;

/// The text before the sections.
#[tactic(auto, unfolding(crate::specs::Generated::before_sections))]
fn before_sections() -> &'static str
    ensures { result.now ≡ before_sections }
{
    "{\"vizlog\":1,\"widths\":[320,1920],\"sizes\":[12,24],\"height\":800,\
\"fonts\":[{\"name\":\"Square\",\"upem\":1000,\"ascent\":800,\"descent\":200,\"default\":500,\"advances\":[]}],\
\"css\":[\"body{margin:0}div{height:40px}.c0{margin:10px 0}.c1{float:left;width:20%}.c2{clear:both}.c3{padding:1em}\"],\
\"page\":{\"tag\":\"html\",\"children\":[{\"tag\":\"body\",\"children\":["
}

/// The text after the sections.
#[tactic(auto, unfolding(crate::specs::Generated::after_sections))]
fn after_sections() -> &'static str
    ensures { result.now ≡ after_sections }
{
    "]}]},\"assert\":\"forall b in block: b.left >= 0 and b.right <= view.width\"}"
}

/// The text of the job.
fn written(alloc: Global, seed: u64, sections: u32) -> Result<Vec<u8>, AllocError>
    ensures { IfOk result (λ text. text.items ≡ job_text seed sections) }
{
    let mut out = Vec::new(alloc);
    out.extend_from_slice(before_sections().as_bytes())?;
    push_sections(&mut out, seed, sections)?;
    out.extend_from_slice(after_sections().as_bytes())?;
    Ok(out)
}

/// The text of the job that a seed tells, with so many sections. It takes time in proportion to them.
pub fn generate(alloc: Global, seed: u64, sections: u32) -> Result<Vec<u8>, GenFault>
    ensures text { IfOk result (λ text. text.items ≡ job_text seed sections) }
    ensures too_large { IsErrOf result GenFault.TooLarge ↔ (sections_most < sections) }
{
    if sections > SECTIONS_MOST {
        return Err(GenFault::TooLarge);
    }
    Ok(written(alloc, seed, sections)?)
}
