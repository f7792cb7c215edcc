ghost use Rattle.page_json.specs.Jobs.{IsWithinLimits, raw_of};

use viz_base::{Feature, List, RawJob, Sheet};

/// What a job file says, before its rules are chosen and its assertion is read.
#[derive(Drop)]
pub(crate) struct JobFile {
    pub digest: [u8; 32],
    pub raw: RawJob,
    /// The style sheets, the default one first.
    pub sheets: Vec<Sheet>,
    /// The features that they ask for.
    pub features: List<Feature>,
    pub ghost within: { IsWithinLimits (raw_of raw) },
}
