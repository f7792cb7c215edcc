use page_boxes::BoxFault;
use page_json::JobFault;
use page_media::MediaFault;
use page_pseudo::GrowFault;
use std::alloc::{AllocError, AllocFailed};
use thiserror::Error;
use vis_read::FormulaFault;
use viz_base::{Mem, Part, Prop, Text, Which};

/// Why bytes are refused as a job, in the order in which they are looked at. Sheets are those of the author, by their
/// numbers from 0; places are in bytes of the sheet. Nodes are numbered as they are written up to `Generated`, and from
/// there on with the generated ones among them.
#[derive(Debug, Drop, Error)]
pub enum JobRefusal {
    #[error("out of memory")]
    Mem,
    /// The bytes are no JSON text, or one that nests deeper than 127 or has a number beyond a double's range.
    #[error("not JSON")]
    NotJson,
    /// The first part that is missing, of another form or against a rule, and the number of its font, sheet or node.
    #[error("shape of {0:?}, {1}")]
    Shape(Part, u32),
    /// The first count that is beyond its limit.
    #[error("{0:?} beyond the limit: {1}")]
    Limit(Which, u64),
    /// Widths, sizes or heights are beyond their limits, a first bound is above its second, or there are too many
    /// worlds.
    #[error("range")]
    Range,
    /// An `@import` that is not dropped: the sheet, and the place.
    #[error("import in sheet {0} at {1}")]
    Import(u32, u32),
    /// An `@media` with a query that is none: the sheet, and the place.
    #[error("media query in sheet {0} at {1}")]
    MediaQuery(u32, u32),
    /// A sheet with more than 8,192 rules.
    #[error("too many rules in sheet {0}")]
    TooManyRules(u32),
    /// More than 16 features that width queries ask for: the sheet, and the place of the rule with the seventeenth.
    #[error("too many width queries in sheet {0} at {1}")]
    TooManyQueries(u32, u32),
    /// More than 12 parts of the range in which other features are met: how many.
    #[error("too many parts: {0}")]
    TooManyParts(u32),
    /// A selector that is refused by name: the sheet, and the place.
    #[error("unsupported selector in sheet {0} at {1}")]
    Selector(u32, u32),
    /// A value that is refused by name and wins: the node, the property, and the first 64 bytes of the value, those
    /// that are not printable as `?`.
    #[error("unsupported value at node {0}: {1:?}")]
    Value(u32, Prop, Text),
    /// The first element at which there are more than 262,144 characters of generated content.
    #[error("too much generated content at node {0}")]
    Generated(u32),
    /// The node of a block-level box in normal flow that is directly in an inline box.
    #[error("block in an inline box at node {0}")]
    BlockInInline(u32),
    /// A text node, and its first character that is written from right to left.
    #[error("text from right to left at node {0}: {1}")]
    RightToLeft(u32, char),
    /// More than 16,384 boxes.
    #[error("too many boxes")]
    TooManyBoxes,
    /// The node of the box with which the page reaches too far.
    #[error("the page reaches too far at node {0}")]
    Reach(u32),
    /// The place of the first token of the assertion that no formula can have there, of a string that is no group of
    /// selectors, or of the first byte that begins no token; or the assertion's length.
    #[error("bad formula at {0}")]
    Bad(u32),
    /// The place of a name of the assertion that no quantifier around it binds.
    #[error("unbound name at {0}")]
    Unbound(u32),
    /// The place of a quantifier inside two others, or of a quantifier, parenthesis or `not` inside 64 such.
    #[error("nested too deep at {0}")]
    TooDeep(u32),
}

impl From<Mem> for JobRefusal {
    ghost use Rattle.std.specs.Prelude.{◌≡◌};
    ghost use Rattle.page_build.specs.declared.faults.JobRefusal.TheVariants.{Mem};

    ghost from_gives = { λ _ refusal. refusal ≡ Mem };

    fn from(_: Mem) -> Self {
        JobRefusal::Mem
    }
}

impl From<AllocError> for JobRefusal {
    ghost use Rattle.std.specs.Prelude.{◌≡◌};
    ghost use Rattle.page_build.specs.declared.faults.JobRefusal.TheVariants.{Mem};

    ghost from_gives = { λ _ refusal. refusal ≡ Mem };

    fn from(_: AllocError) -> Self {
        JobRefusal::Mem
    }
}

impl<T: Drop> From<AllocFailed<T>> for JobRefusal {
    ghost use Rattle.std.specs.Prelude.{◌≡◌};
    ghost use Rattle.page_build.specs.declared.faults.JobRefusal.TheVariants.{Mem};

    ghost from_gives = { λ _ refusal. refusal ≡ Mem };

    fn from(_: AllocFailed<T>) -> Self {
        JobRefusal::Mem
    }
}

impl From<JobFault> for JobRefusal {
    ghost use Rattle.std.specs.Prelude.{◌≡◌};
    ghost use Rattle.page_build.specs.Refusals.{of_file};

    ghost from_gives = { λ fault refusal. refusal ≡ of_file fault };

    fn from(fault: JobFault) -> Self {
        match fault {
            JobFault::Mem => JobRefusal::Mem,
            JobFault::NotJson => JobRefusal::NotJson,
            JobFault::Shape(part, place) => JobRefusal::Shape(part, place),
            JobFault::Limit(which, count) => JobRefusal::Limit(which, count),
            JobFault::Range => JobRefusal::Range,
        }
    }
}

impl From<MediaFault> for JobRefusal {
    ghost use Rattle.std.specs.Prelude.{◌≡◌};
    ghost use Rattle.page_build.specs.Refusals.{of_media};

    ghost from_gives = { λ fault refusal. refusal ≡ of_media fault };

    fn from(fault: MediaFault) -> Self {
        match fault {
            MediaFault::Mem => JobRefusal::Mem,
            MediaFault::TooManyQueries { sheet, at } => JobRefusal::TooManyQueries(sheet, at),
            MediaFault::TooManyParts(count) => JobRefusal::TooManyParts(count),
        }
    }
}

impl From<GrowFault> for JobRefusal {
    ghost use Rattle.std.specs.Prelude.{◌≡◌};
    ghost use Rattle.page_build.specs.Refusals.{of_growth};

    ghost from_gives = { λ fault refusal. refusal ≡ of_growth fault };

    fn from(fault: GrowFault) -> Self {
        match fault {
            GrowFault::Mem => JobRefusal::Mem,
            GrowFault::Generated(node) => JobRefusal::Generated(node),
        }
    }
}

impl From<BoxFault> for JobRefusal {
    ghost use Rattle.std.specs.Prelude.{◌≡◌};
    ghost use Rattle.page_build.specs.Refusals.{of_box_fault};

    ghost from_gives = { λ fault refusal. refusal ≡ of_box_fault fault };

    fn from(fault: BoxFault) -> Self {
        match fault {
            BoxFault::Mem => JobRefusal::Mem,
            BoxFault::BlockInInline(node) => JobRefusal::BlockInInline(node),
            BoxFault::RightToLeft(node, letter) => JobRefusal::RightToLeft(node, letter),
            BoxFault::TooManyBoxes => JobRefusal::TooManyBoxes,
            BoxFault::Reach(node) => JobRefusal::Reach(node),
        }
    }
}

impl From<FormulaFault> for JobRefusal {
    ghost use Rattle.std.specs.Prelude.{◌≡◌};
    ghost use Rattle.page_build.specs.Refusals.{of_formula};

    ghost from_gives = { λ fault refusal. refusal ≡ of_formula fault };

    fn from(fault: FormulaFault) -> Self {
        match fault {
            FormulaFault::Mem => JobRefusal::Mem,
            FormulaFault::Bad(at) => JobRefusal::Bad(at),
            FormulaFault::Unbound(at) => JobRefusal::Unbound(at),
            FormulaFault::TooDeep(at) => JobRefusal::TooDeep(at),
        }
    }
}
