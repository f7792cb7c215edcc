//! The lines of jobs that are refused.
ghost use Rattle.std.specs.Prelude.{◌≡◌, ◌≢◌, ◌++◌, codes, IfOk, OnOk};
ghost use Rattle.viz_replies.specs.Lines.{spaced};
ghost use Rattle.viz_replies.specs.Jobs.{limit_words, refusal_line, shape_words};
ghost use Rattle.viz_replies.specs.steps.Refusals.{refusal_words, refusal_places, value_places};

use crate::lines::{push_number, push_word};
use crate::reply::{Answer, Reply};
use css_value::property_name;
use page_build::JobRefusal;
use std::alloc::{AllocError, Global};
use viz_base::{Mem, Part, Prop, Which};

fn shape_words(part: Part) -> &'static str
    ensures { result.now ≡ shape_words part }
{
    match part {
        Part::Top => "job-refused shape top",
        Part::Widths => "job-refused shape widths",
        Part::Sizes => "job-refused shape sizes",
        Part::Height => "job-refused shape height",
        Part::Fonts => "job-refused shape fonts",
        Part::Css => "job-refused shape css",
        Part::Page => "job-refused shape page",
        Part::Assert => "job-refused shape assert",
    }
}

fn limit_words(which: Which) -> &'static str
    ensures { result.now ≡ limit_words which }
{
    match which {
        Which::Elements => "job-refused limit elements",
        Which::Depth => "job-refused limit depth",
        Which::Text => "job-refused limit text",
        Which::Css => "job-refused limit css",
        Which::Fonts => "job-refused limit fonts",
        Which::Advances => "job-refused limit advances",
        Which::Formula => "job-refused limit formula",
    }
}

/// The words with which the line of a refusal begins.
fn refusal_words(fault: &JobRefusal) -> &'static str
    ensures { result.now ≡ refusal_words fault.now }
{
    match fault {
        JobRefusal::Mem => "",
        JobRefusal::NotJson => "job-refused not-json",
        JobRefusal::Shape(part, _) => shape_words(*part),
        JobRefusal::Limit(which, _) => limit_words(*which),
        JobRefusal::Range => "job-refused range",
        JobRefusal::Import(..) => "job-refused import",
        JobRefusal::MediaQuery(..) => "job-refused media-query",
        JobRefusal::TooManyRules(_) => "job-refused too-many-rules",
        JobRefusal::TooManyQueries(..) => "job-refused too-many-queries",
        JobRefusal::TooManyParts(_) => "job-refused too-many-parts",
        JobRefusal::Selector(..) => "job-refused unsupported-selector",
        JobRefusal::Value(..) => "job-refused unsupported-value",
        JobRefusal::Generated(_) => "job-refused generated",
        JobRefusal::BlockInInline(_) => "job-refused block-in-inline",
        JobRefusal::RightToLeft(..) => "job-refused right-to-left",
        JobRefusal::TooManyBoxes => "job-refused too-many-boxes",
        JobRefusal::Reach(_) => "job-refused reach",
        JobRefusal::Bad(_) => "job-refused formula-bad",
        JobRefusal::Unbound(_) => "job-refused formula-unbound",
        JobRefusal::TooDeep(_) => "job-refused formula-too-deep",
    }
}

/// A sheet or a node, and a place or a character in it.
fn push_pair(out: &mut Vec<u8>, number: u32, at: u32) -> Result<(), AllocError>
    ensures { OnOk result (out.new.items ≡ out.old.items ++ (spaced number ++ spaced at)) }
{
    push_number(out, u64::from(number))?;
    push_number(out, u64::from(at))
}

/// Where a value stands that is refused by name, and what is shown of it.
fn push_value(out: &mut Vec<u8>, node: u32, prop: Prop, value: &str) -> Result<(), AllocError>
    ensures { OnOk result (out.new.items ≡ out.old.items ++ value_places node prop value.now) }
{
    push_number(out, u64::from(node))?;
    push_word(out, property_name(prop).as_bytes())?;
    push_word(out, value.as_bytes())
}

/// What stands behind the words in the line of a refusal; want of memory has no line.
fn push_places(out: &mut Vec<u8>, fault: &JobRefusal) -> Result<(), AllocError>
    ensures { OnOk result ((fault.now ≢ JobRefusal.Mem)
        × (out.new.items ≡ out.old.items ++ refusal_places fault.now)) }
{
    match fault {
        JobRefusal::Mem => Err(AllocError),
        JobRefusal::NotJson | JobRefusal::Range | JobRefusal::TooManyBoxes => Ok(()),
        JobRefusal::Limit(_, count) => push_number(out, *count),
        JobRefusal::Shape(_, at)
        | JobRefusal::TooManyRules(at)
        | JobRefusal::TooManyParts(at)
        | JobRefusal::Generated(at)
        | JobRefusal::BlockInInline(at)
        | JobRefusal::Reach(at)
        | JobRefusal::Bad(at)
        | JobRefusal::Unbound(at)
        | JobRefusal::TooDeep(at) => push_number(out, u64::from(*at)),
        JobRefusal::Import(number, at)
        | JobRefusal::MediaQuery(number, at)
        | JobRefusal::TooManyQueries(number, at)
        | JobRefusal::Selector(number, at) => push_pair(out, *number, *at),
        JobRefusal::RightToLeft(node, letter) => push_pair(out, *node, u32::from(*letter)),
        JobRefusal::Value(node, prop, value) => push_value(out, *node, *prop, value.as_str()),
    }
}

/// The line of a refusal, part by part.
fn push_parts(out: &mut Vec<u8>, fault: &JobRefusal) -> Result<(), AllocError>
    ensures { OnOk result ((fault.now ≢ JobRefusal.Mem)
        × (out.new.items ≡ out.old.items
        ++ (refusal_words fault.now ++ (refusal_places fault.now ++ codes "\n")))) }
{
    out.extend_from_slice(refusal_words(fault).as_bytes())?;
    push_places(out, fault)?;
    out.extend_from_slice(b"\n")
}

/// The reply where a job is refused.
pub fn refusal(alloc: Global, fault: JobRefusal) -> Result<Reply, Mem>
    ensures { IfOk result (λ r. (fault ≢ JobRefusal.Mem) × (r.answer ≡ Answer.JobRefused)
        × (r.output.items ≡ refusal_line fault)) }
{
    let mut output = Vec::new(alloc);
    let pushed = push_parts(&mut output, &fault);
    drop(fault);
    pushed?;
    Ok(Reply {
        answer: Answer::JobRefused,
        output,
    })
}
