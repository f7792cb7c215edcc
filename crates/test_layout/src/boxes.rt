use crate::styles::style;
use page_build::{JobRefusal, build_at};
use serde_json::Value;
use test_scribe::{Fault, Scribe};
use viz_base::{BoxNode, BoxTree};

/// The intrinsic width and height of a replaced box, or null.
fn size(scribe: &mut Scribe, size: Option<(u32, u32)>) {
    match size {
        Some((width, height)) => scribe.row(&[width, height]),
        None => scribe.null(),
    }
}

/// The members of a box in their order.
fn tell_box(scribe: &mut Scribe, one: &BoxNode) {
    scribe.open();
    scribe.name(&one.kind);
    scribe.number(one.node);
    match one.parent {
        Some(parent) => scribe.number(parent),
        None => scribe.null(),
    }
    scribe.row(one.kids.as_slice());
    scribe.quoted(one.chars.as_str());
    size(scribe, one.size);
    scribe.truth(one.context);
    scribe.truth(one.block_level);
    scribe.close();
}

/// The boxes of a tree and its styles.
fn tell(scribe: &mut Scribe, tree: &BoxTree) {
    scribe.open();
    scribe.open();
    for one in tree.boxes.as_slice() {
        tell_box(scribe, one);
    }
    scribe.close();
    scribe.open();
    for one in tree.styles.as_slice() {
        style(scribe, one);
    }
    scribe.close();
    scribe.close();
}

/// Why a page has no box tree.
fn refusal(scribe: &mut Scribe, refusal: &JobRefusal) {
    match refusal {
        JobRefusal::BlockInInline(node) => scribe.refused("BlockInInline", &[*node]),
        JobRefusal::RightToLeft(node, letter) => {
            scribe.refused("RightToLeft", &[*node, u32::from(*letter)]);
        }
        JobRefusal::Generated(node) => scribe.refused("Generated", &[*node]),
        JobRefusal::Reach(node) => scribe.refused("Reach", &[*node]),
        JobRefusal::Mem => scribe.fail(Fault::Mem),
        _ => scribe.fail(Fault::NoCase),
    }
}

/// The box tree of a job at a viewport's width and a default font size in pixels, or what refuses it.
pub fn answer(scribe: &mut Scribe, case: &Value) {
    let text = scribe.text_at(case, 1);
    let w = scribe.number_at(case, 2);
    let s = scribe.number_at(case, 3);
    match build_at(scribe.alloc(), text.as_bytes(), w, s) {
        Ok(job) => tell(scribe, &job.tree),
        Err(fault) => refusal(scribe, &fault),
    }
}
