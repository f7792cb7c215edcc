//! Which boxes stand in anonymous block boxes (CSS 2.1, 9.2.1.1).
ghost use Rattle.std.specs.Prelude.{◌≡◌, replicate, IfOk, false, None, slice_index_or};
ghost use Rattle.page_boxes.specs.Seen.{seen, all_seen, level_seen};
ghost use Rattle.page_boxes.specs.steps.Leads.{is_ahead, ahead_of, with_blocks, lead_of, leads_walk};

use crate::parts::{Level, Part};
use crate::tables::{held, put};
use std::alloc::{AllocError, Global};
use viz_base::Mem;

/// Whether from a box on its run has a box other than a float, by what comes behind.
fn is_ahead(behind: bool, level: Level) -> bool
    ensures { result ≡ is_ahead behind (level_seen level) }
{
    match level {
        Level::Block => false,
        Level::Floated => behind,
        Level::Inline => true,
    }
}

/// For each box whether from it on its run has a box other than a float. A run ends at a block in normal flow.
fn ahead_of(alloc: Global, parts: &[Part], nodes: usize) -> Result<Vec<bool>, AllocError>
    ensures { IfOk result (λ ahead. ahead.items
        ≡ ahead_of (replicate nodes false) (all_seen parts.now)) }
{
    let mut table = vec![in alloc; false; nodes]?;
    let mut ahead = vec![in alloc; false; parts.len()]?;
    // From the end: whether a run has a box other than a float is known at its first box then.
    for at in (0..parts.len()).rev() {
        let part = &parts[at];
        let next = is_ahead(held(&table, part.parent, false), part.level);
        put(&mut table, part.parent, next);
        ahead[at] = next;
    }
    Ok(ahead)
}

/// For each node whether a block in normal flow is directly in it.
fn with_blocks(alloc: Global, parts: &[Part], nodes: usize) -> Result<Vec<bool>, AllocError>
    ensures { IfOk result (λ table. table.items
        ≡ with_blocks (replicate nodes false) (all_seen parts.now)) }
{
    let mut table = vec![in alloc; false; nodes]?;
    for part in parts {
        if part.level == Level::Block {
            put(&mut table, part.parent, true);
        }
    }
    Ok(table)
}

/// The first node of the anonymous block box around a box, if there is one.
fn lead_of(led: Option<u32>, has_blocks: bool, ahead: bool, part: &Part) -> Option<u32>
    ensures { result ≡ lead_of led has_blocks ahead (level_seen part.now.level) part.now.node }
{
    match (part.level, led) {
        (Level::Block, _) => None,
        (_, Some(first)) => Some(first),
        (_, None) => {
            if has_blocks && ahead {
                Some(part.node)
            } else {
                None
            }
        }
    }
}

/// Whether the run of the part at a place has a box other than a float from it on.
fn is_ahead_at(ahead: &[bool], at: usize) -> bool
    ensures { result ≡ slice_index_or ahead.now at false }
{
    ahead.get(at).copied().unwrap_or(false)
}

/// For each box the first node of the anonymous block box around it, by which nodes have blocks in them, and by which
/// boxes have others ahead.
fn leads_by(
    alloc: Global,
    parts: &[Part],
    nodes: usize,
    blocks: &[bool],
    ahead: &[bool],
) -> Result<Vec<Option<u32>>, AllocError>
    ensures { IfOk result (λ leads. leads.items
        ≡ leads_walk (replicate nodes None) blocks.now ahead.now 0 (all_seen parts.now)) }
{
    let mut led = vec![in alloc; None; nodes]?;
    let mut leads = Vec::new(alloc);
    for (at, part) in parts.iter().enumerate() {
        let has_blocks = held(blocks, part.parent, false);
        let is_ahead = is_ahead_at(ahead, at);
        let lead = lead_of(held(&led, part.parent, None), has_blocks, is_ahead, part);
        put(&mut led, part.parent, lead);
        leads.push(lead)?;
    }
    Ok(leads)
}

/// For each box the first node of the anonymous block box around it, if there is one.
pub fn leads(alloc: Global, parts: &[Part], nodes: usize) -> Result<Vec<Option<u32>>, Mem>
    ensures { IfOk result (λ leads. leads.items
        ≡ leads_walk (replicate nodes None)
        (with_blocks (replicate nodes false) (all_seen parts.now))
        (ahead_of (replicate nodes false) (all_seen parts.now)) 0 (all_seen parts.now)) }
{
    let blocks = with_blocks(alloc, parts, nodes)?;
    let ahead = ahead_of(alloc, parts, nodes)?;
    Ok(leads_by(alloc, parts, nodes, &blocks, &ahead)?)
}
