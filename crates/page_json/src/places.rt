//! The nodes of a job file's page in document order.
ghost use Rattle.std.specs.Prelude.{◌≡◌, ◌+◌, ◌++◌, length, map, MatchResult};
ghost use Rattle.serde_json.specs.View.{view};
ghost use Rattle.page_json.specs.Documents.{children_of, depth_of, listed, places_of};
ghost use Rattle.page_json.specs.Seen.{seen};

use crate::JobFault;
use crate::values::{list_of, number_of};
use serde_json::Value;
use std::alloc::Global;

/// Where a value stands in a page.
#[derive(Clone, Copy)]
pub(crate) struct Place<'a> {
    /// The number of the element that it is a child of.
    pub parent: Option<u32>,
    /// How many elements it would be inside of as an element, itself counted.
    pub depth: u64,
    pub value: &'a Value,
}

/// The children of an element; other values have none.
fn children_of(value: &Value) -> &[Value]
    ensures { map view result.now ≡ children_of (view value.now) }
{
    match value.get("children") {
        Some(member) => list_of(member).unwrap_or(&[]),
        None => &[],
    }
}

/// The depth of children; there is no memory for greater ones.
fn below(depth: u64) -> Result<u64, JobFault>
    ensures { MatchResult result (λ n. n ≡ depth + 1) (λ fault. fault ≡ JobFault.Mem) }
{
    match depth.checked_add(1) {
        Some(below) => Ok(below),
        None => Err(JobFault::Mem),
    }
}

/// Adds a child and all in it.
fn add<'a>(
    value: &'a Value,
    parent: Option<u32>,
    depth: u64,
    places: &mut Vec<Place<'a>>,
) -> Result<(), JobFault>
    ensures { MatchResult result
        (λ _. map seen places.new.items ≡ map seen places.old.items
        ++ listed (view value.now) parent depth (length places.old.items))
        (λ fault. fault ≡ JobFault.Mem) }
{
    let at = number_of(places.len())?;
    places.push(Place {
        parent,
        depth,
        value,
    })?;
    let below = below(depth)?;
    for child in children_of(value) {
        add(child, Some(at), below, places)?;
    }
    Ok(())
}

/// The nodes of a page with this root, in document order.
pub(crate) fn places_of(alloc: Global, root: &Value) -> Result<Vec<Place<'_>>, JobFault>
    ensures { MatchResult result (λ v. map seen v.items ≡ places_of (view root.now))
        (λ fault. fault ≡ JobFault.Mem) }
{
    let mut places = Vec::new(alloc);
    add(root, None, 1, &mut places)?;
    Ok(places)
}

/// How deep elements are inside one another, the root being 1.
pub(crate) fn depth_of(places: &[Place<'_>]) -> u64
    ensures { result ≡ depth_of (map seen places.now) }
{
    let mut depth = 0;
    for place in places {
        if place.value.is_object() {
            depth = place.depth.max(depth);
        }
    }
    depth
}
