//! The elements and texts of a job file's page.
ghost use Rattle.std.specs.Prelude.{◌≡◌, IfOk};
ghost use Rattle.std.specs.Option.{option_copied};
ghost use Rattle.serde_json.specs.View.{view, members_view};
ghost use Rattle.page_json.specs.Values.{all_of, list_at, lower, members_in};
ghost use Rattle.page_json.specs.Elements.{attr_of, attrs_in, attrs_of, body_of, element_of, have_own_names, size_in, size_of, tag_of};

use crate::values::{list_at, pair_of, text_at};
use serde_json::{Map, Value};
use std::alloc::{AllocError, Global};
use std::collections::HashSet;
use viz_base::{Attr, Body, Element, List, MOST_PIXELS, Text};

/// The text in ASCII lower case.
fn lower(alloc: Global, text: &str) -> Result<Text, AllocError>
    ensures { IfOk result (λ t. t ≡ lower text.now) }
{
    Ok(Text::from(text.to_ascii_lowercase(alloc)?))
}

/// The attribute that a member says.
fn attr_of(alloc: Global, name: &str, value: &Value) -> Result<Option<Attr>, AllocError>
    ensures { IfOk result (λ o. o ≡ attr_of (name.now, view value.now)) }
{
    match value.as_str() {
        Some(text) => Ok(Some(Attr {
            name: lower(alloc, name)?,
            value: Text::from_text(alloc, text)?,
        })),
        None => Ok(None),
    }
}

/// The attributes that members say.
fn all_attrs(alloc: Global, members: &Map<String, Value>) -> Result<Option<List<Attr>>, AllocError>
    ensures { IfOk result (λ o. o ≡ all_of attr_of
        (members_in (members_view members.now.entries))) }
{
    let mut attrs = List::new(alloc);
    for (name, value) in members {
        match attr_of(alloc, name.as_str(), value)? {
            Some(attr) => attrs.push(attr)?,
            None => return Ok(None),
        }
    }
    Ok(Some(attrs))
}

/// Whether no two attributes have one name.
fn have_own_names(alloc: Global, attrs: &[Attr]) -> Result<bool, AllocError>
    ensures { IfOk result (λ b. b ≡ have_own_names attrs.now) }
{
    let mut names: HashSet<&str> = HashSet::new(alloc);
    for attr in attrs {
        if !names.insert(attr.name.as_str())? {
            return Ok(false);
        }
    }
    Ok(true)
}

/// The attributes that a value says.
fn attrs_in(alloc: Global, value: &Value) -> Result<Option<List<Attr>>, AllocError>
    ensures { IfOk result (λ o. o ≡ attrs_in (view value.now)) }
{
    let Some(members) = value.as_object() else {
        return Ok(None);
    };
    let Some(attrs) = all_attrs(alloc, members)? else {
        return Ok(None);
    };
    if have_own_names(alloc, attrs.as_slice())? {
        Ok(Some(attrs))
    } else {
        Ok(None)
    }
}

/// The attributes of an element.
fn attrs_of(alloc: Global, value: &Value) -> Result<Option<List<Attr>>, AllocError>
    ensures { IfOk result (λ o. o ≡ attrs_of (view value.now)) }
{
    match value.get("attrs") {
        Some(member) => attrs_in(alloc, member),
        None => Ok(Some(List::new(alloc))),
    }
}

/// Intrinsic sizes within their limit.
fn size_in(width: u64, height: u64) -> Option<Option<(u32, u32)>>
    ensures { result ≡ size_in (width, height) }
{
    if width <= u64::from(MOST_PIXELS) && height <= u64::from(MOST_PIXELS) {
        Some(Some((width as u32, height as u32)))
    } else {
        None
    }
}

/// The intrinsic sizes of an element.
fn size_of(value: &Value) -> Option<Option<(u32, u32)>>
    ensures { result ≡ size_of (view value.now) }
{
    match value.get("size") {
        Some(member) => {
            let (width, height) = pair_of(member)?;
            size_in(width, height)
        }
        None => Some(None),
    }
}

/// The tag of an element, which is not empty.
fn tag_of(value: &Value) -> Option<&str>
    ensures { option_copied result ≡ tag_of (view value.now) }
{
    let tag = text_at(value, "tag")?;
    if tag.is_empty() { None } else { Some(tag) }
}

/// An element's own members.
fn element_of(alloc: Global, value: &Value) -> Result<Option<Element>, AllocError>
    ensures { IfOk result (λ o. o ≡ element_of (view value.now)) }
{
    let Some(tag) = tag_of(value) else {
        return Ok(None);
    };
    let Some(attrs) = attrs_of(alloc, value)? else {
        return Ok(None);
    };
    let Some(size) = size_of(value) else {
        return Ok(None);
    };
    if list_at(value, "children").is_none() {
        return Ok(None);
    }
    Ok(Some(Element {
        tag: lower(alloc, tag)?,
        attrs,
        size,
    }))
}

/// An element or a text.
pub(crate) fn body_of(alloc: Global, value: &Value) -> Result<Option<Body>, AllocError>
    ensures { IfOk result (λ o. o ≡ body_of (view value.now)) }
{
    match value.as_str() {
        Some(text) => Ok(Some(Body::Chars(Text::from_text(alloc, text)?))),
        None => match element_of(alloc, value)? {
            Some(element) => Ok(Some(Body::Element(element))),
            None => Ok(None),
        },
    }
}
