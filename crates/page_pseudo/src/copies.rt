//! Copies of bodies and settings: the grown page has its own.
ghost use Rattle.std.specs.Prelude.{◌≡◌, IfOk};

use std::alloc::Global;
use viz_base::{Attr, Body, Element, List, Mem, Setting, Value};

/// A value of its own.
fn copied(alloc: Global, value: &Value) -> Result<Value, Mem>
    ensures { IfOk result (λ copy. copy ≡ value.now) }
{
    Ok(match value {
        Value::Inherit => Value::Inherit,
        Value::Word(n) => Value::Word(*n),
        Value::Px(n) => Value::Px(*n),
        Value::Em(n) => Value::Em(*n),
        Value::Pct(n) => Value::Pct(*n),
        Value::Number(n) => Value::Number(*n),
        Value::Names(names) => Value::Names(names.clone()?),
        Value::Chars(text) => Value::Chars(text.clone()?),
    })
}

/// A list of settings of its own.
pub fn copied_settings(alloc: Global, settings: &[Setting]) -> Result<List<Setting>, Mem>
    ensures { IfOk result (λ copies. copies ≡ settings.now) }
{
    let mut copies = List::new(alloc);
    for setting in settings {
        let value = copied(alloc, &setting.value)?;
        copies.push(Setting {
            prop: setting.prop,
            value,
        })?;
    }
    Ok(copies)
}

fn copied_attrs(alloc: Global, attrs: &[Attr]) -> Result<List<Attr>, Mem>
    ensures { IfOk result (λ copies. copies ≡ attrs.now) }
{
    let mut copies = List::new(alloc);
    for attr in attrs {
        copies.push(Attr {
            name: attr.name.clone()?,
            value: attr.value.clone()?,
        })?;
    }
    Ok(copies)
}

/// A body of its own.
pub fn copied_body(alloc: Global, body: &Body) -> Result<Body, Mem>
    ensures { IfOk result (λ copy. copy ≡ body.now) }
{
    match body {
        Body::Element(element) => Ok(Body::Element(Element {
            tag: element.tag.clone()?,
            attrs: copied_attrs(alloc, element.attrs.as_slice())?,
            size: element.size,
        })),
        Body::Chars(text) => Ok(Body::Chars(text.clone()?)),
    }
}
