//! The fonts of a job file.
ghost use Rattle.std.specs.Prelude.{◌≡◌, map, option_map, IfOk};
ghost use Rattle.serde_json.specs.View.{view};
ghost use Rattle.page_json.specs.Values.{all_of};
ghost use Rattle.page_json.specs.Fonts.{advance_in, advance_of, advances_of, codes_ascend, font_of, measures_of};

use crate::values::{list_at, pair_of, text_at, whole_in};
use serde_json::Value;
use std::alloc::{AllocError, Global};
use viz_base::{Font, List, MOST_EM, Text};

/// A character and its advance.
fn advance_in(code: u64, advance: u64) -> Option<(char, u32)>
    ensures { result ≡ advance_in (code, advance) }
{
    let letter = char::from_u32(u32::try_from(code).ok()?)?;
    if advance <= 65535 {
        Some((letter, advance as u32))
    } else {
        None
    }
}

/// The character and the advance that a value lists.
fn advance_of(value: &Value) -> Option<(char, u32)>
    ensures { result ≡ advance_of (view value.now) }
{
    let (code, advance) = pair_of(value)?;
    advance_in(code, advance)
}

/// The advances that values list.
fn all_advances(alloc: Global, values: &[Value]) -> Result<Option<List<(char, u32)>>, AllocError>
    ensures { IfOk result (λ o. o ≡ all_of advance_of (map view values.now)) }
{
    let mut advances = List::new(alloc);
    for value in values {
        match advance_of(value) {
            Some(advance) => advances.push(advance)?,
            None => return Ok(None),
        }
    }
    Ok(Some(advances))
}

/// Whether the codes strictly ascend.
fn codes_ascend(advances: &[(char, u32)]) -> bool
    ensures { result ≡ codes_ascend 0 advances.now }
{
    let mut least = 0;
    for (letter, _) in advances {
        let code = *letter as u32;
        if code < least {
            return false;
        }
        least = code + 1;
    }
    true
}

/// The advances of a font.
fn advances_of(alloc: Global, value: &Value) -> Result<Option<List<(char, u32)>>, AllocError>
    ensures { IfOk result (λ o. o ≡ advances_of (view value.now)) }
{
    let Some(values) = list_at(value, "advances") else {
        return Ok(None);
    };
    match all_advances(alloc, values)? {
        Some(advances) => {
            if codes_ascend(advances.as_slice()) {
                Ok(Some(advances))
            } else {
                Ok(None)
            }
        }
        None => Ok(None),
    }
}

/// A font.
pub(crate) fn font_of(alloc: Global, value: &Value) -> Result<Option<Font>, AllocError>
    ensures { IfOk result (λ o. option_map measures_of o ≡ font_of (view value.now)) }
{
    let Some(name) = text_at(value, "name") else {
        return Ok(None);
    };
    let Some(upem) = whole_in(value, "upem", 1, MOST_EM) else {
        return Ok(None);
    };
    let Some(ascent) = whole_in(value, "ascent", 0, 65535) else {
        return Ok(None);
    };
    let Some(descent) = whole_in(value, "descent", 0, 65535) else {
        return Ok(None);
    };
    let Some(other) = whole_in(value, "default", 0, 65535) else {
        return Ok(None);
    };
    let Some(advances) = advances_of(alloc, value)? else {
        return Ok(None);
    };
    Ok(Some(Font {
        name: Text::from_text(alloc, name)?,
        upem,
        ascent,
        descent,
        other,
        advances,
    }))
}
