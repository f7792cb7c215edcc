//! What an element of a page is by its tag and its own size (CSS 2.1, 3.1).
ghost use Rattle.std.specs.Prelude.{◌≡◌};
ghost use Rattle.viz_base.specs.Pages.{has_tag, is_break, is_replaced, is_sized};

use crate::Body;

/// Whether a node is an element with this tag.
pub fn has_tag(body: &Body, tag: &str) -> bool
    ensures { result ≡ has_tag tag.now body.now }
{
    match body {
        Body::Element(element) => element.tag.as_str() == tag,
        Body::Chars(_) => false,
    }
}

/// Whether a node is an element that forces a line break, `br`.
pub fn is_break(body: &Body) -> bool
    ensures { result ≡ is_break body.now }
{
    has_tag(body, "br")
}

fn is_sized(body: &Body) -> bool
    ensures { result ≡ is_sized body.now }
{
    match body {
        Body::Element(element) => element.size.is_some(),
        Body::Chars(_) => false,
    }
}

/// Whether an element is replaced: an `img`, and each other with a size of its own but for `br`.
pub fn is_replaced(body: &Body) -> bool
    ensures { result ≡ is_replaced body.now }
{
    has_tag(body, "img") || (is_sized(body) && !is_break(body))
}
