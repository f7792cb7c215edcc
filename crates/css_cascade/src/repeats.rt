//! Whether one selector repeats another: tried again it adds nothing.
ghost use Rattle.std.specs.Prelude.{◌≡◌, IsTrue};

use css_semantics::Ranked;
use viz_base::{Compound, Join, Spec, Test, Text};

fn is_same_text(a: &Text, b: &Text) -> bool
    ensures { IsTrue result → a.now ≡ b.now }
{
    a.as_str() == b.as_str()
}

fn is_same_test(a: &Test, b: &Test) -> bool
    ensures { IsTrue result → a.now ≡ b.now }
{
    match (a, b) {
        (Test::Id(a), Test::Id(b)) => is_same_text(a, b),
        (Test::Class(a), Test::Class(b)) => is_same_text(a, b),
        (Test::Has(a), Test::Has(b)) => is_same_text(a, b),
        (Test::Equals(a, v), Test::Equals(b, w)) => is_same_text(a, b) && is_same_text(v, w),
        (Test::Word(a, v), Test::Word(b, w)) => is_same_text(a, b) && is_same_text(v, w),
        (Test::Dash(a, v), Test::Dash(b, w)) => is_same_text(a, b) && is_same_text(v, w),
        (Test::FirstChild, Test::FirstChild) => true,
        (Test::Link, Test::Link) => true,
        (Test::Never, Test::Never) => true,
        _ => false,
    }
}

fn are_same_tests(a: &[Test], b: &[Test]) -> bool
    ensures { IsTrue result → a.now ≡ b.now }
{
    if a.len() != b.len() {
        return false;
    }
    for at in 0..a.len() {
        if !is_same_test(&a[at], &b[at]) {
            return false;
        }
    }
    true
}

fn is_same_tag(a: &Option<Text>, b: &Option<Text>) -> bool
    ensures { IsTrue result → a.now ≡ b.now }
{
    match (a, b) {
        (Some(a), Some(b)) => is_same_text(a, b),
        (None, None) => true,
        _ => false,
    }
}

fn is_same_join(a: Join, b: Join) -> bool
    ensures { IsTrue result → a ≡ b }
{
    match (a, b) {
        (Join::First, Join::First) => true,
        (Join::Descendant, Join::Descendant) => true,
        (Join::Child, Join::Child) => true,
        (Join::Next, Join::Next) => true,
        _ => false,
    }
}

fn is_same_compound(a: &Compound, b: &Compound) -> bool
    ensures { IsTrue result → a.now ≡ b.now }
{
    is_same_tag(&a.tag, &b.tag) && are_same_tests(a.tests.as_slice(), b.tests.as_slice())
}

fn is_same_part(a: &(Join, Compound), b: &(Join, Compound)) -> bool
    ensures { IsTrue result → a.now ≡ b.now }
{
    is_same_join(a.0, b.0) && is_same_compound(&a.1, &b.1)
}

fn are_same_parts(a: &[(Join, Compound)], b: &[(Join, Compound)]) -> bool
    ensures { IsTrue result → a.now ≡ b.now }
{
    if a.len() != b.len() {
        return false;
    }
    for at in 0..a.len() {
        if !is_same_part(&a[at], &b[at]) {
            return false;
        }
    }
    true
}

fn is_same_spec(a: Spec, b: Spec) -> bool
    ensures { IsTrue result → a ≡ b }
{
    a.style == b.style && a.ids == b.ids && a.attrs == b.attrs && a.types == b.types
}

/// Whether one selector repeats another, with its specificity.
pub fn repeats(a: &Ranked, b: &Ranked) -> bool
    ensures parts { IsTrue result → a.now.selector.parts ≡ b.now.selector.parts }
    ensures spec { IsTrue result → a.now.spec ≡ b.now.spec }
{
    is_same_spec(a.spec, b.spec)
        && are_same_parts(a.selector.parts.as_slice(), b.selector.parts.as_slice())
}
