ghost use Rattle.std.specs.Prelude.{◌≡◌, ◌+◌, ◌<◌, ◌≤◌, ◌^◌, length};
ghost use Rattle.std.specs.List.{count_by};
ghost use Rattle.css_semantics.specs.Specificity.{IsCountable, ids, is_id, is_other, others, parts_size, pseudos, spec_of, tags};
ghost use Rattle.css_semantics.specs.Spelled.{spelled};

use viz_base::{Compound, Join, Pseudo, Selector, Spec, Test};

fn is_id(test: &Test) -> bool
    ensures { result ≡ is_id test.now }
{
    matches!(test, Test::Id(_))
}

/// The number of ids among tests.
fn ids_among(tests: &[Test]) -> u32
    requires { length tests.now < 2 ^ 32 }
    ensures { result ≡ count_by is_id tests.now }
{
    let mut count = 0;
    for test in tests {
        if is_id(test) {
            count += 1;
        }
    }
    count
}

/// The number of the other tests.
fn others_among(tests: &[Test]) -> u32
    requires { length tests.now < 2 ^ 32 }
    ensures { result ≡ count_by is_other tests.now }
{
    let mut count = 0;
    for test in tests {
        if !is_id(test) {
            count += 1;
        }
    }
    count
}

/// The number of ids in a selector.
fn ids(parts: &[(Join, Compound)]) -> u32
    requires { parts_size parts.now < 2 ^ 32 }
    ensures { result ≡ ids parts.now }
{
    let mut count = 0;
    for (_, compound) in parts {
        count += ids_among(compound.tests.as_slice());
    }
    count
}

/// The number of the other tests in a selector.
fn others(parts: &[(Join, Compound)]) -> u32
    requires { parts_size parts.now < 2 ^ 32 }
    ensures { result ≡ others parts.now }
{
    let mut count = 0;
    for (_, compound) in parts {
        count += others_among(compound.tests.as_slice());
    }
    count
}

/// The number of tags in a selector.
fn tags(parts: &[(Join, Compound)]) -> u32
    requires { parts_size parts.now < 2 ^ 32 }
    ensures is { result ≡ tags parts.now }
    ensures within { result ≤ length parts.now }
{
    let mut count = 0;
    for (_, compound) in parts {
        if compound.tag.is_some() {
            count += 1;
        }
    }
    count
}

/// A pseudo-element counts as a tag does.
fn pseudos(pseudo: Option<Pseudo>) -> u32
    ensures is { result ≡ pseudos pseudo }
    ensures within { result ≤ 1 }
{
    match pseudo {
        Some(_) => 1,
        None => 0,
    }
}

/// How specific a selector is (CSS 2.1, 6.4.3).
pub fn specificity(selector: &Selector) -> Spec
    requires { IsCountable (spelled selector.now) }
    ensures { result ≡ spec_of (spelled selector.now) }
{
    let parts = selector.parts.as_slice();
    Spec {
        style: 0,
        ids: ids(parts),
        attrs: others(parts),
        types: tags(parts) + pseudos(selector.pseudo),
    }
}
