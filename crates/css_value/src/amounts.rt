ghost use Rattle.std.specs.Prelude.{◌≡◌, ◌≤◌, ◌*ℤ◌, ◌≤ℤ◌, ◌<ℤ◌, ◌^◌, pos, neg_ℤ, IfOk};
ghost use Rattle.std.specs.Int.{int_div_euclid};
ghost use Rattle.viz_base.specs.Numbers.{floor_of};
ghost use Rattle.css_semantics.specs.ValuesParts.{amount_in, amount_of, counted, length_of};

use css_semantics::{Part, Token};
use css_token::amounts::{signed_count, unit_of};
use css_token::same_name;
use std::alloc::Global;
use viz_base::{Mem, TokenKind};

/// `n * times / parts`, rounded towards minus infinity.
fn scaled(n: i64, times: i64, parts: i64) -> i64
    requires low { neg_ℤ (pos (2 ^ 40)) ≤ℤ n }
    requires high { n ≤ℤ pos (2 ^ 40) }
    requires few { (pos 0 ≤ℤ times) }
    requires small { times ≤ℤ pos (2 ^ 20) }
    requires some { pos 0 <ℤ parts }
    ensures { result ≡ int_div_euclid (n *ℤ times) parts }
{
    let product = n * times;
    product.div_euclid(parts)
}

/// A length of so many millionths of a unit, an absolute one by its floor in 1/64 px.
fn length_of(n: i64, unit: &str) -> Part
    requires low { neg_ℤ (pos (2 ^ 40)) ≤ℤ n }
    requires high { n ≤ℤ pos (2 ^ 40) }
    ensures { result ≡ length_of n unit.now }
{
    if same_name(unit, "px") {
        Part::Px(scaled(n, 64, 1_000_000))
    } else if same_name(unit, "in") {
        Part::Px(scaled(n, 6144, 1_000_000))
    } else if same_name(unit, "cm") {
        Part::Px(scaled(n, 614_400, 254_000_000))
    } else if same_name(unit, "mm") {
        Part::Px(scaled(n, 61_440, 254_000_000))
    } else if same_name(unit, "pt") {
        Part::Px(scaled(n, 6144, 72_000_000))
    } else if same_name(unit, "pc") {
        Part::Px(scaled(n, 73_728, 72_000_000))
    } else if same_name(unit, "em") {
        Part::Em(n)
    } else if same_name(unit, "ex") {
        Part::Ex(n)
    } else {
        Part::Other
    }
}

/// An amount of so many millionths, by the kind of its token.
fn amount_in(kind: TokenKind, n: i64, unit: &str) -> Part
    requires low { neg_ℤ (pos (2 ^ 40)) ≤ℤ n }
    requires high { n ≤ℤ pos (2 ^ 40) }
    ensures { result ≡ amount_in kind n unit.now }
{
    match kind {
        TokenKind::Number => Part::Number(n),
        TokenKind::Percentage => Part::Percentage(n),
        _ => length_of(n, unit),
    }
}

/// The amount of a token that is a number, a percentage or a dimension.
pub fn amount_of(alloc: Global, negative: bool, token: &Token<'_>) -> Result<Part, Mem>
    ensures { IfOk result (λ part. part ≡ amount_of negative token.now) }
{
    let Some(n) = signed_count(negative, token) else {
        return Ok(Part::Other);
    };
    let unit = unit_of(alloc, token)?;
    Ok(amount_in(token.kind, n, unit.as_str()))
}
