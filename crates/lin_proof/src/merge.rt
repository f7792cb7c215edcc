ghost use Rattle.std.specs.Prelude.{◌≡◌, ◌+ℤ◌, ◌*ℤ◌, [], IfOk, MatchOption};
ghost use Rattle.lin_proof.specs.Form.{IsCanonical, checked_terms, plus_terms};
ghost use Rattle.lin_proof.specs.steps.Front.{IsFront, checked};

use crate::terms::Terms;
use std::alloc::{AllocError, Global};
use std::cmp::Ordering;

/// `start + times * factor`, if that is in `i128`, also where the product alone is not.
pub fn add_product(start: i128, times: i128, factor: i128) -> Option<i128>
    ensures { result ≡ checked (start +ℤ times *ℤ factor) }
{
    let size = times.unsigned_abs().checked_mul(factor.unsigned_abs())?;
    if (times < 0) == (factor < 0) {
        start.checked_add_unsigned(size)
    } else {
        start.checked_sub_unsigned(size)
    }
}

/// The terms `first` plus `times` the terms `second`, if each coefficient is in `i128`.
pub fn merged(
    alloc: Global,
    first: &[(u32, i128)],
    times: i128,
    second: &[(u32, i128)],
) -> Result<Option<Terms>, AllocError>
    requires first { IsCanonical first.now }
    requires second { IsCanonical second.now }
    ensures { IfOk result (λ sum. sum ≡ checked_terms (plus_terms first.now times second.now)) }
{
    let mut sum = Terms::new(alloc);
    let (mut left, mut right) = (first, second);
    while let Some(front) = split_front(left, times, right) {
        let Some(coefficient) = front.coefficient else {
            return Ok(None);
        };
        if coefficient != 0 {
            sum.push(front.variable, coefficient)?;
        }
        left = front.left;
        right = front.right;
    }
    Ok(Some(sum))
}

/// The lowest variable of a sum, its coefficient if that is in `i128`, and what is left.
#[derive(Clone, Copy)]
pub struct Front<'a> {
    variable: u32,
    coefficient: Option<i128>,
    left: &'a [(u32, i128)],
    right: &'a [(u32, i128)],
}

fn split_front<'a>(
    left: &'a [(u32, i128)],
    times: i128,
    right: &'a [(u32, i128)],
) -> Option<Front<'a>>
    requires left { IsCanonical left.now }
    requires right { IsCanonical right.now }
    ensures { MatchOption result (plus_terms left.now times right.now
        ≡ []) (IsFront left.now times right.now) }
{
    match (left.split_first(), right.split_first()) {
        (None, None) => None,
        (Some((term, rest)), None) => Some(Front {
            variable: term.0,
            coefficient: Some(term.1),
            left: rest,
            right,
        }),
        (None, Some((other, rest))) => Some(Front {
            variable: other.0,
            coefficient: add_product(0, times, other.1),
            left,
            right: rest,
        }),
        (Some((term, left_rest)), Some((other, right_rest))) => match term.0.cmp(&other.0) {
            Ordering::Less => Some(Front {
                variable: term.0,
                coefficient: Some(term.1),
                left: left_rest,
                right,
            }),
            Ordering::Greater => Some(Front {
                variable: other.0,
                coefficient: add_product(0, times, other.1),
                left,
                right: right_rest,
            }),
            Ordering::Equal => Some(Front {
                variable: other.0,
                coefficient: add_product(term.1, times, other.1),
                left: left_rest,
                right: right_rest,
            }),
        },
    }
}
