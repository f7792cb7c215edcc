//! What of a formula is asked of a page's boxes.
ghost use Rattle.std.specs.Prelude.{◌≡◌, Some, IsTrue, IfOk, IfErr, IfSome};
ghost use Rattle.std.specs.Option.{option_copied};
ghost use Rattle.viz_base.specs.Formulas.{has_small_terms};
ghost use Rattle.viz_calc.specs.World.{Reading};
ghost use Rattle.viz_calc.specs.State.{Grows, Cause, is_told};
ghost use Rattle.vis_truth.specs.Premises.{is_bare, IsLeftAt, IsPremised, IsTameBare};

use crate::verdicts::truth;
use std::alloc::Global;
use viz_base::{Formula, List, Rendering};
use viz_calc::{Calc, Halt};

/// Whether a formula has no quantifier: it speaks of the viewport alone.
fn is_bare(f: &Formula) -> bool
    ensures { result ≡ is_bare f.now }
{
    match f {
        Formula::Forall(..) | Formula::Exists(..) => false,
        Formula::Implies(a, b) => is_bare(a.get()) && is_bare(b.get()),
        Formula::Or(a, b) => is_bare(a.get()) && is_bare(b.get()),
        Formula::And(a, b) => is_bare(a.get()) && is_bare(b.get()),
        Formula::Not(a) => is_bare(a.get()),
        Formula::Const(_) | Formula::Cmp(..) | Formula::Overlap(..) | Formula::Same(..) => true,
    }
}

/// What is left of a formula behind the premises without quantifiers under which it stands. These speak of the viewport
/// alone, so they are asked before a page is laid out. None where one of them is false: the formula is true then,
/// whatever boxes there are.
///
/// It takes no memory. `Halt::Coeff` comes only where the calc's count of such faults rose, if the formula's terms are
/// small; `Halt::Open` only where the calc's own count rose.
pub fn conclusion<'f, C: Calc>(
    alloc: Global,
    calc: &mut C,
    f: &'f Formula,
) -> Result<Option<&'f Formula>, Halt>
    ensures grows { Grows (C.state calc.old) (C.state calc.new) }
    ensures value { IfOk result (λ left. (e : Reading) → IsTrue ((C.state calc.new).is_open e)
        → IsLeftAt e.world f.now (option_copied left)) }
    ensures whole { IfOk result (λ left. IfSome left (λ g. IsPremised g.now → ⊥)) }
    ensures small { IfOk result (λ left. IsTrue (has_small_terms f.now)
        → IfSome left (λ g. IsTrue (has_small_terms g.now))) }
    ensures cause { IfErr result (Cause (C.state calc.old) (C.state calc.new)
        (IsTameBare (C.state calc.old).is_open f.now)) }
    ensures told { IfErr result (λ halt. IsTrue (is_told C.counts (C.state calc.new) (Some halt))) }
{
    match f {
        Formula::Implies(a, b) => {
            let premise = a.get();
            if !is_bare(premise) {
                return Ok(Some(f));
            }
            let nothing = Rendering {
                boxes: List::new(alloc),
            };
            match truth(calc, premise, &nothing) {
                Ok(true) => conclusion(alloc, calc, b.get()),
                Ok(false) => Ok(None),
                Err(halt) => Err(halt),
            }
        }
        _ => Ok(Some(f)),
    }
}
