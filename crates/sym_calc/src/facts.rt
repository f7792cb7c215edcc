ghost use Rattle.std.specs.Prelude.{◌≡◌, ◌<ℤ◌, ◌-ℤ◌, ◌++◌, [], ◌∷◌, false, true, pos, negsuc, Err, OnOk, OnErr};
ghost use Rattle.std.specs.List.{list_any};
ghost use Rattle.lin_proof.specs.Form.{plus};
ghost use Rattle.lin_proof.specs.Exact.{IsExact};
ghost use Rattle.cert_semantics.specs.Paths.{def};
ghost use Rattle.cert_semantics.specs.Facts.{row_of, step_facts};
ghost use Rattle.lin_proof.specs.declared.row.RowFault.TheVariants.{Coeff};
ghost use Rattle.sym_calc.specs.Floors.{same_floor, floor_fits};

use crate::floors::{Floor, Floors};
use lin_proof::{Row, RowFault};
use std::alloc::AllocError;
use viz_base::{List, Mem};

/// That the row of a floor is at least its number times the floor.
fn lower_fact(floor: &Floor, variable: u32) -> Result<Row, RowFault>
    requires { pos 0 <ℤ floor.now.by }
    ensures { IsExact result (plus floor.now.row (negsuc 0)
        (row_of (pos 0) floor.now.by variable)) }
{
    let product = Row::of_term(floor.row.terms.allocator(), 0, variable, floor.by)?;
    floor.row.add_scaled(-1, &product)
}

/// That the row of a floor is below its number times one more than the floor.
fn upper_fact(floor: &Floor, variable: u32) -> Result<Row, RowFault>
    requires { pos 0 <ℤ floor.now.by }
    ensures { IsExact result (plus (row_of (floor.now.by -ℤ pos 1) floor.now.by variable)
        (negsuc 0) floor.now.row) }
{
    let most = Row::of_term(
        floor.row.terms.allocator(),
        floor.by - 1,
        variable,
        floor.by,
    )?;
    most.add_scaled(-1, &floor.row)
}

/// Adds a floor that is new, with its two facts. An `Err` leaves all as it was.
pub fn add_floor(
    rows: &mut List<Row>,
    floors: &mut Floors,
    floor: Floor,
    variable: u32,
) -> Result<(), RowFault>
    requires above { pos 0 <ℤ floor.by }
    requires new { list_any (same_floor floor) floors.old ≡ false }
    ensures rows { OnOk result (rows.new
        ≡ rows.old ++ step_facts variable (def floor.row floor.by)) }
    ensures floors { OnOk result (floors.new ≡ floors.old ++ floor ∷ []) }
    ensures same_rows { OnErr result (rows.new ≡ rows.old) }
    ensures same_floors { OnErr result (floors.new ≡ floors.old) }
    ensures within { OnOk result (floor_fits variable floor ≡ true) }
    ensures outside { result ≡ Err Coeff → floor_fits variable floor ≡ false }
{
    let lower = lower_fact(&floor, variable)?;
    let upper = upper_fact(&floor, variable)?;
    add_both(rows, lower, upper)?;
    match floors.push(floor) {
        Ok(()) => Ok(()),
        Err(Mem) => {
            rows.truncate(rows.len() - 2);
            Err(RowFault::Mem)
        }
    }
}

/// Adds two rows, or leaves the list as it was.
pub fn add_both(rows: &mut List<Row>, first: Row, second: Row) -> Result<(), AllocError>
    ensures ok { OnOk result (rows.new ≡ rows.old ++ first ∷ second ∷ []) }
    ensures err { OnErr result (rows.new ≡ rows.old) }
{
    rows.push(first)?;
    match rows.push(second) {
        Ok(()) => Ok(()),
        Err(fault) => {
            rows.truncate(rows.len() - 1);
            Err(fault)
        }
    }
}
