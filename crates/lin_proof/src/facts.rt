ghost use Rattle.std.specs.Prelude.{◌≡◌, ◌++◌, slice_get};
ghost use Rattle.std.specs.Option.{option_copied};

use crate::row::Row;

/// Facts in two lists, numbered from 0 through the first and on through the second.
#[derive(Clone, Copy)]
pub struct Facts<'a> {
    /// The first ones.
    pub first: &'a [Row],
    /// Those behind them.
    pub later: &'a [Row],
}

impl<'a> Facts<'a> {
    /// The fact of this number.
    pub fn get(self, number: u32) -> Option<&'a Row>
        ensures { option_copied result
            ≡ slice_get (self.entry.first.now ++ self.entry.later.now) number }
    {
        let at = number as usize;
        if at < self.first.len() {
            self.first.get(at)
        } else {
            self.later.get(at - self.first.len())
        }
    }
}
