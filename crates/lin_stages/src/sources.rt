use lin_proof::Row;

/// A row of which a sum takes a multiple.
#[derive(Clone, Copy)]
pub enum Source {
    /// The fact of this number.
    Fact(u32),
    /// The row of this number among those known so far.
    Known(u32),
    /// The sum of this number.
    Sum(u32),
    /// That the variable at this place is at least the least value found for it.
    Low(u32),
    /// That the variable at this place is at most the greatest value found for it.
    High(u32),
}

/// The rows that bound a variable: in each it is the highest.
#[derive(Clone, Copy)]
pub struct Bounds {
    /// One in which its coefficient is above 0.
    pub low: Option<Source>,
    /// One in which its coefficient is below 0.
    pub high: Option<Source>,
}

/// The whole numbers that the bounds leave for a variable. None where a bound is absent or its value is not known.
#[derive(Clone, Copy)]
pub struct Range {
    /// The least.
    pub least: Option<i128>,
    /// The greatest.
    pub greatest: Option<i128>,
}

/// The highest variable of a row.
#[derive(Clone, Copy)]
pub struct Top {
    /// The row.
    pub of: Source,
    /// The variable's place.
    pub place: u32,
    /// Its coefficient.
    pub coefficient: i128,
}

/// What rows there are, and what is known of each variable, by its place among them.
#[derive(Clone, Copy)]
pub struct View<'a> {
    /// The facts.
    pub facts: &'a [Row],
    /// The rows known on the way to here.
    pub known: &'a [Row],
    /// The variables of the facts, ascending.
    pub variables: &'a [u32],
    /// What bounds each variable.
    pub bounds: &'a [Bounds],
    /// The range of each, if ranges were found.
    pub ranges: &'a [Range],
}

impl<'a> View<'a> {
    /// A fact or a known row.
    pub fn given(&self, source: Source) -> Option<&'a Row> {
        match source {
            Source::Fact(number) => self.facts.get(number as usize),
            Source::Known(number) => self.known.get(number as usize),
            Source::Sum(_) | Source::Low(_) | Source::High(_) => None,
        }
    }

    /// The place of a variable.
    pub fn place_of(&self, variable: u32) -> Option<u32> {
        let at = self.variables.binary_search(&variable).ok()?;
        u32::try_from(at).ok()
    }

    /// The last fact.
    pub fn last_fact(&self) -> Option<Source> {
        let last = self.facts.len().checked_sub(1)?;
        Some(Source::Fact(u32::try_from(last).ok()?))
    }

    /// Whether the range of the variable at a place is one number.
    pub fn is_settled(&self, place: u32) -> bool {
        match self.ranges.get(place as usize) {
            Some(range) => range.least.is_some() && range.least == range.greatest,
            None => false,
        }
    }

    /// What bounds a variable on the side that takes it away from a row.
    pub fn bound_of(&self, top: Top) -> Option<Source> {
        let bounds = self.bounds.get(top.place as usize)?;
        if top.coefficient > 0 {
            bounds.high
        } else {
            bounds.low
        }
    }

    /// The negative of the least value of the variable at a place.
    pub fn low_constant(&self, place: u32) -> Option<i128> {
        self.ranges.get(place as usize)?.least?.checked_neg()
    }

    /// The greatest value of the variable at a place.
    pub fn high_constant(&self, place: u32) -> Option<i128> {
        self.ranges.get(place as usize)?.greatest
    }
}

/// The end of the range of the variable at a place that takes it away, where it has this coefficient.
pub fn end_of(place: u32, coefficient: i128) -> Source {
    if coefficient > 0 {
        Source::High(place)
    } else {
        Source::Low(place)
    }
}

/// A row's term of the highest variable.
pub fn top_term(row: &Row) -> Option<(u32, i128)> {
    row.terms.as_slice().last().copied()
}

/// A number divided by the size of another and rounded down.
pub fn floor_by(number: i128, coefficient: i128) -> Option<i128> {
    let size = coefficient.checked_abs()?;
    if size > 0 {
        Some(number.div_euclid(size))
    } else {
        None
    }
}
