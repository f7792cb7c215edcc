use crate::lengths::{int_length, number_length, part_length, row_length};
use lin_proof::{Answer, Branch, Derivation, Ending, Row, Step};

/// How many lines a derivation from a lemma has.
const SHORT: u64 = 4;

/// What an answer rests on, and how long its derivation is. A bound is one more than the greatest number, and 0 where
/// there is none.
#[derive(Clone, Copy)]
pub struct Reach {
    /// The bound of the facts in the derivation. The greatest is what the answer denies.
    pub last: u64,
    /// The bound of the other facts.
    pub facts: u64,
    /// The bound of the variables.
    pub variables: u64,
    /// How many lines the derivation has.
    lines: u64,
    /// How many bytes the lines have.
    pub length: u64,
}

impl Reach {
    fn none() -> Self {
        Reach {
            last: 0,
            facts: 0,
            variables: 0,
            lines: 0,
            length: 0,
        }
    }

    /// What an answer rests on.
    pub fn of(answer: &Answer) -> Self {
        let mut reach = Reach::none();
        reach.add_variables(&answer.row);
        reach.add_derivation(&answer.why);
        reach
    }

    /// Whether the derivation has as few lines as one from a lemma.
    pub fn is_short(self) -> bool {
        self.lines <= SHORT
    }

    /// The number of what the answer denies.
    pub fn denied(self) -> u32 {
        u32::try_from(self.last.saturating_sub(1)).unwrap_or(u32::MAX)
    }

    fn add_line(&mut self, length: u64) {
        self.lines = self.lines.saturating_add(1);
        self.length = self.length.saturating_add(length);
    }

    fn add_variables(&mut self, row: &Row) {
        if let Some(term) = row.terms.as_slice().last() {
            self.variables = self.variables.max(u64::from(term.0).saturating_add(1));
        }
    }

    fn add_fact(&mut self, number: u32) {
        let bound = u64::from(number).saturating_add(1);
        if self.last < bound {
            self.facts = self.last;
            self.last = bound;
        } else if bound < self.last {
            self.facts = self.facts.max(bound);
        }
    }

    #[cycle(reaches)]
    fn add_derivation(&mut self, why: &Derivation) {
        self.add_steps(why.steps.as_slice());
        self.add_ending(&why.last);
    }

    fn add_steps(&mut self, steps: &[Step]) {
        for step in steps {
            self.add_step(step);
        }
    }

    fn add_step(&mut self, step: &Step) {
        match step {
            Step::Fact(number) => {
                self.add_fact(*number);
                self.add_line(number_length(u64::from(*number)).saturating_add(6));
            }
            Step::Sum(parts) => self.add_sum(parts.as_slice()),
            Step::Cut(divisor, number) => {
                self.add_line(part_length(*divisor, *number).saturating_add(4));
            }
        }
    }

    fn add_sum(&mut self, parts: &[(i128, u32)]) {
        let mut length = 4u64;
        for part in parts {
            length = length.saturating_add(part_length(part.0, part.1));
        }
        self.add_line(length);
    }

    #[cycle(reaches)]
    fn add_ending(&mut self, ending: &Ending) {
        match ending {
            Ending::Closed => self.add_line(7),
            Ending::Cases(branch) => self.add_branch(branch.get()),
        }
    }

    #[cycle(reaches)]
    fn add_branch(&mut self, branch: &Branch) {
        self.add_variables(&branch.row);
        self.add_line(row_length(&branch.row).saturating_add(6));
        self.add_derivation(&branch.first);
        self.add_derivation(&branch.second);
    }
}

/// How long the derivation is by which an answer follows from a lemma of this number.
pub fn short_length(lemma: u64, denied: u32) -> u64 {
    let numbers = number_length(lemma).saturating_add(int_length(i128::from(denied)));
    // The lines are `fact L`, `fact D`, `sum 1:0 1:1` and `closed`.
    numbers.saturating_add(31)
}

/// The length of a derivation's text.
pub fn derivation_length(why: &Derivation) -> u64 {
    let mut reach = Reach::none();
    reach.add_derivation(why);
    reach.length
}
