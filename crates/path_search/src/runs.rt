//! Runs of a page's layout and its formula over a calc, and what one over all worlds of a path comes to.
use lay_flow::render;
use lin_proof::Answer;
use path_calc::{Opening, Seeker};
use std::alloc::Global;
use vis_truth::{conclusion, truth};
use viz_base::{Job, List, Mem};
use viz_calc::{Calc, Halt};

/// What a run over all worlds of a path comes to.
#[derive(Drop)]
pub enum Outcome {
    /// The formula is true at each of them, by these answers.
    True(List<Answer>),
    /// It is false at each of them.
    False,
    /// It rests on a row that is at least 0 at some of them, as far as is known.
    Open(Opening),
    /// A number is outside 128 bits.
    TooLarge,
    /// Nothing, by a mistake of the search.
    Lost,
}

/// Whether a job's formula is true of its page's rendering, over a calc.
pub fn truth_over<C: Calc>(alloc: Global, job: &Job, calc: &mut C) -> Result<bool, Halt> {
    let Some(left) = conclusion(alloc, calc, &job.formula)? else {
        return Ok(true);
    };
    let rendering = render(calc, &job.tree)?;
    truth(calc, left, &rendering)
}

/// Asks the premises without quantifiers under which a job's formula stands, over a calc.
pub fn ask_premises<C: Calc>(alloc: Global, job: &Job, calc: &mut C) -> Result<(), Mem> {
    match conclusion(alloc, calc, &job.formula) {
        Err(Halt::Mem) => Err(Mem),
        _ => Ok(()),
    }
}

/// What a run comes to that ended with this answer.
pub fn outcome_of(seeker: &mut Seeker<'_>, answer: Result<bool, Halt>) -> Result<Outcome, Mem> {
    if answer == Err(Halt::Mem) {
        return Err(Mem);
    }
    // A run goes on behind a row that it leaves open, so that it may have come to an end all the same.
    match seeker.opened() {
        Some(opening) => Ok(Outcome::Open(opening)),
        None => closed_outcome(seeker, answer),
    }
}

/// What a run comes to that left no row open.
fn closed_outcome(seeker: &Seeker<'_>, answer: Result<bool, Halt>) -> Result<Outcome, Mem> {
    match answer {
        Ok(true) => Ok(Outcome::True(seeker.answers()?)),
        Ok(false) => Ok(Outcome::False),
        Err(_) if seeker.is_lost() => Ok(Outcome::Lost),
        Err(_) => Ok(Outcome::TooLarge),
    }
}
