//! An estimate of how many different layouts a rectangle has, by a sample: where they are many, no tree is tried.
use crate::runs::truth_over;
use crate::seeking::count_of;
use path_calc::Digesting;
use std::alloc::Global;
use viz_base::{Job, Mem, Rect, World};
use viz_calc::Halt;

/// How many worlds a sample has at most.
const MOST: u64 = 192;

/// After how many worlds an estimate may end a sample.
const LEAST: u64 = 48;

/// The factor and the addend by which one number of a sample leads to the next.
const FACTOR: u64 = 6_364_136_223_846_793_005;

const ADDEND: u64 = 1_442_695_040_888_963_407;

/// A layout that was met.
#[derive(Clone, Copy)]
struct Kind {
    /// A digest of its answers.
    digest: u64,
    /// At how many worlds it was met.
    times: u64,
}

/// What the page comes to at some worlds of a rectangle.
#[derive(Drop)]
pub struct Sample {
    /// The different layouts.
    kinds: Vec<Kind>,
    /// At how many worlds the page was laid out.
    count: u64,
    /// A world at which the formula is false, if there is one among them.
    pub untrue: Option<World>,
}

impl Sample {
    /// Lays out the page at worlds of a rectangle that are chosen as if by chance, until it is clear whether there are
    /// more different layouts than these, or a fourth of the worlds was seen.
    pub fn new(alloc: Global, job: &Job, rect: Rect, leaves: u64) -> Result<Self, Mem> {
        let mut sample = Sample {
            kinds: Vec::new(alloc),
            count: 0,
            untrue: None,
        };
        let mut number = ADDEND;
        // A fixed sequence in place of chance: the same job gets the same certificate each time.
        for _ in 0..MOST.min(count_of(rect) / 4) {
            if sample.is_clear(leaves) {
                break;
            }
            let other = next(number);
            // One height needs no number of its own.
            let third = if rect.hl < rect.hh {
                next(other)
            } else {
                other
            };
            let world = World {
                w: number_in(rect.wl, rect.wh, number),
                s: number_in(rect.sl, rect.sh, other),
                h: number_in(rect.hl, rect.hh, third),
            };
            sample.add(alloc, job, world)?;
            number = next(third);
        }
        Ok(sample)
    }

    fn add(&mut self, alloc: Global, job: &Job, world: World) -> Result<(), Mem> {
        self.count = self.count.saturating_add(1);
        let mut calc = Digesting::new(world);
        match truth_over(alloc, job, &mut calc) {
            Ok(yes) => {
                if !yes {
                    self.untrue = Some(world);
                }
                self.meet(calc.digest)
            }
            Err(Halt::Mem) => Err(Mem),
            Err(Halt::Coeff | Halt::Open) => Ok(()),
        }
    }

    /// Counts a layout.
    fn meet(&mut self, digest: u64) -> Result<(), Mem> {
        let place = self.place_of(digest).unwrap_or(self.kinds.len());
        match self.kinds.get_mut(place) {
            Some(kind) => kind.times = kind.times.saturating_add(1),
            None => self.kinds.push(Kind { digest, times: 1 })?,
        }
        Ok(())
    }

    fn place_of(&self, digest: u64) -> Option<usize> {
        for (place, kind) in self.kinds.iter().enumerate() {
            if kind.digest == digest {
                return Some(place);
            }
        }
        None
    }

    /// Whether more worlds would tell nothing new: the formula is false at one, or there are surely, or by far, more or
    /// less different layouts than these.
    fn is_clear(&self, leaves: u64) -> bool {
        if self.untrue.is_some() || self.different() > leaves {
            return true;
        }
        let estimate = self.estimate();
        // An estimate of few worlds is rough, so it ends the sample only by a factor.
        let is_far = estimate > leaves.saturating_mul(3) || estimate.saturating_mul(2) <= leaves;
        self.count >= LEAST && is_far
    }

    /// Whether there are more different layouts than these, as far as the sample tells.
    pub fn has_more_than(&self, leaves: u64) -> bool {
        self.different() > leaves || self.estimate() > leaves.saturating_add(leaves / 4)
    }

    /// How many different layouts were met.
    fn different(&self) -> u64 {
        self.kinds.len() as u64
    }

    /// How many different layouts there are: those that were met but once and twice tell how many were not met.
    fn estimate(&self) -> u64 {
        let once = self.met(1);
        let twice = self.met(2);
        // Chao's estimate of unseen kinds: those met once, squared, by twice those met twice.
        let pairs = once.saturating_mul(once) / 2;
        let unseen = if twice > 0 { pairs / twice } else { pairs };
        self.different().saturating_add(unseen)
    }

    /// How many layouts were met so many times.
    fn met(&self, times: u64) -> u64 {
        let mut count = 0u64;
        for kind in &self.kinds {
            if kind.times == times {
                count = count.saturating_add(1);
            }
        }
        count
    }
}

/// The number that follows another one in a sample.
fn next(number: u64) -> u64 {
    number.wrapping_mul(FACTOR).wrapping_add(ADDEND)
}

/// A number between two, as the upper half of another one tells.
fn number_in(least: u32, most: u32, number: u64) -> u32 {
    let count = u64::from(most.saturating_sub(least)) + 1;
    let offset = u32::try_from((number >> 32) % count).unwrap_or(0);
    least.saturating_add(offset)
}
