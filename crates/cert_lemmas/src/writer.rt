use crate::reach::{Reach, short_length};
use crate::renaming::{Renaming, copied};
use crate::survey::{Group, Survey};
use cert_semantics::axis_count;
use cert_text::CertNode;
use lin_proof::{Answer, Derivation, Ending, Row, RowFault, Step};
use std::alloc::Global;
use viz_base::{Boxed, List, Mem};

/// How many nodes may stand in one another in a certificate's text.
const MOST_LEVELS: usize = 512;

/// A lemma that is stated above the node that is written.
#[derive(Drop)]
struct Stated {
    row: Row,
    why: Derivation,
    /// The place of its row and answer among all.
    key: usize,
    /// The number of another lemma for these that stands above.
    before: Option<u32>,
}

/// What stood above a node before its own lemmas.
#[derive(Drop)]
struct Mark {
    facts: usize,
    count: u32,
    room: usize,
    stated: Vec<Stated>,
}

/// A certificate that is written anew, with lemmas.
#[derive(Drop)]
struct Writer<'a> {
    alloc: Global,
    survey: &'a Survey<'a>,
    /// The first lemma of each node.
    heads: Vec<Option<usize>>,
    /// The lemma that follows each at the same node.
    nexts: Vec<Option<usize>>,
    /// The new numbers of the path's facts.
    facts: Vec<u32>,
    /// How many facts the path has with its lemmas.
    count: u32,
    /// The lemmas that stand above, by the places of their rows and answers.
    active: Vec<Option<u32>>,
    /// The number of the next node.
    node: usize,
    /// How many lemmas more may stand on the path.
    room: usize,
}

/// A certificate's root with lemmas for the groups that were chosen of it, for a job of this form.
pub fn written(
    alloc: Global,
    form: u8,
    survey: &Survey<'_>,
    root: &CertNode,
) -> Result<CertNode, Mem> {
    let mut writer = Writer {
        alloc,
        survey,
        heads: vec![in alloc; None; survey.nodes]?,
        nexts: Vec::new(alloc),
        facts: Vec::new(alloc),
        count: 0,
        active: vec![in alloc; None; survey.key_count()]?,
        node: 0,
        room: MOST_LEVELS.saturating_sub(survey.depth),
    };
    writer.place_all()?;
    writer.add_facts(axis_count(form).saturating_mul(2))?;
    writer.write(root)
}

impl Writer<'_> {
    /// Puts each lemma at its node.
    fn place_all(&mut self) -> Result<(), Mem> {
        for place in 0..self.survey.chosen.len() {
            if let Some(group) = self.survey.chosen.get(place).copied() {
                let head = self.heads.get(group.node).copied().unwrap_or(None);
                self.nexts.push(head)?;
                if let Some(slot) = self.heads.get_mut(group.node) {
                    *slot = Some(place);
                }
            }
        }
        Ok(())
    }

    /// Adds facts to the path.
    fn add_facts(&mut self, count: u32) -> Result<(), Mem> {
        for _ in 0..count {
            self.facts.push(self.count)?;
            self.count = self.count.saturating_add(1);
        }
        Ok(())
    }

    /// A node, below its lemmas.
    fn write(&mut self, node: &CertNode) -> Result<CertNode, Mem> {
        let mark = self.enter()?;
        let copy = match node {
            CertNode::Def(row, by, below) => {
                self.add_facts(2)?;
                let below = self.write(below.get())?;
                self.def(row.get(), *by.get(), below)
            }
            CertNode::Split(row, first, second) => {
                self.add_facts(1)?;
                let first = self.write(first.get())?;
                let second = self.write(second.get())?;
                self.split(row.get(), first, second)
            }
            // A certificate of form 1 that has one has no text, and nothing comes of it.
            CertNode::Lemma(_, _, below) => self.write(below.get()),
            CertNode::Void(why) => self.void(why.get()),
            CertNode::Grid => Ok(CertNode::Grid),
            CertNode::Leaf(answers) => self.leaf(answers.as_slice()),
        };
        self.leave(mark, copy?)
    }

    fn def(&self, row: &Row, by: i128, below: CertNode) -> Result<CertNode, Mem> {
        let row = Boxed::new(self.alloc, row.clone()?)?;
        let by = Boxed::new(self.alloc, by)?;
        Ok(CertNode::Def(row, by, Boxed::new(self.alloc, below)?))
    }

    fn split(&self, row: &Row, first: CertNode, second: CertNode) -> Result<CertNode, Mem> {
        let row = Boxed::new(self.alloc, row.clone()?)?;
        let first = Boxed::new(self.alloc, first)?;
        Ok(CertNode::Split(row, first, Boxed::new(self.alloc, second)?))
    }

    fn void(&self, why: &Derivation) -> Result<CertNode, Mem> {
        let why = Boxed::new(self.alloc, self.renamed(why)?)?;
        Ok(CertNode::Void(why))
    }

    fn lemma(&self, row: Row, why: Derivation, below: CertNode) -> Result<CertNode, Mem> {
        let row = Boxed::new(self.alloc, row)?;
        let why = Boxed::new(self.alloc, why)?;
        Ok(CertNode::Lemma(row, why, Boxed::new(self.alloc, below)?))
    }

    /// How facts are numbered here.
    fn names(&self) -> Renaming<'_> {
        let old = u32::try_from(self.facts.len()).unwrap_or(u32::MAX);
        Renaming {
            facts: self.facts.as_slice(),
            shift: self.count.saturating_sub(old),
            denied: None,
        }
    }

    fn renamed(&self, why: &Derivation) -> Result<Derivation, Mem> {
        copied(self.alloc, why, self.names())
    }

    /// Goes to the next node, and states its lemmas.
    fn enter(&mut self) -> Result<Mark, Mem> {
        let mut mark = Mark {
            facts: self.facts.len(),
            count: self.count,
            room: self.room,
            stated: Vec::new(self.alloc),
        };
        let mut next = self.heads.get(self.node).copied().unwrap_or(None);
        self.node = self.node.saturating_add(1);
        for _ in 0..self.room {
            let Some(place) = next else {
                break;
            };
            if let Some(group) = self.survey.chosen.get(place).copied() {
                self.state(&mut mark.stated, group)?;
            }
            next = self.nexts.get(place).copied().unwrap_or(None);
        }
        Ok(mark)
    }

    /// States the lemma of a group, behind others.
    fn state(&mut self, stated: &mut Vec<Stated>, group: Group<'_>) -> Result<(), Mem> {
        if let Some(row) = lemma_row(group.answer)? {
            let names = Renaming {
                denied: Some((group.reach.denied(), self.count)),
                ..self.names()
            };
            let why = copied(self.alloc, &group.answer.why, names)?;
            stated.push(Stated {
                row,
                why,
                key: group.key,
                before: self.activate(group.key, Some(self.count)),
            })?;
            self.count = self.count.saturating_add(1);
            self.room = self.room.saturating_sub(1);
        }
        Ok(())
    }

    /// Makes a lemma the one of its row and answer. Gives the one that was so before.
    fn activate(&mut self, key: usize, lemma: Option<u32>) -> Option<u32> {
        match self.active.get_mut(key) {
            Some(slot) => {
                let before = *slot;
                *slot = lemma;
                before
            }
            None => None,
        }
    }

    /// Goes back to what stood above a node, which stands below its lemmas then.
    fn leave(&mut self, mark: Mark, node: CertNode) -> Result<CertNode, Mem> {
        self.facts.truncate(mark.facts);
        self.count = mark.count;
        self.room = mark.room;
        let mut top = node;
        for stated in mark.stated.into_iter().rev() {
            self.activate(stated.key, stated.before);
            top = self.lemma(stated.row, stated.why, top)?;
        }
        Ok(top)
    }

    fn leaf(&self, answers: &[Answer]) -> Result<CertNode, Mem> {
        let mut copies = List::new(self.alloc);
        for answer in answers {
            copies.push(self.answer(answer)?)?;
        }
        Ok(CertNode::Leaf(copies))
    }

    /// An answer, from its lemma where that is shorter.
    fn answer(&self, answer: &Answer) -> Result<Answer, Mem> {
        let why = match self.by_lemma(answer)? {
            Some(why) => why,
            None => self.renamed(&answer.why)?,
        };
        Ok(Answer {
            yes: answer.yes,
            row: answer.row.clone()?,
            why,
        })
    }

    /// An answer's derivation from its lemma, if there is one that makes it shorter.
    fn by_lemma(&self, answer: &Answer) -> Result<Option<Derivation>, Mem> {
        let reach = Reach::of(answer);
        if reach.is_short() {
            return Ok(None);
        }
        let denied = self.names().of_fact(reach.denied());
        let Some(place) = self.survey.place_of(answer)? else {
            return Ok(None);
        };
        match self.active.get(place).copied() {
            Some(Some(lemma)) if short_length(u64::from(lemma), denied) < reach.length => {
                Ok(Some(from_lemma(self.alloc, lemma, denied)?))
            }
            _ => Ok(None),
        }
    }
}

/// The row of the lemma for an answer. None where one of its numbers is outside 128 bits.
fn lemma_row(answer: &Answer) -> Result<Option<Row>, Mem> {
    if answer.yes {
        return Ok(Some(answer.row.clone()?));
    }
    match answer.row.negate() {
        Ok(row) => Ok(Some(row)),
        Err(RowFault::Coeff) => Ok(None),
        Err(RowFault::Mem) => Err(Mem),
    }
}

/// That an answer's row has the sign that a lemma says: the lemma's row and what is denied have the sum -1.
fn from_lemma(alloc: Global, lemma: u32, denied: u32) -> Result<Derivation, Mem> {
    let mut steps = List::new(alloc);
    steps.push(Step::Fact(lemma))?;
    steps.push(Step::Fact(denied))?;
    steps.push(Step::Sum(List::from_slice(alloc, &[(1, 0), (1, 1)])?))?;
    Ok(Derivation {
        steps,
        last: Ending::Closed,
    })
}
