use crate::lengths::row_length;
use crate::reach::{Reach, short_length};
use cert_semantics::axis_count;
use cert_text::CertNode;
use lin_proof::Answer;
use std::alloc::Global;
use sym_calc::{Floor, Floors};
use viz_base::Mem;

/// Where a node stands.
#[derive(Clone, Copy)]
struct Stand {
    /// Its number, in preorder from 0.
    node: usize,
    /// How many facts its path has.
    facts: u64,
    /// How many variables its path has.
    variables: u64,
}

/// Leaves that give the same answer to a row, below a node at which it can be derived.
#[derive(Clone, Copy)]
pub struct Group<'a> {
    /// The answer whose derivation is the shortest.
    pub answer: &'a Answer,
    /// What it rests on.
    pub reach: Reach,
    /// The lowest node above all.
    pub node: usize,
    /// How many bytes are saved where they rest on a lemma, its own lines not counted.
    saving: u64,
    /// The place of the row and its answer among all.
    pub key: usize,
}

impl<'a> Group<'a> {
    /// Whether the answer can be derived at a node.
    fn stands_at(self, stand: Stand) -> bool {
        self.reach.facts <= stand.facts && self.reach.variables <= stand.variables
    }

    /// Whether a lemma makes the text shorter.
    fn is_worth(self) -> bool {
        let lemma = row_length(&self.answer.row)
            .saturating_add(self.reach.length)
            .saturating_add(7);
        self.saving > lemma
    }

    /// This group with another one, below a node at which one of their answers can be derived.
    fn with(self, other: Group<'a>, stand: Stand) -> Option<Group<'a>> {
        let is_first = self.stands_at(stand);
        let is_second = other.stands_at(stand);
        if !is_first && !is_second {
            return None;
        }
        let is_shorter = self.reach.length <= other.reach.length;
        let best = if is_first && (is_shorter || !is_second) {
            self
        } else {
            other
        };
        Some(Group {
            node: stand.node,
            saving: self.saving.saturating_add(other.saving),
            ..best
        })
    }
}

/// What the leaves of a certificate answer alike.
#[derive(Drop)]
pub struct Survey<'a> {
    alloc: Global,
    /// The rows with their answers, each once.
    keys: Floors,
    /// The last group of each.
    open: Vec<Option<Group<'a>>>,
    /// The groups for which a lemma makes the text shorter.
    pub chosen: Vec<Group<'a>>,
    /// The nodes above the one that is looked at, and itself.
    stack: Vec<Stand>,
    /// How many nodes there are.
    pub nodes: usize,
    /// How many of them stand in one another.
    pub depth: usize,
}

impl<'a> Survey<'a> {
    /// The survey of a certificate's root, for a job of this form.
    pub fn of(alloc: Global, form: u8, root: &'a CertNode) -> Result<Self, Mem> {
        let mut survey = Survey {
            alloc,
            keys: Floors::new(alloc),
            open: Vec::new(alloc),
            chosen: Vec::new(alloc),
            stack: Vec::new(alloc),
            nodes: 0,
            depth: 0,
        };
        let axes = u64::from(axis_count(form));
        survey.look(root, axes.saturating_mul(2), axes)?;
        survey.end()?;
        Ok(survey)
    }

    /// How many rows with their answers there are.
    pub fn key_count(&self) -> usize {
        self.open.len()
    }

    /// The place of an answer's row and of the answer among all.
    pub fn place_of(&self, answer: &Answer) -> Result<Option<usize>, Mem> {
        Ok(self.keys.place_of(&key_of(answer)?))
    }

    /// Looks at a node whose path has so many facts and variables, and at all below.
    fn look(&mut self, node: &'a CertNode, facts: u64, variables: u64) -> Result<(), Mem> {
        let stand = Stand {
            node: self.nodes,
            facts,
            variables,
        };
        self.enter(stand)?;
        let next = facts.saturating_add(1);
        match node {
            CertNode::Def(_, _, below) => {
                self.look(
                    below.get(),
                    facts.saturating_add(2),
                    variables.saturating_add(1),
                )?;
            }
            CertNode::Lemma(_, _, below) => self.look(below.get(), next, variables)?,
            CertNode::Split(_, first, second) => {
                self.look(first.get(), next, variables)?;
                self.look(second.get(), next, variables)?;
            }
            CertNode::Leaf(answers) => self.look_at(answers.as_slice(), stand)?,
            CertNode::Void(_) | CertNode::Grid => {}
        }
        self.stack.pop();
        Ok(())
    }

    fn enter(&mut self, stand: Stand) -> Result<(), Mem> {
        self.nodes = self.nodes.saturating_add(1);
        self.stack.push(stand)?;
        self.depth = self.depth.max(self.stack.len());
        Ok(())
    }

    /// Looks at a leaf's answers.
    fn look_at(&mut self, answers: &'a [Answer], stand: Stand) -> Result<(), Mem> {
        for answer in answers {
            self.add(answer, stand)?;
        }
        Ok(())
    }

    /// Adds an answer of a leaf to its group, where a lemma would shorten it and can be stated above the leaf.
    fn add(&mut self, answer: &'a Answer, stand: Stand) -> Result<(), Mem> {
        let reach = Reach::of(answer);
        let short = short_length(stand.facts, reach.denied()).saturating_add(1);
        let saving = reach.length.saturating_sub(short);
        if reach.is_short() || saving == 0 {
            return Ok(());
        }
        let group = Group {
            answer,
            reach,
            node: stand.node,
            saving,
            key: 0,
        };
        if group.stands_at(stand) {
            let key = self.key_place(answer)?;
            self.join(Group { key, ..group })
        } else {
            Ok(())
        }
    }

    /// The place of an answer's row and of the answer, which may be new.
    fn key_place(&mut self, answer: &Answer) -> Result<usize, Mem> {
        let key = key_of(answer)?;
        if let Some(place) = self.keys.place_of(&key) {
            return Ok(place);
        }
        let place = self.keys.len();
        self.keys.push(key)?;
        self.open.push(None)?;
        Ok(place)
    }

    /// Joins a group of one answer to the last one of its row. Where the two have no lemma in common, that one ends.
    fn join(&mut self, group: Group<'a>) -> Result<(), Mem> {
        let mut joined = group;
        if let Some(Some(last)) = self.open.get(group.key).copied() {
            match self.both(last, group) {
                Some(both) => joined = both,
                None => self.close(last)?,
            }
        }
        if let Some(slot) = self.open.get_mut(group.key) {
            *slot = Some(joined);
        }
        Ok(())
    }

    /// A group that was met before and one at the node that is looked at, in one.
    fn both(&self, last: Group<'a>, group: Group<'a>) -> Option<Group<'a>> {
        for stand in self.stack.iter().rev() {
            // Numbers are in preorder: a node above this one that comes not after that one is above both.
            if stand.node <= last.node {
                return last.with(group, *stand);
            }
        }
        None
    }

    fn close(&mut self, group: Group<'a>) -> Result<(), Mem> {
        if group.is_worth() {
            self.chosen.push(group)?;
        }
        Ok(())
    }

    /// Ends all groups.
    fn end(&mut self) -> Result<(), Mem> {
        for key in 0..self.open.len() {
            if let Some(Some(group)) = self.open.get(key).copied() {
                self.close(group)?;
            }
        }
        Ok(())
    }
}

/// An answer's row with the answer.
fn key_of(answer: &Answer) -> Result<Floor, Mem> {
    let row = answer.row.clone()?;
    let by = if answer.yes { 1 } else { 2 };
    Ok(Floor { row, by })
}
