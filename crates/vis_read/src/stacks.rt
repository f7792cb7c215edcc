ghost use Rattle.std.specs.Prelude.{◌≡◌, ◌<◌, [], ◌∷◌, get_or, length, bytes_eq, MatchOption, OnErr, OnOk};
ghost use Rattle.std.specs.List.{position};

use std::alloc::{AllocError, Global};
use std::marker::Model;
use viz_base::Text;

/// A stack, which contracts see as the list of its items, the top first.
#[derive(Drop)]
pub struct Stack<T> {
    items: Vec<T>,
}

impl<T> Model for Stack<T> {
    ghost use Rattle.std.specs.Prelude.{List as Seq, reverse};
    ghost use Rattle.std.specs.Coded.{coded_list};

    ghost Value = { Seq T };

    ghost coded = { coded_list T.code };

    ghost view = { λ a. reverse a.items.items };
}

impl<T> Stack<T> {
    /// A stack of nothing.
    pub fn new(alloc: Global) -> Self
        ensures { result ≡ [] }
    {
        Stack {
            items: Vec::new(alloc),
        }
    }

    /// The number of its items.
    pub fn len(&self) -> usize
        ensures { result ≡ length self.now }
    {
        self.items.len()
    }

    /// Takes the top item, if there is one.
    pub fn pop(&mut self) -> Option<T>
        ensures { MatchOption result ((self.old ≡ []) × (self.new ≡ []))
            (λ item. self.old ≡ item ∷ self.new) }
    {
        self.items.pop()
    }
}

impl<T: Drop> Stack<T> {
    /// Puts an item on top; fails for want of memory alone, and the stack is then as before.
    pub fn push(&mut self, item: T) -> Result<(), AllocError>
        ensures ok { OnOk result (self.new ≡ item ∷ self.old) }
        ensures err { OnErr result (self.new ≡ self.old) }
    {
        self.items.push(item)?;
        Ok(())
    }
}

impl Stack<Text> {
    /// Whether this text is the same as the one below so many.
    fn is_at(&self, above: usize, text: &str) -> bool
        requires { above < length self.now }
        ensures { result ≡ bytes_eq (get_or self.now above []) text.now }
    {
        let place = self.items.len() - 1 - above;
        self.items[place].as_str() == text
    }

    /// How many texts are above the topmost that is the same as this one; none where no text is.
    pub fn above(&self, text: &str) -> Option<usize>
        ensures { result ≡ position (λ other. bytes_eq other text.now) self.now }
    {
        for above in 0..self.len() {
            if self.is_at(above, text) {
                return Some(above);
            }
        }
        None
    }
}
