ghost use Rattle.std.specs.Prelude.{◌≡◌, [], None, Some, if◌then◌else◌, IfOk, OnOk, OnErr};
ghost use Rattle.css_semantics.specs.SheetsReading.{awaited, is_none, may_stand, value_closed, value_step};

use crate::kinds::{closing_mark, is_bad, is_closing, is_comment_mark, is_mark, is_semicolon};
use std::alloc::Global;
use std::marker::Model;
use viz_base::{Mem, TokenKind};

/// The closing marks that are still awaited, which contracts see with the innermost first.
#[derive(Drop)]
pub struct Marks {
    items: Vec<TokenKind>,
}

impl Model for Marks {
    ghost use Rattle.std.specs.Prelude.{List, reverse};
    ghost use Rattle.viz_base.specs.declared.tokens.TokenKind.{TokenKind as Kind};

    ghost Value = { List Kind };

    ghost view = { λ marks. reverse marks.items.items };
}

impl Marks {
    /// No marks, which takes no memory.
    pub fn new(alloc: Global) -> Self
        ensures { result ≡ [] }
    {
        Marks {
            items: Vec::new(alloc),
        }
    }

    /// Whether no pair is open.
    pub fn is_none(&self) -> bool
        ensures { result ≡ is_none self.now }
    {
        self.items.is_empty()
    }

    /// Goes past a token of this kind. On an error the marks are as before.
    pub fn pass(&mut self, kind: TokenKind) -> Result<(), Mem>
        ensures ok { OnOk result (self.new ≡ awaited kind self.old) }
        ensures err { OnErr result (self.new ≡ self.old) }
    {
        if let Some(mark) = closing_mark(kind) {
            self.items.push(mark)?;
        } else if let Some(innermost) = self.items.last() {
            if is_mark(*innermost, kind) {
                self.items.pop();
            }
        }
        Ok(())
    }

    /// Whether a token that neither opens nor closes a pair may stand in a value here.
    fn may_stand(&self, kind: TokenKind) -> bool
        ensures { result ≡ may_stand self.now kind }
    {
        match self.items.last() {
            Some(mark) => !is_bad(kind)
                && (!matches!(mark, TokenKind::RightBrace) || !is_comment_mark(kind)),
            None => !is_bad(kind) && !is_comment_mark(kind) && !is_semicolon(kind),
        }
    }

    /// Goes past a closing mark, where it is the one that is awaited.
    fn close(&mut self, kind: TokenKind) -> bool
        ensures { value_closed kind self.old ≡ (if result then Some self.new else None) }
    {
        if let Some(innermost) = self.items.last() {
            if is_mark(*innermost, kind) {
                self.items.pop();
                return true;
            }
        }
        false
    }

    /// Goes past the next token of a value, if it may stand there.
    pub fn pass_in_value(&mut self, kind: TokenKind) -> Result<bool, Mem>
        ensures { IfOk result (λ goes. value_step kind self.old
            ≡ (if goes then Some self.new else None)) }
    {
        if let Some(mark) = closing_mark(kind) {
            if is_bad(kind) {
                return Ok(false);
            }
            self.items.push(mark)?;
            return Ok(true);
        }
        if is_closing(kind) {
            return Ok(self.close(kind));
        }
        Ok(self.may_stand(kind))
    }
}
