//! What a script gives a connection: pieces that arrive, what comes after them, and rules of its writes.

ghost use Rattle.std.specs.Prelude.{◌≡◌, ℕ, ◌<◌, ◌≤◌, Some, None, [], ◌∷◌, ◌++◌, length, drop, option_map, slice_get, take, OnOk, OnErr};
ghost use Rattle.std.specs.List.{AllByRecursion};
ghost use Rattle.script_model.specs.Playing.{at_number, pieces_left};
ghost use Rattle.script_text.specs.Plans.{plain_rules, plain_rule};
ghost use Rattle.cell_loop.specs.Feeds.{lent_pieces, unread_of, plain_finish, finish_of, rules_left, unread_in, finish_in, rules_in, HasSomePieces};

use script_text::WriteRule;
use std::alloc::{AllocError, Global};
use std::collections::VecDeque;

/// What comes after all pieces of a connection.
#[derive(Clone, Copy)]
pub enum InputEnd {
    /// Its input ends.
    Ends,
    /// A read fails.
    Fails,
}

/// What is kept of what a script gives a connection. Pieces and rules stay in the script.
#[derive(Drop)]
pub struct Feed<'a> {
    /// What isn't read of the oldest piece that was begun; empty where none is under way.
    pub front: &'a [u8],
    /// The pieces behind it that have arrived, the oldest first; none is empty.
    pub later: VecDeque<&'a [u8]>,
    /// What comes after all pieces, once its line was done.
    pub finish: Option<InputEnd>,
    /// The rules that are left.
    pub rules: &'a [WriteRule],
}

impl<'a> Feed<'a> {
    /// Makes a feed to which nothing has arrived, with all rules left; takes no memory.
    pub fn new(alloc: Global, rules: &'a [WriteRule]) -> Self
        ensures unread { unread_of result ≡ [] }
        ensures finish { finish_of result ≡ None }
        ensures rules { rules_left result ≡ plain_rules rules.now }
        ensures some { HasSomePieces result }
    {
        Feed {
            front: &[],
            later: VecDeque::new(alloc),
            finish: None,
            rules,
        }
    }

    /// A piece arrives.
    pub fn arrive(&mut self, piece: &'a [u8]) -> Result<(), AllocError>
        requires some { 0 < length piece.now }
        requires pieces { HasSomePieces self.old }
        ensures unread { OnOk result (unread_of self.new ≡ unread_of self.old ++ piece.now ∷ []) }
        ensures unchanged { OnErr result (unread_of self.new ≡ unread_of self.old) }
        ensures finish { finish_of self.new ≡ finish_of self.old }
        ensures rules { rules_left self.new ≡ rules_left self.old }
        ensures pieces { HasSomePieces self.new }
    {
        self.later.push_back(piece)?;
        Ok(())
    }

    /// What is left of the oldest piece; empty where no piece is left.
    pub fn oldest(&mut self) -> &'a [u8]
        requires pieces { HasSomePieces self.old }
        ensures front { result.now ≡ self.new.front.now }
        ensures unread { unread_of self.new ≡ unread_of self.old }
        ensures none { result.now ≡ [] → unread_of self.new ≡ [] }
        ensures finish { finish_of self.new ≡ finish_of self.old }
        ensures rules { rules_left self.new ≡ rules_left self.old }
        ensures pieces { HasSomePieces self.new }
    {
        if self.front.is_empty() {
            if let Some(piece) = self.later.pop_front() {
                self.front = piece;
            }
        }
        self.front
    }

    /// So many bytes of the piece under way were read.
    pub fn read(&mut self, count: usize)
        requires within { count ≤ length self.old.front.now }
        requires pieces { HasSomePieces self.old }
        ensures unread { unread_of self.new ≡ pieces_left (drop count self.old.front.now) (lent_pieces self.old.later.items) }
        ensures finish { finish_of self.new ≡ finish_of self.old }
        ensures rules { rules_left self.new ≡ rules_left self.old }
        ensures pieces { HasSomePieces self.new }
    {
        self.front = self.front.split_at(count).1;
    }

    /// The rule of the next write, where one is left.
    pub fn next_rule(&self) -> Option<WriteRule>
        ensures { option_map plain_rule result ≡ slice_get (rules_left self.now) 0 }
    {
        match self.rules.first() {
            Some(rule) => Some(*rule),
            None => None,
        }
    }

    /// The next rule is used up, where one is left.
    pub fn pass_rule(&mut self)
        requires pieces { HasSomePieces self.old }
        ensures rules { rules_left self.new ≡ drop 1 (rules_left self.old) }
        ensures unread { unread_of self.new ≡ unread_of self.old }
        ensures finish { finish_of self.new ≡ finish_of self.old }
        ensures pieces { HasSomePieces self.new }
    {
        if let Some((_, rest)) = self.rules.split_first() {
            self.rules = rest;
        }
    }
}
