//! A reader of symbols, with one symbol of look-ahead.
ghost use Rattle.std.specs.Prelude.{◌≡◌, ◌≢◌, ◌-◌, map, ◌++◌, ◌∷◌, [], take, drop, ◌⊎◌, OnOk, IfErr, Result, MatchResult};
ghost use Rattle.std.specs.Result.{IsOkAnd};
ghost use Rattle.std.specs.List.{list_any};
ghost use Rattle.idl_parser.specs.Phrases.{none, place_at, word, flag, text, one};
ghost use Rattle.idl_parser.specs.Leaves.{sign, kept_word, flagged, text_leaf, literal_leaf, literal_bytes};
ghost use Rattle.idl_parser.specs.Parts.{identifier, decimal, literal, integer};
ghost use Rattle.idl_parser.specs.Faults.{next_place, fault_kind, kind_at};
ghost use Rattle.idl_parser.specs.Trees.{name_node, literal_node, int_node, value_node};
ghost use Rattle.idl_token.specs.Terminals.{same};
ghost use Rattle.idl_parser.specs.Shapes.{starts_in, contains_terminal};
ghost use Rattle.idl_parser.specs.Documents.{deepest};
ghost use Rattle.idl_parser.specs.ReaderCalls.{Parses, IntsFit, lexeme_of, is_none_left, is_deep};

use crate::ParseKind;
use crate::leaves::{int_number, literal_bytes};
use crate::symbol::Symbol;
use crate::tree::{ConstTree, Double, Int, Literal, Name};
use idl_token::{LONGEST_IDL_TEXT, Place, Terminal, same};
use lists::ByteText;
use std::alloc::{AllocError, AllocFailed, Global};
use std::marker::Model;

/// No text has more symbols than bytes. A row is read by so many rounds at most, since a loop has to have an end.
pub(crate) const MAX_SYMBOLS: usize = LONGEST_IDL_TEXT;

/// How many levels of containers may stand in one another.
#[tactic(auto, unfolding(crate::specs::Documents::deepest))]
pub(crate) fn deepest() -> usize
    ensures { result ≡ deepest }
{
    64
}

/// Why a reading ended.
#[derive(Clone, Copy)]
pub(crate) enum Stop {
    /// There was no room in memory.
    NoMemory,
    /// The symbol that is next can't stand there.
    Stuck,
    /// The symbol that is next opens a level too many.
    Deep,
}

impl From<AllocError> for Stop {
    ghost use Rattle.idl_parser.specs.declared.reader.Stop.TheVariants.{NoMemory};

    ghost from_gives = { λ _ stop. stop ≡ NoMemory };

    fn from(_error: AllocError) -> Self {
        Stop::NoMemory
    }
}

impl<T: Drop> From<AllocFailed<T>> for Stop {
    ghost use Rattle.idl_parser.specs.declared.reader.Stop.TheVariants.{NoMemory};

    ghost from_gives = { λ _ stop. stop ≡ NoMemory };

    fn from(_failed: AllocFailed<T>) -> Self {
        Stop::NoMemory
    }
}

/// Reads symbols from the front.
#[derive(Drop)]
pub(crate) struct SymbolReader<'a> {
    text: &'a [u8],
    left: &'a [Symbol],
    alloc: Global,
}

impl<'a> Model for SymbolReader<'a> {
    ghost use Rattle.std.specs.Prelude.{List, map};
    ghost use Rattle.idl_parser.specs.Phrases.{Lexeme};
    ghost use Rattle.idl_parser.specs.ReaderCalls.{lexeme_of, IntsFit};

    ghost Value = { List Lexeme };

    ghost view = { λ r. map (lexeme_of r.text.now) r.left.now };

    ghost invariant = { λ r. IntsFit (map (lexeme_of r.text.now) r.left.now) };
}

impl<'a> SymbolReader<'a> {
    /// Whether the next symbol is one of some.
    pub(crate) fn starts(&self, set: &[Terminal]) -> bool
        ensures { result ≡ starts_in set.now self.now }
    {
        match self.left.first() {
            Some(symbol) => is_in(set, symbol.what),
            None => false,
        }
    }

    /// Whether the next symbol is this one.
    pub(crate) fn is_next(&self, what: Terminal) -> bool
        ensures { result ≡ starts_in (what ∷ []) self.now }
    {
        match self.left.first() {
            Some(symbol) => same(symbol.what, what),
            None => false,
        }
    }

    /// Passes one symbol, of which nothing is kept.
    pub(crate) fn sign(&mut self, wanted: Terminal) -> Result<(), Stop>
        ensures { Parses (sign wanted) (λ _. none) self.old self.new result }
    {
        match self.left.split_first() {
            Some((symbol, rest)) if same(symbol.what, wanted) => {
                self.left = rest;
                Ok(())
            }
            _ => Err(Stop::Stuck),
        }
    }

    /// Passes one symbol, of which it is kept that it was there.
    pub(crate) fn flag(&mut self, wanted: Terminal) -> Result<(), Stop>
        ensures { Parses (flagged wanted) (λ _. flag wanted) self.old self.new result }
    {
        match self.left.split_first() {
            Some((symbol, rest)) if same(symbol.what, wanted) => {
                self.left = rest;
                Ok(())
            }
            _ => Err(Stop::Stuck),
        }
    }

    /// A reader of symbols of a text.
    pub(crate) fn new(alloc: Global, text: &'a [u8], symbols: &'a [Symbol]) -> Self
        requires { IntsFit (map (lexeme_of text.now) symbols.now) }
        ensures { result ≡ map (lexeme_of text.now) symbols.now }
    {
        SymbolReader {
            text,
            left: symbols,
            alloc,
        }
    }

    /// Whether no symbol is left.
    pub(crate) fn is_at_end(&self) -> bool
        ensures { result ≡ is_none_left self.now }
    {
        self.left.is_empty()
    }

    /// What is wrong with the next symbol, where a reading stopped there, and where that is.
    pub(crate) fn fault(&self, stop: Stop, end: Place) -> (Place, ParseKind)
        requires { stop ≢ Stop.NoMemory }
        ensures place { result.0 ≡ next_place end self.now }
        ensures kind { result.1 ≡ fault_kind (is_deep stop) self.now }
    {
        match self.left.first() {
            Some(symbol) => (symbol.place, kind_at(stop, symbol.what)),
            None => (end, kind_at(stop, Terminal::Identifier)),
        }
    }

    /// The place of the next symbol.
    pub(crate) fn place(&self) -> Place
        ensures { result ≡ place_at self.now }
    {
        match self.left.first() {
            Some(symbol) => symbol.place,
            None => Place { line: 0, column: 0 },
        }
    }

    /// Where memory comes from.
    pub(crate) fn alloc(&self) -> Global {
        self.alloc
    }

    /// Passes one symbol, and gives its place and its bytes.
    fn take(&mut self, wanted: Terminal) -> Result<Taken<'a>, Stop>
        ensures as_text { Parses (one wanted (text_leaf wanted)) (λ t. text wanted t.bytes.now t.place) self.old self.new result }
        ensures as_literal { Parses (one wanted (literal_leaf wanted)) (λ t. text wanted (literal_bytes t.bytes.now) t.place) self.old self.new result }
    {
        match self.left.split_first() {
            Some((symbol, rest)) if same(symbol.what, wanted) => {
                self.left = rest;
                Ok(Taken {
                    bytes: part(self.text, symbol.from as usize, symbol.to as usize),
                    place: symbol.place,
                })
            }
            _ => Err(Stop::Stuck),
        }
    }

    /// Passes one symbol, and gives its place.
    pub(crate) fn word(&mut self, wanted: Terminal) -> Result<Place, Stop>
        ensures { Parses (kept_word wanted) (word wanted) self.old self.new result }
    {
        match self.left.split_first() {
            Some((symbol, rest)) if same(symbol.what, wanted) => {
                self.left = rest;
                Ok(symbol.place)
            }
            _ => Err(Stop::Stuck),
        }
    }

    /// An identifier.
    pub(crate) fn name(&mut self) -> Result<Name, Stop>
        ensures { Parses identifier name_node self.old self.new result }
    {
        let taken = self.take(Terminal::Identifier)?;
        let text = copied(self.alloc, taken.bytes)?;
        Ok(Name {
            at: taken.place,
            text,
        })
    }

    /// A value that is a number with a fraction or an exponent.
    pub(crate) fn double(&mut self) -> Result<ConstTree, Stop>
        ensures { Parses decimal value_node self.old self.new result }
    {
        let taken = self.take(Terminal::Double)?;
        let text = copied(self.alloc, taken.bytes)?;
        Ok(ConstTree::Double(Double {
            at: taken.place,
            text,
        }))
    }

    /// A literal.
    pub(crate) fn literal(&mut self) -> Result<Literal, Stop>
        ensures { Parses literal literal_node self.old self.new result }
    {
        let taken = self.take(Terminal::Literal)?;
        let bytes = literal_bytes(self.alloc, taken.bytes)?;
        Ok(Literal {
            at: taken.place,
            bytes,
        })
    }

    /// An integer, for which there is always room.
    pub(crate) fn int(&mut self) -> Result<Int, Stop>
        ensures reads { Parses integer int_node self.old self.new result }
        ensures total { IfErr result (λ stop. stop ≢ Stop.NoMemory) }
    {
        match self.left.split_first() {
            Some((symbol, rest)) if same(symbol.what, Terminal::Int) => {
                let bytes = part(self.text, symbol.from as usize, symbol.to as usize);
                let value = int_number(bytes);
                self.left = rest;
                Ok(Int {
                    at: symbol.place,
                    value,
                })
            }
            _ => Err(Stop::Stuck),
        }
    }
}

/// A symbol that was passed.
#[derive(Clone, Copy)]
struct Taken<'a> {
    bytes: &'a [u8],
    place: Place,
}

/// Adds an item to a list.
pub(crate) fn put<T: Drop>(all: &mut Vec<T>, item: T) -> Result<(), Stop>
    ensures { MatchResult result (λ _. all.new.items ≡ all.old.items ++ item ∷ []) (λ e. e ≡ Stop.NoMemory) }
{
    all.push(item)?;
    Ok(())
}

/// Adds an item to a list, where it was read.
pub(crate) fn put_read<T: Drop>(all: &mut Vec<T>, item: Result<T, Stop>) -> Result<(), Stop>
    ensures put { OnOk result (IsOkAnd item (λ x. all.new.items ≡ all.old.items ++ x ∷ [])) }
    ensures stopped { IfErr result (λ stop. (stop ≡ Stop.NoMemory) ⊎ (item ≡ Result.Err stop)) }
{
    let read = item?;
    all.push(read)?;
    Ok(())
}

/// What was read, where what stands behind it was read too.
pub(crate) fn kept<T: Drop>(item: T, behind: Result<(), Stop>) -> Result<T, Stop>
    ensures { MatchResult behind (λ _. result ≡ Result.Ok item) (λ stop. result ≡ Result.Err stop) }
{
    match behind {
        Ok(()) => Ok(item),
        Err(stop) => Err(stop),
    }
}

/// What was read, beside what stands behind it where that was read too.
pub(crate) fn joined<A: Drop, B: Drop>(item: A, behind: Result<B, Stop>) -> Result<(A, B), Stop>
    ensures { MatchResult behind (λ other. result ≡ Result.Ok (item, other)) (λ stop. result ≡ Result.Err stop) }
{
    match behind {
        Ok(other) => Ok((item, other)),
        Err(stop) => Err(stop),
    }
}

fn kind_at(stop: Stop, what: Terminal) -> ParseKind
    ensures { result ≡ kind_at (is_deep stop) what }
{
    match stop {
        Stop::Deep => ParseKind::TooDeep,
        _ if same(what, Terminal::Refused) => ParseKind::Refused,
        _ => ParseKind::Found,
    }
}

/// A copy of some bytes.
fn copied(alloc: Global, bytes: &[u8]) -> Result<ByteText, Stop>
    ensures { MatchResult result (λ text. text ≡ bytes.now) (λ e. e ≡ Stop.NoMemory) }
{
    Ok(ByteText::new(bytes.to_vec(alloc)?))
}

/// The bytes of a text between two places.
pub(crate) fn part(text: &[u8], from: usize, to: usize) -> &[u8]
    ensures { result.now ≡ take (to - from) (drop from text.now) }
{
    let (_, rest) = text.split_at(from.min(text.len()));
    let (front, _) = rest.split_at(to.saturating_sub(from).min(rest.len()));
    front
}

fn is_one_of(what: Terminal, set: &[Terminal]) -> bool
    ensures { result ≡ list_any (λ each. same what each) set.now }
{
    set.iter().any(|each| same(what, *each))
}

fn is_in(set: &[Terminal], what: Terminal) -> bool
    ensures { result ≡ contains_terminal set.now what }
{
    is_one_of(what, set)
}
