//! Types.
ghost use Rattle.std.specs.Prelude.{◌≡◌, MatchResult};
ghost use Rattle.idl_parser.specs.Phrases.{none, word, pair, chain};
ghost use Rattle.idl_parser.specs.Leaves.{sign, kept_word, neither, left_tree, right_tree};
ghost use Rattle.idl_parser.specs.Shapes.{starts_in, first};
ghost use Rattle.idl_parser.specs.Reading.{read};
ghost use Rattle.idl_parser.specs.Types.{base, cpp_type, map_type, set_type, list_type, no_container, container, inner_type, bare_type, type_of};
ghost use Rattle.idl_parser.specs.Trees.{base_word, type_node};
ghost use Rattle.idl_parser.specs.ReaderCalls.{Parses, StopsAt, most};

use crate::reader::{Stop, SymbolReader, joined, kept};
use crate::tree::{Base, TypeTree};
use idl_token::{Place, Terminal};
use std::alloc::Global;

/// The word of a base type.
pub fn base_terminal(base: Base) -> Terminal
    ensures { result ≡ base_word base }
{
    match base {
        Base::Bool => Terminal::Bool,
        Base::Byte => Terminal::Byte,
        Base::I8 => Terminal::I8,
        Base::I16 => Terminal::I16,
        Base::I32 => Terminal::I32,
        Base::I64 => Terminal::I64,
        Base::Double => Terminal::DoubleWord,
        Base::String => Terminal::StringWord,
        Base::Binary => Terminal::Binary,
        Base::Uuid => Terminal::Uuid,
    }
}

fn boxed(alloc: Global, tree: TypeTree) -> Result<Box<TypeTree>, Stop>
    ensures { MatchResult result (λ b. b.value ≡ tree) (λ e. e ≡ Stop.NoMemory) }
{
    Ok(Box::new(alloc, tree)?)
}

/// A map of these types.
fn map_of(alloc: Global, at: Place, key: TypeTree, value: TypeTree) -> Result<TypeTree, Stop>
    ensures { MatchResult result (λ t. type_node t ≡ pair (word Terminal.Map at) (pair (type_node key) (type_node value))) (λ e. e ≡ Stop.NoMemory) }
{
    let key = boxed(alloc, key)?;
    let value = boxed(alloc, value)?;
    Ok(TypeTree::Map(at, key, value))
}

/// A set of this type.
fn set_of(alloc: Global, at: Place, member: TypeTree) -> Result<TypeTree, Stop>
    ensures { MatchResult result (λ t. type_node t ≡ pair (word Terminal.Set at) (type_node member)) (λ e. e ≡ Stop.NoMemory) }
{
    Ok(TypeTree::Set(at, boxed(alloc, member)?))
}

/// A list of this type.
fn list_of(alloc: Global, at: Place, element: TypeTree) -> Result<TypeTree, Stop>
    ensures { MatchResult result (λ t. type_node t ≡ pair (word Terminal.List at) (type_node element)) (λ e. e ≡ Stop.NoMemory) }
{
    Ok(TypeTree::List(at, boxed(alloc, element)?))
}

impl<'a> SymbolReader<'a> {
    /// The base type whose word is next, where one is.
    #[tactic(auto, unfolding(crate::specs::Types::base))]
    fn next_base(&self) -> Base
        ensures { read most base self.now ≡ read most (kept_word (base_word result)) self.now }
    {
        if self.is_next(Terminal::Bool) {
            return Base::Bool;
        }
        if self.is_next(Terminal::Byte) {
            return Base::Byte;
        }
        if self.is_next(Terminal::I8) {
            return Base::I8;
        }
        if self.is_next(Terminal::I16) {
            return Base::I16;
        }
        if self.is_next(Terminal::I32) {
            return Base::I32;
        }
        if self.is_next(Terminal::I64) {
            return Base::I64;
        }
        if self.is_next(Terminal::DoubleWord) {
            return Base::Double;
        }
        if self.is_next(Terminal::StringWord) {
            return Base::String;
        }
        if self.is_next(Terminal::Binary) {
            return Base::Binary;
        }
        Base::Uuid
    }

    /// A base type.
    fn base(&mut self) -> Result<TypeTree, Stop>
        ensures { Parses base type_node self.old self.new result }
    {
        let base = self.next_base();
        let at = self.word(base_terminal(base))?;
        Ok(TypeTree::Base(at, base))
    }

    /// Whether a base type's word is next.
    #[tactic(auto, unfolding(crate::specs::Types::base))]
    fn begins_base(&self) -> bool
        ensures { result ≡ starts_in (first base) self.now }
    {
        self.starts(&[
            Terminal::Bool,
            Terminal::Byte,
            Terminal::I8,
            Terminal::I16,
            Terminal::I32,
            Terminal::I64,
            Terminal::DoubleWord,
            Terminal::StringWord,
            Terminal::Binary,
            Terminal::Uuid,
        ])
    }

    /// How a reading ends at a type for which there is no level.
    #[tactic(auto, unfolding(crate::specs::Types::no_container))]
    fn no_level(&self) -> Stop
        ensures { StopsAt result (read most no_container self.now) self.now }
    {
        if self.is_next(Terminal::Map) {
            return Stop::Deep;
        }
        if self.is_next(Terminal::Set) {
            return Stop::Deep;
        }
        if self.is_next(Terminal::List) {
            return Stop::Deep;
        }
        Stop::Stuck
    }

    /// The `>` behind a list's element, and `cpp_type` with its literal or nothing.
    fn list_end(&mut self) -> Result<(), Stop>
        ensures { Parses (chain neither (sign Terminal.Greater) cpp_type) (λ _. none) self.old self.new result }
    {
        self.sign(Terminal::Greater)?;
        self.cpp_type()
    }

    /// A type of so many levels at most, and an annotation or none.
    #[cycle(type_reader)]
    #[tactic(auto, unfolding(crate::specs::Types::type_of))]
    pub(crate) fn type_tree(&mut self, levels: usize) -> Result<TypeTree, Stop>
        ensures { Parses (type_of levels) type_node self.old self.new result }
    {
        let kind = self.bare_type(levels)?;
        let behind = self.annotation();
        kept(kind, behind)
    }

    /// A type without its annotation.
    #[cycle(type_reader)]
    #[tactic(auto, unfolding(crate::specs::Types::bare_type))]
    fn bare_type(&mut self, levels: usize) -> Result<TypeTree, Stop>
        ensures { Parses (bare_type levels) type_node self.old self.new result }
    {
        if self.begins_base() {
            return self.base();
        }
        if self.is_next(Terminal::Identifier) {
            return Ok(TypeTree::Named(self.name()?));
        }
        self.inner_type(levels)
    }

    /// A container of so many levels at most.
    #[cycle(type_reader)]
    fn inner_type(&mut self, levels: usize) -> Result<TypeTree, Stop>
        ensures { Parses (inner_type levels) type_node self.old self.new result }
    {
        if levels == 0 {
            return Err(self.no_level());
        }
        self.container(levels - 1)
    }

    /// A container whose parts have so many levels at most.
    #[cycle(type_reader)]
    #[tactic(auto, unfolding(crate::specs::Types::container))]
    fn container(&mut self, levels: usize) -> Result<TypeTree, Stop>
        ensures { Parses (container (type_of levels)) type_node self.old self.new result }
    {
        if self.is_next(Terminal::Map) {
            return self.map_type(levels);
        }
        if self.is_next(Terminal::Set) {
            return self.set_type(levels);
        }
        self.list_type(levels)
    }

    /// A type and a sign behind it.
    #[cycle(type_reader)]
    fn type_before(&mut self, levels: usize, behind: Terminal) -> Result<TypeTree, Stop>
        ensures { Parses (chain left_tree (type_of levels) (sign behind)) type_node self.old self.new result }
    {
        let tree = self.type_tree(levels)?;
        let passed = self.sign(behind);
        kept(tree, passed)
    }

    /// A comma, a map's value and the `>` behind it.
    #[cycle(type_reader)]
    fn map_end(&mut self, levels: usize) -> Result<TypeTree, Stop>
        ensures { Parses (chain right_tree (sign Terminal.Comma) (chain left_tree (type_of levels) (sign Terminal.Greater))) type_node self.old self.new result }
    {
        self.sign(Terminal::Comma)?;
        self.type_before(levels, Terminal::Greater)
    }

    #[cycle(type_reader)]
    #[tactic(auto, unfolding(crate::specs::Types::map_type_rest))]
    fn map_type(&mut self, levels: usize) -> Result<TypeTree, Stop>
        ensures { Parses (map_type (type_of levels)) type_node self.old self.new result }
    {
        let at = self.word(Terminal::Map)?;
        self.cpp_type()?;
        self.sign(Terminal::Less)?;
        let key = self.type_tree(levels)?;
        let behind = self.map_end(levels);
        let (key, value) = joined(key, behind)?;
        map_of(self.alloc(), at, key, value)
    }

    #[cycle(type_reader)]
    #[tactic(auto, unfolding(crate::specs::Types::set_type_rest))]
    fn set_type(&mut self, levels: usize) -> Result<TypeTree, Stop>
        ensures { Parses (set_type (type_of levels)) type_node self.old self.new result }
    {
        let at = self.word(Terminal::Set)?;
        self.cpp_type()?;
        self.sign(Terminal::Less)?;
        let member = self.type_before(levels, Terminal::Greater)?;
        set_of(self.alloc(), at, member)
    }

    #[cycle(type_reader)]
    #[tactic(auto, unfolding(crate::specs::Types::list_type_rest))]
    fn list_type(&mut self, levels: usize) -> Result<TypeTree, Stop>
        ensures { Parses (list_type (type_of levels)) type_node self.old self.new result }
    {
        let at = self.word(Terminal::List)?;
        self.cpp_type()?;
        self.sign(Terminal::Less)?;
        let element = self.type_tree(levels)?;
        let behind = self.list_end();
        let element = kept(element, behind)?;
        list_of(self.alloc(), at, element)
    }
}
