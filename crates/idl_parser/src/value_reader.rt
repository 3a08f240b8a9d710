//! Constant values.
ghost use Rattle.std.specs.Prelude.{◌≡◌};
ghost use Rattle.idl_parser.specs.Phrases.{chain, pair, many};
ghost use Rattle.idl_parser.specs.Leaves.{sign, left_tree, right_tree};
ghost use Rattle.idl_parser.specs.Parts.{separator};
ghost use Rattle.idl_parser.specs.Documents.{deepest};
ghost use Rattle.idl_parser.specs.Shapes.{starts_in};
ghost use Rattle.idl_parser.specs.Starts.{value_starts};
ghost use Rattle.idl_parser.specs.Reading.{read};
ghost use Rattle.idl_parser.specs.Constants.{list_item, list_value, map_entry, map_value, collection, no_collection, inner_value, value_of};
ghost use Rattle.idl_parser.specs.Trees.{value_node, values_node, entry_node, pairs_node};
ghost use Rattle.idl_parser.specs.ReaderCalls.{Parses, StopsAt, most};

use crate::reader::{MAX_SYMBOLS, Stop, SymbolReader, deepest, joined, kept, put_read};
use crate::tree::ConstTree;
use idl_token::Terminal;

impl<'a> SymbolReader<'a> {
    /// Whether a value may begin with the next symbol.
    fn begins_value(&self) -> bool
        ensures { result ≡ starts_in value_starts self.now }
    {
        self.starts(&[
            Terminal::Int,
            Terminal::Double,
            Terminal::Literal,
            Terminal::Identifier,
            Terminal::OpenBracket,
            Terminal::OpenBrace,
        ])
    }

    /// How a reading ends at a value for which there is no level.
    #[tactic(auto, unfolding(crate::specs::Constants::no_collection))]
    fn no_value_level(&self) -> Stop
        ensures { StopsAt result (read most no_collection self.now) self.now }
    {
        if self.is_next(Terminal::OpenBracket) {
            return Stop::Deep;
        }
        if self.is_next(Terminal::OpenBrace) {
            return Stop::Deep;
        }
        Stop::Stuck
    }

    /// A value of so many levels of containers at most.
    #[cycle(value_reader)]
    #[tactic(auto, unfolding(crate::specs::Constants::value_of))]
    pub(crate) fn value(&mut self, levels: usize) -> Result<ConstTree, Stop>
        ensures { Parses (value_of levels) value_node self.old self.new result }
    {
        if self.is_next(Terminal::Int) {
            return Ok(ConstTree::Int(self.int()?));
        }
        if self.is_next(Terminal::Double) {
            return self.double();
        }
        if self.is_next(Terminal::Literal) {
            return Ok(ConstTree::Literal(self.literal()?));
        }
        if self.is_next(Terminal::Identifier) {
            return Ok(ConstTree::Name(self.name()?));
        }
        self.inner_value(levels)
    }

    /// A list or a map of so many levels at most.
    #[cycle(value_reader)]
    fn inner_value(&mut self, levels: usize) -> Result<ConstTree, Stop>
        ensures { Parses (inner_value levels) value_node self.old self.new result }
    {
        if levels == 0 {
            return Err(self.no_value_level());
        }
        self.collection(levels - 1)
    }

    /// A list or a map whose parts have so many levels at most.
    #[cycle(value_reader)]
    #[tactic(auto, unfolding(crate::specs::Constants::collection))]
    fn collection(&mut self, levels: usize) -> Result<ConstTree, Stop>
        ensures { Parses (collection (value_of levels)) value_node self.old self.new result }
    {
        if self.is_next(Terminal::OpenBracket) {
            return self.list_value(levels);
        }
        self.map_value(levels)
    }

    #[cycle(value_reader)]
    #[tactic(auto, unfolding(crate::specs::Constants::list_value_rest))]
    fn list_value(&mut self, levels: usize) -> Result<ConstTree, Stop>
        ensures { Parses (list_value (value_of levels)) value_node self.old self.new result }
    {
        let at = self.word(Terminal::OpenBracket)?;
        let items = self.list_items(levels)?;
        let behind = self.sign(Terminal::CloseBracket);
        let items = kept(items, behind)?;
        Ok(ConstTree::List(at, items))
    }

    /// A value, and a separator or none.
    #[cycle(value_reader)]
    #[tactic(auto, unfolding(crate::specs::Constants::list_item))]
    fn list_item(&mut self, levels: usize) -> Result<ConstTree, Stop>
        ensures { Parses (list_item (value_of levels)) value_node self.old self.new result }
    {
        let item = self.value(levels)?;
        let behind = self.separator();
        kept(item, behind)
    }

    #[cycle(value_reader)]
    fn list_items(&mut self, levels: usize) -> Result<Vec<ConstTree>, Stop>
        ensures { Parses (many pair (list_item (value_of levels))) (λ v. values_node v.items) self.old self.new result }
    {
        let mut all = Vec::new(self.alloc());
        'row: for _round in 0..MAX_SYMBOLS {
            if !self.begins_value() {
                return Ok(all);
            }
            let item = self.list_item(levels);
            put_read(&mut all, item)?;
        }
        Ok(all)
    }

    #[cycle(value_reader)]
    #[tactic(auto, unfolding(crate::specs::Constants::map_value_rest))]
    fn map_value(&mut self, levels: usize) -> Result<ConstTree, Stop>
        ensures { Parses (map_value (value_of levels)) value_node self.old self.new result }
    {
        let at = self.word(Terminal::OpenBrace)?;
        let pairs = self.map_entries(levels)?;
        let behind = self.sign(Terminal::CloseBrace);
        let pairs = kept(pairs, behind)?;
        Ok(ConstTree::Map(at, pairs))
    }

    /// A colon, a value, and a separator or none.
    #[cycle(value_reader)]
    #[tactic(auto, unfolding(crate::specs::Constants::list_item))]
    fn entry_end(&mut self, levels: usize) -> Result<ConstTree, Stop>
        ensures { Parses (chain right_tree (sign Terminal.Colon) (chain left_tree (value_of levels) separator)) value_node self.old self.new result }
    {
        self.sign(Terminal::Colon)?;
        self.list_item(levels)
    }

    #[cycle(value_reader)]
    #[tactic(auto, unfolding(crate::specs::Constants::map_entry))]
    fn map_entry(&mut self, levels: usize) -> Result<(ConstTree, ConstTree), Stop>
        ensures { Parses (map_entry (value_of levels)) entry_node self.old self.new result }
    {
        let key = self.value(levels)?;
        let behind = self.entry_end(levels);
        joined(key, behind)
    }

    #[cycle(value_reader)]
    fn map_entries(&mut self, levels: usize) -> Result<Vec<(ConstTree, ConstTree)>, Stop>
        ensures { Parses (many pair (map_entry (value_of levels))) (λ v. pairs_node v.items) self.old self.new result }
    {
        let mut all = Vec::new(self.alloc());
        'row: for _round in 0..MAX_SYMBOLS {
            if !self.begins_value() {
                return Ok(all);
            }
            let item = self.map_entry(levels);
            put_read(&mut all, item)?;
        }
        Ok(all)
    }

    /// Reads `=` and a value.
    pub(crate) fn assigned(&mut self) -> Result<ConstTree, Stop>
        ensures { Parses (chain right_tree (sign Terminal.Equals) (value_of deepest)) value_node self.old self.new result }
    {
        self.sign(Terminal::Equals)?;
        self.value(deepest())
    }
}
