//! Fields.
ghost use Rattle.std.specs.Prelude.{◌≡◌};
ghost use Rattle.idl_parser.specs.Shapes.{starts_in};
ghost use Rattle.idl_parser.specs.Starts.{field_starts};
ghost use Rattle.idl_parser.specs.Fields.{field_id, field_need, field_default, field_ending, field, fields};
ghost use Rattle.idl_parser.specs.Phrases.{pair, chain};
ghost use Rattle.idl_parser.specs.Leaves.{left_tree};
ghost use Rattle.idl_parser.specs.Parts.{identifier};
ghost use Rattle.idl_parser.specs.Trees.{maybe_node, int_node, name_node, need_node, value_node, field_node, fields_node};
ghost use Rattle.idl_parser.specs.ReaderCalls.{Parses};
ghost use Rattle.idl_parser.specs.Documents.{deepest};

use crate::reader::{MAX_SYMBOLS, Stop, SymbolReader, deepest, joined, kept, put_read};
use crate::tree::{ConstTree, Field, Int, Name, Need};
use idl_token::Terminal;

impl<'a> SymbolReader<'a> {
    /// Whether a field may begin with the next symbol.
    fn begins_field(&self) -> bool
        ensures { result ≡ starts_in field_starts self.now }
    {
        self.starts(&[
            Terminal::Int,
            Terminal::Required,
            Terminal::Optional,
            Terminal::Bool,
            Terminal::Byte,
            Terminal::I8,
            Terminal::I16,
            Terminal::I32,
            Terminal::I64,
            Terminal::DoubleWord,
            Terminal::StringWord,
            Terminal::Binary,
            Terminal::Uuid,
            Terminal::Identifier,
            Terminal::Map,
            Terminal::Set,
            Terminal::List,
        ])
    }

    #[tactic(auto, unfolding(crate::specs::Fields::field_id))]
    fn field_id(&mut self) -> Result<Option<Int>, Stop>
        ensures { Parses field_id (maybe_node int_node) self.old self.new result }
    {
        if !self.is_next(Terminal::Int) {
            return Ok(None);
        }
        let id = self.int()?;
        let behind = self.sign(Terminal::Colon);
        kept(Some(id), behind)
    }

    #[tactic(auto, unfolding(crate::specs::Fields::field_need))]
    fn field_need(&mut self) -> Result<Need, Stop>
        ensures { Parses field_need need_node self.old self.new result }
    {
        if self.is_next(Terminal::Required) {
            return kept(Need::Required, self.flag(Terminal::Required));
        }
        if self.is_next(Terminal::Optional) {
            return kept(Need::Optional, self.flag(Terminal::Optional));
        }
        Ok(Need::Default)
    }

    #[tactic(auto, unfolding(crate::specs::Fields::field_default))]
    fn field_default(&mut self) -> Result<Option<ConstTree>, Stop>
        ensures { Parses (field_default deepest) (maybe_node value_node) self.old self.new result }
    {
        if self.is_next(Terminal::Equals) {
            return Ok(Some(self.assigned()?));
        }
        Ok(None)
    }

    /// A default or none, and what stands behind a field.
    fn ended_default(&mut self) -> Result<Option<ConstTree>, Stop>
        ensures { Parses (chain left_tree (field_default deepest) field_ending) (maybe_node value_node) self.old self.new result }
    {
        let default = self.field_default()?;
        let behind = self.field_ending();
        kept(default, behind)
    }

    /// A field's name, and its default or none.
    fn named_field(&mut self) -> Result<(Name, Option<ConstTree>), Stop>
        ensures { Parses (chain pair identifier (chain left_tree (field_default deepest) field_ending)) (λ p. pair (name_node p.0) (maybe_node value_node p.1)) self.old self.new result }
    {
        let name = self.name()?;
        let behind = self.ended_default();
        joined(name, behind)
    }

    #[tactic(auto, unfolding(crate::specs::Fields::field, crate::specs::Trees::field_node))]
    fn field(&mut self) -> Result<Field, Stop>
        ensures { Parses (field deepest) field_node self.old self.new result }
    {
        let at = self.place();
        let id = self.field_id()?;
        let need = self.field_need()?;
        let kind = self.type_tree(deepest())?;
        let behind = self.named_field();
        let (kind, (name, default)) = joined(kind, behind)?;
        Ok(Field {
            at,
            id,
            need,
            kind,
            name,
            default,
        })
    }

    /// Fields, up to a symbol with which none begins.
    #[tactic(auto, unfolding(crate::specs::Fields::fields))]
    pub(crate) fn fields(&mut self) -> Result<Vec<Field>, Stop>
        ensures { Parses (fields deepest) (λ v. fields_node v.items) self.old self.new result }
    {
        let mut all = Vec::new(self.alloc());
        'row: for _round in 0..MAX_SYMBOLS {
            if !self.begins_field() {
                return Ok(all);
            }
            let item = self.field();
            put_read(&mut all, item)?;
        }
        Ok(all)
    }
}
