//! Definitions.
ghost use Rattle.std.specs.Prelude.{◌≡◌};
ghost use Rattle.idl_parser.specs.Phrases.{none, pair, chain, many, word};
ghost use Rattle.idl_parser.specs.Leaves.{sign, left_tree, right_tree};
ghost use Rattle.idl_parser.specs.Parts.{identifier, annotation};
ghost use Rattle.idl_parser.specs.Fields.{fields, field_ending};
ghost use Rattle.idl_parser.specs.Constants.{value_of};
ghost use Rattle.idl_parser.specs.Shapes.{starts_in, first};
ghost use Rattle.idl_parser.specs.Starts.{entry_starts, function_starts};
ghost use Rattle.idl_parser.specs.Definitions.{constant, typedef, enum_number, enum_value, closing, enumeration, struct_word, structure, fields_in_parentheses, oneway, result_type, throws, function, parent, service, bare_definition, definition};
ghost use Rattle.idl_parser.specs.Trees.{maybe_node, int_node, name_node, value_node, fields_node, oneway_node, result_node, function_node, functions_node, const_node, typedef_node, enum_value_node, enum_values_node, enum_node, struct_word_of, struct_node, service_node, definition_node};
ghost use Rattle.idl_parser.specs.ReaderCalls.{Parses};
ghost use Rattle.idl_parser.specs.Documents.{deepest};

use crate::reader::{MAX_SYMBOLS, Stop, SymbolReader, deepest, joined, kept, put_read};
use crate::tree::{
    Const, ConstTree, Definition, Enum, EnumValue, Field, Function, Int, Name, Service, Struct,
    StructKind, TypeTree, Typedef,
};
use idl_token::{Place, Terminal};

impl<'a> SymbolReader<'a> {
    /// A name, `=` and a value.
    fn named_value(&mut self) -> Result<(Name, ConstTree), Stop>
        ensures { Parses (chain pair identifier (chain right_tree (sign Terminal.Equals) (value_of deepest))) (λ p. pair (name_node p.0) (value_node p.1)) self.old self.new result }
    {
        let name = self.name()?;
        let value = self.assigned();
        joined(name, value)
    }

    #[tactic(auto, unfolding(crate::specs::Definitions::constant_rest, crate::specs::Trees::const_node, crate::specs::Trees::definition_node))]
    fn constant(&mut self) -> Result<Definition, Stop>
        ensures { Parses (constant deepest) definition_node self.old self.new result }
    {
        let at = self.word(Terminal::Const)?;
        let kind = self.type_tree(deepest())?;
        let behind = self.named_value();
        let (kind, (name, value)) = joined(kind, behind)?;
        Ok(Definition::Const(Const {
            at,
            kind,
            name,
            value,
        }))
    }

    #[tactic(auto, unfolding(crate::specs::Definitions::typedef_rest, crate::specs::Trees::typedef_node, crate::specs::Trees::definition_node))]
    fn typedef(&mut self) -> Result<Definition, Stop>
        ensures { Parses (typedef deepest) definition_node self.old self.new result }
    {
        let at = self.word(Terminal::Typedef)?;
        let kind = self.type_tree(deepest())?;
        let behind = self.annotated_name();
        let (kind, name) = joined(kind, behind)?;
        Ok(Definition::Typedef(Typedef { at, kind, name }))
    }

    /// A name, and an annotation or none.
    fn annotated_name(&mut self) -> Result<Name, Stop>
        ensures { Parses (chain left_tree identifier annotation) name_node self.old self.new result }
    {
        let name = self.name()?;
        let behind = self.annotation();
        kept(name, behind)
    }

    #[tactic(auto, unfolding(crate::specs::Definitions::enum_number))]
    fn enum_number(&mut self) -> Result<Option<Int>, Stop>
        ensures { Parses enum_number (maybe_node int_node) self.old self.new result }
    {
        if self.is_next(Terminal::Equals) {
            self.sign(Terminal::Equals)?;
            let number = self.int()?;
            return Ok(Some(number));
        }
        Ok(None)
    }

    #[tactic(auto, unfolding(crate::specs::Definitions::enum_value, crate::specs::Trees::enum_value_node))]
    fn enum_value(&mut self) -> Result<EnumValue, Stop>
        ensures { Parses enum_value enum_value_node self.old self.new result }
    {
        let name = self.name()?;
        let number = self.enum_number()?;
        let behind = self.field_ending();
        kept(EnumValue { name, number }, behind)
    }

    fn begins_name(&self) -> bool
        ensures { result ≡ starts_in entry_starts self.now }
    {
        self.is_next(Terminal::Identifier)
    }

    fn enum_values(&mut self) -> Result<Vec<EnumValue>, Stop>
        ensures { Parses (many pair enum_value) (λ v. enum_values_node v.items) self.old self.new result }
    {
        let mut all = Vec::new(self.alloc());
        'row: for _round in 0..MAX_SYMBOLS {
            if !self.begins_name() {
                return Ok(all);
            }
            let item = self.enum_value();
            put_read(&mut all, item)?;
        }
        Ok(all)
    }

    /// A closing brace, and an annotation or none.
    #[tactic(auto, unfolding(crate::specs::Definitions::closing))]
    fn closing(&mut self) -> Result<(), Stop>
        ensures { Parses closing (λ _. none) self.old self.new result }
    {
        self.sign(Terminal::CloseBrace)?;
        self.annotation()
    }

    /// The values of an enum in braces, and what stands behind them.
    fn enum_body(&mut self) -> Result<Vec<EnumValue>, Stop>
        ensures { Parses (chain right_tree (sign Terminal.OpenBrace) (chain left_tree (many pair enum_value) closing)) (λ v. enum_values_node v.items) self.old self.new result }
    {
        self.sign(Terminal::OpenBrace)?;
        let values = self.enum_values()?;
        let behind = self.closing();
        kept(values, behind)
    }

    #[tactic(auto, unfolding(crate::specs::Definitions::enum_rest, crate::specs::Trees::enum_node, crate::specs::Trees::definition_node))]
    fn enumeration(&mut self) -> Result<Definition, Stop>
        ensures { Parses enumeration definition_node self.old self.new result }
    {
        let at = self.word(Terminal::Enum)?;
        let name = self.name()?;
        let behind = self.enum_body();
        let (name, values) = joined(name, behind)?;
        Ok(Definition::Enum(Enum { at, name, values }))
    }

    #[tactic(auto, unfolding(crate::specs::Definitions::struct_word))]
    fn struct_word(&mut self) -> Result<(Place, StructKind), Stop>
        ensures { Parses struct_word (λ w. word (struct_word_of w.1) w.0) self.old self.new result }
    {
        if self.is_next(Terminal::Struct) {
            return Ok((self.word(Terminal::Struct)?, StructKind::Struct));
        }
        if self.is_next(Terminal::Union) {
            return Ok((self.word(Terminal::Union)?, StructKind::Union));
        }
        Ok((self.word(Terminal::Exception)?, StructKind::Exception))
    }

    /// The fields of a struct in braces, and what stands behind them.
    fn struct_body(&mut self) -> Result<Vec<Field>, Stop>
        ensures { Parses (chain right_tree (sign Terminal.OpenBrace) (chain left_tree (fields deepest) closing)) (λ v. fields_node v.items) self.old self.new result }
    {
        self.sign(Terminal::OpenBrace)?;
        let fields = self.fields()?;
        let behind = self.closing();
        kept(fields, behind)
    }

    #[tactic(auto, unfolding(crate::specs::Definitions::struct_rest, crate::specs::Trees::struct_node, crate::specs::Trees::definition_node))]
    fn structure(&mut self) -> Result<Definition, Stop>
        ensures { Parses (structure deepest) definition_node self.old self.new result }
    {
        let (at, kind) = self.struct_word()?;
        let name = self.name()?;
        let behind = self.struct_body();
        let (name, fields) = joined(name, behind)?;
        Ok(Definition::Struct(Struct {
            at,
            kind,
            name,
            fields,
        }))
    }

    #[tactic(auto, unfolding(crate::specs::Definitions::fields_in_parentheses))]
    fn fields_in_parentheses(&mut self) -> Result<Vec<Field>, Stop>
        ensures { Parses (fields_in_parentheses deepest) (λ v. fields_node v.items) self.old self.new result }
    {
        self.sign(Terminal::OpenParen)?;
        let fields = self.fields()?;
        let behind = self.sign(Terminal::CloseParen);
        kept(fields, behind)
    }

    #[tactic(auto, unfolding(crate::specs::Definitions::oneway))]
    fn oneway(&mut self) -> Result<bool, Stop>
        ensures { Parses oneway oneway_node self.old self.new result }
    {
        if self.is_next(Terminal::Oneway) {
            return kept(true, self.flag(Terminal::Oneway));
        }
        Ok(false)
    }

    #[tactic(auto, unfolding(crate::specs::Definitions::result_type))]
    fn result_type(&mut self) -> Result<Option<TypeTree>, Stop>
        ensures { Parses (result_type deepest) result_node self.old self.new result }
    {
        if self.is_next(Terminal::Void) {
            return kept(None, self.flag(Terminal::Void));
        }
        let kind = self.type_tree(deepest())?;
        Ok(Some(kind))
    }

    #[tactic(auto, unfolding(crate::specs::Definitions::throws))]
    fn throws(&mut self) -> Result<Option<Vec<Field>>, Stop>
        ensures { Parses (throws deepest) (maybe_node (λ v. fields_node v.items)) self.old self.new result }
    {
        if self.is_next(Terminal::Throws) {
            self.sign(Terminal::Throws)?;
            let fields = self.fields_in_parentheses()?;
            return Ok(Some(fields));
        }
        Ok(None)
    }

    /// What a function throws, and what stands behind it.
    fn ending(&mut self) -> Result<Option<Vec<Field>>, Stop>
        ensures { Parses (chain left_tree (throws deepest) field_ending) (maybe_node (λ v. fields_node v.items)) self.old self.new result }
    {
        let throws = self.throws()?;
        let behind = self.field_ending();
        kept(throws, behind)
    }

    /// What a function takes, and what it throws.
    fn arguments(&mut self) -> Result<(Vec<Field>, Option<Vec<Field>>), Stop>
        ensures { Parses (chain pair (fields_in_parentheses deepest) (chain left_tree (throws deepest) field_ending)) (λ p. pair (fields_node p.0.items) (maybe_node (λ v. fields_node v.items) p.1)) self.old self.new result }
    {
        let arguments = self.fields_in_parentheses()?;
        let behind = self.ending();
        joined(arguments, behind)
    }

    /// A function's name, and what stands behind it.
    fn signature(&mut self) -> Result<(Name, (Vec<Field>, Option<Vec<Field>>)), Stop>
        ensures { Parses (chain pair identifier (chain pair (fields_in_parentheses deepest) (chain left_tree (throws deepest) field_ending))) (λ p. pair (name_node p.0) (pair (fields_node p.1.0.items) (maybe_node (λ v. fields_node v.items) p.1.1))) self.old self.new result }
    {
        let name = self.name()?;
        let behind = self.arguments();
        joined(name, behind)
    }

    #[tactic(auto, unfolding(crate::specs::Definitions::function, crate::specs::Trees::function_node))]
    fn function(&mut self) -> Result<Function, Stop>
        ensures { Parses (function deepest) function_node self.old self.new result }
    {
        let at = self.place();
        let oneway = self.oneway()?;
        let result = self.result_type()?;
        let behind = self.signature();
        let (result, (name, (arguments, throws))) = joined(result, behind)?;
        Ok(Function {
            at,
            oneway,
            result,
            name,
            arguments,
            throws,
        })
    }

    fn begins_function(&self) -> bool
        ensures { result ≡ starts_in function_starts self.now }
    {
        self.starts(&[
            Terminal::Oneway,
            Terminal::Void,
            Terminal::Bool,
            Terminal::Byte,
            Terminal::I8,
            Terminal::I16,
            Terminal::I32,
            Terminal::I64,
            Terminal::DoubleWord,
            Terminal::StringWord,
            Terminal::Binary,
            Terminal::Uuid,
            Terminal::Identifier,
            Terminal::Map,
            Terminal::Set,
            Terminal::List,
        ])
    }

    fn functions(&mut self) -> Result<Vec<Function>, Stop>
        ensures { Parses (many pair (function deepest)) (λ v. functions_node v.items) self.old self.new result }
    {
        let mut all = Vec::new(self.alloc());
        'row: for _round in 0..MAX_SYMBOLS {
            if !self.begins_function() {
                return Ok(all);
            }
            let item = self.function();
            put_read(&mut all, item)?;
        }
        Ok(all)
    }

    #[tactic(auto, unfolding(crate::specs::Definitions::parent))]
    fn parent(&mut self) -> Result<Option<Name>, Stop>
        ensures { Parses parent (maybe_node name_node) self.old self.new result }
    {
        if self.is_next(Terminal::Extends) {
            self.sign(Terminal::Extends)?;
            let name = self.name()?;
            return Ok(Some(name));
        }
        Ok(None)
    }

    /// The functions of a service in braces, and what stands behind them.
    fn service_body(&mut self) -> Result<Vec<Function>, Stop>
        ensures { Parses (chain right_tree (sign Terminal.OpenBrace) (chain left_tree (many pair (function deepest)) closing)) (λ v. functions_node v.items) self.old self.new result }
    {
        self.sign(Terminal::OpenBrace)?;
        let functions = self.functions()?;
        let behind = self.closing();
        kept(functions, behind)
    }

    /// A service's parent or none, and its functions.
    fn inherited(&mut self) -> Result<(Option<Name>, Vec<Function>), Stop>
        ensures { Parses (chain pair parent (chain right_tree (sign Terminal.OpenBrace) (chain left_tree (many pair (function deepest)) closing))) (λ p. pair (maybe_node name_node p.0) (functions_node p.1.items)) self.old self.new result }
    {
        let parent = self.parent()?;
        let behind = self.service_body();
        joined(parent, behind)
    }

    #[tactic(auto, unfolding(crate::specs::Definitions::service_rest, crate::specs::Trees::service_node, crate::specs::Trees::definition_node))]
    fn service(&mut self) -> Result<Definition, Stop>
        ensures { Parses (service deepest) definition_node self.old self.new result }
    {
        let at = self.word(Terminal::Service)?;
        let name = self.name()?;
        let behind = self.inherited();
        let (name, (parent, functions)) = joined(name, behind)?;
        Ok(Definition::Service(Service {
            at,
            name,
            parent,
            functions,
        }))
    }

    #[tactic(auto, unfolding(crate::specs::Definitions::struct_word))]
    fn begins_struct(&self) -> bool
        ensures { result ≡ starts_in (first (structure deepest)) self.now }
    {
        self.starts(&[Terminal::Struct, Terminal::Union, Terminal::Exception])
    }

    #[tactic(auto, unfolding(crate::specs::Definitions::bare_definition))]
    fn bare_definition(&mut self) -> Result<Definition, Stop>
        ensures { Parses (bare_definition deepest) definition_node self.old self.new result }
    {
        if self.is_next(Terminal::Const) {
            return self.constant();
        }
        if self.is_next(Terminal::Typedef) {
            return self.typedef();
        }
        if self.is_next(Terminal::Enum) {
            return self.enumeration();
        }
        if self.begins_struct() {
            return self.structure();
        }
        self.service()
    }

    /// A definition, and a separator or none.
    #[tactic(auto, unfolding(crate::specs::Definitions::definition))]
    pub(crate) fn definition(&mut self) -> Result<Definition, Stop>
        ensures { Parses (definition deepest) definition_node self.old self.new result }
    {
        let bare = self.bare_definition()?;
        let behind = self.separator();
        kept(bare, behind)
    }
}
