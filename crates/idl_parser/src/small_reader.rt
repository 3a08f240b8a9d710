//! Separators, annotations and what else is left out.
ghost use Rattle.std.specs.Prelude.{◌≡◌};
ghost use Rattle.idl_parser.specs.Phrases.{Node, none, many};
ghost use Rattle.idl_parser.specs.Leaves.{neither};
ghost use Rattle.idl_parser.specs.Parts.{separator, annotation_value, annotation_entry, annotation};
ghost use Rattle.idl_parser.specs.Types.{cpp_type};
ghost use Rattle.idl_parser.specs.Fields.{field_ending};
ghost use Rattle.idl_parser.specs.ReaderCalls.{Parses};

use crate::reader::{MAX_SYMBOLS, Stop, SymbolReader};
use idl_token::Terminal;

impl<'a> SymbolReader<'a> {
    /// A separator, or none.
    #[tactic(auto, unfolding(crate::specs::Parts::separator))]
    pub(crate) fn separator(&mut self) -> Result<(), Stop>
        ensures { Parses separator (λ _. none) self.old self.new result }
    {
        if self.is_next(Terminal::Comma) {
            return self.sign(Terminal::Comma);
        }
        if self.is_next(Terminal::Semicolon) {
            return self.sign(Terminal::Semicolon);
        }
        Ok(())
    }

    #[tactic(auto, unfolding(crate::specs::Parts::annotation_value))]
    fn annotation_value(&mut self) -> Result<(), Stop>
        ensures { Parses annotation_value (λ _. none) self.old self.new result }
    {
        if self.is_next(Terminal::Equals) {
            self.sign(Terminal::Equals)?;
            return self.sign(Terminal::Literal);
        }
        Ok(())
    }

    #[tactic(auto, unfolding(crate::specs::Parts::annotation_entry))]
    fn annotation_entry(&mut self) -> Result<(), Stop>
        ensures { Parses annotation_entry (λ _. none) self.old self.new result }
    {
        self.sign(Terminal::Identifier)?;
        self.annotation_value()?;
        self.separator()
    }

    fn annotation_entries(&mut self) -> Result<(), Stop>
        ensures { Parses (many neither annotation_entry) (λ _. none) self.old self.new result }
    {
        'entries: for _round in 0..MAX_SYMBOLS {
            if !self.is_next(Terminal::Identifier) {
                return Ok(());
            }
            self.annotation_entry()?;
        }
        Ok(())
    }

    /// An annotation, or none.
    #[tactic(auto, unfolding(crate::specs::Parts::annotation))]
    pub(crate) fn annotation(&mut self) -> Result<(), Stop>
        ensures { Parses annotation (λ _. none) self.old self.new result }
    {
        if self.is_next(Terminal::OpenParen) {
            self.sign(Terminal::OpenParen)?;
            self.annotation_entries()?;
            return self.sign(Terminal::CloseParen);
        }
        Ok(())
    }

    /// The word `cpp_type` with its literal, or nothing.
    #[tactic(auto, unfolding(crate::specs::Types::cpp_type))]
    pub(crate) fn cpp_type(&mut self) -> Result<(), Stop>
        ensures { Parses cpp_type (λ _. none) self.old self.new result }
    {
        if self.is_next(Terminal::CppType) {
            self.sign(Terminal::CppType)?;
            return self.sign(Terminal::Literal);
        }
        Ok(())
    }

    /// An annotation or none, and a separator or none.
    #[tactic(auto, unfolding(crate::specs::Fields::field_ending))]
    pub(crate) fn field_ending(&mut self) -> Result<(), Stop>
        ensures { Parses field_ending (λ _. none) self.old self.new result }
    {
        self.annotation()?;
        self.separator()
    }
}
