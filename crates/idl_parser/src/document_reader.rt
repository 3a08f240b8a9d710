//! Documents.
ghost use Rattle.std.specs.Prelude.{◌≡◌, ◌++◌, MatchResult};
ghost use Rattle.idl_parser.specs.Phrases.{none, pair, many};
ghost use Rattle.idl_parser.specs.Shapes.{starts_in};
ghost use Rattle.idl_parser.specs.Starts.{definition_starts, header_starts};
ghost use Rattle.idl_parser.specs.Definitions.{definition};
ghost use Rattle.idl_parser.specs.Documents.{include, cpp_include, namespace, header, with_header, deepest, document};
ghost use Rattle.idl_parser.specs.Trees.{include_node, includes_node, definitions_node, header_node, document_node};
ghost use Rattle.idl_parser.specs.Reading.{read, whole, done};
ghost use Rattle.idl_parser.specs.ReaderCalls.{Parses, StopsAt, most};
ghost use Rattle.idl_parser.specs.Trees.{some_of};

use crate::reader::{MAX_SYMBOLS, Stop, SymbolReader, kept, put, put_read};
use crate::tree::{Definition, Document, Include};
use idl_token::Terminal;

impl<'a> SymbolReader<'a> {
    #[tactic(auto, unfolding(crate::specs::Trees::include_node))]
    fn include(&mut self) -> Result<Include, Stop>
        ensures { Parses include include_node self.old self.new result }
    {
        let at = self.word(Terminal::Include)?;
        let file = self.literal()?;
        Ok(Include { at, file })
    }

    fn cpp_include(&mut self) -> Result<(), Stop>
        ensures { Parses cpp_include (λ _. none) self.old self.new result }
    {
        self.sign(Terminal::CppInclude)?;
        self.sign(Terminal::Literal)
    }

    #[tactic(auto, unfolding(crate::specs::Documents::namespace_rest))]
    fn namespace(&mut self) -> Result<(), Stop>
        ensures { Parses namespace (λ _. none) self.old self.new result }
    {
        self.sign(Terminal::Namespace)?;
        if self.is_next(Terminal::Identifier) {
            self.sign(Terminal::Identifier)?;
            self.sign(Terminal::Identifier)?;
            return self.annotation();
        }
        self.sign(Terminal::Star)?;
        self.sign(Terminal::Identifier)?;
        self.annotation()
    }

    /// A header: an include, or nothing of one that is left out.
    #[tactic(auto, unfolding(crate::specs::Documents::header))]
    fn header(&mut self) -> Result<Option<Include>, Stop>
        ensures { Parses header header_node self.old self.new result }
    {
        if self.is_next(Terminal::Include) {
            return Ok(Some(self.include()?));
        }
        if self.is_next(Terminal::CppInclude) {
            return kept(None, self.cpp_include());
        }
        kept(None, self.namespace())
    }

    fn begins_header(&self) -> bool
        ensures { result ≡ starts_in header_starts self.now }
    {
        self.starts(&[Terminal::Include, Terminal::CppInclude, Terminal::Namespace])
    }

    fn headers(&mut self) -> Result<Vec<Include>, Stop>
        ensures { Parses (many with_header header) (λ v. includes_node v.items) self.old self.new result }
    {
        let mut all = Vec::new(self.alloc());
        'row: for _round in 0..MAX_SYMBOLS {
            if !self.begins_header() {
                return Ok(all);
            }
            let item = self.header()?;
            put_some(&mut all, item)?;
        }
        Ok(all)
    }

    fn begins_definition(&self) -> bool
        ensures { result ≡ starts_in definition_starts self.now }
    {
        self.starts(&[
            Terminal::Const,
            Terminal::Typedef,
            Terminal::Enum,
            Terminal::Struct,
            Terminal::Union,
            Terminal::Exception,
            Terminal::Service,
        ])
    }

    fn definitions(&mut self) -> Result<Vec<Definition>, Stop>
        ensures { Parses (many pair (definition deepest)) (λ v. definitions_node v.items) self.old self.new result }
    {
        let mut all = Vec::new(self.alloc());
        'row: for _round in 0..MAX_SYMBOLS {
            if !self.begins_definition() {
                return Ok(all);
            }
            let item = self.definition();
            put_read(&mut all, item)?;
        }
        Ok(all)
    }

    /// Headers and then definitions, as far as they go.
    #[tactic(auto, unfolding(crate::specs::Documents::document, crate::specs::Trees::document_node))]
    pub(crate) fn document(&mut self) -> Result<Document, Stop>
        ensures { Parses (document deepest) document_node self.old self.new result }
    {
        let includes = self.headers()?;
        let definitions = self.definitions()?;
        Ok(Document {
            includes,
            definitions,
        })
    }
}

/// Adds what is there to a list.
fn put_some(all: &mut Vec<Include>, item: Option<Include>) -> Result<(), Stop>
    ensures { MatchResult result (λ _. all.new.items ≡ all.old.items ++ some_of item) (λ e. e ≡ Stop.NoMemory) }
{
    match item {
        Some(include) => put(all, include),
        None => Ok(()),
    }
}

impl<'a> SymbolReader<'a> {
    /// A whole document.
    pub(crate) fn whole_document(&mut self) -> Result<Document, Stop>
        ensures { MatchResult result (λ d. whole (read most (document deepest) self.old) ≡ done (document_node d) self.new) (λ e. StopsAt e (whole (read most (document deepest) self.old)) self.new) }
    {
        match self.document() {
            Ok(document) => {
                if self.is_at_end() {
                    Ok(document)
                } else {
                    Err(Stop::Stuck)
                }
            }
            Err(stop) => Err(stop),
        }
    }
}
