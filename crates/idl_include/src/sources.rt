//! The files of a program in memory.

ghost use Rattle.std.specs.Prelude.{◌≡◌};
ghost use Rattle.idl_include.specs.SourcesOf.{sources_in};

use idl_parser::Document;
use lists::ByteText;

/// A file of a program.
pub struct IdlFile {
    /// Its name.
    pub name: ByteText,
    /// Its base name: the last segment of its name without `.thrift`.
    pub base: ByteText,
    /// Its document.
    pub document: Document,
    /// The numbers of the files that its includes mean, one for each include, in order.
    pub includes: Vec<u32>,
}

// Written out, as that of the sources is, so that crates above needn't prove it again.
impl Drop for IdlFile {
    fn drop(self) {
        let IdlFile {
            name,
            base,
            document,
            includes,
        } = self;
        drop(name);
        drop(base);
        drop(document);
        drop(includes);
    }
}

/// The files of a program: the main file is number 0, and each has the number at which its loading began.
pub struct Sources {
    // The files by number.
    files: Vec<IdlFile>,
}

impl Drop for Sources {
    fn drop(self) {
        let Sources { files } = self;
        drop(files);
    }
}

impl Sources {
    /// The files by number.
    pub fn files(&self) -> &[IdlFile]
        ensures { result.now ≡ sources_in self.now }
    {
        self.files.as_slice()
    }

    /// The program of these files.
    pub(crate) fn new(files: Vec<IdlFile>) -> Self
        ensures { sources_in result ≡ files.items }
    {
        Sources { files }
    }
}
