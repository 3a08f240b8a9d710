//! What only files in memory show of loading: reads that fail by their numbers, and files at the root. The rest stands in rows/idl_loading.rows.

use idl_include::{LoadFault, Sources, load};
use std::alloc::{AllocError, Global};
use std::test::Fail;
use streams::MemFiles;

/// A file's name and its text.
type Held = (&'static str, &'static str);

/// Files, the numbers of the reads that fail, and what loading comes to: the base names of the files in order, or the fault behind the name of its file.
const ROWS: [(&[Held], &[u64], &str); 8] = [
    // A read that fails, at the first file or the second, before what comes later.
    (
        &[
            ("a.thrift", "include 'b.thrift' include 'c.thrift'"),
            ("b.thrift", ""),
        ],
        &[1],
        "b.thrift, line 0, column 0: the file can't be read",
    ),
    (
        &[("a.thrift", "struct"), ("b.thrift", "")],
        &[1],
        "a.thrift, line 1, column 7: no document goes on with this",
    ),
    (
        &[
            ("a.thrift", "include 'b.thrift' include 'c.thrift'"),
            ("c.thrift", ""),
        ],
        &[2],
        "b.thrift, line 0, column 0: there is no such file",
    ),
    // The same file again, by the same name or another, is read once; files have the order in which loading began them.
    (
        &[
            (
                "a.thrift",
                "include 'b.thrift' include 'b.thrift' include './b.thrift' include 'x/../b.thrift'",
            ),
            ("b.thrift", ""),
        ],
        &[2],
        "a b ",
    ),
    (
        &[
            ("a.thrift", "include 'b.thrift' include 'c.thrift'"),
            ("b.thrift", "include 'd.thrift'"),
            ("c.thrift", "include 'd.thrift'"),
            ("d.thrift", ""),
        ],
        &[4],
        "a b d c ",
    ),
    // A name at the root is taken as it is.
    (
        &[("a.thrift", "include '/x/../b.thrift'"), ("/b.thrift", "")],
        &[],
        "/x/../b.thrift, line 0, column 0: there is no such file",
    ),
    (
        &[
            (
                "a.thrift",
                "include '/a.thrift.thrift' include '/x/a.thrift'",
            ),
            ("/a.thrift.thrift", ""),
        ],
        &[],
        "a.thrift, line 1, column 36: another file has this base name",
    ),
    (
        &[
            ("a.thrift", "include 'x/b.thrift'"),
            ("x/b.thrift", "include '../y/c.c.thrift'"),
            ("y/c.c.thrift", "include '/d'"),
            ("/d", ""),
        ],
        &[],
        "a b c.c d ",
    ),
];

/// A file in memory.
fn held_file(alloc: Global, name: &str, text: &str) -> Result<(String, Vec<u8>), AllocError> {
    let text = text.as_bytes().to_vec(alloc)?;
    Ok((String::from_str(alloc, name)?, text))
}

/// These files in memory, of which the reads of these numbers fail.
fn in_memory(alloc: Global, held: &[(&str, &str)], fails: &[u64]) -> Result<MemFiles, AllocError> {
    let mut files = Vec::new(alloc);
    for (name, text) in held {
        files.push(held_file(alloc, name, text)?)?;
    }
    Ok(MemFiles::new(files, fails.to_vec(alloc)?))
}

/// The base names of the files in order.
fn bases(alloc: Global, sources: &Sources) -> Result<Vec<u8>, AllocError> {
    let mut told = Vec::new(alloc);
    for file in sources.files() {
        told.extend_from_slice(file.base.as_slice())?;
        told.push(b' ')?;
    }
    Ok(told)
}

/// The fault behind the name of its file.
fn fault_text(alloc: Global, fault: &LoadFault) -> Result<Vec<u8>, AllocError> {
    let text = format!(in alloc; ", {fault}")?;
    let mut told = fault.file.as_slice().to_vec(alloc)?;
    told.extend_from_slice(text.as_bytes())?;
    Ok(told)
}

/// What loading came to.
fn outcome(alloc: Global, loaded: &Result<Sources, LoadFault>) -> Result<Vec<u8>, AllocError> {
    match loaded {
        Ok(sources) => bases(alloc, sources),
        Err(fault) => fault_text(alloc, fault),
    }
}

/// Whether loading these files comes to this.
fn comes_to(alloc: Global, held: &[Held], fails: &[u64], wanted: &str) -> Result<bool, AllocError> {
    let mut files = in_memory(alloc, held, fails)?;
    let found = outcome(alloc, &load(alloc, &mut files, "a.thrift"))?;
    Ok(found.as_slice() == wanted.as_bytes())
}

#[test]
fn files_are_loaded_in_order(rt: HostRuntime) -> Result<(), Fail> {
    for (held, fails, wanted) in &ROWS {
        assert!(rt; comes_to(rt.alloc(), held, fails, wanted)?, "{wanted}");
    }
    Ok(())
}
