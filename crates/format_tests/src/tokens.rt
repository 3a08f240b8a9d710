//! What `idl_token` tells of a text beside its tokens.

use idl_token::{LONGEST_IDL_TEXT, LexFault, LexKind, Place, keyword_of, keyword_text, place_at};
use std::alloc::{AllocError, Global};
use std::test::Fail;

/// Whether a fault says where it stands.
fn is_told(alloc: Global) -> Result<bool, AllocError> {
    let fault = LexFault {
        at: Place { line: 2, column: 7 },
        kind: LexKind::OpenComment,
    };
    let text = format!(in alloc; "{fault}")?;
    Ok(text.as_str() == "line 2, column 7: the comment isn't closed")
}

/// Whether the byte there, or the end, has this place.
fn is_at(text: &[u8], byte: usize, line: u32, column: u32) -> bool {
    text.len() <= LONGEST_IDL_TEXT
        && byte <= text.len()
        && place_at(text, byte) == Place { line, column }
}

/// Whether a text is the keyword of this text.
fn is_keyword(text: &[u8], word: &str) -> bool {
    match keyword_of(text) {
        Some(terminal) => keyword_text(terminal) == word,
        None => false,
    }
}

#[test]
fn faults_places_and_keywords_are_told(rt: HostRuntime) -> Result<(), Fail> {
    assert!(rt; is_told(rt.alloc())?);
    assert!(rt; is_at(b"a\r\n\tb", 2, 1, 3) && is_at(b"a\r\n\tb", 5, 2, 3));
    assert!(rt; is_keyword(b"cpp_type", "cpp_type") && keyword_of(b"cpp").is_none());
    Ok(())
}
