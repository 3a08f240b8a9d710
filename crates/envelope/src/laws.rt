//! What holds of all heads.
ghost use Rattle.std.specs.Prelude.{◌≡◌, ◌++◌, ℕ, List, [], Ok, length};
ghost use Rattle.envelope.specs.Said.{Said, FitsHead, IsCall, IsReply};
ghost use Rattle.envelope.specs.Spelling.{IsSpelling, head_text};
ghost use Rattle.envelope.specs.Readout.{head_at, reply_head_at};

use super::head::Protocol;

/// What is written is a spelling of the head, of any type.
pub fn written_heads_are_spelled()
    ensures { (p : Protocol) (said : Said) → FitsHead p said → IsSpelling p said (head_text p said) }
{}

/// What was written of a call is read back as it is, whatever follows.
pub fn heads_are_read_back()
    ensures { (p : Protocol) (said : Said) (more : List ℕ) → FitsHead p said → IsCall said.kind
        → head_at p (head_text p said ++ more)
        ≡ Ok (record { name = said.name; kind = said.kind; id = said.id; behind = length (head_text p said) }) }
{}

/// What was written of an answer is read back as it is, whatever follows.
pub fn reply_heads_are_read_back()
    ensures { (p : Protocol) (said : Said) (more : List ℕ) → FitsHead p said → IsReply said.kind
        → reply_head_at p (head_text p said ++ more)
        ≡ Ok (record { name = said.name; kind = said.kind; id = said.id; behind = length (head_text p said) }) }
{}

/// No head is the front of a longer one, and bytes spell one head at most.
pub fn no_head_is_a_prefix()
    ensures alone { (p : Protocol) (one other : Said) (text more : List ℕ)
        → IsSpelling p one text → IsSpelling p other (text ++ more) → more ≡ [] }
    ensures one { (p : Protocol) (one other : Said) (text : List ℕ)
        → IsSpelling p one text → IsSpelling p other text → one ≡ other }
{}
