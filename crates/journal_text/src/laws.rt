//! What holds of the lines of entries.

ghost use Rattle.std.specs.Prelude.{◌≡◌, ◌≤◌, ℕ, List, length, Ok};
ghost use Rattle.script_model.specs.Telling.{TellsConnections};
ghost use Rattle.call_rules.specs.Entries.{CallEntry};
ghost use Rattle.call_rules.specs.PlainCalls.{IsPlainCall};
ghost use Rattle.journal_text.specs.EntryReading.{line_front};
ghost use Rattle.journal_text.specs.EntryText.{entry_text, call_line};
ghost use Rattle.journal_text.specs.LineOf.{HasEntryLine, IsLineOf};
ghost use Rattle.journal_text.specs.Lines.{IsEntryText};

/// An entry's text is one line, and its first word tells whether the call gets a reply.
pub fn each_entry_is_one_line()
    ensures { (e : CallEntry) → IsPlainCall e.call → IsEntryText e (entry_text e) }
{}

/// An entry can be told from its line.
pub fn lines_tell_entries()
    // No two entries have one line.
    ensures one { (x y : CallEntry) → HasEntryLine x → HasEntryLine y → call_line x ≡ call_line y → x ≡ y }
    // Its line is read as the entry.
    ensures again { (most : ℕ) (e : CallEntry) → length (call_line e) ≤ most → HasEntryLine e → line_front most (call_line e) ≡ Ok e }
    // What is read as an entry is its line.
    ensures found { (most : ℕ) (line : List ℕ) (e : CallEntry) → line_front most line ≡ Ok e → IsLineOf line e }
{}

/// An entry's connection can be told from its text, whatever was asked and answered.
pub fn lines_tell_connections()
    ensures { TellsConnections entry_text }
{}
