//! Scripts, printed.

ghost use Rattle.std.specs.Prelude.{◌≡◌, ◌+◌, ◌^◌, ◌<◌, ◌++◌, ◌∷◌, [], ℕ, List, map, slice_index_or, IfOk, OnOk};
ghost use Rattle.std.specs.List.{flat_map};
ghost use Rattle.text_out.specs.Decimal.{natural_of};
ghost use Rattle.text_out.specs.Line.{line_of};
ghost use Rattle.script_model.specs.ScriptLines.{one_if_opens, piece, takes_most};
ghost use Rattle.script_text.specs.TextLines.{space_byte};
ghost use Rattle.script_text.specs.LineForms.{rules_so};
ghost use Rattle.script_text.specs.Printing.{line_text, rule_text, line_said, with_its_rules, said_from, print_of};
ghost use Rattle.script_text.specs.Plans.{plain_line, plain_rule, plain_rules};

use crate::draft::opens;
use crate::lines::{RuleList, ScriptLine, WriteRule};
use crate::script::Script;
use std::alloc::{AllocError, Global};
use text_out::{decimal, hex};

/// The text of a script: its lines in order, each connection's rules right behind the line that opens it.
pub fn print_script(alloc: Global, script: &Script) -> Result<Vec<u8>, AllocError>
    ensures { IfOk result (λ text. text.items ≡ print_of script.now) }
{
    let mut text = Vec::new(alloc);
    put_lines(
        &mut text,
        script.lines().as_slice(),
        script.rules().as_slice(),
    )?;
    Ok(text)
}

/// Appends the lines, with the rules.
fn put_lines(into: &mut Vec<u8>, lines: &[ScriptLine], rules: &[RuleList]) -> Result<(), AllocError>
    ensures { OnOk result (into.new.items ≡ into.old.items ++ flat_map line_said (said_from 0 (map plain_rules rules.now) (map plain_line lines.now))) }
{
    let mut c: usize = 0;
    for line in lines {
        c = put_with_rules(into, line, c, rules)?;
    }
    Ok(())
}

/// Appends a line with the rules right behind it, and answers the number of the connection that the next line may open.
fn put_with_rules(
    into: &mut Vec<u8>,
    line: &ScriptLine,
    c: usize,
    rules: &[RuleList],
) -> Result<usize, AllocError>
    requires { c + 1 < 2 ^ 64 }
    ensures put { OnOk result (into.new.items ≡ into.old.items ++ flat_map line_said (with_its_rules c (map plain_rules rules.now) (plain_line line.now))) }
    ensures next { IfOk result (λ next. next ≡ c + one_if_opens (plain_line line.now)) }
{
    put_line(into, line)?;
    if !opens(line) {
        return Ok(c);
    }
    put_rules_of(into, c, rules)?;
    Ok(c + 1)
}

/// Appends the rules of a connection, where there is one.
fn put_rules_of(into: &mut Vec<u8>, c: usize, rules: &[RuleList]) -> Result<(), AllocError>
    ensures { OnOk result (into.new.items ≡ into.old.items ++ flat_map line_said (map (rules_so c) (slice_index_or (map plain_rules rules.now) c []))) }
{
    if c < rules.len() {
        return put_rules(into, c, rules[c].as_slice());
    }
    Ok(())
}

/// Appends the rules of a connection.
fn put_rules(into: &mut Vec<u8>, c: usize, rules: &[WriteRule]) -> Result<(), AllocError>
    ensures { OnOk result (into.new.items ≡ into.old.items ++ flat_map line_said (map (rules_so c) (plain_rules rules.now))) }
{
    for rule in rules {
        put_rule(into, c, *rule)?;
    }
    Ok(())
}

/// Appends a line that is no rule.
fn put_line(into: &mut Vec<u8>, line: &ScriptLine) -> Result<(), AllocError>
    ensures { OnOk result (into.new.items ≡ into.old.items ++ line_of (line_text (plain_line line.now))) }
{
    match line {
        ScriptLine::Opens => into.extend_from_slice(b"open\n"),
        ScriptLine::Piece(c, bytes) => put_piece(into, *c, bytes.as_slice()),
        ScriptLine::Ends(c) => put_numbered(into, b"end ", *c as usize),
        ScriptLine::FailsRead(c) => put_numbered(into, b"readfail ", *c as usize),
        ScriptLine::Rest => into.extend_from_slice(b"rest\n"),
        ScriptLine::Loop(c) => put_numbered(into, b"loop ", *c as usize),
        ScriptLine::Work(w) => put_numbered(into, b"work ", *w as usize),
        ScriptLine::Collect => into.extend_from_slice(b"collect\n"),
    }
}

/// Appends a rule.
fn put_rule(into: &mut Vec<u8>, c: usize, rule: WriteRule) -> Result<(), AllocError>
    ensures { OnOk result (into.new.items ≡ into.old.items ++ line_of (rule_text c (plain_rule rule))) }
{
    match rule {
        WriteRule::Takes(count) => put_takes(into, c, count),
        WriteRule::Block => put_numbered(into, b"block ", c),
        WriteRule::Fails => put_numbered(into, b"writefail ", c),
    }
}

/// Appends a word and a number.
fn put_numbered(into: &mut Vec<u8>, word: &[u8], n: usize) -> Result<(), AllocError>
    ensures { OnOk result (into.new.items ≡ into.old.items ++ line_of (word.now ++ natural_of n)) }
{
    into.extend_from_slice(word)?;
    decimal(into, n as i128)?;
    into.push(b'\n')?;
    Ok(())
}

/// Appends a piece.
fn put_piece(into: &mut Vec<u8>, c: u32, bytes: &[u8]) -> Result<(), AllocError>
    ensures { OnOk result (into.new.items ≡ into.old.items ++ line_of (line_text (piece c bytes.now))) }
{
    put_number_and_space(into, b"data ", c as usize)?;
    hex(into, bytes)?;
    into.push(b'\n')?;
    Ok(())
}

/// Appends the rule that a write takes at most so many bytes.
fn put_takes(into: &mut Vec<u8>, c: usize, count: u32) -> Result<(), AllocError>
    ensures { OnOk result (into.new.items ≡ into.old.items ++ line_of (rule_text c (takes_most count))) }
{
    put_number_and_space(into, b"write ", c)?;
    decimal(into, i128::from(count))?;
    into.push(b'\n')?;
    Ok(())
}

/// Appends a word, a number and a space.
fn put_number_and_space(into: &mut Vec<u8>, word: &[u8], n: usize) -> Result<(), AllocError>
    ensures { OnOk result (into.new.items ≡ into.old.items ++ (word.now ++ (natural_of n ++ space_byte ∷ []))) }
{
    into.extend_from_slice(word)?;
    decimal(into, n as i128)?;
    into.push(b' ')?;
    Ok(())
}
