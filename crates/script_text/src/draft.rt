//! What was read of a script so far.

ghost use Rattle.std.specs.Prelude.{◌≡◌, ◌++◌, ◌∷◌, [], ◌<◌, not, map, length, nat_le, max, slice_index_or, slice_set, false, true, Some, None, OnOk, IfOk, if◌then◌else◌};
ghost use Rattle.std.specs.List.{list_any};
ghost use Rattle.script_text.specs.declared.fault.ScriptKind.TheVariants.{NoConnection, AfterEnd, TooMany, NoWorker, Schedule, Rest};
ghost use Rattle.script_text.specs.LineForms.{runs, rules_so};
ghost use Rattle.script_text.specs.Reading.{most_connections, fault_of_line, over_behind, rules_opened, is_opening, with_rule, with_said, nothing_read, read_line};
ghost use Rattle.script_text.specs.Plans.{plain_line, plain_rule, plain_rules};
ghost use Rattle.script_text.specs.Drafts.{plain_said, so_far, answers_read};

use crate::fault::ScriptKind;
use crate::lines::{RuleList, ScriptLine, WriteRule};
use crate::words::{LineRead, read_said, says_nothing};
use limits::MOST_CONNECTIONS;
use std::alloc::{AllocError, Global};

/// What was read so far.
#[derive(Drop)]
pub(crate) struct Draft {
    /// The lines that aren't rules.
    pub lines: Vec<ScriptLine>,
    /// Each connection's rules.
    pub rules: Vec<RuleList>,
    /// For each connection, whether its input has ended or failed.
    pub over: Vec<bool>,
}

impl Draft {
    /// Nothing was read yet.
    pub fn new(alloc: Global) -> Draft
        ensures { so_far result ≡ nothing_read }
    {
        Draft {
            lines: Vec::new(alloc),
            rules: Vec::new(alloc),
            over: Vec::new(alloc),
        }
    }

    /// Reads a line, or tells its fault.
    pub fn read_line(
        &mut self,
        alloc: Global,
        line: &[u8],
        workers: u32,
        schedule: bool,
        rest: bool,
    ) -> Result<Result<(), ScriptKind>, AllocError>
        ensures { IfOk result (λ answer. answers_read answer (so_far self.new) ≡ read_line workers schedule rest (so_far self.old) line.now) }
    {
        if says_nothing(line) {
            return Ok(Ok(()));
        }
        let Some(said) = read_said(alloc, line)? else {
            return Ok(Err(ScriptKind::BadLine));
        };
        if let Some(kind) = fault_of_said(self.over.as_slice(), &said, workers, schedule, rest) {
            return Ok(Err(kind));
        }
        self.add(alloc, said)?;
        Ok(Ok(()))
    }

    /// Adds what a line says.
    fn add(&mut self, alloc: Global, said: LineRead) -> Result<(), AllocError>
        ensures { OnOk result (so_far self.new ≡ with_said (so_far self.old) (plain_said said)) }
    {
        match said {
            LineRead::Line(line) => self.add_line(alloc, line),
            LineRead::Rule(c, rule) => self.add_rule(c, rule),
        }
    }

    /// Adds a line that is no rule.
    fn add_line(&mut self, alloc: Global, line: ScriptLine) -> Result<(), AllocError>
        ensures { OnOk result (so_far self.new ≡ with_said (so_far self.old) (runs (plain_line line))) }
    {
        put_over(&mut self.over, &line)?;
        put_rules(alloc, &mut self.rules, &line)?;
        self.lines.push(line)?;
        Ok(())
    }

    /// Adds a rule.
    fn add_rule(&mut self, c: u32, rule: WriteRule) -> Result<(), AllocError>
        ensures { OnOk result (so_far self.new ≡ with_said (so_far self.old) (rules_so c (plain_rule rule))) }
    {
        put_rule(&mut self.rules, c as usize, rule)
    }
}

/// The connections' inputs after a line.
fn put_over(over: &mut Vec<bool>, line: &ScriptLine) -> Result<(), AllocError>
    ensures { OnOk result (over.new.items ≡ over_behind (plain_line line.now) over.old.items) }
{
    match line {
        ScriptLine::Opens => Ok(over.push(false)?),
        ScriptLine::Ends(c) => Ok(mark_over(over, *c as usize)),
        ScriptLine::FailsRead(c) => Ok(mark_over(over, *c as usize)),
        ScriptLine::Piece(_, _) => Ok(()),
        ScriptLine::Rest => Ok(()),
        ScriptLine::Loop(_) => Ok(()),
        ScriptLine::Work(_) => Ok(()),
        ScriptLine::Collect => Ok(()),
    }
}

/// The input of a connection is over.
fn mark_over(over: &mut Vec<bool>, c: usize)
    ensures { over.new.items ≡ slice_set over.old.items c true }
{
    if c < over.len() {
        over[c] = true;
    }
}

/// The connections' rules after a line that isn't one of them.
fn put_rules(alloc: Global, rules: &mut Vec<RuleList>, line: &ScriptLine) -> Result<(), AllocError>
    ensures { OnOk result (map plain_rules rules.new.items ≡ map plain_rules rules.old.items ++ rules_opened (plain_line line.now)) }
{
    if opens(line) {
        return Ok(rules.push(RuleList::new(Vec::new(alloc)))?);
    }
    Ok(())
}

/// Whether a line opens a connection.
pub(crate) fn opens(line: &ScriptLine) -> bool
    ensures { result ≡ is_opening (plain_line line.now) }
{
    match line {
        ScriptLine::Opens => true,
        ScriptLine::Piece(_, _) => false,
        ScriptLine::Ends(_) => false,
        ScriptLine::FailsRead(_) => false,
        ScriptLine::Rest => false,
        ScriptLine::Loop(_) => false,
        ScriptLine::Work(_) => false,
        ScriptLine::Collect => false,
    }
}

/// A connection has one rule more.
fn put_rule(rules: &mut Vec<RuleList>, c: usize, rule: WriteRule) -> Result<(), AllocError>
    ensures { OnOk result (map plain_rules rules.new.items ≡ with_rule c (plain_rule rule) (map plain_rules rules.old.items)) }
{
    if c < rules.len() {
        return rules[c].push(rule);
    }
    Ok(())
}

/// Whether the input of some connection has no end.
pub(crate) fn has_open_input(over: &[bool]) -> bool
    ensures { result ≡ list_any not over.now }
{
    over.iter().any(|over| !*over)
}

/// The first fault of what a line says.
fn fault_of_said(
    over: &[bool],
    said: &LineRead,
    workers: u32,
    schedule: bool,
    rest: bool,
) -> Option<ScriptKind>
    ensures { result ≡ fault_of_line workers schedule rest over.now (plain_said said.now) }
{
    match said {
        LineRead::Line(line) => fault_of_line(over, line, workers, schedule, rest),
        LineRead::Rule(c, _) => unopened(over, *c),
    }
}

/// The first fault of a line that is no rule.
fn fault_of_line(
    over: &[bool],
    line: &ScriptLine,
    workers: u32,
    schedule: bool,
    rest: bool,
) -> Option<ScriptKind>
    ensures { result ≡ fault_of_line workers schedule rest over.now (runs (plain_line line.now)) }
{
    match line {
        ScriptLine::Opens => one_too_many(over),
        ScriptLine::Piece(c, _) => behind_end(over, *c),
        ScriptLine::Ends(c) => behind_end(over, *c),
        ScriptLine::FailsRead(c) => behind_end(over, *c),
        ScriptLine::Rest => at_rest(rest),
        ScriptLine::Loop(c) => on_schedule(schedule, unopened(over, *c)),
        ScriptLine::Work(w) => on_schedule(schedule, no_worker(workers, *w)),
        ScriptLine::Collect => on_schedule(schedule, None),
    }
}

/// The fault of a line of a schedule, where one may be.
fn on_schedule(schedule: bool, fault: Option<ScriptKind>) -> Option<ScriptKind>
    ensures { result ≡ (if not schedule then Some Schedule else fault) }
{
    if !schedule {
        return Some(ScriptKind::Schedule);
    }
    fault
}

/// The fault of a `rest` line, where none may be.
fn at_rest(rest: bool) -> Option<ScriptKind>
    ensures { result ≡ (if not rest then Some Rest else None) }
{
    if !rest {
        return Some(ScriptKind::Rest);
    }
    None
}

/// The fault of a connection that isn't opened.
fn unopened(over: &[bool], c: u32) -> Option<ScriptKind>
    ensures { result ≡ (if nat_le (length over.now) c then Some NoConnection else None) }
{
    if over.len() <= c as usize {
        return Some(ScriptKind::NoConnection);
    }
    None
}

/// The fault of a piece or an end of a connection's input.
fn behind_end(over: &[bool], c: u32) -> Option<ScriptKind>
    ensures { result ≡ (if nat_le (length over.now) c then Some NoConnection else if slice_index_or over.now c false then Some AfterEnd else None) }
{
    let c = c as usize;
    if over.len() <= c {
        return Some(ScriptKind::NoConnection);
    }
    if over[c] {
        return Some(ScriptKind::AfterEnd);
    }
    None
}

/// The fault of a worker that there isn't.
fn no_worker(workers: u32, w: u32) -> Option<ScriptKind>
    ensures { result ≡ (if nat_le (max workers 1) w then Some NoWorker else None) }
{
    if workers.max(1) <= w {
        return Some(ScriptKind::NoWorker);
    }
    None
}

/// The fault of a connection too many.
fn one_too_many(over: &[bool]) -> Option<ScriptKind>
    ensures { result ≡ (if nat_le most_connections (length over.now) then Some TooMany else None) }
{
    if MOST_CONNECTIONS <= over.len() {
        return Some(ScriptKind::TooMany);
    }
    None
}
