//! A script taken apart, for links to serve: its lines as steps, and for each connection its pieces and rules.

ghost use Rattle.std.specs.Prelude.{◌≡◌, ◌≤◌, ◌*◌, [], ◌∷◌, ◌++◌, length, map, replicate, IfOk, OnOk};
ghost use Rattle.std.specs.List.{count_by};
ghost use Rattle.std.specs.Vec.{vec_capacity};
ghost use Rattle.script_text.specs.Plans.{plain_line, plain_rules};
ghost use Rattle.script_links.specs.Steps.{step_of, is_rest};
ghost use Rattle.script_links.specs.Fresh.{IsFresh, first_connections, with_line, with_piece, dealt, fresh_link, fresh_links};
ghost use Rattle.script_links.specs.Kept.{plain_link, plain_links, served_of, IsKeptServing};
ghost use Rattle.script_links.specs.Followed.{AreLinksOf, AreFirstLinksOf, FollowsItsScript};
ghost use Rattle.script_links.specs.Shown.{links_told};
ghost use Rattle.outside.specs.Opening.{AreFreshLinks};

use crate::connections::Connections;
use crate::link::{LinkStage, ScriptConn};
use crate::mark_log::MarkLog;
use crate::serving::ScriptServing;
use crate::step::Step;
use script_text::laws::scripts_are_sound;
use script_text::{RuleList, Script, ScriptLine};
use std::alloc::{AllocError, Global};
use std::collections::VecDeque;
use std::marker::Model;
use streams::{Bytes, RestPlace};

/// The pieces of a connection, in order; contracts see them as a list.
#[derive(Drop)]
struct PieceList {
    /// The pieces.
    items: Vec<Bytes>,
}

impl Model for PieceList {
    ghost use Rattle.std.specs.Prelude.{List, ℕ};

    ghost Value = { List (List ℕ) };

    ghost view = { λ p. p.items.items };
}

impl PieceList {
    /// Adds a piece at the end.
    fn push(&mut self, piece: Bytes) -> Result<(), AllocError>
        ensures { OnOk result (self.new ≡ self.old ++ piece ∷ []) }
    {
        self.items.push(piece)?;
        Ok(())
    }
}

impl ScriptServing {
    /// Links over this script, before anything has happened.
    pub fn new(alloc: Global, script: Script) -> Result<ScriptServing, AllocError>
        ensures fresh { IfOk result (λ s. IsFresh script (served_of s)) }
        ensures own { IfOk result (λ s. AreLinksOf script (served_of s)) }
        ensures follows { IfOk result (λ s. FollowsItsScript (served_of s)) }
        ensures kept { IfOk result IsKeptServing }
    {
        // The script tells that it is sound.
        let _ = script.lines();
        scripts_are_sound();
        let (steps, links) = taken_apart(alloc, script)?;
        let (tape, rests) = rooms(alloc, steps.as_slice(), &links)?;
        Ok(ScriptServing {
            alloc,
            steps,
            done: 0,
            opened: 0,
            links,
            blocked: VecDeque::new(alloc),
            over: false,
            tape,
            rests,
            lengths: Vec::new(alloc),
        })
    }
}

impl ScriptServing {
    /// Links over the first connections of this script, so many at most, before anything has happened; the lines of the others are passed over.
    pub fn of_first(alloc: Global, script: Script, most: usize) -> Result<ScriptServing, AllocError>
        ensures own { IfOk result (λ s. AreFirstLinksOf most script (served_of s)) }
        ensures fresh { IfOk result (λ s. AreFreshLinks (links_told (served_of s))) }
        ensures follows { IfOk result (λ s. FollowsItsScript (served_of s)) }
        ensures kept { IfOk result IsKeptServing }
    {
        let mut serving = ScriptServing::new(alloc, script)?;
        serving.keep_first(most);
        Ok(serving)
    }

    /// The first connections are kept, so many at most.
    fn keep_first(&mut self, most: usize)
        requires kept { IsKeptServing self.old }
        ensures first { served_of self.new ≡ first_connections most (served_of self.old) }
        ensures kept { IsKeptServing self.new }
    {
        self.links.items.truncate(most);
    }
}

/// The steps of a script, and its connections, which are to come.
fn taken_apart(alloc: Global, script: Script) -> Result<(Vec<Step>, Connections), AllocError>
    ensures steps { IfOk result (λ r. r.0.items ≡ map step_of script.lines) }
    ensures links { IfOk result (λ r. plain_links r.1.items.items ≡ fresh_links (dealt script.lines (replicate (length script.rules) [])) script.rules) }
    ensures count { IfOk result (λ r. length r.1.items.items ≡ length script.rules) }
{
    let (lines, rules) = script.into_parts();
    let rules = rules.into_vec();
    let mut rows = empty_rows(alloc, rules.as_slice().len())?;
    let steps = deal(alloc, lines.into_vec(), &mut rows)?;
    let links = coming(alloc, rows, rules)?;
    Ok((steps, links))
}

/// Room for the marks that connections are owed, and for the places of rest among these steps.
fn rooms(
    alloc: Global,
    steps: &[Step],
    links: &Connections,
) -> Result<(MarkLog, Vec<RestPlace>), AllocError>
    ensures no_marks { IfOk result (λ r. r.0.items ≡ []) }
    ensures marks { IfOk result (λ r. 3 * length links.now.items.items ≤ r.0.capacity) }
    ensures no_rests { IfOk result (λ r. r.1.items ≡ []) }
    ensures rests { IfOk result (λ r. count_by is_rest steps.now ≤ vec_capacity r.1) }
{
    let mut tape = MarkLog::new(alloc);
    tape.reserve(3 * links.items.as_slice().len())?;
    let rests = Vec::with_capacity(alloc, rests_among(steps))?;
    Ok((tape, rests))
}

/// Makes so many rows without a piece.
fn empty_rows(alloc: Global, count: usize) -> Result<Vec<PieceList>, AllocError>
    ensures { IfOk result (λ rows. rows.items ≡ replicate count []) }
{
    let mut rows = Vec::with_capacity(alloc, count)?;
    'rows: while rows.len() < count {
        rows.push(PieceList {
            items: Vec::new(alloc),
        })?;
    }
    Ok(rows)
}

/// The steps of these lines, whose pieces are dealt to the rows of their connections.
fn deal(
    alloc: Global,
    lines: Vec<ScriptLine>,
    rows: &mut Vec<PieceList>,
) -> Result<Vec<Step>, AllocError>
    ensures steps { IfOk result (λ steps. steps.items ≡ map step_of (map plain_line lines.items)) }
    ensures rows { OnOk result (rows.new.items ≡ dealt (map plain_line lines.items) rows.old.items) }
{
    let mut steps = Vec::with_capacity(alloc, lines.len())?;
    'lines: for line in lines {
        let step = deal_one(line, rows)?;
        steps.push(step)?;
    }
    Ok(steps)
}

/// The step of a line; a piece is added to the row of its connection.
fn deal_one(line: ScriptLine, rows: &mut Vec<PieceList>) -> Result<Step, AllocError>
    ensures step { IfOk result (λ step. step ≡ step_of (plain_line line)) }
    ensures rows { OnOk result (rows.new.items ≡ with_line (plain_line line) rows.old.items) }
{
    match line {
        ScriptLine::Opens => Ok(Step::Opens),
        ScriptLine::Piece(c, bytes) => {
            add_piece(rows, c as usize, bytes)?;
            Ok(Step::Arrives(c))
        }
        ScriptLine::Ends(c) => Ok(Step::Ends(c)),
        ScriptLine::FailsRead(c) => Ok(Step::Fails(c)),
        ScriptLine::Rest => Ok(Step::Rests),
        ScriptLine::Loop(_) => Ok(Step::Passes),
        ScriptLine::Work(_) => Ok(Step::Passes),
        ScriptLine::Collect => Ok(Step::Passes),
    }
}

/// Adds a piece to the row of a connection, where there is one.
fn add_piece(rows: &mut Vec<PieceList>, c: usize, bytes: Bytes) -> Result<(), AllocError>
    ensures { OnOk result (rows.new.items ≡ with_piece c bytes rows.old.items) }
{
    if c < rows.len() {
        rows[c].push(bytes)?;
        return Ok(());
    }
    Ok(())
}

/// Connections that are to come, with these rows of pieces and these rules.
fn coming(
    alloc: Global,
    rows: Vec<PieceList>,
    rules: Vec<RuleList>,
) -> Result<Connections, AllocError>
    ensures links { IfOk result (λ links. plain_links links.items.items ≡ fresh_links rows.items (map plain_rules rules.items)) }
    ensures count { IfOk result (λ links. length links.items.items ≡ length rules.items) }
{
    let mut left = VecDeque::from(rows);
    let mut items = Vec::with_capacity(alloc, rules.len())?;
    'rules: for list in rules {
        let Some(row) = left.pop_front() else {
            return Err(AllocError);
        };
        items.push(coming_link(alloc, row, list))?;
    }
    Ok(Connections { items })
}

/// A connection that is to come.
fn coming_link(alloc: Global, row: PieceList, rules: RuleList) -> ScriptConn
    ensures { plain_link result ≡ fresh_link row (plain_rules rules) }
{
    ScriptConn {
        stage: LinkStage::Coming,
        pieces: row.items,
        passed: 0,
        offset: 0,
        arrived: 0,
        finish: None,
        rules: rules.into_vec(),
        used: 0,
        faults: 0,
        written: Vec::new(alloc),
    }
}

/// How many steps of rest there are.
fn rests_among(steps: &[Step]) -> usize
    ensures { result ≡ count_by is_rest steps.now }
{
    steps.iter().filter(|step| rests(step)).count()
}

/// Whether links rest at a step.
fn rests(step: &Step) -> bool
    ensures { result ≡ is_rest step.now }
{
    match step {
        Step::Opens => false,
        Step::Arrives(_) => false,
        Step::Ends(_) => false,
        Step::Fails(_) => false,
        Step::Rests => true,
        Step::Passes => false,
    }
}
