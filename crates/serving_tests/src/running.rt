//! A script, served over links of it.

ghost use Rattle.std.specs.Prelude.{◌≤◌, IfSome};
ghost use Rattle.outside.specs.Opening.{AreFreshLinks};
ghost use Rattle.script_text.specs.Sound.{MovesItsWorkers};

use crate::breaking::BreakingLinks;
use crate::byte_desk::{ByteDesk, LIMITS};
use crate::journal::KeyJournal;
use host_loop::{Served, serve};
use house_handlers::Mirror;
use outside::{EmptyGate, Links};
use script_links::ScriptLinks;
use script_text::laws::scripts_are_sound;
use script_text::{Script, read_script};
use std::alloc::Global;
use std::sync::Wait;
use std::thread::Threads;

/// No run has as many appends, or asks its links as often.
pub(crate) const NEVER: usize = 1_000_000;

/// What serving a script has left.
#[derive(Drop)]
pub(crate) struct Run {
    pub links: ScriptLinks,
    /// The links failed when they were asked what is next.
    pub is_broken: bool,
    pub served: Served<Mirror, KeyJournal>,
}

/// The script that a text is.
fn script_of(alloc: Global, text: &[u8]) -> Option<Script>
    ensures { IfSome result (λ script. MovesItsWorkers 0 script) }
{
    scripts_are_sound();
    match read_script(alloc, text, 0, true, true) {
        Ok(script) => Some(script),
        Err(_) => None,
    }
}

/// Calls `serve` with the desk and the limits of all runs, and one mirror. What its contract says isn't handed on: the tests look at what was done.
pub(crate) fn serve_links<L: Links, R: Threads + Wait + Sync>(
    rt: &R,
    alloc: Global,
    links: &mut L,
    append: usize,
    workers: u32,
) -> Option<Served<Mirror, KeyJournal>>
    requires fresh { AreFreshLinks (L.state links.old) }
    requires few { workers ≤ 8 }
{
    let handlers = vec![in alloc; Mirror::new()].ok()?;
    Some(serve(
        rt,
        alloc,
        links,
        &ByteDesk {},
        handlers,
        KeyJournal::new(alloc, append),
        workers,
        &EmptyGate,
        LIMITS,
    ))
}

/// Serves a script with so many workers, where the journal fails at this append, and the links at this ask.
pub(crate) fn served<R: Threads + Wait + Sync>(
    rt: &R,
    alloc: Global,
    text: &[u8],
    workers: u32,
    append: usize,
    ask: usize,
) -> Option<Run>
    requires { workers ≤ 8 }
{
    let links = ScriptLinks::new(alloc, script_of(alloc, text)?).ok()?;
    let mut links = BreakingLinks::new(links, ask);
    let served = serve_links(rt, alloc, &mut links, append, workers)?;
    Some(Run {
        is_broken: links.faults > 0,
        links: links.links,
        served,
    })
}
