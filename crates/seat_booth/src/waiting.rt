//! How a thread waits for its turn: it looks for a short time, and then sleeps on its ticket's word until the one before wakes it.
ghost use Rattle.std.specs.Prelude.{◌≡◌, ℕ, ◌+◌, ◌*◌, ◌%◌, ◌^◌, ◌<◌, ◌≤◌, [], MatchBool};
ghost use Rattle.seat_booth.specs.Limits.{first_sleeper, word_count};
ghost use Rattle.seat_booth.specs.declared.view.CallStage.TheVariants.{Waits};
ghost use Rattle.seat_booth.specs.Past.{past_of};
ghost use Rattle.seat_booth.specs.Steps.{HasTurn, TokenIsAt};

use crate::object::Object;
use crate::plays::Keep;
use crate::table::{SERVING, SLEEPERS, SeatToken, Shared, TICKET, look};
use std::hint::spin_loop;
use std::sync::Wait;
use std::thread::yield_now;

/// How often a waiting thread looks before it sleeps.
const LOOKS: u32 = 200;

/// How often a thread that comes lets others run first while a call is under way.
const PAUSES: u32 = 32;

/// The word that a thread with this ticket sleeps on.
fn sleeper_of(ticket: u64) -> usize
    ensures { (first_sleeper ≤ result) × (result < word_count) }
{
    SLEEPERS + (ticket % 64) as usize
}

/// What that word shows while a thread sleeps for this ticket: an odd number of 32 bits. An even one shows that none does.
fn mark_of(ticket: u64) -> u32
    ensures { (0 < result) × (result < 2 ^ 32) }
{
    (ticket % (1 << 31)) as u32 * 2 + 1
}

/// Lets other threads run for a short time while a call is under way. A thread that has drawn no ticket holds up nobody, so more threads than processors don't pass the turn from sleeper to sleeper.
pub(crate) fn pause<O: Object>(shared: &Shared<O>)
    requires { shared.now.table_id.words ≡ word_count }
{
    for _ in 0..PAUSES {
        if shared.peek(TICKET) == shared.peek(SERVING) {
            return;
        }
        yield_now();
    }
}

/// Looks for the turn a few times.
fn spin<O: Object>(shared: &Shared<O>, token: &mut SeatToken<O>, ticket: u64) -> bool
    requires table { (token.old.table_id ≡ shared.now.table_id) × (shared.now.table_id.words ≡ word_count) × (shared.now.table_id.slots ≡ 1) }
    requires stage { TokenIsAt (Waits ticket) token.old.me }
    ensures table { token.new.table_id ≡ token.old.table_id }
    ensures stage { MatchBool result (HasTurn O.meaning O.gives O.may ticket token.old.me.0.opening (past_of token.old.me.0) token.new.me) (token.new.me ≡ token.old.me) }
{
    for _ in 0..LOOKS {
        if look(shared, token, ticket) {
            return true;
        }
        spin_loop();
    }
    false
}

/// Writes a word that only puts threads to sleep.
fn mark<O: Object>(shared: &Shared<O>, token: &mut SeatToken<O>, at: usize, shown: u32)
    requires table { (token.old.table_id ≡ shared.now.table_id) × (shared.now.table_id.words ≡ word_count) }
    requires word { (first_sleeper ≤ at) × (at < word_count) }
    ensures table { token.new.table_id ≡ token.old.table_id }
    ensures same { token.new.me ≡ token.old.me }
{
    shared.store::<Keep>(token, at, u64::from(shown));
}

/// Waits until the ticket has the turn, which it mostly has at once.
#[inline(always)]
pub(crate) fn wait<O: Object, R: Wait>(
    rt: &R,
    shared: &Shared<O>,
    token: &mut SeatToken<O>,
    ticket: u64,
)
    requires table { (token.old.table_id ≡ shared.now.table_id) × (shared.now.table_id.words ≡ word_count) × (shared.now.table_id.slots ≡ 1) }
    requires stage { TokenIsAt (Waits ticket) token.old.me }
    ensures table { token.new.table_id ≡ token.old.table_id }
    ensures turn { HasTurn O.meaning O.gives O.may ticket token.old.me.0.opening (past_of token.old.me.0) token.new.me }
{
    if look(shared, token, ticket) {
        return;
    }
    look_or_sleep(rt, shared, token, ticket);
}

/// Looks and sleeps in turn until the ticket has the turn.
#[inline(never)]
fn look_or_sleep<O: Object, R: Wait>(
    rt: &R,
    shared: &Shared<O>,
    token: &mut SeatToken<O>,
    ticket: u64,
)
    requires table { (token.old.table_id ≡ shared.now.table_id) × (shared.now.table_id.words ≡ word_count) × (shared.now.table_id.slots ≡ 1) }
    requires stage { TokenIsAt (Waits ticket) token.old.me }
    ensures table { token.new.table_id ≡ token.old.table_id }
    ensures turn { HasTurn O.meaning O.gives O.may ticket token.old.me.0.opening (past_of token.old.me.0) token.new.me }
{
    let at = sleeper_of(ticket);
    let shown = mark_of(ticket);
    for _ in rt.forever() {
        if spin(shared, token, ticket) {
            return;
        }
        // Whoever serves the ticket after this mark sees it, and whoever did before is seen by this look.
        mark(shared, token, at, shown);
        if look(shared, token, ticket) {
            return;
        }
        shared.park(rt, at, shown);
    }
    unreachable!()
}

/// Wakes the thread that sleeps for this ticket, if one does.
pub(crate) fn wake<O: Object>(shared: &Shared<O>, token: &mut SeatToken<O>, ticket: u64)
    requires table { (token.old.table_id ≡ shared.now.table_id) × (shared.now.table_id.words ≡ word_count) }
    ensures table { token.new.table_id ≡ token.old.table_id }
    ensures same { token.new.me ≡ token.old.me }
{
    let at = sleeper_of(ticket);
    let shown = mark_of(ticket);
    if shared.peek(at) == u64::from(shown) {
        mark(shared, token, at, shown - 1);
        shared.wake_one(at);
    }
}
