//! The table that a booth's seats share: its words, the object's slot, and the steps on them.
ghost use Rattle.std.specs.Prelude.{◌≡◌, ℕ, ◌+◌, ◌^◌, ◌<◌, ◌≤◌, [], ◌∷◌, ◌++◌, Option, Some, List, MatchBool, MatchOption, length};
ghost use Rattle.atomic_table.specs.Seated.{TableId};
ghost use Rattle.atomic_table.specs.Table.{Me};
ghost use Rattle.seat_booth.specs.Limits.{word_count};
ghost use Rattle.call_history.specs.declared.seat_call.SeatCall.{SeatCall};
ghost use Rattle.seat_booth.specs.declared.view.TokenView.{TokenView};
ghost use Rattle.seat_booth.specs.declared.view.CallStage.TheVariants.{Idle, Waits, Turn};
ghost use Rattle.call_history.specs.History.{seat_call};
ghost use Rattle.seat_booth.specs.Past.{past_of, seated, view, without_first, only_first};
ghost use Rattle.seat_booth.specs.Steps.{with_call, HasTurn, TokenIsAt, CallIsReady, call_in_reach};

use crate::object::Object;
use crate::plays::{CallNamed, Deal, Draw, Enter, Look, ViewOf};
use atomic_table::{Seat, Table, TableRule};
use std::alloc::Global;
use std::marker::{Brand, PhantomData};
use std::snapshot::Snapshot;

/// The next ticket. Each word that is written often has cache lines of its own.
pub(crate) const TICKET: usize = 0;

/// The ticket that has the turn.
pub(crate) const SERVING: usize = 16;

/// The first of the 64 words that waiting threads sleep on. A ticket has the word of its remainder by 64.
pub(crate) const SLEEPERS: usize = 32;

/// How many words there are.
pub(crate) const WORDS: usize = 96;

/// The most tickets that get the turn.
const MOST: u64 = 1 << 62;

/// What the table is told when it is made.
pub(crate) struct Opening<O> {
    /// The object at the opening, which contracts alone see.
    pub object: Snapshot<O>,
    /// How many seats there are: 1 to 64.
    pub seats: u32,
}

impl<O> Drop for Opening<O> {
    fn drop(self) {
        let Opening {
            object: _,
            seats: _,
        } = self;
    }
}

/// The rule of the table, which `specs/Tickets.antt` states.
pub(crate) struct TicketRule<O> {
    object: PhantomData<O>,
}

impl<O: Object> TableRule<O, ViewOf<O>, Opening<O>> for TicketRule<O> {
    ghost use Rattle.std.specs.Prelude.{Some};
    ghost use Rattle.seat_booth.specs.declared.view.CallStage.TheVariants.{Idle};
    ghost use Rattle.seat_booth.specs.Past.{view, new_pasts};
    ghost use Rattle.seat_booth.specs.Tickets.{IsKept};

    ghost holds = { λ key. IsKept O.meaning O.gives O.may (O.meaning key.object.value) key.seats };

    ghost first = { λ key. view (Some (O.meaning key.object.value)) Idle (new_pasts 0 key.seats) };
}

pub(crate) type SeatToken<O> = Seat<O, ViewOf<O>>;

pub(crate) type Shared<O> = atomic_table::Shared<O, ViewOf<O>, Opening<O>, TicketRule<O>>;

pub(crate) type TurnTable<O> = Table<O, ViewOf<O>, Opening<O>, TicketRule<O>, Global>;

/// Draws the next ticket.
pub(crate) fn draw<O: Object>(shared: &Shared<O>, token: &mut SeatToken<O>) -> u64
    requires table { (token.old.table_id ≡ shared.now.table_id) × (shared.now.table_id.words ≡ word_count) }
    requires stage { TokenIsAt Idle token.old.me }
    ensures table { token.new.table_id ≡ token.old.table_id }
    ensures stage { token.new.me ≡ (seated token.old.me.0.opening (Waits result) (past_of token.old.me.0), []) }
{
    shared.fetch_add::<Draw>(token, TICKET, 1)
}

/// Looks whether the ticket has the turn.
pub(crate) fn look<O: Object>(shared: &Shared<O>, token: &mut SeatToken<O>, ticket: u64) -> bool
    requires table { (token.old.table_id ≡ shared.now.table_id) × (shared.now.table_id.words ≡ word_count) × (shared.now.table_id.slots ≡ 1) }
    requires stage { TokenIsAt (Waits ticket) token.old.me }
    ensures table { token.new.table_id ≡ token.old.table_id }
    ensures stage { MatchBool result (HasTurn O.meaning O.gives O.may ticket token.old.me.0.opening (past_of token.old.me.0) token.new.me) (token.new.me ≡ token.old.me) }
{
    let found = shared.load::<Look<O>>(token, SERVING);
    found == ticket && found < MOST
}

/// Makes the step on the object, which the token holds.
#[inline(always)]
pub(crate) fn step<O: Object>(shared: &Shared<O>, token: &mut SeatToken<O>, op: O::Op) -> O::Reply
    requires table { token.old.table_id ≡ shared.now.table_id }
    requires held { (object : O) × (token.old.me.1 ≡ (0, object) ∷ []) × O.can (O.meaning object) op }
    ensures table { token.new.table_id ≡ token.old.table_id }
    ensures view { token.new.me.0 ≡ token.old.me.0 }
    ensures held { (object after : O) × (token.old.me.1 ≡ (0, object) ∷ []) × (token.new.me.1 ≡ (0, after) ∷ []) × O.gives (O.meaning object) op result (O.meaning after) }
{
    token.slot_mut(shared, 0).step(op)
}

/// Makes the call that `E` names, which its caller picks by the operation and the reply, puts the object back and passes the turn on.
fn enter<O: Object, E: CallNamed<O::Op, O::Reply, O::Meaning>>(
    shared: &Shared<O>,
    token: &mut SeatToken<O>,
    _op: &Snapshot<O::Op>,
    _reply: &O::Reply,
)
    requires table { (token.old.table_id ≡ shared.now.table_id) × (shared.now.table_id.words ≡ word_count) × (shared.now.table_id.slots ≡ 1) }
    requires ready { CallIsReady O.meaning O.gives O.may (O.meaning shared.now.key.object.value) E.made token.old.me }
    ensures table { token.new.table_id ≡ token.old.table_id }
    ensures made { MatchOption E.made (Unit {0}) (λ e. token.new.me ≡ (seated token.old.me.0.opening Idle (with_call e (past_of token.old.me.0)), [])) }
{
    shared.fetch_add::<Enter<E>>(token, SERVING, 1);
}

/// Makes the call with this operation and reply on the object in hand.
pub(crate) fn finish<O: Object>(
    shared: &Shared<O>,
    token: &mut SeatToken<O>,
    op: &Snapshot<O::Op>,
    reply: &O::Reply,
)
    requires table { (token.old.table_id ≡ shared.now.table_id) × (shared.now.table_id.words ≡ word_count) × (shared.now.table_id.slots ≡ 1) }
    requires ready { CallIsReady O.meaning O.gives O.may (O.meaning shared.now.key.object.value) (call_in_reach O.meaning token.old.me op.now.value reply.now) token.old.me }
    ensures table { token.new.table_id ≡ token.old.table_id }
    ensures made { MatchOption (call_in_reach O.meaning token.old.me op.now.value reply.now) (Unit {0}) (λ e. token.new.me ≡ (seated token.old.me.0.opening Idle (with_call e (past_of token.old.me.0)), [])) }
{
    enter::<O, Brand>(shared, token, op, reply);
}

/// Deals the first of the seats that the token has.
pub(crate) fn deal<O: Object>(shared: &Shared<O>, token: &mut SeatToken<O>) -> SeatToken<O>
    requires table { (token.old.table_id ≡ shared.now.table_id) × (shared.now.table_id.words ≡ word_count) }
    requires some { (token.old.me.0.stage ≡ Idle) × (0 < length token.old.me.0.pasts) }
    ensures table { (token.new.table_id ≡ token.old.table_id) × (result.table_id ≡ token.old.table_id) }
    ensures left { token.new.me ≡ (without_first token.old.me.0, token.old.me.1) }
    ensures dealt { result.me ≡ (only_first token.old.me.0, []) }
{
    shared.split_seat::<Deal>(token)
}

/// Takes the seats of another token back, in front of its own.
pub(crate) fn gather<O: Object>(shared: &Shared<O>, token: &mut SeatToken<O>, other: SeatToken<O>)
    requires table { (token.old.table_id ≡ shared.now.table_id) × (other.table_id ≡ shared.now.table_id) × (shared.now.table_id.words ≡ word_count) }
    requires idle { (token.old.me.0.stage ≡ Idle) × (other.me.0.stage ≡ Idle) × (other.me.1 ≡ []) }
    requires opening { token.old.me.0.opening ≡ Some (O.meaning shared.now.key.object.value) }
    ensures table { token.new.table_id ≡ token.old.table_id }
    ensures both { token.new.me ≡ (view token.old.me.0.opening Idle (other.me.0.pasts ++ token.old.me.0.pasts), token.old.me.1) }
{
    shared.join_seat::<Deal>(token, other);
}
