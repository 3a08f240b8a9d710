//! The booth and its seats.
ghost use Rattle.std.specs.Prelude.{◌≡◌, ℕ, ◌+◌, ◌<◌, ◌≤◌, [], ◌∷◌, List, Some, IfOk, IfErr, length, map, All, vec_len, vec_capacity};
ghost use Rattle.seat_booth.specs.Limits.{word_count, most_seats};
ghost use Rattle.seat_booth.specs.declared.view.CallStage.TheVariants.{Idle};
ghost use Rattle.seat_booth.specs.Past.{view, seated, new_pasts, past_of_seat};
ghost use Rattle.seat_booth.specs.Seats.{IsSeatOf, newcomers, booth_view};

use crate::object::Object;
use crate::opening::open;
use crate::table::{SeatToken, Shared, TurnTable, deal, draw, finish, gather, step};
use crate::waiting::{pause, wait, wake};
use std::alloc::Global;
use std::marker::Model;
use std::snapshot::Snapshot;
use std::sync::Wait;

/// A ticket lock round one object: each seat's calls have their turn in the order of the tickets that they draw.
#[derive(Drop)]
pub struct Booth<O: Object> {
    table: TurnTable<O>,
}

impl<O: Object> Model for Booth<O> {
    ghost use Rattle.seat_booth.specs.Seats.{BoothView, booth_view};

    ghost Value = { BoothView O.Meaning };

    ghost use Rattle.std.specs.Prelude.{◌≡◌, ◌≤◌};
    ghost use Rattle.seat_booth.specs.Limits.{word_count};

    ghost view = { λ b. booth_view b.table.shared.table_id (O.meaning b.table.shared.key.object.value) b.table.shared.key.seats };

    ghost invariant = { λ b. (b.table.shared.table_id.words ≡ word_count) × (b.table.shared.table_id.slots ≡ 1) × (1 ≤ b.table.shared.key.seats) };
}

/// The right to make calls at one booth, one after another. No two seats of a booth have one number.
pub struct Seat<O: Object> {
    /// It waits for nothing and holds nothing.
    token: SeatToken<O>,
    /// The number that the token knows.
    number: u32,
}

impl<O: Object> Model for Seat<O> {
    ghost use Rattle.seat_booth.specs.Seats.{SeatView};

    ghost Value = { SeatView O.Op O.Reply O.Meaning };

    ghost use Rattle.std.specs.Prelude.{◌≡◌};
    ghost use Rattle.seat_booth.specs.declared.view.CallStage.TheVariants.{Idle};
    ghost use Rattle.seat_booth.specs.Past.{past_of, seat_view};
    ghost use Rattle.seat_booth.specs.Steps.{TokenIsAt};

    ghost view = { λ s. seat_view s.token.table_id s.token.me.0 };

    ghost invariant = { λ s. TokenIsAt Idle s.token.me × (s.number ≡ (past_of s.token.me.0).number) };
}

impl<O: Object> Drop for Seat<O> {
    fn drop(self) {
        let Seat {
            token: _,
            number: _,
        } = self;
    }
}

/// There was no memory. The object comes back.
#[derive(Drop)]
pub struct NoBooth<O>(pub O);

impl<O: Object> Seat<O> {
    pub fn number(&self) -> u32
        ensures { result ≡ self.now.number }
    {
        self.number
    }

    fn into_token(self) -> SeatToken<O>
        ensures booth { result.table_id ≡ self.booth }
        ensures past { result.me ≡ (seated self.opening Idle (past_of_seat self), []) }
    {
        let Seat { token, number: _ } = self;
        token
    }
}

/// Opens a booth with so many seats. The seat at each place of the list has that number, and has made no call.
pub fn new_booth<O: Object>(
    alloc: Global,
    object: O,
    seats: u32,
) -> Result<(Booth<O>, Vec<Seat<O>>), NoBooth<O>>
    requires { (1 ≤ seats) × (seats ≤ most_seats) }
    ensures booth { IfOk result (λ made. (made.0.opening ≡ O.meaning object) × (made.0.seats ≡ seats)) }
    ensures seats { IfOk result (λ made. made.1.items ≡ newcomers made.0 0 seats) }
    ensures every { IfOk result (λ made. (length made.1.items ≡ seats) × All (IsSeatOf made.0) made.1.items) }
    ensures err { IfErr result (λ no. no.0 ≡ object) }
{
    let Ok(list) = Vec::with_capacity(alloc, seats as usize) else {
        return Err(NoBooth(object));
    };
    let (table, token) = open(alloc, object, seats)?;
    let list = deal_all(&table.shared, token, list, seats);
    Ok((Booth { table }, list))
}

/// The seats, each with the token that is dealt for it.
fn deal_all<O: Object>(
    shared: &Shared<O>,
    mut token: SeatToken<O>,
    mut list: Vec<Seat<O>>,
    seats: u32,
) -> Vec<Seat<O>>
    requires table { (token.table_id ≡ shared.now.table_id) × (shared.now.table_id.words ≡ word_count) }
    requires token { token.me ≡ (view (Some (O.meaning shared.now.key.object.value)) Idle (new_pasts 0 seats), []) }
    requires room { (list.items ≡ []) × (vec_len list ≡ 0) × (seats ≤ vec_capacity list) }
    requires some { 1 ≤ seats }
    ensures seats { result.items ≡ newcomers (booth_view shared.now.table_id (O.meaning shared.now.key.object.value) shared.now.key.seats) 0 seats }
    ensures every { (length result.items ≡ seats) × All (IsSeatOf (booth_view shared.now.table_id (O.meaning shared.now.key.object.value) shared.now.key.seats)) result.items }
{
    let last = seats - 1;
    for number in 0..last {
        let dealt = deal(shared, &mut token);
        list.push_reserved(Seat {
            token: dealt,
            number,
        });
    }
    list.push_reserved(Seat {
        token,
        number: last,
    });
    list
}

impl<O: Object> Booth<O> {
    ghost use Rattle.seat_booth.specs.Seats.{IsSeatOf, MakesCall, EndsBooth};

    /// Makes one call. It waits for its turn, and gives the object's reply at this call's point of the one history.
    // Who knows the operation so knows which step it is, and stores neither it nor the reply.
    #[inline(always)]
    pub fn call<R: Wait>(&self, rt: &R, seat: &mut Seat<O>, op: O::Op) -> O::Reply
        requires seat { IsSeatOf self.now seat.old }
        requires may { O.may self.now.opening seat.old.number seat.old.mine op }
        ensures seat { IsSeatOf self.now seat.new }
        ensures number { seat.new.number ≡ seat.old.number }
        ensures call { MakesCall O.gives O.may self.now seat.old op result seat.new }
    {
        let shared = &self.table.shared;
        let token = &mut seat.token;
        pause(shared);
        let ticket = draw(shared, token);
        wait(rt, shared, token, ticket);
        let asked = Snapshot::of(&op);
        let reply = step(shared, token, op);
        finish(shared, token, &asked, &reply);
        wake(shared, token, ticket + 1);
        reply
    }

    /// Ends the booth, and gives the object after the one history of all calls. The list holds every seat of the booth.
    pub fn close(self, seats: Vec<Seat<O>>) -> O
        requires seats { All (IsSeatOf self) seats.items }
        requires every { length seats.items ≡ self.seats }
        ensures { EndsBooth O.gives O.may self seats.items (O.meaning result) }
    {
        let Booth { table } = self;
        let token = gather_all(&table.shared, seats);
        let mut closed = table.close_with(token);
        let object = closed.take(0);
        closed.free();
        object
    }
}

/// The token that has all seats of the list.
fn gather_all<O: Object>(shared: &Shared<O>, mut seats: Vec<Seat<O>>) -> SeatToken<O>
    requires table { shared.now.table_id.words ≡ word_count }
    requires seats { All (IsSeatOf (booth_view shared.now.table_id (O.meaning shared.now.key.object.value) shared.now.key.seats)) seats.items }
    requires some { 1 ≤ length seats.items }
    ensures table { result.table_id ≡ shared.now.table_id }
    ensures all { result.me ≡ (view (Some (O.meaning shared.now.key.object.value)) Idle (map past_of_seat seats.items), []) }
{
    let Some(last) = seats.pop() else {
        unreachable!()
    };
    let mut token = last.into_token();
    while let Some(seat) = seats.pop() {
        gather(shared, &mut token, seat.into_token());
    }
    token
}
