//! Connections by number: a slab keeps them, and rows, by rising number, say under which key.

ghost use Rattle.std.specs.Prelude.{◌≡◌, ◌<◌, ◌≤◌, IsSome, Some, None, IfOk, [], length};
ghost use Rattle.conn_table.specs.Rows.{key_in, IsRising, rank_below};
ghost use Rattle.conn_state.specs.Phase.{IsHeld};
ghost use Rattle.conn_table.specs.Table.{slot_of, with_size, AdmitsSlot, AdmitsFrame};
ghost use Rattle.conn_table.specs.Slots.{most_connections, slot_in, with_added, without_number, HaveRisingNumbers};

use crate::hints::Hints;
use conn_state::Conn;
use limits::MOST_CONNECTIONS;
use slab::Slab;
use std::alloc::{AllocError, Global};
use std::marker::Model;

/// Where a connection is kept.
#[derive(Clone, Copy, Drop)]
pub(crate) struct Row {
    /// The connection's number.
    pub number: u32,
    /// Its key in the slab.
    pub key: usize,
}

/// What is kept of a connection.
#[derive(Drop)]
pub(crate) struct Slot {
    /// Its number.
    pub number: u32,
    /// Its state.
    pub conn: Conn,
    /// The size that is admitted, where one is.
    pub size: Option<u32>,
}

/// Connections by number, at most 1,024.
#[derive(Drop)]
pub(crate) struct Places {
    /// The connections.
    slots: Slab<Slot>,
    /// Their keys, by rising number.
    rows: Vec<Row>,
    /// Where a row is looked for before it is searched for.
    hints: Hints,
}

impl Model for Places {
    ghost use Rattle.std.specs.Prelude.{List};
    ghost use Rattle.std.specs.Vec.{vec_capacity};
    ghost use Rattle.conn_table.specs.declared.places.Slot.{Slot};
    ghost use Rattle.conn_table.specs.Places.{kept_in, AreSoundPlaces};

    ghost Value = { List Slot };

    ghost view = { λ p. kept_in p.slots p.rows.items };

    ghost invariant = { λ p. AreSoundPlaces p.slots p.rows.items (vec_capacity p.rows) };
}

/// How many rows are in front of this number.
fn rank_by_search(rows: &[Row], number: u32) -> usize
    requires { IsRising rows.now }
    ensures rank_below { result ≡ rank_below number rows.now }
    ensures within { result ≤ length rows.now }
{
    let mut low = 0;
    let mut high = rows.len();
    while low < high {
        let middle = low + (high - low) / 2;
        if rows[middle].number < number {
            low = middle + 1;
        } else {
            high = middle;
        }
    }
    low
}

/// How many rows are in front of this number. One that stands at the place of the hint is found without a search.
fn rank_of(rows: &[Row], hint: usize, number: u32) -> usize
    requires { IsRising rows.now }
    ensures rank_below { result ≡ rank_below number rows.now }
    ensures within { result ≤ length rows.now }
{
    if hint < rows.len() && rows[hint].number == number {
        return hint;
    }
    rank_by_search(rows, number)
}

/// The key of a connection.
fn key_of(rows: &[Row], hint: usize, number: u32) -> usize
    requires rising { IsRising rows.now }
    requires open { IsSome (key_in number rows.now) }
    ensures { key_in number rows.now ≡ Some result }
{
    rows[rank_of(rows, hint, number)].key
}

impl Slot {
    /// Admits the frame that waits, where its size is within this room, and takes memory for it. It answers the size.
    fn admit(&mut self, alloc: Global, room: u64) -> Result<Option<u32>, AllocError>
        requires { IsHeld self.old.conn.phase }
        ensures { AdmitsSlot room self.old result self.new }
    {
        let size = self.conn.asks().unwrap();
        if room < size as u64 {
            return Ok(None);
        }
        self.conn.admit(alloc)?;
        self.size = Some(size);
        Ok(Some(size))
    }

    /// Takes the size that is admitted off it.
    fn release(&mut self) -> u32
        requires { IsSome self.old.size }
        ensures size { self.old.size ≡ Some result }
        ensures after { self.new ≡ record self.old { size = None } }
    {
        let size = self.size.unwrap();
        self.size = None;
        size
    }
}

impl Places {
    ghost use Rattle.std.specs.Borrow.{sem};
    ghost use Rattle.conn_table.specs.Lending.{LendsState};

    /// Holds no connection, and has room for the most.
    pub(crate) fn new(alloc: Global) -> Result<Places, AllocError>
        ensures { IfOk result (λ p. p ≡ []) }
    {
        Ok(Places {
            slots: Slab::with_capacity(alloc, MOST_CONNECTIONS)?,
            rows: Vec::with_capacity(alloc, MOST_CONNECTIONS)?,
            hints: Hints::new(alloc)?,
        })
    }

    /// How many there are. Their numbers rise.
    pub(crate) fn len(&self) -> usize
        ensures count { result ≡ length self.now }
        ensures few { result ≤ most_connections }
        ensures rising { HaveRisingNumbers self.now }
    {
        self.rows.as_slice().len()
    }

    /// What is kept of a connection.
    pub(crate) fn get(&self, number: u32) -> &Slot
        requires { IsSome (slot_in number self.now) }
        ensures { slot_in number self.now ≡ Some result.now }
    {
        &self.slots[key_of(self.rows.as_slice(), self.hints.of(number), number)]
    }

    /// Lends the state of a connection, to be changed in its place.
    pub(crate) fn conn_mut(&mut self, number: u32) -> &mut Conn
        requires { IsSome (slot_in number self.old) }
        ensures* writes_back { sem 𝓛 (LendsState self.entry number result) }
        ensures state { result.now ≡ (slot_of number self.old).conn }
    {
        let key = key_of(self.rows.as_slice(), self.hints.of(number), number);
        let slot = &mut self.slots[key];
        &mut slot.conn
    }

    /// Admits the frame of a connection that waits, where its size is within this room, and takes memory for it. It answers the size.
    pub(crate) fn admit(
        &mut self,
        alloc: Global,
        number: u32,
        room: u64,
    ) -> Result<Option<u32>, AllocError>
        requires open { IsSome (slot_in number self.old) }
        requires held { IsHeld (slot_of number self.old).conn.phase }
        ensures { AdmitsFrame room number self.old result self.new }
    {
        let key = key_of(self.rows.as_slice(), self.hints.of(number), number);
        self.slots[key].admit(alloc, room)
    }

    /// Takes the size that is admitted of a connection off it.
    pub(crate) fn release(&mut self, number: u32) -> u32
        requires open { IsSome (slot_in number self.old) }
        requires admitted { IsSome (slot_of number self.old).size }
        ensures size { (slot_of number self.old).size ≡ Some result }
        ensures after { self.new ≡ with_size number None self.old }
    {
        let key = key_of(self.rows.as_slice(), self.hints.of(number), number);
        self.slots[key].release()
    }

    /// Adds a connection.
    pub(crate) fn insert(&mut self, slot: Slot)
        requires room { length self.old < most_connections }
        requires vacant { slot_in slot.number self.old ≡ None }
        ensures { self.new ≡ with_added slot self.old }
    {
        let number = slot.number;
        let place = rank_of(self.rows.as_slice(), self.hints.of(number), number);
        let key = self.slots.insert_reserved(slot);
        let _ = self.rows.insert(place, Row { number, key });
        self.hints.note(self.rows.as_slice(), place);
    }

    /// Takes a connection out.
    pub(crate) fn remove(&mut self, number: u32) -> Slot
        requires { IsSome (slot_in number self.old) }
        ensures old { slot_in number self.old ≡ Some result }
        ensures new { self.new ≡ without_number number self.old }
        ensures gone { slot_in number self.new ≡ None }
    {
        let place = rank_of(self.rows.as_slice(), self.hints.of(number), number);
        let row = self.rows.remove(place);
        self.hints.note(self.rows.as_slice(), place);
        self.slots.remove(row.key)
    }
}
