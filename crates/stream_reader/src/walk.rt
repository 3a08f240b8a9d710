//! The walk of a message's grammar, item by item, over a stack of the levels that are open.

ghost use Rattle.std.specs.Prelude.{◌≡◌, ◌≤◌, ◌<◌, ◌+◌, ◌-◌, ◌==◌, ◌&&◌, ◌∷◌, length, slice_index, false, IfOk};
ghost use Rattle.std.specs.Int.{w32};
ghost use Rattle.wire_num.specs.Fixed.{signed_of, unsigned_of};
ghost use Rattle.streams.specs.declared.outcomes.EnvelopeFault.TheVariants.{Version};
ghost use Rattle.stream_model.specs.Plan.{value_plan, needs, byte_plan, size_plan, items_coded_plan, pairs_coded_plan, call_plan, either_plan, strict_plan, name_plan, ends};
ghost use Rattle.thrift_value.specs.declared.tag.Tag.TheVariants.{Struct};
ghost use Rattle.envelope.specs.Spelling.{strict_mark, strict_version};
ghost use Rattle.wire_model.specs.Place.{most_levels, most_values};
ghost use Rattle.stream_reader.specs.declared.stage.ReadStage.TheVariants.{Head, Body, Refused};
ghost use Rattle.stream_reader.specs.Stages.{IsSamePlace, IsNewWalk, GoesOnAs, HasItemBytes, decided_at, head_len, body_len, stage_len, held_levels, plan_behind, rest_plan, walk_plan, head_next, body_next, stage_next, id_plan, field_plan, opened_items, opened_pairs, is_used_up};

use super::levels::Levels;
use super::sizes::{items_tag, number_in, pair_tags, size_of, size_within, tag_in};
use super::stage::{
    BodyItem, HeadItem, Level, ReadStage, field_stage, first_stage, is_used_up, message_stage,
    name_stage, old_name_stage, opens_level, stage_len,
};
use limits::{MOST_LEVELS, MOST_VALUES};
use std::alloc::{AllocError, Global};
use std::marker::Model;
use stream_model::{MessageProgress, StreamFault};
use streams::EnvelopeFault;
use thrift_value::{Tag, WireFault};

/// The type of a call.
const CALL: u8 = 1;

/// The type of a call without a reply.
const CALL_WITHOUT_REPLY: u8 = 4;

/// The first two bytes of a strict head.
const STRICT_VERSION: [u8; 2] = [0x80, 0x01];

/// The reading of one message.
#[derive(Drop)]
pub(crate) struct MessageWalk {
    most: u32,
    at: u32,
    levels: u32,
    budget: u32,
    stack: Levels,
    stage: ReadStage,
}

impl Model for MessageWalk {
    ghost use Rattle.std.specs.Prelude.{◌≤◌, ◌<◌, ◌+◌, ◌^◌, length};
    ghost use Rattle.wire_model.specs.Place.{most_levels};
    ghost use Rattle.stream_reader.specs.Stages.{Walked, HasItemBytes, held_levels};

    ghost Value = { Walked };

    ghost view = { λ w. record { most = w.most; at = w.at; levels = w.levels; budget = w.budget; stack = w.stack; stage = w.stage } };

    ghost invariant = { λ w. (w.levels + length w.stack + held_levels w.stage ≤ most_levels) × HasItemBytes w.stage × (w.most < 2 ^ 32) };
}

impl MessageWalk {
    /// The reading of a message of at most `most` bytes, of which none was read.
    pub(crate) fn new(alloc: Global, most: u32) -> Result<MessageWalk, AllocError>
        ensures { IfOk result (λ w. IsNewWalk most w) }
    {
        let stack = Levels::new(alloc)?;
        Ok(MessageWalk {
            most,
            at: 0,
            levels: MOST_LEVELS,
            budget: MOST_VALUES,
            stack,
            stage: message_stage(most),
        })
    }

    /// Begins the next message.
    pub(crate) fn restart(&mut self)
        ensures { IsNewWalk self.old.most self.new }
    {
        self.at = 0;
        self.stack.clear();
        self.stage = message_stage(self.most);
    }

    /// How many bytes were read.
    pub(crate) fn at(&self) -> u32
        ensures { result ≡ self.now.at }
    {
        self.at
    }

    /// What became of a message of which nothing is read any more.
    pub(crate) fn decided(&self) -> MessageProgress
        ensures progress { result ≡ decided_at self.now.at self.now.stage }
        ensures some { HasItemBytes self.now.stage }
    {
        match self.stage {
            ReadStage::Head(_) => MessageProgress::Wants(0),
            ReadStage::Body(_) => MessageProgress::Wants(0),
            ReadStage::Whole => MessageProgress::Whole(self.at),
            ReadStage::Refused(fault) => MessageProgress::Refused(self.at, fault),
        }
    }

    /// How many bytes the item under way has.
    pub(crate) fn len(&self) -> u32
        ensures { result ≡ stage_len self.now.stage }
    {
        stage_len(self.stage)
    }

    /// How many bytes are missing of the item under way, where so many came in all.
    pub(crate) fn left(&self, count: usize) -> u32
        requires fits { self.now.at + stage_len self.now.stage ≤ self.now.most }
        requires within { count ≤ self.now.at + stage_len self.now.stage }
        ensures { result ≡ self.now.at + stage_len self.now.stage - count }
    {
        self.at + stage_len(self.stage) - count as u32
    }

    /// Begins a value of this tag.
    #[tactic(auto, using(crate::proofs::Steps::leaf_begins, crate::proofs::Steps::level_begins, crate::proofs::Steps::none_left, crate::proofs::Steps::too_deep))]
    fn begin(&mut self, tag: Tag)
        requires { held_levels self.old.stage ≡ 0 }
        ensures plan { value_plan self.old.most self.old.levels tag self.old.budget (plan_behind self.old.most self.old.levels self.old.stack) ≡ walk_plan self.new }
        ensures place { IsSamePlace self.old self.new }
    {
        if self.budget == 0 {
            self.stage = ReadStage::Refused(StreamFault::Body(WireFault::TooMany));
            return;
        }
        self.budget -= 1;
        if !opens_level(tag) {
            self.stage = first_stage(tag, self.most);
            return;
        }
        if self.levels == 0 {
            self.stage = ReadStage::Refused(StreamFault::Body(WireFault::TooDeep));
            return;
        }
        self.levels -= 1;
        self.stage = first_stage(tag, self.most);
    }

    /// Goes on behind a value.
    #[tactic(auto, using(crate::proofs::Steps::none_open, crate::proofs::Steps::used_up))]
    fn settle(&mut self)
        requires { held_levels self.old.stage ≡ 0 }
        ensures plan { rest_plan self.old ≡ walk_plan self.new }
        ensures place { IsSamePlace self.old self.new }
    {
        let Some(level) = self.stack.pop() else {
            self.stage = ReadStage::Whole;
            return;
        };
        if is_used_up(level) {
            self.levels += 1;
            return self.settle();
        }
        self.next_part(level)
    }

    /// Goes on in a level that isn't used up.
    #[tactic(auto, using(crate::proofs::Steps::next_field, crate::proofs::Steps::items_more, crate::proofs::Steps::pairs_more, crate::proofs::Steps::pair_value))]
    fn next_part(&mut self, level: Level)
        requires more { is_used_up level ≡ false }
        requires none_held { held_levels self.old.stage ≡ 0 }
        requires room { self.old.levels + length self.old.stack < most_levels }
        ensures plan { plan_behind self.old.most self.old.levels (level ∷ self.old.stack) self.old.budget ≡ walk_plan self.new }
        ensures place { IsSamePlace self.old self.new }
    {
        match level {
            Level::Fields(heads) => self.stage = field_stage(heads),
            Level::Items(tag, left) => {
                self.stack.push(Level::Items(tag, left - 1));
                self.begin(tag)
            }
            Level::Keys(key, value, left) => {
                self.stack.push(Level::Values(key, value, left - 1));
                self.begin(key)
            }
            Level::Values(key, value, left) => {
                self.stack.push(Level::Keys(key, value, left));
                self.begin(value)
            }
        }
    }

    /// Opens a level, whose header was read.
    fn open(&mut self, level: Level)
        requires opening { held_levels self.old.stage ≡ 1 }
        ensures plan { plan_behind self.old.most self.old.levels (level ∷ self.old.stack) self.old.budget ≡ walk_plan self.new }
        ensures place { IsSamePlace self.old self.new }
    {
        self.stack.push(level);
        self.stage = ReadStage::Whole;
        self.settle()
    }

    /// Goes on behind the type byte of a field, or ends a struct (Thrift binary protocol, 'Struct').
    fn field(&mut self, heads: u32, code: u8)
        requires opening { held_levels self.old.stage ≡ 1 }
        ensures plan { field_plan self.old heads code ≡ walk_plan self.new }
        ensures place { IsSamePlace self.old self.new }
    {
        if code == 0 {
            self.levels += 1;
            self.stage = ReadStage::Whole;
            return self.settle();
        }
        match tag_in(code) {
            Ok(tag) => {
                self.stack.push(Level::Fields(heads));
                self.stage = ReadStage::Body(BodyItem::FieldId(tag));
            }
            Err(fault) => self.stage = ReadStage::Refused(fault),
        }
    }

    /// Goes on behind the length of a text (Thrift binary protocol, 'Binary encoding').
    #[tactic(auto, using(crate::proofs::Steps::room_follows))]
    fn text(&mut self, number: i32)
        requires none_held { held_levels self.old.stage ≡ 0 }
        requires within { self.old.at ≤ self.old.most }
        ensures plan { GoesOnAs (size_plan (λ size. needs size (λ text. rest_plan self.old)) number) self.new }
        ensures place { IsSamePlace self.old self.new }
    {
        match size_within(number, self.most, self.at) {
            Ok(size) => self.sized_text(size),
            Err(fault) => self.stage = ReadStage::Refused(fault),
        }
    }

    /// Goes on behind the length of a text that stays within the message: an empty text is no item.
    #[tactic(auto, using(crate::proofs::Steps::none_needed))]
    fn sized_text(&mut self, size: u32)
        requires none_held { held_levels self.old.stage ≡ 0 }
        requires within { self.old.at + size ≤ self.old.most }
        ensures plan { GoesOnAs (needs size (λ text. rest_plan self.old)) self.new }
        ensures place { IsSamePlace self.old self.new }
    {
        if size == 0 {
            return self.settle();
        }
        self.stage = ReadStage::Body(BodyItem::Text(size));
    }

    /// Goes on behind the size of a list or set (Thrift binary protocol, 'List and Set').
    #[tactic(auto, using(crate::proofs::Steps::room_is))]
    fn items(&mut self, code: u8, number: i32)
        requires opening { held_levels self.old.stage ≡ 1 }
        requires within { self.old.at ≤ self.old.most }
        ensures plan { GoesOnAs (size_plan (λ size. items_coded_plan code size (opened_items self.old)) number) self.new }
        ensures place { IsSamePlace self.old self.new }
    {
        match size_within(number, self.most, self.at) {
            Ok(size) => self.sized_items(code, size),
            Err(fault) => self.stage = ReadStage::Refused(fault),
        }
    }

    /// Opens a list or set whose size stays within the message.
    fn sized_items(&mut self, code: u8, size: u32)
        requires opening { held_levels self.old.stage ≡ 1 }
        ensures plan { items_coded_plan code size (opened_items self.old) ≡ walk_plan self.new }
        ensures place { IsSamePlace self.old self.new }
    {
        match items_tag(code, size) {
            Ok(tag) => self.open(Level::Items(tag, size)),
            Err(fault) => self.stage = ReadStage::Refused(fault),
        }
    }

    /// Goes on behind the size of a map (Thrift binary protocol, 'Map').
    #[tactic(auto, using(crate::proofs::Steps::room_is))]
    fn pairs(&mut self, key: u8, value: u8, number: i32)
        requires opening { held_levels self.old.stage ≡ 1 }
        requires within { self.old.at ≤ self.old.most }
        ensures plan { GoesOnAs (size_plan (λ size. pairs_coded_plan key value size (opened_pairs self.old)) number) self.new }
        ensures place { IsSamePlace self.old self.new }
    {
        match size_within(number, self.most, self.at) {
            Ok(size) => self.sized_pairs(key, value, size),
            Err(fault) => self.stage = ReadStage::Refused(fault),
        }
    }

    /// Opens a map whose size stays within the message.
    fn sized_pairs(&mut self, key: u8, value: u8, size: u32)
        requires opening { held_levels self.old.stage ≡ 1 }
        ensures plan { pairs_coded_plan key value size (opened_pairs self.old) ≡ walk_plan self.new }
        ensures place { IsSamePlace self.old self.new }
    {
        match pair_tags(key, value, size) {
            Ok((key_tag, value_tag)) => self.open(Level::Keys(key_tag, value_tag, size)),
            Err(fault) => self.stage = ReadStage::Refused(fault),
        }
    }

    /// Goes on behind a whole head of this type with the struct of the arguments.
    fn call(&mut self, kind: u8)
        requires none_held { held_levels self.old.stage ≡ 0 }
        ensures plan { call_plan self.old.most kind ≡ walk_plan self.new }
        ensures place { IsSamePlace self.old self.new }
    {
        if kind == CALL {
            return self.arguments();
        }
        if kind == CALL_WITHOUT_REPLY {
            return self.arguments();
        }
        self.stage = ReadStage::Refused(StreamFault::Envelope(EnvelopeFault::MessageType(kind)));
    }

    /// Begins the struct of the arguments.
    fn arguments(&mut self)
        requires none_held { held_levels self.old.stage ≡ 0 }
        ensures plan { value_plan self.old.most most_levels Struct most_values (λ budget. ends) ≡ walk_plan self.new }
        ensures place { IsSamePlace self.old self.new }
    {
        self.levels = MOST_LEVELS;
        self.budget = MOST_VALUES;
        self.stack.clear();
        self.begin(Tag::Struct)
    }

    /// Goes on behind the first four bytes (Thrift binary protocol, 'Message').
    #[tactic(auto, using(crate::proofs::Steps::old_first, crate::proofs::Steps::strict_first))]
    fn first(&mut self, bytes: &[u8])
        requires whole { length bytes.now ≡ 4 }
        requires none_held { held_levels self.old.stage ≡ 0 }
        requires within { self.old.at ≤ self.old.most }
        ensures plan { GoesOnAs (either_plan self.old.most (signed_of w32 bytes.now) bytes.now) self.new }
        ensures place { IsSamePlace self.old self.new }
    {
        match size_of(number_in(bytes)) {
            Some(size) => self.old_name(size),
            None => self.strict(bytes),
        }
    }

    /// Goes on behind the first four bytes of a strict head.
    #[tactic(auto, using(crate::proofs::Steps::strict_begins, crate::proofs::Steps::other_version))]
    fn strict(&mut self, first: &[u8])
        requires whole { length first.now ≡ 4 }
        requires none_held { held_levels self.old.stage ≡ 0 }
        ensures plan { strict_plan self.old.most first.now ≡ walk_plan self.new }
        ensures place { IsSamePlace self.old self.new }
    {
        if !is_version(first) {
            self.stage = version_fault(first);
            return;
        }
        self.stage = ReadStage::Head(HeadItem::NameSize(first[3]));
    }

    /// Goes on behind the length of the name of a strict head.
    #[tactic(auto, using(crate::proofs::Steps::name_follows, crate::proofs::Steps::negative_name))]
    fn strict_name(&mut self, kind: u8, number: i32)
        requires none_held { held_levels self.old.stage ≡ 0 }
        requires within { self.old.at ≤ self.old.most }
        ensures plan { GoesOnAs (name_plan (id_plan self.old.most kind) number) self.new }
        ensures place { IsSamePlace self.old self.new }
    {
        match size_of(number) {
            Some(size) => self.stage = name_stage(kind, size),
            None => {
                self.stage = ReadStage::Refused(StreamFault::Envelope(EnvelopeFault::NameSize));
            }
        }
    }

    /// Goes on behind the length of the name of an old head.
    #[tactic(auto, using(crate::proofs::Steps::old_name_follows))]
    fn old_name(&mut self, size: u32)
        requires none_held { held_levels self.old.stage ≡ 0 }
        requires within { self.old.at ≤ self.old.most }
        ensures plan { GoesOnAs (needs size (λ name. byte_plan (λ kind. id_plan self.old.most kind))) self.new }
        ensures place { IsSamePlace self.old self.new }
    {
        self.stage = old_name_stage(size);
    }

    /// Takes the bytes of an item of the head.
    fn take_head(&mut self, item: HeadItem, bytes: &[u8])
        requires item { self.old.stage ≡ Head item }
        requires whole { head_len item ≡ length bytes.now }
        requires within { self.old.at ≤ self.old.most }
        ensures plan { GoesOnAs (head_next self.old.most item bytes.now) self.new }
        ensures place { IsSamePlace self.old self.new }
    {
        match item {
            HeadItem::First => self.first(bytes),
            HeadItem::NameSize(kind) => self.strict_name(kind, number_in(bytes)),
            HeadItem::Name(kind, _) => self.stage = ReadStage::Head(HeadItem::SequenceId(kind)),
            HeadItem::SequenceId(kind) => self.call(kind),
            HeadItem::OldName(_) => self.stage = ReadStage::Head(HeadItem::OldType),
            HeadItem::OldType => self.stage = ReadStage::Head(HeadItem::SequenceId(bytes[0])),
        }
    }

    /// Takes the bytes of an item of the struct.
    fn take_body(&mut self, item: BodyItem, bytes: &[u8])
        requires item { self.old.stage ≡ Body item }
        requires whole { body_len item ≡ length bytes.now }
        requires within { self.old.at ≤ self.old.most }
        ensures plan { GoesOnAs (body_next self.old item bytes.now) self.new }
        ensures place { IsSamePlace self.old self.new }
    {
        match item {
            BodyItem::FieldType(heads) => self.field(heads, bytes[0]),
            BodyItem::FieldId(tag) => self.begin(tag),
            BodyItem::Number(_) => self.settle(),
            BodyItem::TextSize => self.text(number_in(bytes)),
            BodyItem::Text(_) => self.settle(),
            BodyItem::ItemsType => self.stage = ReadStage::Body(BodyItem::ItemsSize(bytes[0])),
            BodyItem::ItemsSize(code) => self.items(code, number_in(bytes)),
            BodyItem::KeyType => self.stage = ReadStage::Body(BodyItem::ValueType(bytes[0])),
            BodyItem::ValueType(key) => self.stage = ReadStage::Body(BodyItem::PairsSize(
                key, bytes[0],
            )),
            BodyItem::PairsSize(key, value) => self.pairs(key, value, number_in(bytes)),
        }
    }

    /// Takes the bytes of the item under way.
    fn take(&mut self, bytes: &[u8])
        requires whole { stage_len self.old.stage ≡ length bytes.now }
        requires within { self.old.at ≤ self.old.most }
        ensures plan { GoesOnAs (stage_next self.old self.old.stage bytes.now) self.new }
        ensures place { IsSamePlace self.old self.new }
    {
        match self.stage {
            ReadStage::Head(item) => self.take_head(item, bytes),
            ReadStage::Body(item) => self.take_body(item, bytes),
            ReadStage::Whole => {}
            ReadStage::Refused(_) => {}
        }
    }

    /// Refuses the item that is to be read where it would pass the most bytes of the message.
    #[tactic(auto, using(crate::proofs::Steps::past_the_end))]
    fn fit(&mut self)
        requires within { self.old.at ≤ self.old.most }
        ensures plan { GoesOnAs (walk_plan self.old) self.new }
        ensures fits { self.new.at + stage_len self.new.stage ≤ self.new.most }
        ensures place { IsSamePlace self.old self.new }
    {
        if self.most - self.at < stage_len(self.stage) {
            self.stage = ReadStage::Refused(StreamFault::TooLong);
        }
    }

    /// Takes the bytes of the item under way, and goes on to the next one, to the end or to a fault.
    pub(crate) fn step(&mut self, bytes: &[u8])
        requires whole { stage_len self.old.stage ≡ length bytes.now }
        requires within { self.old.at + length bytes.now ≤ self.old.most }
        ensures plan { GoesOnAs (stage_next self.old self.old.stage bytes.now) self.new }
        ensures fits { self.new.at + stage_len self.new.stage ≤ self.new.most }
        ensures most { self.new.most ≡ self.old.most }
        ensures at { self.new.at ≡ self.old.at + length bytes.now }
    {
        let count = stage_len(self.stage);
        self.at += count;
        self.take(bytes);
        self.fit()
    }
}

/// The fault of a head with another version.
fn version_fault(first: &[u8]) -> ReadStage
    requires { length first.now ≡ 4 }
    ensures { result ≡ Refused (StreamFault.Envelope (Version (unsigned_of w32 first.now))) }
{
    ReadStage::Refused(StreamFault::Envelope(EnvelopeFault::Version(u32::from_be_bytes([
        first[0], first[1], first[2], first[3],
    ]))))
}

/// Whether a strict head begins so.
fn is_version(first: &[u8]) -> bool
    requires { length first.now ≡ 4 }
    ensures { result ≡ (slice_index first.now 0 == strict_mark && slice_index first.now 1 == strict_version) }
{
    if first[0] != STRICT_VERSION[0] {
        return false;
    }
    first[1] == STRICT_VERSION[1]
}
