//! The store and its functions.

ghost use Rattle.std.specs.Prelude.{◌≡◌, [], ◌∷◌, ◌++◌, map, OnOk};
ghost use Rattle.std.specs.Option.{option_map};
ghost use Rattle.thrift_value.specs.Tree.{of_bytes};
ghost use Rattle.thrift_value.specs.TreeOf.{tree_of};
ghost use Rattle.call_rules.specs.Answers.{plain_answer};
ghost use Rattle.call_rules.specs.StoreRule.{found_or_empty};

use call_rules::{Answer, Handler, Kind, are_shapes, argument, bytes_passed};
use std::alloc::{AllocError, Global};
use std::collections::BTreeMap;
use thrift_value::{ByteText, FnShapes, Items, Tag, Value};

/// The shapes of a store's functions.
const SHAPES: [&[u8]; 5] = [
    b"oneway forget(1:bytes):void",
    b"get(1:bytes):bytes",
    b"keys():list<bytes>",
    b"put(1:bytes,2:bytes):void",
    b"swap(1:bytes,2:bytes):bytes",
];

/// Texts by their keys.
#[derive(Drop)]
pub struct Store {
    // The text of each key.
    texts: BTreeMap<Vec<u8>, ByteText>,
}

/// The answer that has a text, where there is one.
#[tactic(auto, using(thrift_value::proofs::Trees::tree_equations))]
fn found_or_empty(found: Option<ByteText>) -> Answer
    ensures { plain_answer result ≡ found_or_empty (option_map of_bytes found) }
{
    match found {
        None => Answer::Empty,
        Some(text) => Answer::Success(Value::Bytes(text)),
    }
}

/// Adds a key to a list of values.
#[tactic(auto, using(thrift_value::proofs::Trees::tree_equations))]
fn put_key(keys: &mut Vec<Value>, alloc: Global, key: &Vec<u8>) -> Result<(), AllocError>
    ensures { OnOk result (map tree_of keys.new.items ≡ map tree_of keys.old.items ++ of_bytes key.now.items ∷ []) }
{
    let key = key.as_slice().to_vec(alloc)?;
    keys.push(Value::Bytes(ByteText::new(key)))?;
    Ok(())
}

impl Store {
    ghost use Rattle.std.specs.Prelude.{◌≡◌, map, IfOk, OnOk, OnErr};
    ghost use Rattle.std.specs.Option.{option_map, option_copied};
    ghost use Rattle.thrift_value.specs.declared.tag.Tag.TheVariants as tags;
    ghost use Rattle.thrift_value.specs.Tree.{of_bytes, of_list};
    ghost use Rattle.thrift_value.specs.TreeOf.{tree_of, item_trees};
    ghost use Rattle.call_rules.specs.declared.kind.Kind.TheVariants as kinds;
    ghost use Rattle.call_rules.specs.Answers.{plain_answer};
    ghost use Rattle.call_rules.specs.Handling.{new_service};
    ghost use Rattle.call_rules.specs.Memories.{pairs_in, texts_by, value_at_key, pairs_without, map_keys_of};
    ghost use Rattle.call_rules.specs.StoreRule.{found_or_empty, memory_with, get_answered, put_answered, swap_answered, forget_answered};
    ghost use Rattle.house_handlers.specs.Kept.{store_memory, store_service};

    /// Makes an empty store; takes no memory.
    pub fn new(alloc: Global) -> Self
        ensures { store_service result ≡ new_service kinds.Store }
    {
        Store {
            texts: BTreeMap::new(alloc),
        }
    }

    /// Keeps a text under a key, and gives back the one that was kept there.
    fn keep(
        &mut self,
        alloc: Global,
        key: &[u8],
        text: &[u8],
    ) -> Result<Option<ByteText>, AllocError>
        ensures found { IfOk result (λ old. option_map of_bytes old ≡ value_at_key (of_bytes key.now) (pairs_in (store_memory self.old))) }
        ensures kept { OnOk result (store_memory self.new ≡ memory_with (store_memory self.old) key.now text.now) }
        ensures err { OnErr result (store_memory self.new ≡ store_memory self.old) }
    {
        let key = key.to_vec(alloc)?;
        let text = text.to_vec(alloc)?;
        self.enter(key, ByteText::new(text))
    }

    /// Enters a text under a key, and gives back the one that was kept there.
    fn enter(&mut self, key: Vec<u8>, text: ByteText) -> Result<Option<ByteText>, AllocError>
        ensures found { IfOk result (λ old. option_map of_bytes old ≡ value_at_key (of_bytes key.items) (pairs_in (store_memory self.old))) }
        ensures kept { OnOk result (store_memory self.new ≡ memory_with (store_memory self.old) key.items text) }
        ensures err { OnErr result (store_memory self.new ≡ store_memory self.old) }
    {
        Ok(self.texts.insert(key, text)?)
    }

    /// The text that is kept under a key, where there is one.
    fn kept(&self, key: &[u8]) -> Option<&ByteText>
        ensures { option_map (λ text. of_bytes text) (option_copied result) ≡ value_at_key (of_bytes key.now) (pairs_in (store_memory self.now)) }
    {
        self.texts.get(key)
    }

    /// Takes a key out.
    fn take_out(&mut self, key: &[u8])
        ensures { store_memory self.new ≡ texts_by tags.Bytes (pairs_without (of_bytes key.now) (pairs_in (store_memory self.old))) }
    {
        let _text = self.texts.remove(key);
    }

    /// `get(key)`
    #[tactic(auto, unfolding(call_rules::specs::StoreRule::get_answered))]
    fn get(&self, alloc: Global, args: &Value) -> Result<Answer, AllocError>
        ensures answered { IfOk result (λ answer. plain_answer answer ≡ (get_answered (store_memory self.now) (tree_of args.now)).answer) }
        ensures still { OnOk result ((get_answered (store_memory self.now) (tree_of args.now)).memory ≡ store_memory self.now) }
    {
        let Some(key) = bytes_passed(argument(args, 1)) else {
            return Ok(Answer::Broken);
        };
        let text = self.copied(alloc, key)?;
        Ok(found_or_empty(text))
    }

    /// A copy of the text that is kept under a key, where there is one.
    fn copied(&self, alloc: Global, key: &[u8]) -> Result<Option<ByteText>, AllocError>
        ensures { IfOk result (λ found. option_map of_bytes found ≡ value_at_key (of_bytes key.now) (pairs_in (store_memory self.now))) }
    {
        match self.kept(key) {
            None => Ok(None),
            Some(text) => Ok(Some(text.try_clone(alloc)?)),
        }
    }

    /// `put(key, value)`
    #[tactic(auto, unfolding(call_rules::specs::StoreRule::put_answered))]
    fn put(&mut self, alloc: Global, args: &Value) -> Result<Answer, AllocError>
        ensures answered { IfOk result (λ answer. plain_answer answer ≡ (put_answered (store_memory self.old) (tree_of args.now)).answer) }
        ensures moved { OnOk result (store_memory self.new ≡ (put_answered (store_memory self.old) (tree_of args.now)).memory) }
        ensures err { OnErr result (store_memory self.new ≡ store_memory self.old) }
    {
        let Some(key) = bytes_passed(argument(args, 1)) else {
            return Ok(Answer::Broken);
        };
        let Some(text) = bytes_passed(argument(args, 2)) else {
            return Ok(Answer::Broken);
        };
        self.keep(alloc, key, text)?;
        Ok(Answer::Empty)
    }

    /// `swap(key, value)`
    #[tactic(auto, unfolding(call_rules::specs::StoreRule::swap_answered))]
    fn swap(&mut self, alloc: Global, args: &Value) -> Result<Answer, AllocError>
        ensures answered { IfOk result (λ answer. plain_answer answer ≡ (swap_answered (store_memory self.old) (tree_of args.now)).answer) }
        ensures moved { OnOk result (store_memory self.new ≡ (swap_answered (store_memory self.old) (tree_of args.now)).memory) }
        ensures err { OnErr result (store_memory self.new ≡ store_memory self.old) }
    {
        let Some(key) = bytes_passed(argument(args, 1)) else {
            return Ok(Answer::Broken);
        };
        let Some(text) = bytes_passed(argument(args, 2)) else {
            return Ok(Answer::Broken);
        };
        let old = self.keep(alloc, key, text)?;
        Ok(found_or_empty(old))
    }

    /// `forget(key)`
    #[tactic(auto, unfolding(call_rules::specs::StoreRule::forget_answered))]
    fn forget(&mut self, args: &Value) -> Answer
        ensures answered { plain_answer result ≡ (forget_answered (store_memory self.old) (tree_of args.now)).answer }
        ensures moved { store_memory self.new ≡ (forget_answered (store_memory self.old) (tree_of args.now)).memory }
    {
        let Some(key) = bytes_passed(argument(args, 1)) else {
            return Answer::Broken;
        };
        self.take_out(key);
        Answer::Empty
    }

    /// The keys, in order.
    fn keys(&self, alloc: Global) -> Result<Value, AllocError>
        ensures { IfOk result (λ value. tree_of value ≡ of_list tags.Bytes (map_keys_of (pairs_in (store_memory self.now)))) }
    {
        let keys = self.listed_keys(alloc)?;
        Ok(Value::List(Tag::Bytes, Items::new(keys)))
    }

    fn listed_keys(&self, alloc: Global) -> Result<Vec<Value>, AllocError>
        ensures { IfOk result (λ keys. item_trees (map tree_of keys.items) ≡ map_keys_of (pairs_in (store_memory self.now))) }
    {
        let mut keys = Vec::with_capacity(alloc, self.texts.len())?;
        for key in self.texts.keys() {
            put_key(&mut keys, alloc, key)?;
        }
        Ok(keys)
    }
}

impl Store {
    ghost use Rattle.std.specs.Prelude.{◌≡◌, IfOk, OnOk, OnErr};
    ghost use Rattle.thrift_value.specs.TreeOf.{tree_of};
    ghost use Rattle.call_rules.specs.Answers.{plain_answer};
    ghost use Rattle.call_rules.specs.Handling.{handled, service_after};
    ghost use Rattle.house_handlers.specs.Kept.{store_service};

    /// Answers a call.
    fn respond(&mut self, alloc: Global, method: &[u8], args: &Value) -> Result<Answer, AllocError>
        ensures answered { IfOk result (λ answer. plain_answer answer ≡ (handled (store_service self.old) method.now (tree_of args.now)).answer) }
        ensures moved { OnOk result (store_service self.new ≡ service_after (store_service self.old) method.now (tree_of args.now)) }
        ensures err { OnErr result (store_service self.new ≡ store_service self.old) }
    {
        if method == b"get".as_slice() {
            return self.get(alloc, args);
        }
        if method == b"put".as_slice() {
            return self.put(alloc, args);
        }
        if method == b"swap".as_slice() {
            return self.swap(alloc, args);
        }
        if method == b"keys".as_slice() {
            return Ok(Answer::Success(self.keys(alloc)?));
        }
        if method == b"forget".as_slice() {
            return Ok(self.forget(args));
        }
        Ok(Answer::Broken)
    }
}

impl Handler for Store {
    ghost use Rattle.house_handlers.specs.Kept.{store_service};

    ghost service = { store_service };

    fn kind(&self) -> Kind {
        Kind::Store
    }

    fn suits(&self, shapes: &FnShapes) -> bool {
        are_shapes(shapes, &SHAPES)
    }

    fn answer(&mut self, alloc: Global, method: &[u8], args: &Value) -> Result<Answer, AllocError> {
        self.respond(alloc, method, args)
    }
}
