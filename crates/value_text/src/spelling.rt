//! Hands the texts of values to a sink, and takes no memory.
ghost use Rattle.std.specs.Prelude.{◌≡◌, ◌++◌, ◌<◌, ◌≤◌, ◌∷◌, [], codes, drop, length, map, IfOk, IfSome, MatchResult, if◌then◌else◌};
ghost use Rattle.std.specs.Int.{w64, w128, to_be_bytes};
ghost use Rattle.std.specs.List.{flat_map, prefix_len};
ghost use Rattle.streams.specs.Cause.{HasCause};
ghost use Rattle.streams.specs.Content.{told_more};
ghost use Rattle.text_out.specs.Decimal.{decimal_of};
ghost use Rattle.text_out.specs.Hex.{hex_of};
ghost use Rattle.text_out.specs.Quoted.{quoted_byte, quoted_of};
ghost use Rattle.thrift_value.specs.Measures.{depth_of};
ghost use Rattle.thrift_value.specs.Tidy.{IsTidy};
ghost use Rattle.thrift_value.specs.TreeOf.{tree_of, field_tree, pair_tree, field_trees, item_trees, pair_trees};
ghost use Rattle.value_text.specs.Handing.{HandsOver, HandsText, BreaksOff};
ghost use Rattle.value_text.specs.Plain.{is_plain};
ghost use Rattle.value_text.specs.ValueText.{tag_word, number_and_letter, double_text, uuid_text, tree_text, listed_fields, listed_items, listed_pairs, further_fields, further_items, further_pairs};

use crate::numbered::{MOST_NUMBER, MOST_NUMBERED, put_number, put_numbered};
use crate::words::word_of;
use streams::{Failed, Sink};
use thrift_value::{Tag, Value};

const HEX_DIGITS: &[u8; 16] = b"0123456789abcdef";

/// Writes the text of a value into a sink, part by part; takes no memory. Where the sink fails, a beginning of it may have been taken.
pub fn spell<K: Sink>(value: &Value, out: &mut K) -> Result<(), Failed>
    requires tidy { IsTidy (tree_of value.now) }
    requires levels { depth_of (tree_of value.now) ≤ 64 }
    ensures told { MatchResult result
        (λ _. K.taken out.new ≡ told_more (K.taken out.old) (tree_text (tree_of value.now)))
        (λ _. BreaksOff (K.taken out.old) (K.taken out.new) (K.faults out.old) (K.faults out.new) (tree_text (tree_of value.now))) }
    ensures cause { HasCause (K.faults out.old) (K.faults out.new) result }
{
    spell_value(out, value)
}

/// Writes bytes until the sink took them all.
#[inline(always)]
pub fn hand_over<K: Sink>(out: &mut K, bytes: &[u8]) -> Result<(), Failed>
    ensures { HandsText (K.taken out.old) (K.taken out.new) (K.faults out.old) (K.faults out.new) bytes.now result }
{
    let mut rest = bytes;
    'pieces: while !rest.is_empty() {
        let count = out.write(rest)?;
        let (_, behind) = rest.split_at(count);
        rest = behind;
    }
    Ok(())
}

/// Writes a number and the letter of its type.
fn spell_number<K: Sink>(out: &mut K, number: i64, letter: u8) -> Result<(), Failed>
    ensures { HandsText (K.taken out.old) (K.taken out.new) (K.faults out.old) (K.faults out.new) (number_and_letter number (letter ∷ [])) result }
{
    match digit_of(number) {
        Some(digit) => hand_over(out, &[digit, letter]),
        None => spell_digits(out, number, letter),
    }
}

/// The digit of a number from 0 to 9.
#[tactic(auto, using(crate::proofs::Digits::digit_is))]
fn digit_of(number: i64) -> Option<u8>
    ensures { IfSome result (λ digit. decimal_of number ≡ digit ∷ []) }
{
    match u8::try_from(number) {
        Ok(small) if small < 10 => Some(b'0' + small),
        _ => None,
    }
}

/// Writes a number of any size and the letter of its type.
fn spell_digits<K: Sink>(out: &mut K, number: i64, letter: u8) -> Result<(), Failed>
    ensures { HandsText (K.taken out.old) (K.taken out.new) (K.faults out.old) (K.faults out.new) (number_and_letter number (letter ∷ [])) result }
{
    let mut room = [0; MOST_NUMBER];
    let start = put_number(&mut room, number, letter);
    let (_, text) = room.split_at(start);
    hand_over(out, text)
}

/// Writes a mark, and the id of a field with the `=` behind it.
fn spell_id<K: Sink>(out: &mut K, mark: u8, id: &i16) -> Result<(), Failed>
    ensures { HandsText (K.taken out.old) (K.taken out.new) (K.faults out.old) (K.faults out.new) (mark ∷ number_and_letter id.now (codes "=")) result }
{
    let number = i64::from(*id);
    match digit_of(number) {
        Some(digit) => hand_over(out, &[mark, digit, b'=']),
        None => spell_long_id(out, mark, number),
    }
}

/// Writes the same of an id of any size.
fn spell_long_id<K: Sink>(out: &mut K, mark: u8, number: i64) -> Result<(), Failed>
    ensures { HandsText (K.taken out.old) (K.taken out.new) (K.faults out.old) (K.faults out.new) (mark ∷ number_and_letter number (codes "=")) result }
{
    hand_over(out, &[mark])?;
    spell_digits(out, number, b'=')
}

fn spell_tag<K: Sink>(out: &mut K, tag: Tag) -> Result<(), Failed>
    ensures { HandsText (K.taken out.old) (K.taken out.new) (K.faults out.old) (K.faults out.new) (tag_word tag) result }
{
    hand_over(out, word_of(tag).as_bytes())
}

fn spell_bool<K: Sink>(out: &mut K, truth: bool) -> Result<(), Failed>
    ensures { HandsText (K.taken out.old) (K.taken out.new) (K.faults out.old) (K.faults out.new) (if truth then codes "true" else codes "false") result }
{
    if truth {
        return hand_over(out, b"true");
    }
    hand_over(out, b"false")
}

fn spell_double<K: Sink>(out: &mut K, bits: u64) -> Result<(), Failed>
    ensures { HandsText (K.taken out.old) (K.taken out.new) (K.faults out.old) (K.faults out.new) (double_text bits) result }
{
    hand_over(out, b"d")?;
    spell_bits(out, bits)
}

/// Writes 64 bits as hexadecimal digits, the highest first.
fn spell_bits<K: Sink>(out: &mut K, bits: u64) -> Result<(), Failed>
    ensures { HandsText (K.taken out.old) (K.taken out.new) (K.faults out.old) (K.faults out.new) (hex_of (to_be_bytes w64 bits)) result }
{
    spell_hex(out, &bits.to_be_bytes())
}

fn spell_uuid<K: Sink>(out: &mut K, number: u128) -> Result<(), Failed>
    ensures { HandsText (K.taken out.old) (K.taken out.new) (K.faults out.old) (K.faults out.new) (uuid_text number) result }
{
    hand_over(out, b"u")?;
    spell_wide(out, number)
}

/// Writes 128 bits as hexadecimal digits, the highest first.
fn spell_wide<K: Sink>(out: &mut K, number: u128) -> Result<(), Failed>
    ensures { HandsText (K.taken out.old) (K.taken out.new) (K.faults out.old) (K.faults out.new) (hex_of (to_be_bytes w128 number)) result }
{
    spell_hex(out, &number.to_be_bytes())
}

/// Writes each byte as two hexadecimal digits.
fn spell_hex<K: Sink>(out: &mut K, bytes: &[u8]) -> Result<(), Failed>
    ensures { HandsText (K.taken out.old) (K.taken out.new) (K.faults out.old) (K.faults out.new) (hex_of bytes.now) result }
{
    for byte in bytes {
        spell_two_digits(out, *byte)?;
    }
    Ok(())
}

/// Writes a byte as two hexadecimal digits.
fn spell_two_digits<K: Sink>(out: &mut K, byte: u8) -> Result<(), Failed>
    ensures { HandsText (K.taken out.old) (K.taken out.new) (K.faults out.old) (K.faults out.new) (hex_of (byte ∷ [])) result }
{
    hand_over(out, &digits_of(byte))
}

/// The two hexadecimal digits of a byte.
fn digits_of(byte: u8) -> [u8; 2]
    ensures { result ≡ hex_of (byte ∷ []) }
{
    [
        HEX_DIGITS[byte as usize / 16],
        HEX_DIGITS[byte as usize % 16],
    ]
}

/// Writes bytes between quotation marks.
fn spell_quoted<K: Sink>(out: &mut K, bytes: &[u8]) -> Result<(), Failed>
    ensures { HandsText (K.taken out.old) (K.taken out.new) (K.faults out.old) (K.faults out.new) (quoted_of bytes.now) result }
{
    hand_over(out, b"\"")?;
    spell_each_byte(out, bytes)?;
    hand_over(out, b"\"")
}

/// Writes the bytes between quotation marks.
fn spell_each_byte<K: Sink>(out: &mut K, bytes: &[u8]) -> Result<(), Failed>
    ensures { HandsText (K.taken out.old) (K.taken out.new) (K.faults out.old) (K.faults out.new) (flat_map quoted_byte bytes.now) result }
{
    let mut rest = bytes;
    'runs: while !rest.is_empty() {
        let count = spell_run(out, rest)?;
        let (_, more) = rest.split_at(count);
        rest = more;
    }
    Ok(())
}

/// Writes the plain bytes in front, or where there are none the first byte; answers how many bytes that were.
fn spell_run<K: Sink>(out: &mut K, bytes: &[u8]) -> Result<usize, Failed>
    requires { 0 < length bytes.now }
    ensures told { MatchResult result
        (λ count. HandsOver (K.taken out.old) (K.taken out.new) (K.faults out.old) (K.faults out.new) (flat_map quoted_byte bytes.now) (flat_map quoted_byte (drop count bytes.now)))
        (λ _. BreaksOff (K.taken out.old) (K.taken out.new) (K.faults out.old) (K.faults out.new) (flat_map quoted_byte bytes.now)) }
    ensures count { IfOk result (λ count. 0 < count × count ≤ length bytes.now) }
{
    let count = plain_run(bytes);
    if count == 0 {
        spell_byte(out, bytes[0])?;
        return Ok(1);
    }
    let (plain, _) = bytes.split_at(count);
    hand_over(out, plain)?;
    Ok(count)
}

/// How many bytes in front stand between quotation marks as they are.
fn plain_run(bytes: &[u8]) -> usize
    ensures exact { result ≡ prefix_len is_plain bytes.now }
    ensures bound { result ≤ length bytes.now }
{
    bytes.iter().take_while(|byte| is_plain(**byte)).count()
}

fn is_plain(byte: u8) -> bool
    ensures { result ≡ is_plain byte }
{
    match byte {
        b'"' | b'\\' => false,
        0x20..=0x7e => true,
        _ => false,
    }
}

/// Writes a byte as it stands between quotation marks.
fn spell_byte<K: Sink>(out: &mut K, byte: u8) -> Result<(), Failed>
    ensures { HandsText (K.taken out.old) (K.taken out.new) (K.faults out.old) (K.faults out.new) (quoted_byte byte) result }
{
    match byte {
        b'"' => hand_over(out, b"\\\""),
        b'\\' => hand_over(out, b"\\\\"),
        0x20..=0x7e => hand_over(out, &[byte]),
        _ => spell_escaped(out, byte),
    }
}

/// Writes a byte as an escape of two hexadecimal digits.
fn spell_escaped<K: Sink>(out: &mut K, byte: u8) -> Result<(), Failed>
    ensures { HandsText (K.taken out.old) (K.taken out.new) (K.faults out.old) (K.faults out.new) (92 ∷ 120 ∷ hex_of (byte ∷ [])) result }
{
    let [high, low] = digits_of(byte);
    hand_over(out, &[b'\\', b'x', high, low])
}

/// Writes the text of any value, as a part of a longer text that a sink takes; takes no memory. It recurses once a level.
#[tactic(auto, using(thrift_value::proofs::Trees::tree_equations))]
#[cycle(value_speller)]
pub fn spell_value<K: Sink>(out: &mut K, value: &Value) -> Result<(), Failed>
    ensures { HandsText (K.taken out.old) (K.taken out.new) (K.faults out.old) (K.faults out.new) (tree_text (tree_of value.now)) result }
{
    match value {
        Value::Bool(truth) => spell_bool(out, *truth),
        Value::I8(n) => spell_number(out, i64::from(*n), b'b'),
        Value::I16(n) => spell_number(out, i64::from(*n), b's'),
        Value::I32(n) => spell_number(out, i64::from(*n), b'i'),
        Value::I64(n) => spell_number(out, *n, b'l'),
        Value::Double(bits) => spell_double(out, *bits),
        Value::Uuid(uuid) => spell_uuid(out, uuid.number()),
        Value::Bytes(text) => spell_quoted(out, text.as_slice()),
        Value::Struct(fields) => spell_struct(out, fields.as_slice()),
        Value::Map(key, value, pairs) => spell_map(out, *key, *value, pairs.as_slice()),
        Value::Set(element, items) => spell_collection(out, b"set<", *element, items.as_slice()),
        Value::List(element, items) => spell_collection(out, b"list<", *element, items.as_slice()),
    }
}

/// Writes a struct.
#[cycle(value_speller)]
fn spell_struct<K: Sink>(out: &mut K, fields: &[(i16, Value)]) -> Result<(), Failed>
    ensures { HandsText (K.taken out.old) (K.taken out.new) (K.faults out.old) (K.faults out.new)
        ((codes "{" ++ listed_fields (field_trees (map field_tree fields.now))) ++ codes "}") result }
{
    spell_fields(out, fields)?;
    hand_over(out, b"}")
}

/// Writes a map.
#[cycle(value_speller)]
fn spell_map<K: Sink>(
    out: &mut K,
    key: Tag,
    value: Tag,
    pairs: &[(Value, Value)],
) -> Result<(), Failed>
    ensures { HandsText (K.taken out.old) (K.taken out.new) (K.faults out.old) (K.faults out.new)
        ((codes "map<" ++ (tag_word key ++ (codes "," ++ (tag_word value ++ codes ">{"))))
        ++ (listed_pairs (pair_trees (map pair_tree pairs.now)) ++ codes "}")) result }
{
    spell_map_head(out, key, value)?;
    spell_pairs(out, pairs)?;
    hand_over(out, b"}")
}

/// Writes a set or a list, with the word of which it is.
#[cycle(value_speller)]
fn spell_collection<K: Sink>(
    out: &mut K,
    word: &[u8],
    element: Tag,
    items: &[Value],
) -> Result<(), Failed>
    ensures { HandsText (K.taken out.old) (K.taken out.new) (K.faults out.old) (K.faults out.new)
        ((word.now ++ (tag_word element ++ codes ">[")) ++ (listed_items (item_trees (map tree_of items.now)) ++ codes "]")) result }
{
    spell_head(out, word, element)?;
    spell_items(out, items)?;
    hand_over(out, b"]")
}

/// Writes the word of a set or a list with its tag, and what opens its elements.
fn spell_head<K: Sink>(out: &mut K, word: &[u8], element: Tag) -> Result<(), Failed>
    ensures { HandsText (K.taken out.old) (K.taken out.new) (K.faults out.old) (K.faults out.new)
        (word.now ++ (tag_word element ++ codes ">[")) result }
{
    hand_over(out, word)?;
    spell_tag(out, element)?;
    hand_over(out, b">[")
}

/// Writes the word of a map with its tags, and what opens its pairs.
fn spell_map_head<K: Sink>(out: &mut K, key: Tag, value: Tag) -> Result<(), Failed>
    ensures { HandsText (K.taken out.old) (K.taken out.new) (K.faults out.old) (K.faults out.new)
        (codes "map<" ++ (tag_word key ++ (codes "," ++ (tag_word value ++ codes ">{")))) result }
{
    hand_over(out, b"map<")?;
    spell_tag(out, key)?;
    hand_over(out, b",")?;
    spell_tag(out, value)?;
    hand_over(out, b">{")
}

/// Writes what opens a struct, and its fields with commas between them.
#[cycle(value_speller)]
fn spell_fields<K: Sink>(out: &mut K, fields: &[(i16, Value)]) -> Result<(), Failed>
    ensures { HandsText (K.taken out.old) (K.taken out.new) (K.faults out.old) (K.faults out.new)
        (codes "{" ++ listed_fields (field_trees (map field_tree fields.now))) result }
{
    let Some((first, more)) = fields.split_first() else {
        return hand_over(out, b"{");
    };
    let (id, value) = first;
    spell_field(out, b'{', id, value)?;
    for (id, value) in more {
        spell_field(out, b',', id, value)?;
    }
    Ok(())
}

/// Writes a mark, and a field's id and its value.
#[cycle(value_speller)]
fn spell_field<K: Sink>(out: &mut K, mark: u8, id: &i16, value: &Value) -> Result<(), Failed>
    ensures { HandsText (K.taken out.old) (K.taken out.new) (K.faults out.old) (K.faults out.new)
        ((mark ∷ number_and_letter id.now (codes "=")) ++ tree_text (tree_of value.now)) result }
{
    if let Some((number, letter)) = number_of(value) {
        return spell_numbered(out, mark, *id, number, letter);
    }
    spell_id(out, mark, id)?;
    spell_value(out, value)
}

/// The number which a value is, and the letter of its type.
#[tactic(auto, using(thrift_value::proofs::Trees::tree_equations))]
#[inline(always)]
fn number_of(value: &Value) -> Option<(i64, u8)>
    ensures { IfSome result (λ found. tree_text (tree_of value.now) ≡ number_and_letter found.0 (found.1 ∷ [])) }
{
    match value {
        Value::I8(n) => Some((i64::from(*n), b'b')),
        Value::I16(n) => Some((i64::from(*n), b's')),
        Value::I32(n) => Some((i64::from(*n), b'i')),
        Value::I64(n) => Some((*n, b'l')),
        _ => None,
    }
}

/// Writes a mark, a field's id, and a number with the letter of its type.
#[inline(always)]
fn spell_numbered<K: Sink>(
    out: &mut K,
    mark: u8,
    id: i16,
    number: i64,
    letter: u8,
) -> Result<(), Failed>
    ensures { HandsText (K.taken out.old) (K.taken out.new) (K.faults out.old) (K.faults out.new)
        ((mark ∷ number_and_letter id (codes "=")) ++ number_and_letter number (letter ∷ [])) result }
{
    let mut room = [0; MOST_NUMBERED];
    let start = put_numbered(&mut room, mark, id, number, letter);
    let (_, text) = room.split_at(start);
    hand_over(out, text)
}

/// Writes elements with commas between them.
#[cycle(value_speller)]
fn spell_items<K: Sink>(out: &mut K, items: &[Value]) -> Result<(), Failed>
    ensures { HandsText (K.taken out.old) (K.taken out.new) (K.faults out.old) (K.faults out.new) (listed_items (item_trees (map tree_of items.now))) result }
{
    let Some((first, more)) = items.split_first() else {
        return Ok(());
    };
    spell_value(out, first)?;
    for item in more {
        spell_next_item(out, item)?;
    }
    Ok(())
}

/// Writes a comma and an element, or a key.
#[cycle(value_speller)]
fn spell_next_item<K: Sink>(out: &mut K, item: &Value) -> Result<(), Failed>
    ensures { HandsText (K.taken out.old) (K.taken out.new) (K.faults out.old) (K.faults out.new)
        (codes "," ++ tree_text (tree_of item.now)) result }
{
    hand_over(out, b",")?;
    spell_value(out, item)
}

/// Writes pairs with commas between them.
#[cycle(value_speller)]
fn spell_pairs<K: Sink>(out: &mut K, pairs: &[(Value, Value)]) -> Result<(), Failed>
    ensures { HandsText (K.taken out.old) (K.taken out.new) (K.faults out.old) (K.faults out.new) (listed_pairs (pair_trees (map pair_tree pairs.now))) result }
{
    let Some((first, more)) = pairs.split_first() else {
        return Ok(());
    };
    let (key, value) = first;
    spell_value(out, key)?;
    spell_mapped(out, value)?;
    for (key, value) in more {
        spell_next_item(out, key)?;
        spell_mapped(out, value)?;
    }
    Ok(())
}

/// Writes the value of a key.
#[cycle(value_speller)]
fn spell_mapped<K: Sink>(out: &mut K, value: &Value) -> Result<(), Failed>
    ensures { HandsText (K.taken out.old) (K.taken out.new) (K.faults out.old) (K.faults out.new) (codes "=" ++ tree_text (tree_of value.now)) result }
{
    hand_over(out, b"=")?;
    spell_value(out, value)
}
