//! Reading run files.
ghost use Rattle.std.specs.Prelude.{◌≡◌, ◌≤◌, ◌++◌, ◌∷◌, [], map, IfOk, string_bytes, None, Some, OnOk};
ghost use Rattle.std.specs.BTreeMap.{keys};
ghost use Rattle.std.specs.List.{list_all};
ghost use Rattle.std.specs.Result.{IfErr};
ghost use Rattle.board_types.specs.Keys.{last_stamp};
ghost use Rattle.std.specs.Option.{ok_or, option_map};
ghost use Rattle.serde_json.specs.View.{view, items_view};
ghost use Rattle.loader.specs.RunFile.{Answers, FaultAnswer, IsBadList, clocks_of, entries_in, entries_of, entry_fault, entry_from, entry_of, has_only_fields, is_field, is_field_of, key_of, keys_of, number_of, number_within, pair_of, run_of, run_of_text, text_of, timer_of, u64_of};

use crate::run_fault::RunFault;
use crate::run_file::{KeyEntry, RunFile};
use board_types::choice::{ClockTable, TimerKind};
use board_types::clock::Clock;
use board_types::keys::{KeyFault, Keys};
use serde_json::{Map, Value};
use std::alloc::Global;

/// Reads the JSON value of a run file: an object with the fields `version` (1 or 2), `ram` (0 to 65,535), `sw1` (0 to
/// 255), `sw2` (0 to 31), `budget` and `keys` (a list of `[stamp, code]`), in version 2 also `timer` ("8253" or "8254")
/// and `clocks` ("C1" or "C2"), all of them and no others. A run file of version 1 has the 8253 and table C1. Refused
/// as `BadField` if a field is missing, unknown, of another kind or out of its range, or a stamp is above 2^40; else as
/// `BudgetTooLarge` if the budget is above 2^40; else by the first key that isn't taken, as `BadScan` if no key has its
/// code, or else as `StampsFall` if the key before it has a later stamp. `Memory` may come in place of any answer.
#[tactic(auto, unfolding(crate::specs::RunFile::run_of))]
pub fn read_run(alloc: Global, value: &Value) -> Result<RunFile, RunFault>
    ensures meant { Answers result (run_of (view value.now)) }
{
    let version = number_within(value, "version", 1, 2)?;
    if !has_only_fields(value, version) {
        return Err(RunFault::BadField);
    }
    let timer = timer_of(value, version).ok_or(RunFault::BadField)?;
    let clocks = clocks_of(value, version).ok_or(RunFault::BadField)?;
    let ram_kb = number_within(value, "ram", 0, u16::MAX as u64)? as u16;
    let sw1 = number_within(value, "sw1", 0, u8::MAX as u64)? as u8;
    let sw2 = number_within(value, "sw2", 0, 31)? as u8;
    let budget = number(value, "budget").ok_or(RunFault::BadField)?;
    let entries = entries_in(alloc, value.get("keys"))?;
    let budget = Clock::new(budget).ok_or(RunFault::BudgetTooLarge)?;
    let keys = keys_of(alloc, entries.as_slice())?;
    Ok(RunFile {
        ram_kb,
        sw1,
        sw2,
        timer,
        clocks,
        budget,
        keys,
    })
}

/// Reads the text of a run file, which says how a board is run. `NotJson` if the text isn't UTF-8 or no JSON value;
/// else refused as its value is: a field that is bad, a budget that is too large, or a key that isn't taken.
#[tactic(auto, using(crate::proofs::Fields::value_refused), unfolding(crate::specs::RunFile::run_of_text))]
pub fn read_run_text(alloc: Global, text: &[u8]) -> Result<RunFile, RunFault>
    ensures meant { Answers result (run_of_text text.now) }
{
    match Value::from_slice(alloc, text) {
        Ok(value) => read_run(alloc, &value),
        Err(error) if error.is_memory() => Err(RunFault::Memory),
        Err(_) => Err(RunFault::NotJson),
    }
}

/// Whether the run file's value is an object that has no field but those of its version; any other makes it a
/// `BadField`.
#[tactic(auto, unfolding(crate::specs::RunFile::has_only_fields), using(crate::proofs::Fields::are_fields_view))]
fn has_only_fields(value: &Value, version: u64) -> bool
    ensures { result ≡ has_only_fields version (view value.now) }
{
    match value.as_object() {
        Some(members) => are_fields(members, version),
        None => false,
    }
}

/// Whether each member of the run file's object has the name of a field of this version.
fn are_fields(members: &Map<String, Value>, version: u64) -> bool
    ensures { result ≡ list_all (λ name. is_field_of version (string_bytes name)) (keys members.now) }
{
    members
        .keys()
        .all(|name| is_field_of(name.as_str(), version))
}

/// Whether a run file of this version, 1 or 2, has a field of this name.
#[tactic(auto, unfolding(crate::specs::RunFile::is_field_of))]
fn is_field_of(name: &str, version: u64) -> bool
    ensures { result ≡ is_field_of version name.now }
{
    is_field(name) || version == 2 && (name == "timer" || name == "clocks")
}

/// Whether run files of each version have a field of this name; those of version 2 have two more.
#[tactic(auto, unfolding(crate::specs::RunFile::is_field))]
fn is_field(name: &str) -> bool
    ensures { result ≡ is_field name.now }
{
    name == "version"
        || name == "ram"
        || name == "sw1"
        || name == "sw2"
        || name == "budget"
        || name == "keys"
}

/// Which chip the run file says the timer is: the 8253 in version 1. `None` if the field `timer` is missing or names
/// neither chip, which makes it a `BadField`.
#[tactic(auto, unfolding(crate::specs::RunFile::timer_of))]
fn timer_of(value: &Value, version: u64) -> Option<TimerKind>
    ensures { result ≡ timer_of version (view value.now) }
{
    if version != 2 {
        return Some(TimerKind::I8253);
    }
    match text(value, "timer")? {
        "8253" => Some(TimerKind::I8253),
        "8254" => Some(TimerKind::I8254),
        _ => None,
    }
}

/// By which clock table the run file says the processor counts: C1 in version 1. `None` if the field `clocks` is
/// missing or names neither table, which makes it a `BadField`.
#[tactic(auto, unfolding(crate::specs::RunFile::clocks_of))]
fn clocks_of(value: &Value, version: u64) -> Option<ClockTable>
    ensures { result ≡ clocks_of version (view value.now) }
{
    if version != 2 {
        return Some(ClockTable::C1);
    }
    match text(value, "clocks")? {
        "C1" => Some(ClockTable::C1),
        "C2" => Some(ClockTable::C2),
        _ => None,
    }
}

/// Reads the field `keys` of a run file as entries, whose keys are judged later. `BadField` if it is missing or no list
/// of pairs of numbers.
#[tactic(auto, unfolding(crate::specs::RunFile::entries_in))]
fn entries_in(alloc: Global, field: Option<&Value>) -> Result<Vec<KeyEntry>, RunFault>
    ensures found { IfOk result (λ entries. entries_in (option_map (λ value. view value.now) field.entry)
        ≡ Some entries.items) }
    ensures refused { IfErr result (λ fault. IsBadList fault
        (entries_in (option_map (λ value. view value.now) field.entry))) }
{
    match field.and_then(Value::as_array) {
        Some(values) => entries_of(alloc, values.as_slice()),
        None => Err(RunFault::BadField),
    }
}

/// Reads the elements of a run file's list of keys, each as `[stamp, code]`. `BadField` if one isn't such a pair.
fn entries_of(alloc: Global, values: &[Value]) -> Result<Vec<KeyEntry>, RunFault>
    ensures found { IfOk result (λ entries. entries_of (items_view values.now) ≡ Some entries.items) }
    ensures refused { IfErr result (λ fault. IsBadList fault (entries_of (items_view values.now))) }
{
    let mut entries = Vec::new(alloc);
    for value in values {
        match entry_of(value) {
            Some(entry) => entries.push(entry)?,
            None => return Err(RunFault::BadField),
        }
    }
    Ok(entries)
}

/// Reads an element of a run file's list of keys; `None` if it is no list `[stamp, code]`.
#[tactic(auto, unfolding(crate::specs::RunFile::entry_of))]
fn entry_of(value: &Value) -> Option<KeyEntry>
    ensures { result ≡ entry_of (view value.now) }
{
    pair_of(value.as_array()?.as_slice())
}

/// Reads the elements of a key's entry in a run file; `None` unless there are just two, its stamp and its code.
fn pair_of(values: &[Value]) -> Option<KeyEntry>
    ensures { result ≡ pair_of (items_view values.now) }
{
    match values {
        [stamp, code] => written_key(stamp, code),
        [] => None,
        [_] => None,
        [_, _, _, ..] => None,
    }
}

/// Reads the stamp and code of a key's entry in a run file; `None` if one is no natural number, or the stamp is above
/// 2^40. Whether a key has the code is judged later.
fn written_key(stamp: &Value, code: &Value) -> Option<KeyEntry>
    ensures { result ≡ entry_from (u64_of (view stamp.now)) (u64_of (view code.now)) }
{
    let stamp = Clock::new(stamp.as_u64()?)?;
    let code = code.as_u64()?;
    Some(KeyEntry { stamp, code })
}

/// The keys that reach the keyboard in a run, from the entries of its file, in order; or the fault of the first that
/// isn't taken.
#[tactic(auto, unfolding(crate::specs::RunFile::keys_of))]
fn keys_of(alloc: Global, entries: &[KeyEntry]) -> Result<Keys, RunFault>
    ensures { Answers result (keys_of entries.now) }
{
    let mut keys = Keys::new(alloc);
    for entry in entries {
        push_key(&mut keys, *entry)?;
    }
    Ok(keys)
}

/// Adds the key of a run file's entry after the others. `BadScan` if no key has its code, `StampsFall` if its stamp is
/// before the last one.
fn push_key(keys: &mut Keys, entry: KeyEntry) -> Result<(), RunFault>
    ensures pushed { OnOk result (keys.new ≡ keys.old ++ key_of entry ∷ []) }
    ensures taken { OnOk result (entry_fault (last_stamp keys.old) entry ≡ None) }
    ensures fault { IfErr result (λ fault. FaultAnswer fault (entry_fault (last_stamp keys.old) entry)) }
{
    let Ok(code) = u8::try_from(entry.code) else {
        return Err(RunFault::BadScan);
    };
    match keys.push(entry.stamp, code) {
        Ok(()) => Ok(()),
        Err(KeyFault::BadScan) => Err(RunFault::BadScan),
        Err(KeyFault::StampsFall) => Err(RunFault::StampsFall),
        Err(KeyFault::Memory) => Err(RunFault::Memory),
    }
}

/// The number in a field of the run file, from `least` to `most`; `BadField` if the field is missing, no number, or out
/// of this range.
#[tactic(auto, unfolding(crate::specs::RunFile::number_within))]
fn number_within(value: &Value, name: &str, least: u64, most: u64) -> Result<u64, RunFault>
    ensures value { result
        ≡ ok_or (number_within least most name.now (view value.now)) RunFault.BadField }
    ensures bound { IfOk result (λ number. number ≤ most) }
{
    match number(value, name) {
        Some(number) if least <= number && number <= most => Ok(number),
        _ => Err(RunFault::BadField),
    }
}

/// The number in a field of the run file; `None` if there is no such field, or no natural number of 64 bits in it.
#[tactic(auto, unfolding(crate::specs::RunFile::number_of))]
fn number(value: &Value, name: &str) -> Option<u64>
    ensures { result ≡ number_of name.now (view value.now) }
{
    value.get(name).and_then(Value::as_u64)
}

/// The text in a field of the run file, which names its timer or clock table; `None` if there is no such field or no
/// text in it.
#[tactic(auto, unfolding(crate::specs::RunFile::text_of))]
fn text<'a>(value: &'a Value, name: &str) -> Option<&'a str>
    ensures { option_map (λ text. text.now) result ≡ text_of name.now (view value.now) }
{
    value.get(name).and_then(Value::as_str)
}
