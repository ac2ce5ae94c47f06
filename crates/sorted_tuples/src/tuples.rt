//! Tuples of a FLWOR expression with `order by`, with their keys (XQuery 1.0, section 3.8.3).

ghost use Rattle.std.specs.Prelude.{◌≡◌, ℕ, ◌≤◌, ◌++◌, ◌∷◌, [], length, map, Some, None, Ok, IfErr, IfOk, OnOk};
ghost use Rattle.std.specs.List.{IsAllAdjacentAnswer};
ghost use Rattle.std.specs.List.Sorted.{IsStableByKey};
ghost use Rattle.std.specs.Option.{option_copied};
ghost use Rattle.std.specs.Ordering.{nat_cmp};
ghost use Rattle.evaluation.specs.Gives.{Fails, Judged, Says};
ghost use Rattle.values.specs.Comparisons.{as_string, string_cmp};
ghost use Rattle.query_meaning.specs.Meaning.{mean};
ghost use Rattle.query_meaning.specs.Sequences.{all_comparable, and_tuple, in_sorted_order, key_of};
ghost use Rattle.sorted_tuples.specs.Abbreviations.{eighths, first_abbreviation, shared_bytes};
ghost use Rattle.sorted_tuples.specs.Keys.{Each, IsWide, column, comes_first, has_order, in_run, inserted_each, is_of_one_type, key_at, rank, ranked, ranked_cmp, turned};
ghost use Rattle.sorted_tuples.specs.Held.{keys_of};
ghost use Rattle.sorted_tuples.specs.Keys.{sort_key_of};

use crate::abbreviations;
use crate::place::Place;
use evaluation::MOST_ITEMS;
use fault_codes::Code;
use query_grammar::{Expr, SortKey};
use std::alloc::{AllocError, Global};
use std::cmp::Ordering;
use std::marker::Model;
use std::slice;
use values::{Atom, ValueFault};

/// A sort of so many moves few of them, and is not worth another before it.
const FEW: usize = 20;

/// The keys of a tuple, each one atomic value or empty.
pub struct Keys {
    alloc: Global,
    keys: Held,
}

// By one call, whose contract is all that a caller's proof sees of it.
impl Drop for Keys {
    fn drop(self) {
        let Keys { alloc: _, keys: _ } = self;
    }
}

/// Keys as they are held. One alone takes no piece of memory, and most tuples have one.
#[derive(Drop)]
enum Held {
    /// One key.
    Single(Option<Atom>),
    /// As many as there are.
    Many(Vec<Option<Atom>>),
}

impl Model for Keys {
    ghost use Rattle.std.specs.Prelude.{List, Option};
    ghost use Rattle.std.specs.Coded.{coded_list, coded_option};
    ghost use Rattle.values.specs.declared.atom.Atom.{Atom};
    ghost use Rattle.values.specs.contracts.atom.Atom as of_atom;

    ghost Value = { List (Option Atom) };

    ghost coded = { coded_list (coded_option of_atom.the_row.coded) };

    ghost use Rattle.sorted_tuples.specs.Held.{keys_of};

    ghost view = { λ k. keys_of k.keys };
}

impl Keys {
    /// No keys. It takes no memory.
    pub fn new(alloc: Global) -> Keys
        ensures { result ≡ [] }
    {
        Keys {
            alloc,
            keys: Held::Many(Vec::new(alloc)),
        }
    }

    /// One key more. It fails where memory is refused, which the first key does not ask for.
    pub fn and(self, key: Option<Atom>) -> Result<Keys, AllocError>
        ensures { IfOk result (λ keys. keys ≡ self ++ key ∷ []) }
    {
        let Keys { alloc, keys } = self;
        let keys = with_key(alloc, keys, key)?;
        Ok(Keys { alloc, keys })
    }

    /// The keys.
    fn as_slice(&self) -> &[Option<Atom>]
        ensures { result.now ≡ self.now }
    {
        match &self.keys {
            Held::Single(key) => slice::from_ref(key),
            Held::Many(keys) => keys.as_slice(),
        }
    }

    /// The key at a position; `None` where it is empty.
    #[tactic(auto, using(crate::proofs::Types::key_there, crate::proofs::Types::key_past))]
    fn at(&self, position: usize) -> Option<&Atom>
        ensures { option_copied result ≡ key_at position self.now }
    {
        let keys = self.as_slice();
        if position < keys.len() {
            keys[position].as_ref()
        } else {
            None
        }
    }
}

/// Keys, and one more. The first is held alone.
fn with_key(alloc: Global, keys: Held, key: Option<Atom>) -> Result<Held, AllocError>
    ensures { IfOk result (λ held. keys_of held ≡ keys_of keys ++ key ∷ []) }
{
    match keys {
        Held::Single(first) => {
            let mut keys = Vec::with_capacity(alloc, 2)?;
            keys.push(first)?;
            keys.push(key)?;
            Ok(Held::Many(keys))
        }
        Held::Many(keys) => {
            if keys.is_empty() {
                return Ok(Held::Single(key));
            }
            let mut keys = keys;
            keys.push(key)?;
            Ok(Held::Many(keys))
        }
    }
}

/// An environment and its keys.
#[derive(Drop)]
pub struct Tuple<'f> {
    place: Place<'f>,
    keys: Keys,
}

impl<'f> Model for Tuple<'f> {
    ghost use Rattle.query_meaning.specs.Sequences.{Tuple as Term};
    ghost use Rattle.sorted_tuples.specs.Keys.{tuple_code};

    ghost Value = { Term };

    ghost coded = { tuple_code };

    ghost view = { λ t. record { environment = t.place; keys = t.keys } };
}

impl<'f> Tuple<'f> {
    /// The environment.
    pub fn place(&self) -> &Place<'f>
        ensures { result.now ≡ self.now.environment }
    {
        &self.place
    }

    /// The key at a position; `None` where it is empty.
    fn key_at(&self, position: usize) -> Option<&Atom>
        ensures { option_copied result ≡ key_at position self.now.keys }
    {
        self.keys.at(position)
    }
}

/// Tuples, at most 10,000.
#[derive(Drop)]
pub struct Tuples<'f> {
    tuples: Vec<Tuple<'f>>,
}

impl<'f> Model for Tuples<'f> {
    ghost use Rattle.std.specs.Prelude.{List};
    ghost use Rattle.std.specs.Coded.{coded_list};
    ghost use Rattle.query_meaning.specs.Sequences.{Tuple as Term};
    ghost use Rattle.sorted_tuples.specs.Keys.{tuple_code};

    ghost Value = { List Term };

    ghost coded = { coded_list tuple_code };

    ghost view = { λ t. t.tuples.items };
}

impl<'f> Tuples<'f> {
    /// No tuples. It takes no memory.
    pub fn new(alloc: Global) -> Tuples<'f>
        ensures { result ≡ [] }
    {
        Tuples {
            tuples: Vec::new(alloc),
        }
    }

    /// The tuples.
    pub fn as_slice(&self) -> &[Tuple<'f>]
        ensures { result.now ≡ self.now }
    {
        &self.tuples
    }

    /// One tuple more. Faults: `Memory`; `Code` with PXQ0002 where there are 10,000. What is left after a fault is not said.
    #[tactic(auto, unfolding(query_meaning::specs::Running::most_items))]
    pub fn push(&mut self, place: Place<'f>, keys: Keys) -> Result<(), ValueFault>
        ensures added { OnOk result (and_tuple place.entry self.old keys ≡ Ok self.new) }
        ensures code { IfErr result (λ fault. Fails (and_tuple place.entry self.old keys) fault) }
        ensures judged { Judged (and_tuple place.entry self.old keys) result }
    {
        if self.tuples.len() >= MOST_ITEMS {
            return Err(ValueFault::Code(Code::PXQ0002));
        }
        self.tuples.push(Tuple { place, keys })?;
        Ok(())
    }

    /// The tuples by their keys, equal ones in their order. Faults: `Memory`; `Code` with XPTY0004 where two keys at one position are of
    /// different types.
    #[tactic(auto, using(crate::proofs::Ranking::sorted_of))]
    pub fn sorted(self, keys: &[SortKey<Expr>]) -> Result<Tuples<'f>, ValueFault>
        requires widths { Each (IsWide (length keys.now)) self }
        ensures sorted { Says (in_sorted_order (map (sort_key_of mean) keys.now) self.entry) result }
        ensures judged { Judged (in_sorted_order (map (sort_key_of mean) keys.now) self.entry) result }
    {
        let Tuples { mut tuples } = self;
        if !are_comparable(&tuples, keys.len()) {
            return Err(ValueFault::Code(Code::XPTY0004));
        }
        sort(&mut tuples, keys)?;
        Ok(Tuples { tuples })
    }
}

/// Whether the keys of so many positions are of one type at each.
fn are_comparable(tuples: &[Tuple], count: usize) -> bool
    requires widths { Each (IsWide count) tuples.now }
    ensures { result ≡ all_comparable tuples.now }
{
    for position in 0..count {
        if !is_of_one_type(tuples, position) {
            return false;
        }
    }
    true
}

/// Whether the first key at a position that isn't empty can be compared with each that comes after it.
fn is_of_one_type(tuples: &[Tuple], position: usize) -> bool
    ensures { result ≡ is_of_one_type None (column position tuples.now) }
{
    let mut first = None;
    for tuple in tuples {
        let key = tuple.key_at(position);
        if !has_order(first, key) {
            return false;
        }
        if first.is_none() {
            first = key;
        }
    }
    true
}

/// Whether two keys can be compared.
fn has_order(left: Option<&Atom>, right: Option<&Atom>) -> bool
    ensures { result ≡ has_order (option_copied left.entry) (option_copied right.entry) }
{
    match (left, right) {
        (Some(Atom::Boolean(_)), Some(Atom::Boolean(_))) => true,
        (Some(Atom::Integer(_)), Some(Atom::Integer(_))) => true,
        (Some(Atom::String(_)), Some(Atom::String(_))) => true,
        (Some(_), Some(_)) => false,
        _ => true,
    }
}

/// A stable sort by the keys. It fails where memory is refused.
fn sort(tuples: &mut Vec<Tuple>, keys: &[SortKey<Expr>]) -> Result<(), AllocError>
    ensures { OnOk result (tuples.new.items ≡ inserted_each (comes_first keys.now) tuples.old.items) }
{
    sort_roughly(tuples, keys)?;
    sort_by_keys(tuples, keys)
}

/// A sort by abbreviations of the first keys, which leaves those in their order that have the same. It compares numbers, and moves pairs of words in
/// place of tuples; a sort by whole keys after it finds most of them in order. Few tuples, and those that seem to be in a run, which that sort makes
/// use of, stay as they are. It fails where memory is refused, and then nothing changes.
fn sort_roughly(tuples: &mut Vec<Tuple>, keys: &[SortKey<Expr>]) -> Result<(), AllocError>
    ensures { (past : ℕ) × IsStableByKey (first_abbreviation keys.now past) nat_cmp tuples.old.items tuples.new.items }
{
    if tuples.len() <= FEW {
        return Ok(());
    }
    let some = sample(tuples);
    if is_run(&some, keys, false) || is_run(&some, keys, true) {
        return Ok(());
    }
    let past = shared_bytes(some[0], &some);
    tuples.sort_by_cached_key(|tuple| first_abbreviation(keys, past, tuple))
}

/// One tuple in each eighth of them.
fn sample<'t, 'f>(tuples: &'t [Tuple<'f>]) -> [&'t Tuple<'f>; 8]
    requires { 8 ≤ length tuples.now }
    ensures { (d : _) → map (λ t. t.now) result ≡ eighths d tuples.now }
{
    let eighth = tuples.len() / 8;
    [
        &tuples[0],
        &tuples[eighth],
        &tuples[2 * eighth],
        &tuples[3 * eighth],
        &tuples[4 * eighth],
        &tuples[5 * eighth],
        &tuples[6 * eighth],
        &tuples[7 * eighth],
    ]
}

/// Whether tuples are in order, or strictly in the opposite one where they are to fall.
fn is_run(tuples: &[&Tuple], keys: &[SortKey<Expr>], falls: bool) -> bool
    ensures { IsAllAdjacentAnswer (λ t u b. in_run keys.now falls t.now u.now b) tuples.now result }
{
    tuples.is_sorted_by(|left, right| {
        let order = compare(keys, left, right);
        if falls { order.is_gt() } else { order.is_le() }
    })
}

/// How many of the bytes that a tuple's first key begins with are those of others too. It is 0 where it is no text.
fn shared_bytes(tuple: &Tuple, others: &[&Tuple]) -> usize
    ensures { result ≡ shared_bytes tuple.now (map (λ t. t.now) others.now) }
{
    let text = abbreviations::bytes_of(tuple.key_at(0));
    let mut count = text.len();
    for other in others {
        let same = abbreviations::same_bytes(text, abbreviations::bytes_of(other.key_at(0)));
        count = count.min(same);
    }
    count
}

/// The abbreviation of a tuple's first key past so many bytes, the other way round where the key is descending.
fn first_abbreviation(keys: &[SortKey<Expr>], past: usize, tuple: &Tuple) -> u64
    ensures { result ≡ first_abbreviation keys.now past tuple.now }
{
    match keys {
        [] => 0,
        [key, ..] => abbreviations::directed(key.is_descending, past, tuple.key_at(0)),
    }
}

/// A stable sort that compares whole keys. It fails where memory is refused, and then nothing changes.
fn sort_by_keys(tuples: &mut Vec<Tuple>, keys: &[SortKey<Expr>]) -> Result<(), AllocError>
    ensures { OnOk result (tuples.new.items ≡ inserted_each (comes_first keys.now) tuples.old.items) }
{
    tuples.sort_by(|left, right| compare(keys, left, right))
}

/// The order of two tuples: that of the first keys that differ, turned where the key is descending.
fn compare(keys: &[SortKey<Expr>], left: &Tuple, right: &Tuple) -> Ordering
    ensures { result ≡ ranked 0 keys.now left.now.keys right.now.keys }
{
    match keys {
        [key] => turned(key.is_descending, compare_first(left, right)),
        _ => compare_in_turn(keys, left, right),
    }
}

/// The order of the first keys. Keys that are held alone need no search.
fn compare_first(left: &Tuple, right: &Tuple) -> Ordering
    ensures { result ≡ ranked_cmp (key_at 0 left.now.keys) (key_at 0 right.now.keys) }
{
    match (&left.keys.keys, &right.keys.keys) {
        (Held::Single(left), Held::Single(right)) => compare_keys(left.as_ref(), right.as_ref()),
        _ => compare_keys(left.key_at(0), right.key_at(0)),
    }
}

/// The order of the first keys that differ.
fn compare_in_turn(keys: &[SortKey<Expr>], left: &Tuple, right: &Tuple) -> Ordering
    ensures { result ≡ ranked 0 keys.now left.now.keys right.now.keys }
{
    let mut position = 0;
    for key in keys {
        let order = compare_keys(left.key_at(position), right.key_at(position));
        if !order.is_eq() {
            return turned(key.is_descending, order);
        }
        position += 1;
    }
    Ordering::Equal
}

/// An order, the other way round where that is wanted.
fn turned(is_descending: bool, order: Ordering) -> Ordering
    ensures { result ≡ turned is_descending order }
{
    if is_descending {
        order.reverse()
    } else {
        order
    }
}

/// The order of two keys, whatever their types: the empty key first, then by type, then by value.
fn compare_keys(left: Option<&Atom>, right: Option<&Atom>) -> Ordering
    ensures { result ≡ ranked_cmp (option_copied left.entry) (option_copied right.entry) }
{
    match (left, right) {
        (Some(Atom::Boolean(left)), Some(Atom::Boolean(right))) => left.cmp(right),
        (Some(Atom::Integer(left)), Some(Atom::Integer(right))) => left.cmp(right),
        (Some(Atom::String(left)), Some(Atom::String(right)))
        | (Some(Atom::Untyped(left)), Some(Atom::Untyped(right))) => {
            compare_text(left.as_str(), right.as_str())
        }
        _ => rank(left).cmp(&rank(right)),
    }
}

/// The order of two texts by code points (Functions and Operators, section 7.3.1), which is that of their bytes in UTF-8.
fn compare_text(left: &str, right: &str) -> Ordering
    ensures { result ≡ string_cmp left.now right.now }
{
    left.cmp(right)
}

/// The place of a key's type among the types.
fn rank(key: Option<&Atom>) -> u8
    ensures { result ≡ rank (option_copied key.entry) }
{
    match key {
        None => 0,
        Some(Atom::Boolean(_)) => 1,
        Some(Atom::Integer(_)) => 2,
        Some(Atom::String(_)) => 3,
        Some(Atom::Untyped(_)) => 4,
    }
}

/// A key: none, or one atomic value, untyped as a string (XQuery 1.0, section 3.8.3). Faults: `Memory`; `Code` with XPTY0004 where there
/// are more values.
pub fn key_of(values: &[Atom]) -> Result<Option<Atom>, ValueFault>
    ensures { Says (key_of values.now) result }
{
    match values {
        [] => Ok(None),
        [value] => Ok(Some(as_string(value)?)),
        _ => Err(ValueFault::Code(Code::XPTY0004)),
    }
}

/// An atomic value, untyped as a string. It fails where memory is refused.
fn as_string(value: &Atom) -> Result<Atom, AllocError>
    ensures { IfOk result (λ a. a ≡ as_string value.now) }
{
    match value {
        Atom::Untyped(text) => Ok(Atom::String(text.clone()?)),
        _ => value.clone(),
    }
}
