// The constraint DAG's records: key numbers, `NodeKind` and its three words, refusals, the list check and the lookup.
#![tactic(auto)]

ghost use Rattle.std.specs.Prelude.{◌≡◌, ℕ, ◌+◌, ◌*◌, ◌-◌, ◌^◌, ◌<◌, ◌≤◌, ltb, [], ◌∷◌, ◌++◌, length, get_or, take, replicate};
ghost use mathlib.Core.List as Lists;
ghost use Rattle.field.specs.Fields.{field_of};
ghost use Rattle.dag.specs.View.{interleaved};
ghost use Rattle.dag.specs.Keys as Keys;
ghost use Rattle.dag.specs.Nodes as Nodes;
ghost use Rattle.dag.specs.Refusals as Refusals;
ghost use Rattle.dag.specs.Check as Check;
ghost use Rattle.dag.specs.Store as Store;
ghost use Rattle.dag.specs.Lookup as Lookup;
ghost use Rattle.dag.specs.WellFormed as Well;
ghost use Rattle.dag.specs.Roots.{most_roots, roots_of, roots_from, Inside};

use arrayvec::ArrayVec;
use field::{Prime, QuadFelt, felt};
use std::marker::Model;

// The word behind the last one filled.
pub const BLANK: u64 = 0;

// The most records that a list has.
pub const MOST_RECORDS: usize = 4096;

// The words of a record.
pub const RECORD_WORDS: usize = 3;

// A list is short up to so many records: stores for the longest would take longer to clear than it takes to use.
pub const FEW_RECORDS: usize = 256;

// The greatest tag of a record.
const LAST_TAG: u64 = 5;

// The most roots that a list has.
pub const MOST_ROOTS: usize = 8;

// One record of a list. An input holds its key number; operands are places.
#[derive(Clone, Copy, PartialEq, Eq)]
pub enum NodeKind {
    Input(u64),
    Constant(QuadFelt),
    Add(usize, usize),
    Sub(usize, usize),
    Mul(usize, usize),
    Neg(usize),
}

// A record's three words: its tag; its key number, c0 or first operand; its c1 or second operand.
#[derive(Clone, Copy, PartialEq, Eq)]
pub struct Words {
    pub tag: u64,
    pub first: u64,
    pub second: u64,
}

// A list's roots, in their order: the first `len` cells, 0 behind them.
#[derive(Clone, Copy)]
pub struct Roots {
    cells: [usize; MOST_ROOTS],
    len: usize,
}

impl Model for Roots {
    ghost use Rattle.std.specs.Prelude.{ℕ, List};

    ghost Value = { List ℕ };

    ghost use Rattle.dag.specs.RootCells.{places, IsPadded, padded, padded_places};

    ghost view = { places };

    ghost invariant = { IsPadded };

    ghost inverse = { padded };

    ghost inverse_ok = { padded_places };
}

// A list's count and its roots.
#[derive(Clone, Copy)]
pub struct RootedDag {
    pub count: usize,
    pub roots: Roots,
}

// Why a call says no, with the record, entry or column at fault where there is one.
#[derive(Clone, Copy, PartialEq, Eq)]
pub enum Refusal {
    CountOutOfRange,
    StoreTooShort,
    UnknownTag(usize),
    Malformed(usize),
    OperandNotEarlier(usize),
    RootOutside,
    NoRoom,
    TooManyEntries,
    Unassigned(usize),
    TooManyColumns,
    ColumnLength(usize),
    SharedPeriod,
    FileTooShort,
    FileVersion,
    FileCount,
    FileLength,
    TextTooShort,
    NoOperations,
    RootNotLast,
    OddLayout,
    RootCount,
    FieldNumber,
}

impl Refusal {
    // The number that users know it by.
    pub fn number(self) -> u64
        ensures { result ≡ Refusals.number self }
    {
        match self {
            Refusal::CountOutOfRange => 1,
            Refusal::StoreTooShort => 2,
            Refusal::UnknownTag(_) => 3,
            Refusal::Malformed(_) => 4,
            Refusal::OperandNotEarlier(_) => 5,
            Refusal::RootOutside => 6,
            Refusal::NoRoom => 7,
            Refusal::TooManyEntries => 11,
            Refusal::Unassigned(_) => 12,
            Refusal::TooManyColumns => 13,
            Refusal::ColumnLength(_) => 14,
            Refusal::SharedPeriod => 15,
            Refusal::FileTooShort => 21,
            Refusal::FileVersion => 22,
            Refusal::FileCount => 23,
            Refusal::FileLength => 24,
            Refusal::TextTooShort => 41,
            Refusal::NoOperations => 42,
            Refusal::RootNotLast => 43,
            Refusal::OddLayout => 44,
            Refusal::RootCount => 46,
            Refusal::FieldNumber => 49,
        }
    }

    // The record, entry or column at fault, else 0.
    pub fn place(self) -> usize
        ensures { result ≡ Refusals.place self }
    {
        match self {
            Refusal::UnknownTag(i)
            | Refusal::Malformed(i)
            | Refusal::OperandNotEarlier(i)
            | Refusal::Unassigned(i)
            | Refusal::ColumnLength(i) => i,
            _ => 0,
        }
    }
}

// The number of fields of each variant, in the order of `InputKey`.
const FIELD_COUNTS: [u8; 22] = [
    1, 0, 0, 1, 2, 2, 3, 1, 0, 0, 0, 0, 0, 0, 0, 1, 1, 1, 0, 0, 0, 3,
];

// Whether so many fields of 16 bits hold a number below 2^48.
fn fields_hold(count: u8, number: u64) -> bool
    requires { (count ≤ 3) × (number < 2 ^ 48) }
    ensures { result ≡ ltb number (2 ^ (16 * «count»)) }
{
    match count {
        0 => number == 0,
        1 => number < 65536,
        2 => number < 4294967296,
        _ => true,
    }
}

// Whether a key has this number.
#[tactic(auto, unfolding(crate::specs::Keys::is_key))]
pub fn is_key(k: u64) -> bool
    ensures { result ≡ Keys.is_key k }
{
    let variant = (k / 281474976710656) as usize;
    variant < FIELD_COUNTS.len() && fields_hold(FIELD_COUNTS[variant], k % 281474976710656)
}

// Whether two words are an element's coordinates in lowest form.
pub fn lowest(prime: Prime, c0: u64, c1: u64) -> bool
    ensures { result ≡ Check.lowest (field_of prime).bounds c0 c1 }
{
    c0 < felt::modulus(prime) && c1 < felt::second_below(prime)
}

// Whether a record may have these words.
#[tactic(auto, unfolding(crate::specs::Check::formed))]
fn formed(prime: Prime, w: Words) -> bool
    ensures { result ≡ Check.formed (field_of prime).bounds w.tag w.first w.second }
{
    match w.tag {
        0 => is_key(w.first) && w.second == 0,
        1 => lowest(prime, w.first, w.second),
        5 => w.second == 0,
        _ => true,
    }
}

// Whether a record's operands come before place i.
#[tactic(auto, unfolding(crate::specs::Check::earlier))]
fn earlier(w: Words, i: usize) -> bool
    ensures { result ≡ Check.earlier w.tag w.first w.second i }
{
    let place = i as u64;
    match w.tag {
        0 | 1 => true,
        5 => w.first < place,
        _ => w.first < place && w.second < place,
    }
}

// The tests of one record at place i: 3, 4, 5.
#[tactic(auto, unfolding(crate::specs::Check::record_check))]
pub fn record_check(prime: Prime, w: Words, i: usize) -> Result<(), Refusal>
    ensures { result ≡ Check.record_check (field_of prime).bounds w.tag w.first w.second i }
{
    if LAST_TAG < w.tag {
        return Err(Refusal::UnknownTag(i));
    }
    if !formed(prime, w) {
        return Err(Refusal::Malformed(i));
    }
    if !earlier(w, i) {
        return Err(Refusal::OperandNotEarlier(i));
    }
    Ok(())
}

// How many records a store has room for.
#[tactic(auto, unfolding(crate::specs::View::interleaved))]
pub fn room(list: &[u64]) -> usize
    ensures { result ≡ (interleaved list.now).room }
{
    list.len() / RECORD_WORDS
}

// The words of the record at place i.
#[tactic(auto, unfolding(crate::specs::View::interleaved))]
pub fn words_at(list: &[u64], i: usize) -> Words
    requires { i < (interleaved list.now).room }
    ensures { result ≡ Nodes.words_at (interleaved list.now) i }
{
    Words {
        tag: list[RECORD_WORDS * i],
        first: list[RECORD_WORDS * i + 1],
        second: list[RECORD_WORDS * i + 2],
    }
}

// Whether the record at place i has these words.
#[tactic(auto, unfolding(crate::specs::View::interleaved, crate::specs::Store::words_are))]
pub fn words_are(list: &[u64], i: usize, w: Words) -> bool
    requires { i < (interleaved list.now).room }
    ensures { result ≡ Store.words_are (interleaved list.now) i w }
{
    list[RECORD_WORDS * i] == w.tag
        && list[RECORD_WORDS * i + 1] == w.first
        && list[RECORD_WORDS * i + 2] == w.second
}

// The first bad record among the first n.
#[tactic(auto, unfolding(crate::specs::Check::check_at))]
fn records_check(prime: Prime, list: &[u64], n: usize) -> Result<(), Refusal>
    requires { n ≤ (interleaved list.now).room }
    ensures { result ≡ Check.records_check (field_of prime).bounds (interleaved list.now) n }
{
    for i in 0..n {
        record_check(prime, words_at(list, i), i)?;
    }
    Ok(())
}

// The test of a store's room: 2.
#[tactic(auto, unfolding(crate::specs::Check::room_check))]
pub fn room_check(needed: usize, room: usize) -> Result<(), Refusal>
    ensures { result ≡ Check.room_check needed room }
{
    if room < needed {
        return Err(Refusal::StoreTooShort);
    }
    Ok(())
}

// The tests of a list of at least `least` records without roots: 1, 2, then the records.
#[tactic(auto, unfolding(crate::specs::Check::rootless_check))]
#[inline(always)]
pub fn rootless_check(prime: Prime, list: &[u64], n: usize, least: usize) -> Result<(), Refusal>
    ensures { result ≡ Check.rootless_check (field_of prime).bounds least (interleaved list.now) n }
{
    if n < least || MOST_RECORDS < n {
        return Err(Refusal::CountOutOfRange);
    }
    room_check(n, room(list))?;
    records_check(prime, list, n)
}

// The tests of a list's roots: 46, 6.
#[tactic(auto, unfolding(crate::specs::Check::roots_check))]
fn roots_check(n: usize, roots: &[u64]) -> Result<(), Refusal>
    ensures { result ≡ Check.roots_check n roots.now }
{
    if roots.is_empty() || MOST_ROOTS < roots.len() {
        return Err(Refusal::RootCount);
    }
    if !roots.iter().all(|root| (*root as usize) < n) {
        return Err(Refusal::RootOutside);
    }
    Ok(())
}

// The list check, with its roots.
#[tactic(auto, unfolding(crate::specs::Check::list_check))]
pub fn list_check(prime: Prime, list: &[u64], n: usize, roots: &[u64]) -> Result<(), Refusal>
    ensures { result ≡ Check.list_check (field_of prime).bounds (interleaved list.now) n roots.now }
{
    rootless_check(prime, list, n, 1)?;
    roots_check(n, roots)
}

// The record that three words stand for.
impl From<Words> for NodeKind {
    ghost from_gives = { λ w x. x ≡ Nodes.decode w.tag w.first w.second };

    #[tactic(auto, unfolding(crate::specs::Nodes::decode))]
    fn from(w: Words) -> NodeKind {
        match w.tag {
            0 => NodeKind::Input(w.first),
            1 => NodeKind::Constant(QuadFelt::new(w.first, w.second)),
            2 => NodeKind::Add(w.first as usize, w.second as usize),
            3 => NodeKind::Sub(w.first as usize, w.second as usize),
            4 => NodeKind::Mul(w.first as usize, w.second as usize),
            _ => NodeKind::Neg(w.first as usize),
        }
    }
}

// A record's three words.
impl From<NodeKind> for Words {
    ghost from_gives = { λ x w. w ≡ Nodes.three x };

    fn from(x: NodeKind) -> Words {
        let (tag, first, second) = match x {
            NodeKind::Input(k) => (0, k, 0),
            NodeKind::Constant(c) => (1, c.c0, c.c1),
            NodeKind::Add(a, b) => (2, a as u64, b as u64),
            NodeKind::Sub(a, b) => (3, a as u64, b as u64),
            NodeKind::Mul(a, b) => (4, a as u64, b as u64),
            NodeKind::Neg(a) => (5, a as u64, 0),
        };
        Words { tag, first, second }
    }
}

// The record at place i.
#[tactic(auto, unfolding(crate::specs::Nodes::record_at))]
pub fn node_at(list: &[u64], i: usize) -> NodeKind
    requires { i < (interleaved list.now).room }
    ensures { result ≡ Nodes.record_at (interleaved list.now) i }
{
    NodeKind::from(words_at(list, i))
}

// Writes three words at place i.
#[tactic(auto, unfolding(crate::specs::View::interleaved))]
pub fn put_words(list: &mut [u64], i: usize, w: Words)
    requires { i < (interleaved list.old).room }
    ensures { list.new ≡ Store.put_words list.old i w.tag w.first w.second }
{
    list[RECORD_WORDS * i] = w.tag;
    list[RECORD_WORDS * i + 1] = w.first;
    list[RECORD_WORDS * i + 2] = w.second;
}

// Writes the record x at place i.
#[tactic(auto, unfolding(crate::specs::Store::put))]
pub fn put_node(list: &mut [u64], i: usize, x: NodeKind)
    requires { i < (interleaved list.old).room }
    ensures { list.new ≡ Store.put list.old i x }
{
    put_words(list, i, Words::from(x));
}

// The new place of place i.
pub fn mapped(map: &[u64], i: usize) -> usize
    requires { i < length map.now }
    ensures { result ≡ get_or map.now i 0 }
{
    map[i] as usize
}

impl NodeKind {
    // The record's operands, in their order.
    #[tactic(auto, unfolding(crate::specs::Nodes::operands))]
    pub fn operands(self) -> ArrayVec<usize, 2>
        ensures { result.items ≡ Nodes.operands self }
    {
        let mut operands = ArrayVec::new();
        match self {
            NodeKind::Input(_) | NodeKind::Constant(_) => {}
            NodeKind::Add(a, b) | NodeKind::Sub(a, b) | NodeKind::Mul(a, b) => {
                operands.push(a);
                operands.push(b);
            }
            NodeKind::Neg(a) => operands.push(a),
        }
        operands
    }

    // The record with the new places of its operands.
    #[tactic(auto, unfolding(crate::specs::WellFormed::Fine, crate::specs::Nodes::rename))]
    pub fn renamed(self, map: &[u64]) -> NodeKind
        requires { Well.Fine Well.Any (length map.now) self }
        ensures { result ≡ Nodes.rename (λ i. get_or map.now i 0) self }
    {
        match self {
            NodeKind::Input(_) | NodeKind::Constant(_) => self,
            NodeKind::Add(a, b) => NodeKind::Add(mapped(map, a), mapped(map, b)),
            NodeKind::Sub(a, b) => NodeKind::Sub(mapped(map, a), mapped(map, b)),
            NodeKind::Mul(a, b) => NodeKind::Mul(mapped(map, a), mapped(map, b)),
            NodeKind::Neg(a) => NodeKind::Neg(mapped(map, a)),
        }
    }
}

impl Roots {
    // No roots.
    pub fn new() -> Roots
        ensures { result ≡ [] }
    {
        Roots {
            cells: [0; MOST_ROOTS],
            len: 0,
        }
    }

    // One root more, behind the others.
    pub fn push(&mut self, place: usize)
        requires { length self.old < most_roots }
        ensures { self.new ≡ self.old ++ place ∷ [] }
    {
        self.cells[self.len] = place;
        self.len += 1;
    }

    // The roots' places.
    pub fn as_slice(&self) -> &[usize]
        ensures value { result.now ≡ self.now }
        ensures fits { length result.now ≤ most_roots }
    {
        &self.cells[..self.len]
    }

    // The roots that these words are.
    #[tactic(auto, unfolding(crate::specs::Roots::roots_from))]
    pub fn of(words: &[u64]) -> Roots
        requires { length words.now ≤ most_roots }
        ensures { result ≡ roots_from words.now }
    {
        let mut roots = Roots::new();
        for word in words {
            roots.push(*word as usize);
        }
        roots
    }

    // The roots' new places.
    #[tactic(auto, unfolding(crate::specs::Roots::roots_of, crate::specs::Roots::roots_from))]
    pub fn renamed(&self, map: &[u64]) -> Roots
        requires { Inside (length map.now) self.now }
        ensures { result ≡ roots_from (Lists.map (λ i. get_or map.now i 0) (roots_of self.now)) }
    {
        let mut roots = Roots::new();
        for root in self.as_slice() {
            roots.push(mapped(map, *root));
        }
        roots
    }
}

// The greatest place of a record equal to x among the first n.
pub fn lookup(list: &[u64], n: usize, x: NodeKind) -> Option<usize>
    requires { Store.Records (interleaved list.now) n }
    ensures { result ≡ Lookup.lookup (Nodes.nodes (interleaved list.now) n) x n }
{
    let wanted = Words::from(x);
    for i in (0..n).rev() {
        if words_are(list, i, wanted) {
            return Some(i);
        }
    }
    None
}

// A list that passed its tests: the first n records of a store, over a field.
#[derive(Clone, Copy)]
pub struct Dag<'a> {
    pub prime: Prime,
    pub list: &'a [u64],
    pub n: usize,
    pub ghost sound: { Store.Sound (field_of prime).bounds (interleaved list.now) n },
    pub ghost most: { n ≤ Nodes.most_records },
}

impl<'a> Dag<'a> {
    ghost use Rattle.dag.specs.Held.{HeldOf};

    // The list, if it passes the list check.
    pub fn new(prime: Prime, list: &'a [u64], n: usize, roots: &[u64]) -> Result<Dag<'a>, Refusal>
        ensures checked { Refusals.outcome result ≡ Check.list_check (field_of prime).bounds (interleaved list.now) n roots.now }
        ensures held { HeldOf prime list.now n result }
    {
        list_check(prime, list, n, roots)?;
        Ok(Dag { prime, list, n })
    }

    // The list, if it passes the list check without roots; it may be empty.
    pub fn rootless(prime: Prime, list: &'a [u64], n: usize) -> Result<Dag<'a>, Refusal>
        ensures checked { Refusals.outcome result ≡ Check.rootless_check (field_of prime).bounds 0 (interleaved list.now) n }
        ensures held { HeldOf prime list.now n result }
    {
        rootless_check(prime, list, n, 0)?;
        Ok(Dag { prime, list, n })
    }

    // The record at place i.
    pub fn node(&self, i: usize) -> NodeKind
        requires { i < self.now.n }
        ensures { result ≡ Nodes.record_at (interleaved self.now.list.now) i }
    {
        node_at(self.list, i)
    }
}

// Copies the first m words of a store to the start of another.
#[tactic(auto, unfolding(crate::specs::Store::copied))]
pub fn copy_words(from: &[u64], m: usize, to: &mut [u64])
    requires { (m ≤ length from.now) × (m ≤ length to.old) }
    ensures { to.new ≡ Store.copied from.now to.old m }
{
    for (i, word) in to[..m].iter_mut().enumerate() {
        *word = from[i];
    }
}

// Copies the first n records of a store to the start of another.
#[tactic(auto, unfolding(crate::specs::Store::copied_records, crate::specs::View::interleaved))]
pub fn copy_records(from: &[u64], n: usize, to: &mut [u64])
    requires { (n ≤ (interleaved from.now).room) × (n ≤ (interleaved to.old).room) }
    ensures { to.new ≡ Store.copied_records from.now to.old n }
{
    copy_words(from, RECORD_WORDS * n, to);
}

// Fills a store with blanks from a place on.
pub fn blank_from(store: &mut [u64], from: usize)
    requires { from ≤ length store.old }
    ensures { store.new ≡ take from store.old ++ replicate (length store.old - from) Nodes.blank }
{
    store[from..].fill(BLANK);
}

// Blanks a store behind its first n records.
#[tactic(auto, unfolding(crate::specs::Store::blanked_behind, crate::specs::View::interleaved))]
pub fn blank_records(store: &mut [u64], n: usize)
    requires { n ≤ (interleaved store.old).room }
    ensures { store.new ≡ Store.blanked_behind store.old n }
{
    blank_from(store, RECORD_WORDS * n);
}

// Writes the first n records of a store to another, blanks behind them.
pub fn store_records(from: &[u64], n: usize, to: &mut [u64])
    requires { (n ≤ (interleaved from.now).room) × (n ≤ (interleaved to.old).room) }
    ensures { to.new ≡ Nodes.filled (length to.old) (Store.front n from.now) }
{
    copy_records(from, n, to);
    blank_records(to, n);
}
