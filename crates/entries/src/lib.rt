// Entries of keys in lent words: the tests of them, an index of their keys, and the search for a key's last entry.
#![tactic(auto)]

ghost use Rattle.std.specs.Prelude.{◌≡◌, ℕ, ◌+◌, ◌*◌, ◌<◌, ◌≤◌, option_map, length, nat_eq};
ghost use Rattle.field.specs.Fields.{field_of};
ghost use Rattle.dag.specs.Nodes as Nodes;
ghost use Rattle.dag.specs.Refusals as Refusals;
ghost use Rattle.index.specs.Index as Index;
ghost use Rattle.index.specs.Promises.{SameLinks};
ghost use Rattle.entries.specs.Entries as Places;
ghost use Rattle.entries.specs.Entries.{Lent};
ghost use Rattle.entries.specs.KeyIndex as KeyIndex;

use dag::{NodeKind, Refusal, Words};
use field::{Prime, QuadFelt};
use index::PlaceIndex;

// The most entries that an assignment or a layout has.
pub const MOST_ENTRIES: usize = 4096;

// The first `count` entries of a store, WIDTH words each: a key number, then an element's coordinates where there are three.
#[derive(Clone, Copy)]
pub struct Entries<'a, const WIDTH: usize> {
    pub words: &'a [u64],
    pub count: usize,
}

impl<const WIDTH: usize> Entries<'_, WIDTH> {
    // The key number of entry i.
    pub fn key_at(&self, i: usize) -> u64
        requires { WIDTH * i < length self.now.words.now }
        ensures { result ≡ Places.key_at WIDTH self.now.words.now i }
    {
        self.words[WIDTH * i]
    }

    // The element of entry i.
    pub fn element_at(&self, i: usize) -> QuadFelt
        requires { (2 < WIDTH) × (WIDTH * i + WIDTH ≤ length self.now.words.now) }
        ensures { result ≡ Places.element_at WIDTH self.now.words.now i }
    {
        let at = WIDTH * i;
        QuadFelt::new(self.words[at + 1], self.words[at + 2])
    }

    // Whether the coordinates of entry i are in lowest form, where it holds them.
    fn lowest_at(&self, prime: Prime, i: usize) -> bool
        requires { WIDTH * i + WIDTH ≤ length self.now.words.now }
        ensures { result ≡ Places.lowest_at (field_of prime).bounds WIDTH self.now.words.now i }
    {
        if WIDTH < 3 {
            return true;
        }
        let element = self.element_at(i);
        dag::lowest(prime, element.c0, element.c1)
    }

    // The test of entry i: a number that a key has, coordinates in lowest form.
    #[tactic(auto, unfolding(crate::specs::Entries::entry_check))]
    fn entry_check(&self, prime: Prime, i: usize) -> Result<(), Refusal>
        requires { (0 < WIDTH) × (WIDTH * i + WIDTH ≤ length self.now.words.now) }
        ensures { result ≡ Places.entry_check (field_of prime).bounds WIDTH self.now.words.now i }
    {
        if dag::is_key(self.key_at(i)) && self.lowest_at(prime, i) {
            Ok(())
        } else {
            Err(Refusal::Malformed(i))
        }
    }

    // The first bad entry.
    #[tactic(auto, using(dag::specs::CheckLaws::first_next, dag::specs::CheckLaws::first_stop, crate::specs::EntryLaws::entry_room), unfolding(dag::specs::Refusals::first_refused))]
    fn each_check(&self, prime: Prime) -> Result<(), Refusal>
        requires { Lent WIDTH self.now.words.now self.now.count }
        ensures { result ≡ Refusals.first_refused (Places.entry_check (field_of prime).bounds WIDTH self.now.words.now) self.now.count }
    {
        for i in 0..self.count {
            self.entry_check(prime, i)?;
        }
        Ok(())
    }

    // The tests of the entries: their count, the room for them, then the first bad one.
    #[tactic(auto, unfolding(crate::specs::Entries::entries_check))]
    pub fn check(&self, prime: Prime) -> Result<(), Refusal>
        requires { (0 < WIDTH) × (WIDTH ≤ 3) }
        ensures { result ≡ Places.entries_check (field_of prime).bounds WIDTH self.now.words.now self.now.count }
    {
        if MOST_ENTRIES < self.count {
            return Err(Refusal::TooManyEntries);
        }
        if self.words.len() < WIDTH * self.count {
            return Err(Refusal::StoreTooShort);
        }
        self.each_check(prime)
    }

    // Notes entry i in the bucket of its key.
    #[tactic(auto, using(crate::specs::KeyIndexLaws::keyed_next))]
    fn note(&self, i: usize, index: &mut PlaceIndex)
        requires { KeyIndex.Keyed WIDTH self.now.words.now i index.old.links.now × (i < Index.half index.old.links.now) × (WIDTH * i < length self.now.words.now) }
        ensures same { SameLinks index.old index.new }
        ensures keyed { KeyIndex.Keyed WIDTH self.now.words.now (i + 1) index.new.links.now }
    {
        index.note(i, words_of_key(self.key_at(i)));
    }

    // Indexes the entries by their keys, in an index of none.
    #[tactic(auto, using(crate::specs::EntryLaws::key_room))]
    pub fn index(&self, index: &mut PlaceIndex)
        requires { Lent WIDTH self.now.words.now self.now.count × KeyIndex.Keyed WIDTH self.now.words.now 0 index.old.links.now × (self.now.count ≤ Index.half index.old.links.now) }
        ensures same { SameLinks index.old index.new }
        ensures keyed { KeyIndex.Keyed WIDTH self.now.words.now self.now.count index.new.links.now }
    {
        for i in 0..self.count {
            self.note(i, index);
        }
    }

    // The last entry of a key among the first m, by the plain search.
    fn search(&self, m: usize, key: u64) -> Option<usize>
        requires { Lent WIDTH self.now.words.now m }
        ensures { result ≡ Places.entry_of WIDTH self.now.words.now m key }
    {
        for i in (0..m).rev() {
            if self.key_at(i) == key {
                return Some(i);
            }
        }
        None
    }
}

// Entries, and the index of their keys.
#[derive(Clone, Copy)]
pub struct KeyedEntries<'a, 'links, const WIDTH: usize> {
    pub entries: Entries<'a, WIDTH>,
    pub links: &'links [u64],
    pub ghost lookup: { KeyIndex.Lookup WIDTH entries.words.now entries.count links.now },
}

impl<const WIDTH: usize> KeyedEntries<'_, '_, WIDTH> {
    // The last entry of a key, along its bucket; behind many others of the bucket by the plain search.
    pub fn find(&self, key: u64) -> Option<usize>
        ensures { result ≡ Places.entry_of WIDTH self.now.entries.words.now self.now.entries.count key }
    {
        index::walk(
            self.links,
            index::bucket(self.links, words_of_key(key)),
            |i: usize| -> bool
                requires { WIDTH * i < length self.now.entries.words.now }
                ensures { result ≡ nat_eq (Places.key_at WIDTH self.entry.now.entries.words.now i) key }
            { self.entries.key_at(i) == key },
            |below: usize| -> Option<usize>
                requires { Lent WIDTH self.now.entries.words.now below }
                ensures { result ≡ Places.entry_of WIDTH self.entry.now.entries.words.now below key }
            { self.entries.search(below, key) },
        )
    }

    // The element that the entries give a key: that of its last entry.
    pub fn given(&self, key: u64) -> Option<QuadFelt>
        requires { 2 < WIDTH }
        ensures { result ≡ option_map (Places.element_at WIDTH self.now.entries.words.now) (Places.entry_of WIDTH self.now.entries.words.now self.now.entries.count key) }
    {
        let i = self.find(key)?;
        Some(self.entries.element_at(i))
    }
}

// The words of a key's record.
fn words_of_key(key: u64) -> Words
    ensures { result ≡ Nodes.three (NodeKind.Input key) }
{
    Words::from(NodeKind::Input(key))
}
