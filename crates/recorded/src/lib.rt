// Recorded answers of the Rust: a stream of 64-bit little-endian words, as rust/differential/src/record.rs writes it.
// A case is its numbers, its stores as lent, the answer, and the written stores after the call.
// A store is a filling word, the number of words given and those words, with the store's length before it where it is lent.
// Past the stream's end every word is 0.
#![tactic(auto)]

ghost use Rattle.std.specs.Prelude.{ℕ, ◌==◌, ◌≡◌, ◌≤◌, length};
ghost use Rattle.std.specs.List.{list_all, enumerate_from};
ghost use Rattle.recorded.specs.Stream as Stream;

// A place of a stream.
#[derive(Clone, Copy)]
pub struct Cursor<'a> {
    pub stream: &'a [u8],
    pub at: usize,
}

impl<'a> Cursor<'a> {
    // Another place of the stream.
    pub fn to(self, at: usize) -> Cursor<'a>
        ensures stream { result.stream.now ≡ self.entry.stream.now }
        ensures at { result.at ≡ at }
    {
        Cursor {
            stream: self.stream,
            at,
        }
    }

    // The word at the place.
    #[tactic(auto, unfolding(crate::specs::Stream::word, crate::specs::Stream::half))]
    pub fn word(self) -> u64
        ensures { result ≡ Stream.word self.entry.stream.now self.entry.at }
    {
        let Cursor { stream: s, at } = self;
        if s.len() / 8 <= at {
            return 0;
        }
        let bytes = s[8 * at..].first_chunk().unwrap();
        u64::from_le_bytes(*bytes)
    }

    // The place k words behind, at most the stream's length.
    #[tactic(auto, using(crate::specs::StreamLaws::behind_is))]
    pub fn skip(self, k: u64) -> Cursor<'a>
        ensures stream { result.stream.now ≡ self.entry.stream.now }
        ensures at { result.at ≡ Stream.behind self.entry.stream.now self.entry.at k }
    {
        self.to(self.at.saturating_add(k as usize).min(self.stream.len()))
    }

    // The word k words behind.
    pub fn number(self, k: u64) -> u64
        ensures { result ≡ Stream.word self.entry.stream.now (Stream.behind self.entry.stream.now self.entry.at k) }
    {
        self.skip(k).word()
    }

    // The place behind a filling word, the number of words given and those words.
    #[tactic(auto, unfolding(crate::specs::Stream::past_store))]
    fn past_words(self) -> Cursor<'a>
        ensures stream { result.stream.now ≡ self.entry.stream.now }
        ensures at { result.at ≡ Stream.past_store self.entry.stream.now self.entry.at }
    {
        self.skip(2).skip(self.number(1))
    }

    // The place behind k stores, each with `head` words before its filling word.
    #[tactic(auto, using(crate::specs::StreamLaws::past_more), unfolding(crate::specs::Stream::past))]
    pub fn past(self, head: u64, k: u64) -> Cursor<'a>
        ensures stream { result.stream.now ≡ self.entry.stream.now }
        ensures at { result.at ≡ Stream.past self.entry.stream.now self.entry.at head k }
    {
        let mut place = self;
        for _ in 0..k {
            place = place.skip(head).past_words();
        }
        place
    }

    // Of `count` stores, the place of store k, or the stream's end where there is none.
    #[tactic(auto, unfolding(crate::specs::Stream::store_at))]
    fn place(self, head: u64, k: u64, count: u64) -> usize
        ensures { result ≡ Stream.store_at self.entry.stream.now self.entry.at head k count }
    {
        if k < count {
            self.past(head, k).at
        } else {
            self.stream.len()
        }
    }

    // The places of three stores of `count`.
    #[tactic(auto, unfolding(crate::specs::Stream::places))]
    pub fn places(self, head: u64, count: u64) -> Trio
        ensures { result ≡ Stream.places self.entry.stream.now self.entry.at head count }
    {
        Trio {
            a: self.place(head, 0, count),
            b: self.place(head, 1, count),
            c: self.place(head, 2, count),
        }
    }

    // Word i of a store: the one recorded, or its filling word where none is.
    #[tactic(auto, unfolding(crate::specs::Stream::given), using(crate::specs::StreamLaws::behind_twice))]
    fn recorded(self, i: u64) -> u64
        ensures { result ≡ Stream.given self.entry.stream.now self.entry.at i }
    {
        if i < self.number(1) {
            self.skip(2).number(i)
        } else {
            self.word()
        }
    }

    // Lays the recorded store into this one.
    #[tactic(auto, unfolding(crate::specs::Stream::stored))]
    pub fn lay(self, store: &mut [u64])
        requires { length store.old ≡ Stream.word self.stream.now self.at }
        ensures { store.new ≡ Stream.stored self.entry.stream.now self.entry.at }
    {
        let packed = self.skip(1);
        for (i, word) in store.iter_mut().enumerate() {
            *word = packed.recorded(i as u64);
        }
    }

    // The store that is lent, in the front of an array.
    pub fn laid<'b>(self, array: &'b mut [u64]) -> &'b mut [u64]
        requires { Stream.word self.stream.now self.at ≤ length array.old }
        ensures { result.now ≡ Stream.stored self.entry.stream.now self.entry.at }
    {
        let store = &mut array[..self.word() as usize];
        self.lay(store);
        store
    }

    // Whether a store holds what is recorded of it.
    #[tactic(auto, unfolding(crate::specs::Stream::holds))]
    fn holds(self, store: &[u64]) -> bool
        ensures { result ≡ Stream.holds self.entry.stream.now self.entry.at store.now }
    {
        agree(store, |i| self.recorded(i)) && self.number(1) <= store.len() as u64
    }

    // Whether words are those recorded from the place on.
    #[tactic(auto, unfolding(crate::specs::Stream::follows))]
    pub fn follow(self, words: &[u64]) -> bool
        ensures { result ≡ Stream.follows self.entry.stream.now self.entry.at words.now }
    {
        agree(words, |i| self.number(i))
    }

    // Whether the stores lent at three places of the stream have at most so many words.
    #[tactic(auto, unfolding(crate::specs::Stream::fit))]
    pub fn fit(self, t: Trio, most: u64) -> bool
        ensures { result ≡ Stream.fit self.entry.stream.now t most }
    {
        self.to(t.a).word() <= most && self.to(t.b).word() <= most && self.to(t.c).word() <= most
    }

    // Whether stores hold what is recorded of them at three places of the stream.
    #[tactic(auto, unfolding(crate::specs::Stream::hold_all))]
    pub fn hold_all(self, t: Trio, a: &[u64], b: &[u64], c: &[u64]) -> bool
        ensures { result ≡ Stream.hold_all self.entry.stream.now t a.now b.now c.now }
    {
        self.to(t.a).holds(a) && self.to(t.b).holds(b) && self.to(t.c).holds(c)
    }
}

// Whether each word is what f says of its place.
fn agree<F: Fn(u64) -> u64>(words: &[u64], f: F) -> bool
    requires { F.IsAlwaysCallable f }
    ensures { (g : ℕ → ℕ) → ((i r : ℕ) → F.post f i r → r ≡ g i) → result ≡ list_all (λ p. p.1 == g p.0) (enumerate_from 0 words.now) }
{
    words
        .iter()
        .enumerate()
        .all(|(i, word)| *word == f(i as u64))
}

// Three places.
#[derive(Clone, Copy)]
pub struct Trio {
    pub a: usize,
    pub b: usize,
    pub c: usize,
}

// The stores that a call reads; one that it has no use for is empty.
#[derive(Clone, Copy)]
pub struct Reads<'a> {
    pub a: &'a [u64],
    pub b: &'a [u64],
    pub c: &'a [u64],
}

// The stores that a call writes; one that it has no use for is empty.
#[derive(Drop)]
pub struct Writes<'a> {
    pub a: &'a mut [u64],
    pub b: &'a mut [u64],
    pub c: &'a mut [u64],
}
