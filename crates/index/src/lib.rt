// An index of places by a hash of the record's words, for the lookup.
#![tactic(auto)]

ghost use Rattle.std.specs.Prelude.{◌≡◌, ℕ, Bool, [], ◌+◌, ◌*◌, ◌/◌, ◌^◌, ◌<◌, ◌≤◌};
ghost use Rattle.dag.specs.View.{interleaved};
ghost use Rattle.dag.specs.Nodes as Nodes;
ghost use Rattle.dag.specs.Store as Store;
ghost use Rattle.dag.specs.Lookup as Lookup;
ghost use Rattle.dag.specs.Lookup.{greatest};
ghost use Rattle.index.specs.Index as Index;
ghost use Rattle.index.specs.Index.{Sought};

use dag::{NodeKind, Words};

// So many steps a walk along a bucket takes before the plain search is quicker.
pub const MOST_STEPS: usize = 8;

// 2^32.
const BASE: u64 = 4294967296;

// The hash of three words.
pub fn hash(w: Words) -> u64
    ensures { (result ≡ Index.hash w.tag w.first w.second) × (result < 2 ^ 32) }
{
    (w.first % BASE * 1013904243
        + w.first / BASE * 965271753
        + w.second % BASE * 736899889
        + w.tag % 8 * 889516853)
        % BASE
}

// One of so many buckets by a hash.
pub fn bucket_of(buckets: usize, h: u64) -> usize
    requires { (h < 2 ^ 32) × (0 < buckets) × (buckets ≤ 2 ^ 32) }
    ensures { (result ≡ Index.bucket_of buckets h) × (result < buckets) }
{
    (h * buckets as u64 / BASE) as usize
}

// The bucket of three words among those of an index.
pub fn bucket(links: &[u64], w: Words) -> usize
    requires { Index.Usable links.now }
    ensures { (result ≡ Index.bucket_of (Index.half links.now) (Index.hash w.tag w.first w.second)) × (result < Index.half links.now) }
{
    bucket_of(links.len() / 2, hash(w))
}

// The greatest indexed place where a test holds, along bucket k; behind many others of the bucket by a search of the places below.
pub fn walk<T: Fn(usize) -> bool, S: Fn(usize) -> Option<usize>>(
    links: &[u64],
    k: usize,
    is_hit: T,
    search: S,
) -> Option<usize>
    requires { (hit : ℕ → Bool) × (count : ℕ) × Sought hit count links.now k (T.pre is_hit) (T.post is_hit) (S.pre search) (S.post search) }
    ensures { (hit : ℕ → Bool) (count : ℕ) → Sought hit count links.now k (T.pre is_hit) (T.post is_hit) (S.pre search) (S.post search) → result ≡ greatest hit count }
{
    let half = links.len() / 2;
    let mut link = links[k];
    for _ in 0..MOST_STEPS {
        if link == 0 {
            return None;
        }
        let i = (link - 1) as usize;
        if is_hit(i) {
            return Some(i);
        }
        link = links[half + i];
    }
    search(link as usize)
}

// The greatest place of a record equal to x among the first n, by their index.
pub fn find(list: &[u64], n: usize, links: &[u64], x: NodeKind) -> Option<usize>
    requires { Store.Records (interleaved list.now) n × Index.NodeIndex (Nodes.nodes (interleaved list.now) n) links.now }
    ensures { result ≡ Lookup.lookup (Nodes.nodes (interleaved list.now) n) x n }
{
    let wanted = Words::from(x);
    walk(
        links,
        bucket(links, wanted),
        |i| dag::words_are(list, i, wanted),
        |below| dag::lookup(list, below, x),
    )
}

// An index of places by a hash of the records there, in a lent store of links.
#[derive(Drop)]
pub struct PlaceIndex<'links> {
    pub links: &'links mut [u64],
    pub ghost usable: { Index.Usable links.now },
}

impl<'links> PlaceIndex<'links> {
    ghost use Rattle.index.specs.Promises.{SameLinks};

    // An index in these links, as they are.
    pub fn new(links: &'links mut [u64]) -> PlaceIndex<'links>
        requires { Index.Usable links.old }
        ensures same_reference { result.links.ghost_name ≡ links.entry.ghost_name }
        ensures held { result.links.now ≡ links.old }
    {
        PlaceIndex { links }
    }

    // The links, to be read.
    pub fn as_slice(&self) -> &[u64]
        ensures { result.now ≡ self.now.links.now }
    {
        &*self.links
    }

    // Empties the index.
    pub fn clear(&mut self)
        ensures same { SameLinks self.old self.new }
        ensures empty { Index.NodeIndex [] self.new.links.now }
    {
        self.links.fill(0);
    }

    // Notes place n in the bucket of three words.
    pub fn note(&mut self, n: usize, w: Words)
        requires { n < Index.half self.old.links.now }
        ensures same { SameLinks self.old self.new }
        ensures noted { self.new.links.now ≡ Index.noted self.old.links.now n (Index.bucket_of (Index.half self.old.links.now) (Index.hash w.tag w.first w.second)) }
    {
        let links = &mut *self.links;
        let k = bucket(links, w);
        links[links.len() / 2 + n] = links[k];
        links[k] = n as u64 + 1;
    }

    // Indexes the first n records of a list, and nothing else.
    pub fn index_list(&mut self, list: &[u64], n: usize)
        requires { Store.Records (interleaved list.now) n × (n ≤ Index.half self.old.links.now) }
        ensures same { SameLinks self.old self.new }
        ensures indexed { Index.NodeIndex (Nodes.nodes (interleaved list.now) n) self.new.links.now }
    {
        self.clear();
        for i in 0..n {
            self.note(i, dag::words_at(list, i));
        }
    }
}
