// The numbers of a column's form: dense coefficients, sparse terms, and the roots of its rows.
#![tactic(auto)]

ghost use Rattle.std.specs.Prelude.{◌≡◌, ◌+◌, ◌*◌, ◌-◌, ◌<◌, ◌≤◌, ◌++◌, length, take};
ghost use Rattle.field.specs.Fields.{field_of};
ghost use Rattle.field.specs.Field.{felt, modulus_of};
ghost use Rattle.ring.specs.Power.{pow};
ghost use Rattle.columns.specs.Columns as Columns;
ghost use Rattle.coefficients.specs.Terms as Terms;
ghost use Rattle.coefficients.specs.Arrays as Arrays;
ghost use Rattle.coefficients.specs.Split as Split;

use arrayvec::ArrayVec;
use columns::{Column, MOST_ENTRIES};
use field::{Prime, felt};

// So many terms a sparse column has at most.
pub const MOST_TERMS: usize = 11;

// So many twiddles a term has at most.
pub const MOST_TWIDDLES: usize = 7;

// w^k, where w generates the subgroup of the column's rows.
fn root(col: Column, k: usize) -> u64
    ensures { let c = col.entry in (result ≡ Terms.root (field_of c.prime) c.entries.now k) × (result < modulus_of c.prime) }
{
    felt::pow(
        col.prime,
        felt::two_adic_generator(col.prime, columns::log_length(col.entries)),
        k as u64,
    )
}

// The inverse of w.
fn root_inverse(col: Column) -> u64
    ensures { let c = col.entry in (result ≡ Terms.root_inverse (field_of c.prime) c.entries.now) × (result < modulus_of c.prime) }
{
    root(col, col.entries.len() - 1)
}

// The inverse of the number of rows.
pub fn size_inverse(prime: Prime, col: &[u64]) -> u64
    ensures { (result ≡ Terms.size_inverse (field_of prime) col.now) × (result < modulus_of prime) }
{
    felt::pow(prime, felt::half(prime), columns::log_length(col) as u64)
}

// base^0, base^1, .., base^(n − 1).
fn powers(prime: Prime, base: u64, n: usize) -> ArrayVec<u64, MOST_ENTRIES>
    requires { (base < modulus_of prime) × (n ≤ 128) }
    ensures { result.items ≡ Arrays.powers (felt prime) base n }
{
    let mut powers = ArrayVec::new();
    let mut power: u64 = 1;
    for _ in 0..n {
        powers.push(power);
        power = felt::mul(prime, base, power);
    }
    powers
}

// w^k for each row k.
pub fn roots(prime: Prime, col: &[u64]) -> ArrayVec<u64, MOST_ENTRIES>
    requires { length col.now ≤ 128 }
    ensures { result.items ≡ Arrays.roots (field_of prime) col.now }
{
    powers(
        prime,
        felt::two_adic_generator(prime, columns::log_length(col)),
        col.len(),
    )
}

// A column's entries, then 0.
fn copied(col: &[u64]) -> [u64; MOST_ENTRIES]
    requires { length col.now ≤ 128 }
    ensures { result ≡ Arrays.copied col.now }
{
    let mut row = [0u64; MOST_ENTRIES];
    row[..col.len()].copy_from_slice(col);
    row
}

// Place j, counted round a circle of n.
fn round(n: usize, j: usize) -> usize
    ensures { result ≡ Split.round n j }
{
    if j < n { j } else { j - n }
}

// Writes s words, each from two words of the table that is halved.
fn join_row(
    prime: Prime,
    from: &[u64; MOST_ENTRIES],
    a: usize,
    x: u64,
    s: usize,
    to: &mut [u64],
    at: usize,
)
    requires { Split.LowTable (field_of prime) from.now × Split.LowTable (field_of prime) to.old × (x < modulus_of prime) × (a + 2 * s ≤ 128) × (at + s ≤ length to.old) }
    ensures { Split.RowDone (field_of prime) (Split.joined (felt prime) from.now s x a) to.old at s to.new }
{
    for r in 0..s {
        to[at + r] = felt::add(prime, from[a + r], felt::mul(prime, x, from[a + s + r]));
    }
}

// From a table of n rows of 2·s words, one of 2·n rows of s words.
fn halved(
    prime: Prime,
    from: &[u64; MOST_ENTRIES],
    factors: &[u64],
    s: usize,
    n: usize,
) -> [u64; MOST_ENTRIES]
    requires { Split.LowTable (field_of prime) from.now × Split.LowTable (field_of prime) factors.now × (0 < s) × (2 * s * n ≤ length factors.now) × (length factors.now ≤ 128) }
    ensures { Split.Halved (felt prime) from.now factors.now s n result × Split.LowTable (field_of prime) result }
{
    let mut to = [0u64; MOST_ENTRIES];
    for j in 0..2 * n {
        let a = round(n, j) * (2 * s);
        join_row(prime, from, a, factors[j * s], s, &mut to, j * s);
    }
    to
}

// The sum of the entries at the powers of w^(−j), for each row j.
fn sums(col: Column) -> [u64; MOST_ENTRIES]
    ensures { let c = col.entry in Split.Reached (field_of c.prime) c.entries.now 1 (length c.entries.now) result }
{
    let factors = powers(col.prime, root_inverse(col), col.entries.len());
    let mut table = copied(col.entries);
    let mut s = col.entries.len();
    let mut n = 1;
    // A while: s falls by half.
    while 1 < s {
        s /= 2;
        table = halved(col.prime, &table, &factors, s, n);
        n *= 2;
    }
    table
}

// The dense coefficients.
pub fn dense(col: Column) -> ArrayVec<u64, MOST_ENTRIES>
    ensures { let c = col.entry in result.items ≡ Arrays.coefficients (field_of c.prime) c.entries.now }
{
    let scale = size_inverse(col.prime, col.entries);
    let sums = sums(col);
    let mut coefficients = ArrayVec::new();
    for sum in &sums[..col.entries.len()] {
        coefficients.push(felt::mul(col.prime, *sum, scale));
    }
    coefficients
}

// The places of a column's nonzero entries.
pub fn support<const N: usize>(col: &[u64]) -> ArrayVec<u64, N>
    requires { length (Columns.support col.now) ≤ N }
    ensures { result.items ≡ Columns.support col.now }
{
    let mut places = ArrayVec::new();
    for (j, v) in col.iter().enumerate() {
        if *v != 0 {
            places.push(j as u64);
        }
    }
    places
}

// The powers base, base^2, base^4, .. below base^(2^log), then 0.
fn squares(prime: Prime, base: u64, log: usize) -> [u64; MOST_TWIDDLES]
    requires { (base < modulus_of prime) × (log ≤ 7) }
    ensures { result ≡ Arrays.squares (felt prime) base log }
{
    let mut row = [0u64; MOST_TWIDDLES];
    let mut power = base;
    for i in 0..log {
        row[i] = power;
        power = felt::mul(prime, power, power);
    }
    row
}

// The twiddles of a sparse column's terms, at these places.
pub fn sparse_twiddles(col: Column, places: &[u64]) -> [[u64; MOST_TWIDDLES]; MOST_TERMS]
    requires { Arrays.Places col.entries.now places.now }
    ensures { let c = col.entry in result ≡ Arrays.sparse_twiddles (field_of c.prime) c.entries.now }
{
    let step = root_inverse(col);
    let log = columns::log_length(col.entries);
    let mut rows = [[0u64; MOST_TWIDDLES]; MOST_TERMS];
    for (k, place) in places.iter().enumerate() {
        rows[k] = squares(col.prime, felt::pow(col.prime, step, *place), log);
    }
    rows
}

// The scaled values of a sparse column's terms, at these places.
pub fn sparse_values(col: Column, places: &[u64]) -> ArrayVec<u64, MOST_TERMS>
    requires { Arrays.Places col.entries.now places.now }
    ensures { let c = col.entry in result.items ≡ Arrays.sparse_values (field_of c.prime) c.entries.now }
{
    let scale = size_inverse(col.prime, col.entries);
    let mut values = ArrayVec::new();
    for place in places {
        values.push(felt::mul(col.prime, col.entries[*place as usize], scale));
    }
    values
}
