// Coordinates: numbers below a prime, with the operations of the residues modulo it.
ghost use Rattle.std.specs.Prelude.{◌≡◌, ◌+◌, ◌-◌, ◌*◌, ◌/◌, ◌%◌, ◌^◌, ◌<◌, ◌≤◌, ◌==◌};
ghost use Rattle.ring.specs.Power.{pow};
ghost use Rattle.field.specs.Field.{felt, p, q, modulus_of, second_below};
ghost use Rattle.field.specs.Generators.{generator, most_log};
ghost use Rattle.field.specs.Generators as Generators;

use crate::{Prime, QuadFelt};

// 2^32, the base of a word's halves.
const BASE: u64 = 4294967296;

// 2^64 modulo p.
const EPSILON: u64 = 4294967295;

// The prime.
pub fn modulus(prime: Prime) -> u64
    ensures { result ≡ modulus_of prime }
{
    match prime {
        Prime::Goldilocks => QuadFelt::MODULUS,
        Prime::BabyBear => QuadFelt::MODULUS_Q,
    }
}

// What second coordinates are below.
pub fn second_below(prime: Prime) -> u64
    ensures { result ≡ second_below prime }
{
    match prime {
        Prime::Goldilocks => QuadFelt::MODULUS,
        Prime::BabyBear => 1,
    }
}

// The sum.
pub fn add(prime: Prime, a: u64, b: u64) -> u64
    requires { (a < modulus_of prime) × (b < modulus_of prime) }
    ensures { (result ≡ (felt prime).add a b) × (result < modulus_of prime) }
{
    let rest = modulus(prime) - b;
    if a < rest { a + b } else { a - rest }
}

// The difference.
pub fn sub(prime: Prime, a: u64, b: u64) -> u64
    requires { (a < modulus_of prime) × (b < modulus_of prime) }
    ensures { (result ≡ (felt prime).sub a b) × (result < modulus_of prime) }
{
    if a < b { modulus(prime) - b + a } else { a - b }
}

// The negative.
pub fn neg(prime: Prime, a: u64) -> u64
    requires { a < modulus_of prime }
    ensures { (result ≡ (felt prime).neg a) × (result < modulus_of prime) }
{
    if a == 0 { 0 } else { modulus(prime) - a }
}

// The sum modulo p of two words whose sum is below 2p: 2^64 = 2^32 − 1 modulo p.
fn fold(a: u64, b: u64) -> u64
    requires { a + b < 2 * p }
    ensures { (result ≡ (a + b) % p) × (result < p) }
{
    let s = a.wrapping_add(b);
    if s < a {
        return s + EPSILON;
    }
    if s < QuadFelt::MODULUS {
        return s;
    }
    s.wrapping_add(EPSILON)
}

// A number of two words, high · 2^64 + low.
#[derive(Clone, Copy)]
struct Wide {
    high: u64,
    low: u64,
}

// The high word of the product: schoolbook multiplication by halves of 32 bits. Apart from the low word, LLVM
// makes one machine product of it.
fn high_word(a: u64, b: u64) -> u64
    ensures { result ≡ a * b / 2 ^ 64 }
{
    let a1 = a / BASE;
    let a0 = a % BASE;
    let b1 = b / BASE;
    let b0 = b % BASE;
    let middle = a1 * b0 + a0 * b0 / BASE;
    let cross = a0 * b1 + middle % BASE;
    a1 * b1 + middle / BASE + cross / BASE
}

// The low word of the product: the product of the high halves counts 2^64 times.
fn low_word(a: u64, b: u64) -> u64
    ensures { result ≡ a * b % 2 ^ 64 }
{
    let a1 = a / BASE;
    let a0 = a % BASE;
    let b1 = b / BASE;
    let b0 = b % BASE;
    let cross = (a1 * b0).wrapping_add(a0 * b1);
    (cross % BASE * BASE).wrapping_add(a0 * b0)
}

// The whole product.
fn wide_mul(a: u64, b: u64) -> Wide
    ensures { result.high * 2 ^ 64 + result.low ≡ a * b }
{
    Wide {
        high: high_word(a, b),
        low: low_word(a, b),
    }
}

// high · 2^64 + low modulo p: 2^64 = 2^32 − 1 and 2^96 = −1.
fn reduce(high: u64, low: u64) -> u64
    ensures { (result ≡ (high * 2 ^ 64 + low) % p) × (result < p) }
{
    let top = high / BASE;
    let middle = high % BASE * EPSILON;
    if low < top {
        return fold(QuadFelt::MODULUS - top + low, middle);
    }
    fold(low - top, middle)
}

// The product modulo p of two words.
pub fn wide_product(a: u64, b: u64) -> u64
    ensures { (result ≡ a * b % p) × (result < p) }
{
    let n = wide_mul(a, b);
    reduce(n.high, n.low)
}

// The product modulo q of two words below 2^32.
pub fn short_product(a: u64, b: u64) -> u64
    requires { (a < 2 ^ 32) × (b < 2 ^ 32) }
    ensures { (result ≡ a * b % q) × (result < q) }
{
    a * b % QuadFelt::MODULUS_Q
}

// The product.
pub fn mul(prime: Prime, a: u64, b: u64) -> u64
    requires { (a < modulus_of prime) × (b < modulus_of prime) }
    ensures { (result ≡ (felt prime).mul a b) × (result < modulus_of prime) }
{
    match prime {
        Prime::Goldilocks => wide_product(a, b),
        Prime::BabyBear => short_product(a, b),
    }
}

// The generators modulo p of the subgroups of order 2^0, 2^1, .., 2^32: each is the square of the next.
const GENERATORS: [u64; 33] = [
    1,
    18446744069414584320,
    281474976710656,
    18446744069397807105,
    17293822564807737345,
    70368744161280,
    549755813888,
    17870292113338400769,
    13797081185216407910,
    1803076106186727246,
    11353340290879379826,
    455906449640507599,
    17492915097719143606,
    1532612707718625687,
    16207902636198568418,
    17776499369601055404,
    6115771955107415310,
    12380578893860276750,
    9306717745644682924,
    18146160046829613826,
    3511170319078647661,
    17654865857378133588,
    5416168637041100469,
    16905767614792059275,
    9713644485405565297,
    5456943929260765144,
    17096174751763063430,
    1213594585890690845,
    6414415596519834757,
    16116352524544190054,
    9123114210336311365,
    4614640910117430873,
    1753635133440165772,
];

// The generators modulo q of the subgroups of order 2^0, 2^1, .., 2^27.
const GENERATORS_Q: [u64; 28] = [
    1, 2013265920, 1728404513, 1592366214, 196396260, 760005850, 1721589904, 397765732, 1732600167,
    1753498361, 341742893, 1340477990, 1282623253, 298008106, 1657000625, 2009781145, 1421947380,
    1286330022, 1559589183, 1049899240, 195061667, 414040701, 570250684, 1267047229, 1003846038,
    1149491290, 975630072, 440564289,
];

// The greatest k for which there is a generator of order 2^k.
pub fn most_log(prime: Prime) -> usize
    ensures { result ≡ most_log prime }
{
    match prime {
        Prime::Goldilocks => 32,
        Prime::BabyBear => 27,
    }
}

// The generator of the subgroup of order 2^k.
pub fn two_adic_generator(prime: Prime, k: usize) -> u64
    requires { k ≤ most_log prime }
    ensures { (result ≡ generator prime k) × (result < modulus_of prime) }
{
    match prime {
        Prime::Goldilocks => GENERATORS[k],
        Prime::BabyBear => GENERATORS_Q[k],
    }
}

// One half.
pub fn half(prime: Prime) -> u64
    ensures { (result ≡ Generators.half prime) × (result < modulus_of prime) }
{
    modulus(prime) / 2 + 1
}

// Whether it is −1.
pub fn is_minus_one(prime: Prime, a: u64) -> bool
    ensures { result ≡ (a == modulus_of prime - 1) }
{
    a == modulus(prime) - 1
}

// The product of `res` with `square` where the exponent is odd; `res` where it is even.
fn times_odd(prime: Prime, res: u64, square: u64, exponent: u64) -> u64
    requires { (res < modulus_of prime) × (square < modulus_of prime) }
    ensures { (result ≡ (felt prime).mul res (pow (felt prime) square (exponent % 2))) × (result < modulus_of prime) }
{
    if exponent % 2 == 0 {
        res
    } else {
        mul(prime, res, square)
    }
}

// The power, by squaring.
pub fn pow(prime: Prime, base: u64, exponent: u64) -> u64
    requires { base < modulus_of prime }
    ensures { (result ≡ pow (felt prime) base exponent) × (result < modulus_of prime) }
{
    let mut result: u64 = 1;
    let mut square = base;
    let mut left = exponent;
    // A while: the exponent falls by half.
    while 0 < left {
        result = times_odd(prime, result, square, left);
        square = mul(prime, square, square);
        left /= 2;
    }
    result
}
