// Loops of the fields' products, exported so that ./bench times them without a call for each.
#![tactic(auto)]

ghost use Rattle.std.specs.Prelude.{◌≡◌, ◌-◌, ◌<◌, length};
ghost use Rattle.ring.specs.Power.{pow};
ghost use Rattle.field.specs.Field.{felt, modulus_of};
ghost use Rattle.field.specs.Numbers.{in_field};
ghost use Rattle.products.specs.Products as Products;

use field::{Prime, felt};

// value · factor^count, a factor a turn.
#[tactic(auto, using(crate::specs::Turns::power_none, crate::specs::Turns::power_more))]
fn times_power(prime: Prime, value: u64, factor: u64, count: u64) -> u64
    requires { (value < modulus_of prime) × (factor < modulus_of prime) }
    ensures { result ≡ (felt prime).mul value (pow (felt prime) factor count) }
{
    let mut result = value;
    for _ in 0..count {
        result = felt::mul(prime, result, factor);
    }
    result
}

// Products that each take the one before; 0 where an operand is not below the prime.
#[tactic(auto, unfolding(crate::specs::Products::dependent))]
fn dependent(prime: Prime, value: u64, factor: u64, count: u64) -> u64
    ensures { result ≡ Products.dependent prime value factor count }
{
    let modulus = felt::modulus(prime);
    if value < modulus && factor < modulus {
        times_power(prime, value, factor, count)
    } else {
        0
    }
}

// Products that each take the one before, in a field by its number; 0 where there is none.
#[unsafe(no_mangle)]
pub extern "C" fn felt_dependent(field: u64, value: u64, factor: u64, count: u64) -> u64
    ensures { result ≡ in_field field 0 (λ prime. Products.dependent prime value factor count) }
{
    field::numbered(field).map_or(0, |prime| dependent(prime, value, factor, count))
}

// The product of two words in field 1, of their low halves in field 2.
fn product(prime: Prime, a: u64, b: u64) -> u64
    ensures { result ≡ Products.product prime a b }
{
    match prime {
        Prime::Goldilocks => felt::wide_product(a, b),
        Prime::BabyBear => felt::short_product(a % 4294967296, b % 4294967296),
    }
}

// Products of neighbours, added modulo 2^64.
#[tactic(auto, using(crate::specs::Turns::sum_none, crate::specs::Turns::sum_more))]
fn independent(prime: Prime, words: &[u64]) -> u64
    ensures { result ≡ Products.independent prime words.now (length words.now - 1) }
{
    let mut sum: u64 = 0;
    for pair in words.windows(2) {
        sum = sum.wrapping_add(product(prime, pair[0], pair[1]));
    }
    sum
}

// Products of neighbours, added modulo 2^64, in a field by its number; 0 where there is none.
#[unsafe(no_mangle)]
pub extern "C" fn felt_independent(field: u64, words: &[u64]) -> u64
    ensures { result ≡ in_field field 0 (λ prime. Products.independent prime words.now (length words.now - 1)) }
{
    field::numbered(field).map_or(0, |prime| independent(prime, words))
}
