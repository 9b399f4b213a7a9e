// A coordinate as a signed number.
#![tactic(auto)]

ghost use Rattle.std.specs.Prelude.{◌≡◌, ◌<◌};
ghost use Rattle.field.specs.Field.{modulus_of};
ghost use Rattle.signed.specs.Signed as Signed;

use field::{Prime, felt};

// The signed number of a coordinate: above half the prime it is negative.
#[tactic(auto, unfolding(crate::specs::Signed::signed), using(crate::specs::SignedLaws::half_small))]
pub fn signed(prime: Prime, c: u64) -> i64
    requires { c < modulus_of prime }
    ensures { result ≡ Signed.signed (modulus_of prime) c }
{
    let modulus = felt::modulus(prime);
    if c <= (modulus - 1) / 2 {
        c as i64
    } else {
        -((modulus - c) as i64)
    }
}
