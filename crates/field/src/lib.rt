// The two fields of the constraint lists: coordinates modulo p = 2^64 − 2^32 + 1, with elements c0 + c1·u where u² = 7; and
// residues modulo q = 2^31 − 2^27 + 1, whose c1 is always 0.
#![tactic(auto)]

ghost use Rattle.std.specs.Prelude.{◌≡◌};
ghost use Rattle.field.specs.Field.{elements, Below};
ghost use Rattle.field.specs.Field as spec;
ghost use Rattle.field.specs.Numbers as Numbers;

pub mod felt;

// A field, by its prime.
#[derive(Clone, Copy, PartialEq, Eq)]
pub enum Prime {
    Goldilocks,
    BabyBear,
}

// The field that a call's number names.
#[tactic(auto, unfolding(crate::specs::Numbers::numbered))]
pub fn numbered(number: u64) -> Option<Prime>
    ensures { result ≡ Numbers.numbered number }
{
    match number {
        1 => Some(Prime::Goldilocks),
        2 => Some(Prime::BabyBear),
        _ => None,
    }
}

// The element c0 + c1·u.
#[derive(Clone, Copy, Default, PartialEq, Eq)]
pub struct QuadFelt {
    pub c0: u64,
    pub c1: u64,
}

impl QuadFelt {
    // 2^64 − 2^32 + 1.
    pub const MODULUS: u64 = 18446744069414584321;

    // 2^31 − 2^27 + 1, the modulus of field 2.
    pub const MODULUS_Q: u64 = 2013265921;

    pub const ZERO: QuadFelt = QuadFelt { c0: 0, c1: 0 };

    pub const ONE: QuadFelt = QuadFelt { c0: 1, c1: 0 };

    pub const U: QuadFelt = QuadFelt { c0: 0, c1: 1 };

    // u², a coordinate.
    pub const U_SQUARED: u64 = 7;

    // The element u.
    pub fn u() -> QuadFelt
        ensures { result ≡ spec.u }
    {
        QuadFelt::U
    }

    pub fn new(c0: u64, c1: u64) -> QuadFelt
        ensures { result ≡ spec.new c0 c1 }
    {
        QuadFelt { c0, c1 }
    }

    pub fn from_base(c0: u64) -> QuadFelt
        ensures { result ≡ spec.new c0 0 }
    {
        QuadFelt { c0, c1: 0 }
    }

    // The sum.
    pub fn add(self, prime: Prime, o: QuadFelt) -> QuadFelt
        requires { Below prime self × Below prime o }
        ensures { (result ≡ (elements prime).add self o) × Below prime result }
    {
        QuadFelt {
            c0: felt::add(prime, self.c0, o.c0),
            c1: felt::add(prime, self.c1, o.c1),
        }
    }

    // The difference.
    pub fn sub(self, prime: Prime, o: QuadFelt) -> QuadFelt
        requires { Below prime self × Below prime o }
        ensures { (result ≡ (elements prime).sub self o) × Below prime result }
    {
        QuadFelt {
            c0: felt::sub(prime, self.c0, o.c0),
            c1: felt::sub(prime, self.c1, o.c1),
        }
    }

    // The product of c0 + c1·u and o modulo p.
    fn pair_mul(self, o: QuadFelt) -> QuadFelt
        requires { Below Prime.Goldilocks self × Below Prime.Goldilocks o }
        ensures { (result ≡ (elements Prime.Goldilocks).mul self o) × Below Prime.Goldilocks result }
    {
        let p = Prime::Goldilocks;
        let squared = felt::mul(p, QuadFelt::U_SQUARED, felt::mul(p, self.c1, o.c1));
        QuadFelt {
            c0: felt::add(p, felt::mul(p, self.c0, o.c0), squared),
            c1: felt::add(p, felt::mul(p, self.c0, o.c1), felt::mul(p, self.c1, o.c0)),
        }
    }

    // The product.
    pub fn mul(self, prime: Prime, o: QuadFelt) -> QuadFelt
        requires { Below prime self × Below prime o }
        ensures { (result ≡ (elements prime).mul self o) × Below prime result }
    {
        match prime {
            Prime::Goldilocks => self.pair_mul(o),
            Prime::BabyBear => QuadFelt::from_base(felt::mul(prime, self.c0, o.c0)),
        }
    }

    // The negative.
    pub fn neg(self, prime: Prime) -> QuadFelt
        requires { Below prime self }
        ensures { (result ≡ (elements prime).neg self) × Below prime result }
    {
        QuadFelt {
            c0: felt::neg(prime, self.c0),
            c1: felt::neg(prime, self.c1),
        }
    }
}
