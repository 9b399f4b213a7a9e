// Holds the fields to vectors of ordinary whole-number arithmetic, made by tools/field_vectors.py and read from standard input.
#![tactic(auto)]

ghost use Rattle.std.specs.Prelude.{cond, ◌≡◌, ◌+◌, ◌/◌, ◌≤◌, ◌<◌, IfSome, OnOk, length, take};
ghost use Rattle.std.specs.Io.KnownBytes.{Appends};
ghost use Rattle.field.specs.Field.{Below};
ghost use Rattle.field.specs.Generators as Generators;
ghost use Rattle.field_vectors.specs.Vectors as Vectors;
ghost use Rattle.field_vectors.specs.Report.{report_of};

use field::{Prime, QuadFelt, felt};
use std::io;
use std::io::{Read, Write};

// The bytes of a line: a field number, a sign, and six words of 16 hexadecimal digits.
const LINE: usize = 106;

// The value of a hexadecimal digit.
#[tactic(auto, unfolding(crate::specs::Vectors::digit))]
fn nibble(b: u8) -> u64
    ensures { (result ≡ Vectors.digit b) × (result < 16) }
{
    match b {
        b'0'..=b'9' => u64::from(b - b'0'),
        b'a'..=b'f' => u64::from(b - b'a' + 10),
        _ => 0,
    }
}

// The word of 16 digits at a place.
#[tactic(auto, using(crate::specs::VectorLaws::digits_none, crate::specs::VectorLaws::digits_more, crate::specs::VectorLaws::digits_low))]
fn word(s: &[u8], at: usize) -> u64
    requires { at + 16 ≤ length s.now }
    ensures { result ≡ Vectors.digits s.now at 16 }
{
    let mut n: u64 = 0;
    for b in &s[at..at + 16] {
        n = n * 16 + nibble(*b);
    }
    n
}

// The element of two words at a place.
#[tactic(auto, unfolding(crate::specs::Vectors::element))]
fn element(s: &[u8], at: usize) -> QuadFelt
    requires { at + 33 ≤ length s.now }
    ensures { result ≡ Vectors.element s.now at }
{
    QuadFelt::new(word(s, at), word(s, at + 17))
}

// The generator of a number, and 0 past the table.
#[tactic(auto, using(crate::specs::VectorLaws::generator_past))]
fn generator(prime: Prime, k: u64) -> u64
    ensures { result ≡ Generators.generator prime k }
{
    if k <= felt::most_log(prime) as u64 {
        felt::two_adic_generator(prime, k as usize)
    } else {
        0
    }
}

// What the field answers for a sign.
#[tactic(auto, unfolding(crate::specs::Vectors::asked))]
fn answer(prime: Prime, sign: u8, a: QuadFelt, b: QuadFelt) -> QuadFelt
    requires { Below prime a × Below prime b }
    ensures { result ≡ Vectors.asked prime sign a b }
{
    match sign {
        b'+' => a.add(prime, b),
        b'-' => a.sub(prime, b),
        b'*' => a.mul(prime, b),
        b'^' => QuadFelt::from_base(felt::pow(prime, a.c0, b.c0)),
        b'g' => QuadFelt::from_base(generator(prime, a.c0)),
        _ => a.neg(prime),
    }
}

// Whether operands are in lowest form, and the field answers r for a sign.
#[tactic(auto, unfolding(crate::specs::Vectors::agrees, field::specs::Field::same), using(crate::specs::VectorLaws::low_below))]
fn agrees(prime: Prime, sign: u8, a: QuadFelt, b: QuadFelt, r: QuadFelt) -> bool
    ensures { result ≡ Vectors.agrees prime sign a b r }
{
    dag::lowest(prime, a.c0, a.c1)
        && dag::lowest(prime, b.c0, b.c1)
        && answer(prime, sign, a, b) == r
}

// Whether a number names a field, and that agrees.
#[tactic(auto, unfolding(crate::specs::Vectors::agrees_in))]
fn agrees_in(number: u64, sign: u8, a: QuadFelt, b: QuadFelt, r: QuadFelt) -> bool
    ensures { result ≡ Vectors.agrees_in number sign a b r }
{
    field::numbered(number).is_some_and(|prime| agrees(prime, sign, a, b, r))
}

// Whether the vector at a place agrees.
#[tactic(auto, unfolding(crate::specs::Vectors::score))]
fn agrees_at(s: &[u8], at: usize) -> bool
    requires { at + 106 ≤ length s.now }
    ensures { cond result 1 0 ≡ Vectors.score s.now at }
{
    let a = element(s, at + 4);
    let b = element(s, at + 38);
    let r = element(s, at + 72);
    agrees_in(nibble(s[at]), s[at + 2], a, b, r)
}

// How many whole lines agree.
#[tactic(auto, using(crate::specs::VectorLaws::matched_none, crate::specs::VectorLaws::matched_more))]
fn matched(s: &[u8]) -> u64
    ensures { result ≡ Vectors.matched s.now (length s.now / 106) }
{
    let mut matched = 0;
    for i in 0..s.len() / LINE {
        matched += u64::from(agrees_at(s, LINE * i));
    }
    matched
}

// Writes how many vectors of a text match.
fn report<W: Write>(output: &mut W, s: &[u8]) -> io::Result<()>
    ensures { OnOk result (Appends (W.contents output.old) (W.contents output.new) (report_of s.now)) }
{
    let matched = matched(s);
    let vectors = s.len() / LINE;
    writeln!(output, "{matched} of {vectors} vectors match")
}

// Compares the vectors that a reader gives, in its first 65,536 bytes.
fn compare_read<R: Read, W: Write>(input: &mut R, output: &mut W) -> io::Result<()>
    ensures { OnOk result (IfSome (R.remaining input.old) (λ s. Appends (W.contents output.old) (W.contents output.new) (report_of (take 65536 s)))) }
{
    let mut buffer = [0u8; 65536];
    let n = streams::read_full(input, &mut buffer)?;
    report(output, &buffer[..n])
}

fn main(rt: HostRuntime) -> io::Result<()> {
    compare_read(&mut rt.stdin(), &mut rt.stdout())
}
