// The value of a column in basis: the Lagrange basis of its rows, and the classes of its entries over it.
#![tactic(auto)]

ghost use Rattle.std.specs.Prelude.{◌≡◌, ℕ, ◌+◌, ◌-◌, ◌<◌, ◌≤◌, true, false, eqb, get_or, length};
ghost use Rattle.field.specs.Fields.{field_of};
ghost use Rattle.field.specs.Field.{modulus_of};
ghost use Rattle.periodic.specs.Builder.{Builder, turns};
ghost use Rattle.periodic.specs.Periodic as Periodic;
ghost use Rattle.periodic.specs.Promises.{AllInside};
ghost use Rattle.periodic.specs.Runs as Runs;
ghost use Rattle.basis.specs.Promises as Promises;

use arrayvec::ArrayVec;
use columns::{Column, MOST_ENTRIES};
use dag::Refusal;
use field::{Prime, felt};
use periodic::PeriodicBuilder;

// Whether a class of value v has the coefficient −1, with offset d.
fn is_minus(prime: Prime, v: u64, d: u64) -> bool
    requires { (v < modulus_of prime) × (d < modulus_of prime) }
    ensures { result ≡ eqb ((field_of prime).coordinates.sub v d) (modulus_of prime - 1) }
{
    felt::is_minus_one(prime, felt::sub(prime, v, d))
}

// The sum with the term of each class, in turn.
fn all_terms<F: Fn(&mut PeriodicBuilder, u64, usize) -> Result<usize, Refusal>>(
    builder: &mut PeriodicBuilder,
    values: &[u64],
    start: usize,
    term: F,
) -> Result<usize, Refusal>
    requires inside { start < builder.old.count }
    requires callable { Promises.Callable (Runs.held builder.old) values.now (F.pre term) }
    requires kept { Promises.Keeps (Runs.held builder.old) values.now (F.post term) }
    ensures { (m : ℕ → ℕ → Builder ℕ) → Promises.Computes (Runs.held builder.old) values.now (F.post term) m → Runs.Entering (Runs.held builder.old) (λ field. turns (λ k s. m (get_or values.now k 0) s) (length values.now) start) (Runs.held builder.new) result }
{
    let mut sum = start;
    for v in values {
        sum = term(builder, *v, sum)?;
    }
    Ok(sum)
}

// The Lagrange basis of a column's rows: its roots, and the places of the products before and behind each row, among so many records.
#[derive(Clone, Copy)]
struct LagrangeBasis<'a> {
    col: Column<'a>,
    roots: &'a [u64],
    prefix: &'a [usize],
    suffix: &'a [usize],
    count: usize,
    ghost rooted: { Promises.Roots (field_of col.prime) col.entries.now roots.now },
    ghost before: { Promises.Places count col.entries.now prefix.now },
    ghost behind: { Promises.Places count col.entries.now suffix.now },
}

impl LagrangeBasis<'_> {
    ghost use Rattle.basis.specs.Within.{Within};

    // Element j of the basis.
    fn element(&self, builder: &mut PeriodicBuilder, j: usize) -> Result<usize, Refusal>
        requires { Within self.now (Runs.held builder.old) × (j < length self.now.col.entries.now) }
        ensures { Runs.Entering (Runs.held builder.old) (λ field. Periodic.element field self.now.col.entries.now self.now.prefix.now self.now.suffix.now j) (Runs.held builder.new) result }
    {
        let product = builder.mul(self.prefix[j], self.suffix[self.col.entries.len() - 1 - j])?;
        let root = builder.constant(self.roots[j])?;
        builder.mul(root, product)
    }

    // The sum of a class with row j added, where its entry is v.
    fn class_turn(
        &self,
        builder: &mut PeriodicBuilder,
        v: u64,
        j: usize,
        acc: usize,
    ) -> Result<usize, Refusal>
        requires { Within self.now (Runs.held builder.old) × (j < length self.now.col.entries.now) × (acc < builder.old.count) }
        ensures { Runs.Entering (Runs.held builder.old) (λ field. Periodic.class_turn field self.now.col.entries.now self.now.prefix.now self.now.suffix.now v j acc) (Runs.held builder.new) result }
    {
        if self.col.entries[j] != v {
            return Ok(acc);
        }
        let element = self.element(builder, j)?;
        builder.add(acc, element)
    }

    // The sum of the elements whose entry is v.
    fn class_sum(&self, builder: &mut PeriodicBuilder, v: u64) -> Result<usize, Refusal>
        requires { Within self.now (Runs.held builder.old) }
        ensures { Runs.Entering (Runs.held builder.old) (λ field. Periodic.class_sum field self.now.col.entries.now self.now.prefix.now self.now.suffix.now v) (Runs.held builder.new) result }
    {
        let mut acc = builder.constant(0)?;
        for j in 0..self.col.entries.len() {
            acc = self.class_turn(builder, v, j, acc)?;
        }
        Ok(acc)
    }

    // The sum with the class of value v added, unless it is the offset's or its coefficient is −1.
    fn add_turn(
        &self,
        builder: &mut PeriodicBuilder,
        d: u64,
        v: u64,
        sum: usize,
    ) -> Result<usize, Refusal>
        requires { Within self.now (Runs.held builder.old) × (sum < builder.old.count) × Promises.Class (field_of self.now.col.prime) self.now.col.entries.now d v }
        ensures { Runs.Entering (Runs.held builder.old) (λ field. Periodic.term_turn field self.now.col.entries.now false self.now.prefix.now self.now.suffix.now v sum) (Runs.held builder.new) result }
    {
        let prime = self.col.prime;
        let is_minus = is_minus(prime, v, d);
        if v == d || is_minus {
            return Ok(sum);
        }
        let class = self.class_sum(builder, v)?;
        let scale = builder.constant(felt::sub(prime, v, d))?;
        let term = builder.mul(scale, class)?;
        builder.add(sum, term)
    }

    // The sum with the class of value v subtracted, where its coefficient is −1.
    fn sub_turn(
        &self,
        builder: &mut PeriodicBuilder,
        d: u64,
        v: u64,
        sum: usize,
    ) -> Result<usize, Refusal>
        requires { Within self.now (Runs.held builder.old) × (sum < builder.old.count) × Promises.Class (field_of self.now.col.prime) self.now.col.entries.now d v }
        ensures { Runs.Entering (Runs.held builder.old) (λ field. Periodic.term_turn field self.now.col.entries.now true self.now.prefix.now self.now.suffix.now v sum) (Runs.held builder.new) result }
    {
        let is_minus = is_minus(self.col.prime, v, d);
        if v == d || !is_minus {
            return Ok(sum);
        }
        let class = self.class_sum(builder, v)?;
        builder.sub(sum, class)
    }

    // The offset and the classes of the column.
    fn basis_sum(&self, builder: &mut PeriodicBuilder) -> Result<usize, Refusal>
        requires { Within self.now (Runs.held builder.old) }
        ensures { Runs.Entering (Runs.held builder.old) (λ field. Periodic.basis_sum field self.now.col.entries.now self.now.prefix.now self.now.suffix.now) (Runs.held builder.new) result }
    {
        let col = self.col;
        let values = columns::values::<MOST_ENTRIES>(col.entries);
        let d = columns::offset(col.prime, col.entries, &values);
        let start = builder.constant(d)?;
        let sum = all_terms(builder, &values, start, |builder, v, sum| {
            self.add_turn(builder, d, v, sum)
        })?;
        all_terms(builder, &values, sum, |builder, v, sum| {
            self.sub_turn(builder, d, v, sum)
        })
    }
}

// point − w^k, from w^k.
fn basis_factor(builder: &mut PeriodicBuilder, point: usize, root: u64) -> Result<usize, Refusal>
    requires { (point < builder.old.count) × (root < modulus_of builder.old.prime) }
    ensures { Runs.Entering (Runs.held builder.old) (λ field. Promises.factor field point root) (Runs.held builder.new) result }
{
    let root = builder.constant(root)?;
    builder.sub(point, root)
}

// point − w^k for each of these roots.
fn basis_factors(
    builder: &mut PeriodicBuilder,
    point: usize,
    roots: &[u64],
    col: Column,
) -> Result<ArrayVec<usize, MOST_ENTRIES>, Refusal>
    requires { (point < builder.old.count) × (col.prime ≡ builder.old.prime) × Promises.Roots (field_of col.prime) col.entries.now roots.now }
    ensures { let c = col.entry in Runs.Listing (Runs.held builder.old) (λ field. Periodic.factors field c.entries.now point) (Runs.held builder.new) (length c.entries.now) result }
{
    let mut factors = ArrayVec::new();
    for root in roots {
        let factor = basis_factor(builder, point, *root)?;
        factors.push(factor);
    }
    Ok(factors)
}

// A list of places from its end.
fn backwards(places: &[usize]) -> ArrayVec<usize, MOST_ENTRIES>
    requires { length places.now ≤ 128 }
    ensures { result.items ≡ Periodic.backwards places.now }
{
    let mut turned = ArrayVec::new();
    for place in places.iter().rev() {
        turned.push(*place);
    }
    turned
}

// The products behind each row, from its factors and the products before it, and then the sum.
fn basis_back(
    builder: &mut PeriodicBuilder,
    roots: &[u64],
    factors: &[usize],
    prefix: &[usize],
    col: Column,
) -> Result<usize, Refusal>
    requires prime { col.prime ≡ builder.old.prime }
    requires roots { Promises.Roots (field_of col.prime) col.entries.now roots.now }
    requires factors { Promises.Places builder.old.count col.entries.now factors.now }
    requires prefix { Promises.Places builder.old.count col.entries.now prefix.now }
    ensures { let c = col.entry in Runs.Entering (Runs.held builder.old) (λ field. Periodic.basis_back field c.entries.now factors.now prefix.now) (Runs.held builder.new) result }
{
    let one = builder.constant(1)?;
    let turned = backwards(factors);
    let suffix = builder.chain::<MOST_ENTRIES>(one, &turned[..factors.len() - 1])?;
    let basis = LagrangeBasis {
        col,
        roots,
        prefix,
        suffix: &suffix,
        count: builder.count,
    };
    basis.basis_sum(builder)
}

// The factors and the products before each row, and then the rest.
fn basis_front(
    builder: &mut PeriodicBuilder,
    point: usize,
    roots: &[u64],
    col: Column,
) -> Result<usize, Refusal>
    requires { (point < builder.old.count) × (col.prime ≡ builder.old.prime) × Promises.Roots (field_of col.prime) col.entries.now roots.now }
    ensures { let c = col.entry in Runs.Entering (Runs.held builder.old) (λ field. Periodic.basis_front field c.entries.now point) (Runs.held builder.new) result }
{
    let scale = coefficients::size_inverse(col.prime, col.entries);
    let factors = basis_factors(builder, point, roots, col)?;
    let start = builder.constant(scale)?;
    let prefix = builder.chain::<MOST_ENTRIES>(start, &factors[..factors.len() - 1])?;
    basis_back(builder, roots, &factors, &prefix, col)
}

// The value of a column in basis whose point is ZK squared k times.
pub fn basis_value(builder: &mut PeriodicBuilder, col: Column, k: usize) -> Result<usize, Refusal>
    requires { col.prime ≡ builder.old.prime }
    ensures { let c = col.entry in Runs.Entering (Runs.held builder.old) (λ field. Periodic.basis_value field c.entries.now k) (Runs.held builder.new) result }
{
    let roots = coefficients::roots(col.prime, col.entries);
    let z = builder.z_power(k)?;
    basis_front(builder, z, &roots, col)
}
