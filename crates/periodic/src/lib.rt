// periodic.rs: the nodes of periodic columns, built on a list with its index.
#![tactic(auto)]

ghost use Rattle.std.specs.Prelude.{◌≡◌, true, [], ◌+◌, ◌*◌, ◌-◌, ◌<◌, ◌≤◌, length, get_or, take};
ghost use Rattle.field.specs.Fields.{field_of};
ghost use Rattle.field.specs.Field.{modulus_of, Below};
ghost use Rattle.dag.specs.View.{interleaved};
ghost use Rattle.dag.specs.Nodes.{most_records, nodes};
ghost use Rattle.dag.specs.Store.{Sound};
ghost use Rattle.dag.specs.WellFormed.{Fine};
ghost use Rattle.index.specs.Index.{half, NodeIndex};
ghost use Rattle.builder.specs.Promises.{resolved};
ghost use Rattle.columns.specs.Prepare.{all_below};
ghost use Rattle.periodic.specs.Builder as Builder;
ghost use Rattle.periodic.specs.Periodic as Periodic;
ghost use Rattle.periodic.specs.Promises as Promises;

use arrayvec::ArrayVec;
use builder::Outcome;
use coefficients::{MOST_TERMS, MOST_TWIDDLES};
use columns::{Column, MOST_ENTRIES};
use dag::{Dag, NodeKind, Refusal};
use field::{Prime, QuadFelt};
use index::PlaceIndex;

// The key number of ZK.
const ZK: u64 = 3096224743817216;

// The words of the longest list.
pub const LIST_WORDS: usize = dag::RECORD_WORDS * dag::MOST_RECORDS;

// The words of its index.
pub const LINK_WORDS: usize = 2 * dag::MOST_RECORDS;

// So many powers of a column's point there are at most.
const MOST_POWERS: usize = MOST_TWIDDLES + 1;

// A list that is built in stores for the longest, and refused where it would be longer.
#[derive(Drop)]
pub struct PeriodicBuilder<'list, 'index, 'links> {
    pub prime: Prime,
    pub list: &'list mut [u64],
    pub index: &'index mut PlaceIndex<'links>,
    pub count: usize,
    pub ghost few: { count ≤ most_records },
    pub ghost sound: { Sound (field_of prime).bounds (interleaved list.now) count },
    pub ghost indexed: { NodeIndex (nodes (interleaved list.now) count) index.now.links.now },
    pub ghost list_room: { most_records ≤ (interleaved list.now).room },
    pub ghost link_room: { most_records ≤ half index.now.links.now },
}

impl<'list, 'index, 'links> PeriodicBuilder<'list, 'index, 'links> {
    ghost use Rattle.index.specs.Promises.{SameLinks};
    ghost use Rattle.periodic.specs.Runs as Runs;

    // A builder that goes on with a list, in these stores.
    pub fn load(
        dag: Dag,
        list: &'list mut [u64],
        index: &'index mut PlaceIndex<'links>,
    ) -> PeriodicBuilder<'list, 'index, 'links>
        requires list_room { most_records ≤ (interleaved list.old).room }
        requires link_room { most_records ≤ half index.old.links.now }
        ensures same_list { result.list.ghost_name ≡ list.entry.ghost_name }
        ensures list_words { length result.list.now ≡ length list.old }
        ensures same_index { result.index.ghost_name ≡ index.entry.ghost_name }
        ensures same_links { SameLinks index.old result.index.now }
        ensures loaded { let d = dag.entry in Runs.Loaded d.prime (nodes (interleaved d.list.now) d.n) d.n (Runs.held result) }
    {
        dag::copy_records(dag.list, dag.n, list);
        index.index_list(dag.list, dag.n);
        PeriodicBuilder {
            prime: dag.prime,
            list,
            index,
            count: dag.n,
        }
    }

    // The place of a request's result, or the new record that it needs.
    fn resolve(&self, x: NodeKind) -> Outcome
        requires { Fine (Below self.now.prime) self.now.count x }
        ensures { result ≡ resolved (field_of self.now.prime) (nodes (interleaved self.now.list.now) self.now.count) self.now.count x }
    {
        builder::resolve(self.prime, self.list, self.count, self.index.as_slice(), x)
    }

    // One request. It and what is made of it alone are inlined: no request goes by memory.
    #[inline(always)]
    fn enter(&mut self, x: NodeKind) -> Result<usize, Refusal>
        requires { Fine (Below self.old.prime) self.old.count x }
        ensures { Runs.Entering (Runs.held self.old) (λ field. Builder.enter field.elements x) (Runs.held self.new) result }
    {
        let place = self.count;
        match self.resolve(x) {
            Outcome::Place(i) => Ok(i),
            Outcome::Node(y) => {
                if place == dag::MOST_RECORDS {
                    return Err(Refusal::NoRoom);
                }
                builder::append_noted(self.list, self.index, place, y);
                self.count = place + 1;
                Ok(place)
            }
        }
    }

    // The constant v.
    #[inline(always)]
    pub fn constant(&mut self, v: u64) -> Result<usize, Refusal>
        requires { v < modulus_of self.old.prime }
        ensures { Runs.Entering (Runs.held self.old) (λ field. Builder.constant field.elements v) (Runs.held self.new) result }
    {
        self.enter(NodeKind::Constant(QuadFelt::from_base(v)))
    }

    // The sum of two places.
    #[inline(always)]
    pub fn add(&mut self, a: usize, b: usize) -> Result<usize, Refusal>
        requires { (a < self.old.count) × (b < self.old.count) }
        ensures { Runs.Entering (Runs.held self.old) (λ field. Builder.add field.elements a b) (Runs.held self.new) result }
    {
        self.enter(NodeKind::Add(a, b))
    }

    // The difference of two places.
    #[inline(always)]
    pub fn sub(&mut self, a: usize, b: usize) -> Result<usize, Refusal>
        requires { (a < self.old.count) × (b < self.old.count) }
        ensures { Runs.Entering (Runs.held self.old) (λ field. Builder.sub field.elements a b) (Runs.held self.new) result }
    {
        self.enter(NodeKind::Sub(a, b))
    }

    // The product of two places.
    #[inline(always)]
    pub fn mul(&mut self, a: usize, b: usize) -> Result<usize, Refusal>
        requires { (a < self.old.count) × (b < self.old.count) }
        ensures { Runs.Entering (Runs.held self.old) (λ field. Builder.mul field.elements a b) (Runs.held self.new) result }
    {
        self.enter(NodeKind::Mul(a, b))
    }

    // ZK, squared k times.
    pub fn z_power(&mut self, k: usize) -> Result<usize, Refusal>
        ensures { Runs.Entering (Runs.held self.old) (λ field. Periodic.z_power field.elements k) (Runs.held self.new) result }
    {
        let mut z = self.enter(NodeKind::Input(ZK))?;
        for _ in 0..k {
            z = self.mul(z, z)?;
        }
        Ok(z)
    }

    // z and its squares, k + 1 in all.
    fn powers(&mut self, z: usize, k: usize) -> Result<ArrayVec<usize, MOST_POWERS>, Refusal>
        requires { (z < self.old.count) × (k < 8) }
        ensures { Runs.Listing (Runs.held self.old) (λ field. Periodic.powers field.elements z k) (Runs.held self.new) (k + 1) result }
    {
        let mut powers = ArrayVec::new();
        powers.push(z);
        let mut power = z;
        for _ in 0..k {
            power = self.mul(power, power)?;
            powers.push(power);
        }
        Ok(powers)
    }

    // The first place, then times the first factor, times the first two, ..
    pub fn chain<const N: usize>(
        &mut self,
        first: usize,
        factors: &[usize],
    ) -> Result<ArrayVec<usize, N>, Refusal>
        requires { (first < self.old.count) × Promises.AllInside self.old.count factors.now × (length factors.now < N) }
        ensures { Runs.Listing (Runs.held self.old) (λ field. Periodic.chain field.elements first factors.now (length factors.now)) (Runs.held self.new) (length factors.now + 1) result }
    {
        let mut products = ArrayVec::new();
        products.push(first);
        let mut product = first;
        for factor in factors {
            product = self.mul(product, *factor)?;
            products.push(product);
        }
        Ok(products)
    }

    // The constants of these numbers.
    fn constants(&mut self, numbers: &[u64]) -> Result<ArrayVec<usize, MOST_ENTRIES>, Refusal>
        requires { (all_below (modulus_of self.old.prime) numbers.now ≡ true) × (length numbers.now ≤ 128) }
        ensures { Runs.Listing (Runs.held self.old) (λ field. Periodic.constants field.elements (λ j. get_or numbers.now j 0) (length numbers.now)) (Runs.held self.new) (length numbers.now) result }
    {
        let mut places = ArrayVec::new();
        for number in numbers {
            let place = self.constant(*number)?;
            places.push(place);
        }
        Ok(places)
    }

    // Horner's rule from the highest of these coefficients.
    fn horner_eval(&mut self, point: usize, coeffs: &[usize]) -> Result<usize, Refusal>
        requires { (point < self.old.count) × Promises.AllInside self.old.count coeffs.now }
        ensures { Runs.Entering (Runs.held self.old) (λ field. Periodic.horner_eval field.elements point coeffs.now (length coeffs.now)) (Runs.held self.new) result }
    {
        let mut acc = self.constant(0)?;
        for coeff in coeffs.iter().rev() {
            let product = self.mul(point, acc)?;
            acc = self.add(*coeff, product)?;
        }
        Ok(acc)
    }

    // factor · (1 + twiddle · power).
    fn sparse_turn(&mut self, twiddle: u64, power: usize, factor: usize) -> Result<usize, Refusal>
        requires { (twiddle < modulus_of self.old.prime) × (power < self.old.count) × (factor < self.old.count) }
        ensures { Runs.Entering (Runs.held self.old) (λ field. Periodic.sparse_turn field.elements twiddle power factor) (Runs.held self.new) result }
    {
        let twiddled = self.constant(twiddle)?;
        let scaled = self.mul(twiddled, power)?;
        let one = self.constant(1)?;
        let sum = self.add(one, scaled)?;
        self.mul(factor, sum)
    }

    // The product of 1 + twiddle · power over the powers of the column's point.
    fn sparse_factor(
        &mut self,
        zpow: &[usize],
        row: [u64; MOST_TWIDDLES],
        log: usize,
    ) -> Result<usize, Refusal>
        requires { Promises.AllInside self.old.count zpow.now × Promises.Row (field_of self.old.prime) row log × (log ≤ length zpow.now) }
        ensures { Runs.Entering (Runs.held self.old) (λ field. Periodic.sparse_factor field.elements zpow.now (λ i. get_or row i 0) log) (Runs.held self.new) result }
    {
        let mut factor = self.constant(1)?;
        for i in 0..log {
            factor = self.sparse_turn(row[i], zpow[i], factor)?;
        }
        Ok(factor)
    }

    // A sparse term.
    fn sparse_term(
        &mut self,
        zpow: &[usize],
        row: [u64; MOST_TWIDDLES],
        log: usize,
        value: u64,
    ) -> Result<usize, Refusal>
        requires { Promises.AllInside self.old.count zpow.now × Promises.Row (field_of self.old.prime) row log × (log ≤ length zpow.now) × (value < modulus_of self.old.prime) }
        ensures { Runs.Entering (Runs.held self.old) (λ field. Periodic.sparse_term field.elements zpow.now (λ i. get_or row i 0) log value) (Runs.held self.new) result }
    {
        let factor = self.sparse_factor(zpow, row, log)?;
        let scaled = self.constant(value)?;
        self.mul(scaled, factor)
    }

    // The sum of the sparse terms of these twiddles and values.
    fn sparse_sum(
        &mut self,
        zpow: &[usize],
        rows: [[u64; MOST_TWIDDLES]; MOST_TERMS],
        log: usize,
        values: &[u64],
    ) -> Result<usize, Refusal>
        requires { Promises.AllInside self.old.count zpow.now × Promises.Rows (field_of self.old.prime) rows log values.now (length values.now) × (log ≤ length zpow.now) }
        ensures { Runs.Entering (Runs.held self.old) (λ field. Periodic.sparse_sum field.elements zpow.now (λ k i. get_or (get_or rows k []) i 0) log (λ k. get_or values.now k 0) (length values.now)) (Runs.held self.new) result }
    {
        if values.is_empty() {
            return self.constant(0);
        }
        let mut sum = self.sparse_term(zpow, rows[0], log, values[0])?;
        for k in 1..values.len() {
            let term = self.sparse_term(zpow, rows[k], log, values[k])?;
            sum = self.add(sum, term)?;
        }
        Ok(sum)
    }

    // The value of a sparse column whose point is ZK squared k times.
    pub fn sparse_value(&mut self, col: Column, k: usize) -> Result<usize, Refusal>
        requires { (col.prime ≡ self.old.prime) × Promises.Few col.entries.now }
        ensures { let c = col.entry in Runs.Entering (Runs.held self.old) (λ field. Periodic.sparse_value field c.entries.now k) (Runs.held self.new) result }
    {
        let places = coefficients::support::<MOST_TERMS>(col.entries);
        let rows = coefficients::sparse_twiddles(col, &places);
        let values = coefficients::sparse_values(col, &places);
        let log = columns::log_length(col.entries);
        let z = self.z_power(k)?;
        let zpow = self.powers(z, log)?;
        self.sparse_sum(&zpow, rows, log, &values)
    }

    // The value of a dense column whose point is ZK squared k times.
    pub fn dense_value(&mut self, col: Column, k: usize) -> Result<usize, Refusal>
        requires { col.prime ≡ self.old.prime }
        ensures { let c = col.entry in Runs.Entering (Runs.held self.old) (λ field. Periodic.dense_value field c.entries.now k) (Runs.held self.new) result }
    {
        let numbers = coefficients::dense(col);
        let z = self.z_power(k)?;
        let coeffs = self.constants(&numbers)?;
        self.horner_eval(z, &coeffs)
    }
}
