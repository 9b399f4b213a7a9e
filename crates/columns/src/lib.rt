// The periodic types of ir.rs: a column's costs and forms, and Prepare.
#![tactic(auto)]

ghost use Rattle.field.specs.Field.{modulus_of};
ghost use Rattle.std.specs.Prelude.{◌≡◌, ℕ, ◌^◌, ◌<◌, ◌≤◌, cond, leb, [], ◌∷◌, ◌++◌, length, All};
ghost use Rattle.dag.specs.Refusals as Refusals;
ghost use Rattle.columns.specs.Columns as Spec;
ghost use Rattle.columns.specs.Prepare as Prepare;
ghost use Rattle.columns.specs.Prepare.{most_columns};
ghost use Rattle.columns.specs.Promises as Promises;
ghost use Rattle.dag.specs.Arrays.{up_to};

use arrayvec::ArrayVec;
use dag::Refusal;
use field::{Prime, felt};
use std::marker::Model;

// The most columns.
pub const MOST_COLUMNS: usize = 16;

// The longest column has 2^7 entries.
const MOST_LOG: usize = 7;

// So many entries the longest column has.
pub const MOST_ENTRIES: usize = 128;

// How a column is evaluated in the circuit.
#[derive(Clone, Copy, Default, PartialEq, Eq)]
pub enum Form {
    #[default]
    Sparse,
    Dense,
    Basis,
}

// Prepare's answer, each column's form: the first `len` cells, sparse behind them.
#[derive(Clone, Copy)]
pub struct Prepared {
    cells: [Form; MOST_COLUMNS],
    len: usize,
}

impl Model for Prepared {
    ghost use Rattle.std.specs.Prelude.{List};
    ghost use Rattle.columns.specs.declared.Form.{Form};

    ghost Value = { List Form };

    ghost use Rattle.columns.specs.FormCells.{forms_in, IsPadded, padded, padded_forms};

    ghost view = { forms_in };

    ghost invariant = { IsPadded };

    ghost inverse = { padded };

    ghost inverse_ok = { padded_forms };
}

impl Prepared {
    // These forms.
    pub fn of(forms: &[Form]) -> Prepared
        requires { length forms.now ≤ most_columns }
        ensures { result ≡ forms.now }
    {
        let mut prepared = Prepared {
            cells: [Form::Sparse; MOST_COLUMNS],
            len: 0,
        };
        for form in forms {
            prepared.push(*form);
        }
        prepared
    }

    // One form more, behind the others.
    fn push(&mut self, form: Form)
        requires { length self.old < most_columns }
        ensures { self.new ≡ self.old ++ form ∷ [] }
    {
        self.cells[self.len] = form;
        self.len += 1;
    }

    // The columns' forms.
    pub fn as_slice(&self) -> &[Form]
        ensures value { result.now ≡ self.now }
        ensures fits { length result.now ≤ most_columns }
    {
        &self.cells[..self.len]
    }
}

// The greatest k up to `most` with 2^k at most n, else 0.
#[tactic(auto, using(crate::specs::LogLaws::log_is))]
pub fn log_within(most: usize, n: u64) -> usize
    ensures log { result ≡ Spec.log_within most n }
    ensures bound { result < 64 }
{
    (n.max(1).ilog2() as usize).min(most)
}

// Whether n is 2^0, 2^1, .. or 2^most.
#[tactic(auto, unfolding(crate::specs::Columns::is_power))]
pub fn is_power(most: usize, n: u64) -> bool
    ensures { result ≡ Spec.is_power most n }
{
    n == 1 << log_within(most, n)
}

// How often v stands in a list, by a loop that the compiler vectorises.
#[tactic(auto, using(crate::specs::CountLaws::count_more, crate::specs::CountLaws::count_all), unfolding(crate::specs::Columns::count))]
fn count(list: &[u64], v: u64) -> usize
    ensures { result ≡ Spec.count v list.now }
{
    let mut n = 0;
    for x in list {
        n += usize::from(*x == v);
    }
    n
}

// How many entries are other than d.
#[tactic(auto, using(crate::specs::CountLaws::count_le))]
fn others(col: &[u64], d: u64) -> usize
    ensures { result ≡ Spec.others col.now d }
{
    col.len() - count(col, d)
}

// L of a column of 2^L entries.
#[tactic(auto, using(crate::specs::LogLaws::log_le), unfolding(crate::specs::Columns::log_length))]
pub fn log_length(col: &[u64]) -> usize
    ensures { (result ≡ Spec.log_length col.now) × (result ≤ 7) }
{
    log_within(MOST_LOG, col.len() as u64)
}

// The operations of t sparse terms over 2^log rows.
fn sparse_ops(t: usize, log: usize) -> usize
    requires { (t ≤ 128) × (log ≤ 7) }
    ensures { result ≡ Spec.sparse_ops t log }
{
    3 * (t * log) + t.saturating_sub(1)
}

// The operations of `period` dense coefficients.
fn dense_ops(period: usize) -> usize
    requires { period ≤ 128 }
    ensures { result ≡ Spec.dense_ops period }
{
    2 * period.saturating_sub(1)
}

// Whether a column by itself is sparse.
#[tactic(auto, unfolding(crate::specs::Columns::is_sparse))]
fn is_sparse(col: &[u64]) -> bool
    requires { length col.now ≤ 128 }
    ensures { result ≡ Spec.is_sparse col.now }
{
    let t = others(col, 0);
    t == 0 || sparse_ops(t, log_length(col)) < dense_ops(col.len())
}

// A column's cost by itself.
#[tactic(auto, unfolding(crate::specs::Columns::standalone))]
fn standalone(col: &[u64]) -> usize
    requires { length col.now ≤ 128 }
    ensures { result ≡ Spec.standalone col.now }
{
    if is_sparse(col) {
        let t = others(col, 0);
        let log = log_length(col);
        sparse_ops(t, log) + 2 * (t + log)
    } else {
        dense_ops(col.len()) + 2 * col.len()
    }
}

// A column's values, each once in order of their first places.
pub fn values<const N: usize>(col: &[u64]) -> ArrayVec<u64, N>
    requires { length col.now ≤ N }
    ensures value { result.items ≡ Spec.values col.now }
    ensures few { length result.items ≤ length col.now }
{
    let mut values = ArrayVec::new();
    for v in col {
        if count(&values, *v) == 0 {
            values.push(*v);
        }
    }
    values
}

// How often a value stands in a column; 0 weighs nothing.
#[tactic(auto, unfolding(crate::specs::Columns::weight))]
fn weight(col: &[u64], v: u64) -> usize
    ensures { result ≡ Spec.weight col.now v }
{
    if v == 0 { 0 } else { count(col, v) }
}

// A value of a column and its weight.
#[derive(Clone, Copy)]
struct Heavy {
    value: u64,
    weight: usize,
}

// The heavier of two values, on a tie the second.
fn heavier(col: &[u64], d: Heavy, v: u64) -> Heavy
    requires { d.weight ≡ Spec.weight col.now d.value }
    ensures { (result.value ≡ cond (leb (Spec.weight col.now d.value) (Spec.weight col.now v)) v d.value) × (result.weight ≡ Spec.weight col.now result.value) }
{
    let weight = weight(col, v);
    if d.weight <= weight {
        Heavy { value: v, weight }
    } else {
        d
    }
}

// The dominant of a column's values.
fn dominant(col: &[u64], values: &[u64]) -> u64
    ensures { result ≡ Spec.heaviest col.now 0 values.now }
{
    let mut d = Heavy {
        value: 0,
        weight: 0,
    };
    for v in values {
        d = heavier(col, d, *v);
    }
    d.value
}

// Whether a class of value v is scaled, with offset d.
fn is_scaled(prime: Prime, v: u64, d: u64) -> bool
    requires { (v < modulus_of prime) × (d < modulus_of prime) }
    ensures { result ≡ Spec.is_scaled (modulus_of prime) d v }
{
    let k = felt::sub(prime, v, d);
    v != d && k != 1 && !felt::is_minus_one(prime, k)
}

// How many of the values are scaled, with offset d.
#[tactic(auto, using(crate::specs::ClassLaws::scalings_count))]
fn scalings(prime: Prime, values: &[u64], d: u64) -> usize
    requires { All (λ v. v < modulus_of prime) values.now × (d < modulus_of prime) }
    ensures { (result ≡ length (Spec.scalings (modulus_of prime) d values.now)) × (result ≤ length values.now) }
{
    values.iter().filter(|v| is_scaled(prime, **v, d)).count()
}

// The cost of a column in basis, with offset d.
#[tactic(auto, using(crate::specs::ClassLaws::costs))]
fn combination_cost(prime: Prime, col: &[u64], values: &[u64], d: u64) -> usize
    requires { Promises.Classes (modulus_of prime) col.now values.now × (d < modulus_of prime) }
    ensures { result ≡ Spec.combination_cost (modulus_of prime) col.now d }
{
    let cost = others(col, d).saturating_sub(1) + 3 * scalings(prime, values, d);
    if d == 0 { cost } else { cost + 3 }
}

// The offset of a column in basis.
#[tactic(auto, using(crate::specs::ClassLaws::offsets))]
pub fn offset(prime: Prime, col: &[u64], values: &[u64]) -> u64
    requires { Promises.Classes (modulus_of prime) col.now values.now }
    ensures { (result ≡ Spec.offset (modulus_of prime) col.now) × (result < modulus_of prime) }
{
    let d = dominant(col, values);
    if combination_cost(prime, col, values, d) < combination_cost(prime, col, values, 0) {
        d
    } else {
        0
    }
}

// A column that was tested: 1, 2, 4, .. or 128 entries, below the prime.
#[derive(Clone, Copy)]
pub struct Column<'a> {
    pub prime: Prime,
    pub entries: &'a [u64],
    pub ghost tested: { Promises.Column (modulus_of prime) entries.now },
}

impl<'a> Column<'a> {
    // What the column saves in basis.
    #[tactic(auto, unfolding(crate::specs::Columns::gain, crate::specs::Columns::equal_entries))]
    fn gain(&self) -> usize
        ensures { result ≡ Spec.gain (modulus_of self.now.prime) self.now.entries.now }
    {
        let col = self.entries;
        if others(col, col[0]) == 0 {
            return 0;
        }
        let values = values::<MOST_ENTRIES>(col);
        let d = offset(self.prime, col, &values);
        standalone(col).saturating_sub(combination_cost(self.prime, col, &values, d))
    }
}

// How many entries columns of these lengths have.
#[tactic(auto, using(crate::specs::CountLaws::total_is))]
fn total(lengths: &[u64]) -> usize
    requires { Prepare.total lengths.now ≤ 2048 }
    ensures { result ≡ Prepare.total lengths.now }
{
    lengths.iter().sum::<u64>() as usize
}

// Whether all entries are below the prime.
fn all_below(prime: Prime, col: &[u64]) -> bool
    ensures { result ≡ Prepare.all_below (modulus_of prime) col.now }
{
    let modulus = felt::modulus(prime);
    col.iter().all(|v| *v < modulus)
}

// The first length that is no power of two in 1 to 128.
#[tactic(auto, using(crate::specs::PrepareLaws::at_each))]
fn lengths_check(lengths: &[u64]) -> Result<(), Refusal>
    ensures { result ≡ Refusals.first_refused (Prepare.length_check lengths.now) (length lengths.now) }
{
    for (j, length) in lengths.iter().enumerate() {
        if !is_power(MOST_LOG, *length) {
            return Err(Refusal::ColumnLength(j));
        }
    }
    Ok(())
}

// The savings of a period, where each column adds `each`.
fn savings(lengths: &[u64], each: &[u64], period: u64) -> u64
    requires { Promises.added lengths.now each.now period < 2 ^ 64 }
    ensures { result ≡ Promises.added lengths.now each.now period }
{
    lengths
        .iter()
        .zip(each)
        .filter(|(length, _)| **length == period)
        .map(|(_, saving)| *saving)
        .sum()
}

// Lengths that passed, and enough entries for them: one column after the other.
#[derive(Clone, Copy)]
pub struct Layout<'a> {
    pub lengths: &'a [u64],
    pub entries: &'a [u64],
    pub ghost handed: { Promises.Handed lengths.now entries.now },
}

impl<'a> Layout<'a> {
    ghost use Rattle.columns.specs.Held as Held;

    // Column j.
    #[tactic(auto, using(crate::specs::ColumnLaws::places))]
    pub fn column(&self, j: usize) -> &'a [u64]
        requires { j < length self.now.lengths.now }
        ensures { result.now ≡ Spec.column (Held.laid self.now) j }
    {
        let a = total(&self.lengths[..j]);
        let e = a + self.lengths[j] as usize;
        &self.entries[a..e]
    }

    // Whether an earlier column equals column j.
    fn is_repeated(&self, j: usize) -> bool
        requires { j < length self.now.lengths.now }
        ensures { result ≡ Spec.is_among (Held.laid self.now) j j }
    {
        let col = self.column(j);
        (0..j).any(|i| self.column(i) == col)
    }

    // f at each column.
    fn each<T: Copy + Default, F: Fn(usize) -> T>(&self, f: F) -> ArrayVec<T, MOST_COLUMNS>
        requires { (j : ℕ) → j < length self.now.lengths.now → F.pre f j }
        ensures { (g : ℕ → T) → ((j : ℕ) (r : T) → j < length self.now.lengths.now → F.post f j r → r ≡ g j) → result.items ≡ up_to g (length self.now.lengths.now) }
    {
        let mut list = ArrayVec::new();
        for j in 0..self.lengths.len() {
            list.push(f(j));
        }
        list
    }

    // What each column adds to its period's savings, where the columns save `gains`.
    #[tactic(auto, using(crate::specs::SavingLaws::length_gains))]
    pub fn savings_each(&self, gains: &[u64]) -> ArrayVec<u64, MOST_COLUMNS>
        requires { (m : ℕ) × (gains.now ≡ Promises.gains m (Held.laid self.now)) }
        ensures { (m : ℕ) → gains.now ≡ Promises.gains m (Held.laid self.now) → result.items ≡ Promises.savings_each m (Held.laid self.now) }
    {
        self.each(|j| if self.is_repeated(j) { 0 } else { gains[j] })
    }

    // Whether a period goes over to the basis, where each column adds `each`.
    #[tactic(auto, using(crate::specs::SavingLaws::going_over))]
    fn goes_over(&self, each: &[u64], period: u64) -> bool
        requires { ((m : ℕ) × (each.now ≡ Promises.savings_each m (Held.laid self.now))) × (period ≤ 128) }
        ensures { (m : ℕ) → each.now ≡ Promises.savings_each m (Held.laid self.now) → result ≡ Spec.goes_over m (Held.laid self.now) period }
    {
        2 <= period && 7 * period + 2 < savings(self.lengths, each, period)
    }

    // Column j's form, where the columns save `gains` and add `each`.
    #[tactic(auto, using(crate::specs::SavingLaws::length_gains, crate::specs::SavingLaws::forms))]
    pub fn form(&self, gains: &[u64], each: &[u64], j: usize) -> Form
        requires { ((m : ℕ) × Promises.Weighs m (Held.laid self.now) gains.now each.now) × (j < length self.now.lengths.now) }
        ensures { (m : ℕ) → Promises.Weighs m (Held.laid self.now) gains.now each.now → result ≡ Spec.form m (Held.laid self.now) j }
    {
        let col = self.column(j);
        if self.goes_over(each, col.len() as u64) && 0 < gains[j] {
            Form::Basis
        } else if is_sparse(col) {
            Form::Sparse
        } else {
            Form::Dense
        }
    }

    // The first column with an entry not below the prime.
    #[tactic(auto, using(crate::specs::PrepareLaws::at_each))]
    fn entries_check(&self, prime: Prime) -> Result<(), Refusal>
        ensures { result ≡ Refusals.first_refused (Prepare.entries_check (modulus_of prime) (Held.laid self.now)) (length self.now.lengths.now) }
    {
        for j in 0..self.lengths.len() {
            if !all_below(prime, self.column(j)) {
                return Err(Refusal::Malformed(j));
            }
        }
        Ok(())
    }
}

// Columns that passed Prepare's tests: their lengths, and their entries one column after the other.
#[derive(Clone, Copy)]
pub struct Columns<'a> {
    pub prime: Prime,
    pub lengths: &'a [u64],
    pub entries: &'a [u64],
    pub ghost tested: { Promises.Tested (modulus_of prime) lengths.now entries.now },
}

impl<'a> Columns<'a> {
    ghost use Rattle.columns.specs.Held as Held;

    // The columns, if they are few, their lengths are powers of two, their entries are there, and below the prime.
    #[tactic(auto, using(crate::specs::PrepareLaws::in_order))]
    pub fn new(prime: Prime, lengths: &'a [u64], entries: &'a [u64]) -> Result<Columns<'a>, Refusal>
        ensures checked { Refusals.outcome result ≡ Prepare.prepare_check (modulus_of prime) lengths.now entries.now }
        ensures columns { Held.HeldOf prime lengths.now entries.now result }
    {
        if MOST_COLUMNS < lengths.len() {
            return Err(Refusal::TooManyColumns);
        }
        lengths_check(lengths)?;
        if entries.len() < total(lengths) {
            return Err(Refusal::StoreTooShort);
        }
        Layout { lengths, entries }.entries_check(prime)?;
        Ok(Columns {
            prime,
            lengths,
            entries,
        })
    }

    // Where the columns stand.
    fn layout(&self) -> Layout<'a>
        ensures { (result.lengths.now ≡ self.now.lengths.now) × (result.entries.now ≡ self.now.entries.now) }
    {
        Layout {
            lengths: self.lengths,
            entries: self.entries,
        }
    }

    // Column j.
    #[tactic(auto, using(crate::specs::PrepareLaws::tested_column))]
    pub fn column(&self, j: usize) -> Column<'a>
        requires { j < length self.now.lengths.now }
        ensures { (result.prime ≡ self.now.prime) × (result.entries.now ≡ Spec.column (Held.columns self.now) j) }
    {
        Column {
            prime: self.prime,
            entries: self.layout().column(j),
        }
    }

    // What each column saves in basis.
    pub fn gains(&self) -> ArrayVec<u64, MOST_COLUMNS>
        ensures { result.items ≡ Promises.gains (Held.modulus self.now) (Held.columns self.now) }
    {
        self.layout().each(|j| self.column(j).gain() as u64)
    }
}

// Columns with what each saves in basis, and what it adds to its period's savings.
#[derive(Drop)]
pub struct Weighed<'a> {
    pub columns: Columns<'a>,
    pub gains: ArrayVec<u64, MOST_COLUMNS>,
    pub savings: ArrayVec<u64, MOST_COLUMNS>,
    pub ghost weighs: { Promises.Weighs (modulus_of columns.prime) (Prepare.columns columns.lengths.now columns.entries.now) gains.items savings.items },
}

impl<'a> Weighed<'a> {
    ghost use Rattle.columns.specs.Held as Held;

    // What each column saves, worked out.
    pub fn new(columns: Columns<'a>) -> Weighed<'a>
        ensures { result.columns ≡ columns.entry }
    {
        let gains = columns.gains();
        let savings = columns.layout().savings_each(&gains);
        Weighed {
            columns,
            gains,
            savings,
        }
    }

    // Column j's form.
    pub fn form(&self, j: usize) -> Form
        requires { j < length self.now.columns.lengths.now }
        ensures { result ≡ Spec.form (Held.modulus self.now.columns) (Held.columns self.now.columns) j }
    {
        self.columns.layout().form(&self.gains, &self.savings, j)
    }

    // Each column's form.
    fn forms(&self) -> ArrayVec<Form, MOST_COLUMNS>
        ensures { result.items ≡ Prepare.forms (Held.modulus self.now.columns) (Held.columns self.now.columns) }
    {
        self.columns.layout().each(|j| self.form(j))
    }
}

// Prepare: the tests, and each column's form.
#[tactic(auto, using(crate::specs::PrepareLaws::prepare_refused))]
pub fn prepare(prime: Prime, lengths: &[u64], entries: &[u64]) -> Result<Prepared, Refusal>
    ensures { result ≡ Prepare.prepare (modulus_of prime) lengths.now entries.now }
{
    let columns = Columns::new(prime, lengths, entries)?;
    Ok(Prepared::of(&Weighed::new(columns).forms()))
}
