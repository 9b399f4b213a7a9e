// Lower: the nodes of periodic columns on a list.
#![tactic(auto)]

ghost use Rattle.std.specs.Prelude.{◌≡◌, ◌+◌, ◌-◌, ◌<◌, ◌≤◌, length, take, replicate};
ghost use Rattle.field.specs.Fields.{field_of};
ghost use Rattle.dag.specs.View.{interleaved};
ghost use Rattle.dag.specs.Nodes.{blank, filled};
ghost use Rattle.dag.specs.Refusals as Refusals;
ghost use Rattle.columns.specs.Held as Held;
ghost use Rattle.periodic.specs.Periodic as Periodic;
ghost use Rattle.periodic.specs.Runs as Runs;
ghost use Rattle.lower.specs.Lower as Lower;
ghost use Rattle.lower.specs.Promises as Promises;

use arrayvec::ArrayVec;
use columns::{Column, Columns, Form, MOST_COLUMNS, Weighed};
use dag::{Dag, Refusal};
use field::{Prime, felt};
use index::PlaceIndex;
use periodic::PeriodicBuilder;

// The value of a column in this form, whose point is ZK squared k times.
fn column_value(
    builder: &mut PeriodicBuilder,
    col: Column,
    form: Form,
    k: usize,
) -> Result<usize, Refusal>
    requires { (col.prime ≡ builder.old.prime) × Promises.Formed col.entries.now form }
    ensures { let c = col.entry in Runs.Entering (Runs.held builder.old) (λ field. Periodic.column_value field c.entries.now form k) (Runs.held builder.new) result }
{
    match form {
        Form::Sparse => builder.sparse_value(col, k),
        Form::Dense => builder.dense_value(col, k),
        Form::Basis => basis::basis_value(builder, col, k),
    }
}

// The node of column j under the shared period 2^log.
fn column_node(
    builder: &mut PeriodicBuilder,
    weighed: &Weighed,
    log: usize,
    j: usize,
) -> Result<usize, Refusal>
    requires { let c = weighed.now.columns in (builder.old.prime ≡ c.prime) × Promises.Covered c.lengths.now c.entries.now log × (j < length c.lengths.now) }
    ensures { let c = weighed.now.columns in Runs.Entering (Runs.held builder.old) (λ field. Periodic.column_node field (Held.columns c) log j) (Runs.held builder.new) result }
{
    let col = weighed.columns.column(j);
    let k = log - columns::log_length(col.entries);
    column_value(builder, col, weighed.form(j), k)
}

// The nodes of all columns under the shared period 2^log.
fn build_periodic_nodes(
    builder: &mut PeriodicBuilder,
    columns: Columns,
    log: usize,
) -> Result<ArrayVec<u64, MOST_COLUMNS>, Refusal>
    requires { (builder.old.prime ≡ columns.prime) × Promises.Covered columns.lengths.now columns.entries.now log }
    ensures { let c = columns.entry in Runs.Listing (Runs.held builder.old) (λ field. Periodic.build_periodic_nodes field (Held.columns c) log) (Runs.held builder.new) (length c.lengths.now) result }
{
    let weighed = Weighed::new(columns);
    let mut nodes = ArrayVec::new();
    for j in 0..columns.lengths.len() {
        let node = column_node(builder, &weighed, log, j)?;
        nodes.push(node as u64);
    }
    Ok(nodes)
}

// The longest of these lengths.
fn longest(lengths: &[u64]) -> u64
    ensures { result ≡ Lower.longest lengths.now }
{
    lengths.iter().copied().max().unwrap_or(0)
}

// Whether columns of these lengths can share this period.
#[tactic(auto, unfolding(crate::specs::Lower::period_good))]
fn period_good(prime: Prime, lengths: &[u64], period: u64) -> bool
    ensures { result ≡ Lower.period_good (field_of prime) lengths.now period }
{
    lengths.is_empty()
        || columns::is_power(felt::most_log(prime), period) && longest(lengths) <= period
}

// The tests of Lower's stores.
#[tactic(auto, unfolding(crate::specs::Lower::lower_stores))]
fn lower_stores(lengths: &[u64], work_room: usize, place_words: usize) -> Result<(), Refusal>
    ensures { result ≡ Lower.lower_stores lengths.now work_room place_words }
{
    dag::room_check(dag::MOST_RECORDS, work_room)?;
    dag::room_check(lengths.len(), place_words)
}

// Lower's tests behind the list's: the columns, if they pass.
fn columns_check<'a>(
    prime: Prime,
    lengths: &'a [u64],
    entries: &'a [u64],
    period: u64,
    work_room: usize,
    place_words: usize,
) -> Result<Columns<'a>, Refusal>
    ensures checked { Refusals.outcome result ≡ Promises.columns_check (field_of prime) lengths.now entries.now period work_room place_words }
    ensures columns { Held.HeldOf prime lengths.now entries.now result }
{
    let columns = Columns::new(prime, lengths, entries)?;
    lower_stores(lengths, work_room, place_words)?;
    if !period_good(prime, lengths, period) {
        return Err(Refusal::SharedPeriod);
    }
    Ok(columns)
}

// Writes words to the front of a store, blanks behind them.
#[tactic(auto, unfolding(dag::specs::Nodes::filled))]
fn fill_from(from: &[u64], to: &mut [u64])
    requires { length from.now ≤ length to.old }
    ensures { to.new ≡ filled (length to.old) from.now }
{
    to[..from.len()].copy_from_slice(from);
    dag::blank_from(to, from.len());
}

// The list that was built, and its columns' nodes, where there is room for the list.
fn hand_over(
    work: &[u64],
    count: usize,
    nodes: &[u64],
    res: &mut [u64],
    places: &mut [u64],
) -> Result<usize, Refusal>
    requires { (count ≤ (interleaved work.now).room) × (length nodes.now ≤ length places.old) }
    ensures { Promises.HandedOver work.now count nodes.now res.old places.old result res.new places.new }
{
    if dag::room(res) < count {
        return Err(Refusal::NoRoom);
    }
    dag::store_records(work, count, res);
    fill_from(nodes, places);
    Ok(count)
}

// Lower past its first tests, but for the work store.
#[tactic(auto, unfolding(dag::specs::View::interleaved))]
fn lower_with(
    dag: Dag,
    columns: Columns,
    period: u64,
    res: &mut [u64],
    places: &mut [u64],
) -> Result<usize, Refusal>
    requires same { dag.prime ≡ columns.prime }
    requires ready { Promises.Ready (field_of columns.prime) columns.lengths.now columns.entries.now period (length places.old) }
    ensures { let c = columns.entry in Promises.Finished (field_of c.prime) (interleaved dag.entry.list.now) dag.entry.n c.lengths.now c.entries.now period res.old places.old result res.new places.new }
{
    let mut list = [0u64; periodic::LIST_WORDS];
    let mut links = [0u64; periodic::LINK_WORDS];
    let mut index = PlaceIndex::new(&mut links);
    let mut builder = PeriodicBuilder::load(dag, &mut list, &mut index);
    let log = columns::log_within(felt::most_log(columns.prime), period);
    let nodes = build_periodic_nodes(&mut builder, columns, log)?;
    let PeriodicBuilder { list, count, .. } = builder;
    hand_over(list, count, &nodes, res, places)
}

// Lower past its first tests.
fn lower_ready(
    dag: Dag,
    columns: Columns,
    period: u64,
    res: &mut [u64],
    work: &mut [u64],
    places: &mut [u64],
) -> Result<usize, Refusal>
    requires same { dag.prime ≡ columns.prime }
    requires ready { Promises.Ready (field_of columns.prime) columns.lengths.now columns.entries.now period (length places.old) }
    ensures { let c = columns.entry in Promises.Finished (field_of c.prime) (interleaved dag.entry.list.now) dag.entry.n c.lengths.now c.entries.now period res.old places.old result res.new places.new × (work.new ≡ replicate (length work.old) blank) }
{
    dag::blank_from(work, 0);
    lower_with(dag, columns, period, res, places)
}

// Lower: the list with the nodes of these columns, under a shared period; answers its count.
pub fn lower(
    prime: Prime,
    list: &[u64],
    n: usize,
    lengths: &[u64],
    entries: &[u64],
    period: u64,
    res: &mut [u64],
    work: &mut [u64],
    places: &mut [u64],
) -> Result<usize, Refusal>
    ensures answer { result ≡ Lower.lower_answer (field_of prime) (interleaved list.now) n lengths.now entries.now period res.old work.old places.old }
    ensures res { res.new ≡ Lower.lower_result (field_of prime) (interleaved list.now) n lengths.now entries.now period res.old work.old places.old }
    ensures work { work.new ≡ Lower.lower_work (field_of prime) (interleaved list.now) n lengths.now entries.now period res.old work.old places.old }
    ensures places { places.new ≡ Lower.lower_places (field_of prime) (interleaved list.now) n lengths.now entries.now period res.old work.old places.old }
{
    let dag = Dag::rootless(prime, list, n)?;
    let columns = columns_check(
        prime,
        lengths,
        entries,
        period,
        dag::room(work),
        places.len(),
    )?;
    lower_ready(dag, columns, period, res, work, places)
}
