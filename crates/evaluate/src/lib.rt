// `eval_dag`: Evaluate.
#![tactic(auto)]

ghost use mathlib.Core.List as Lists;
ghost use Rattle.std.specs.Prelude.{◌≡◌, ◌<◌, ◌≤◌, Ok, length};
ghost use Rattle.field.specs.Fields.{field_of};
ghost use Rattle.dag.specs.View.{interleaved};
ghost use Rattle.dag.specs.Nodes as Nodes;
ghost use Rattle.dag.specs.Check as Check;
ghost use Rattle.dag.specs.Roots.{most_roots, roots_from, Inside};
ghost use Rattle.entries.specs.Entries as Places;
ghost use Rattle.entries.specs.KeyIndex as KeyIndex;
ghost use Rattle.evaluate.specs.Calls as Calls;
ghost use Rattle.evaluate.specs.Promises as Promises;

use arrayvec::ArrayVec;
use dag::{Dag, MOST_RECORDS, MOST_ROOTS, NodeKind, Refusal};
use entries::{Entries, KeyedEntries, MOST_ENTRIES};
use field::{Prime, QuadFelt};
use index::PlaceIndex;

// The words of an assignment's entry: key number, c0, c1.
const ENTRY_WORDS: usize = 3;

// The records and entries that the smallest stores hold, and the links of their index.
const FEW: usize = 64;

const FEW_LINKS: usize = 2 * FEW;

// Those that the next larger stores hold.
const MANY: usize = 512;

const MANY_LINKS: usize = 2 * MANY;

// The links of the largest index.
const MOST_LINKS: usize = 2 * MOST_ENTRIES;

// The roots' values, in their order.
#[derive(Drop)]
pub struct RootValues {
    pub values: ArrayVec<QuadFelt, MOST_ROOTS>,
}

// The value at place i.
fn value_at(values: &[QuadFelt], i: usize) -> QuadFelt
    requires { i < length values.now }
    ensures { result ≡ Promises.at_place values.now i }
{
    values[i]
}

// The value of the record at place i, on the values before it; none for an input whose key has no entry.
#[tactic(auto, unfolding(crate::specs::Promises::record_answer, meaning::specs::Values::value_of))]
fn value_of(
    dag: Dag,
    i: usize,
    keyed: KeyedEntries<ENTRY_WORDS>,
    values: &[QuadFelt],
) -> Option<QuadFelt>
    requires inside { i < dag.n }
    requires valued { Promises.Valued (field_of dag.prime) i values.now }
    ensures { let d = dag.entry in let e = keyed.entry.entries in result ≡ Promises.record_answer (field_of d.prime) e.words.now e.count (Promises.at_place values.now) (Nodes.record_at (interleaved d.list.now) i) }
{
    match dag.node(i) {
        NodeKind::Input(k) => keyed.given(k),
        NodeKind::Constant(c) => Some(c),
        NodeKind::Add(a, b) => Some(value_at(values, a).add(dag.prime, value_at(values, b))),
        NodeKind::Sub(a, b) => Some(value_at(values, a).sub(dag.prime, value_at(values, b))),
        NodeKind::Mul(a, b) => Some(value_at(values, a).mul(dag.prime, value_at(values, b))),
        NodeKind::Neg(a) => Some(value_at(values, a).neg(dag.prime)),
    }
}

// Fills in the values of a list's records, up to the first input whose key has no entry.
fn fill_values(
    dag: Dag,
    keyed: KeyedEntries<ENTRY_WORDS>,
    values: &mut [QuadFelt],
) -> Result<(), Refusal>
    requires passed { Promises.Passed (field_of dag.prime) keyed.entries.words.now keyed.entries.count }
    requires fits { dag.n ≤ length values.old }
    ensures value { let d = dag.entry in let e = keyed.entry.entries in result ≡ Places.inputs_check (Places.entry_of Calls.entry_words e.words.now e.count) (Nodes.nodes (interleaved d.list.now) d.n) d.n }
    ensures filled { let d = dag.entry in let e = keyed.entry.entries in result ≡ Ok tt → Promises.Filled (field_of d.prime) (interleaved d.list.now) d.n e.words.now e.count values.new d.n }
{
    for i in 0..dag.n {
        values[i] = value_of(dag, i, keyed, values).ok_or(Refusal::Unassigned(i))?;
    }
    Ok(())
}

// The values of the roots among those of all records.
#[tactic(auto, unfolding(dag::specs::Roots::roots_of, dag::specs::Roots::roots_from, crate::specs::Calls::values_from))]
fn root_values(values: &[QuadFelt], roots: &[u64]) -> RootValues
    requires { Inside (length values.now) (roots_from roots.now) }
    ensures { result ≡ Calls.values_from (Lists.map (Promises.at_place values.now) roots.now) }
{
    let mut chosen = ArrayVec::new();
    for root in roots {
        chosen.push(value_at(values, *root as usize));
    }
    RootValues { values: chosen }
}

// Evaluate behind the tests of its words, with stores for so many values, and links for the index, in a frame of its own.
#[inline(never)]
fn evaluate_within<const VALUES: usize, const LINKS: usize>(
    dag: Dag,
    roots: &[u64],
    entries: Entries<ENTRY_WORDS>,
) -> Result<RootValues, Refusal>
    requires rooted { Check.list_check (field_of dag.prime).bounds (interleaved dag.list.now) dag.n roots.now ≡ Ok tt }
    requires passed { Promises.Passed (field_of dag.prime) entries.words.now entries.count }
    requires sized { KeyIndex.Sized VALUES LINKS dag.n entries.count }
    ensures { let d = dag.entry in result ≡ Calls.evaluate_answer (field_of d.prime) (interleaved d.list.now) d.n roots.now entries.entry.words.now entries.entry.count }
{
    let mut links = [0u64; LINKS];
    let mut index = PlaceIndex::new(&mut links);
    entries.index(&mut index);
    let mut values = [QuadFelt::ZERO; VALUES];
    let keyed = KeyedEntries {
        entries,
        links: index.as_slice(),
    };
    fill_values(dag, keyed, &mut values)?;
    Ok(root_values(&values, roots))
}

// The same, with stores for the lengths of the list and of the assignment.
fn evaluate_sized(
    dag: Dag,
    roots: &[u64],
    entries: Entries<ENTRY_WORDS>,
) -> Result<RootValues, Refusal>
    requires rooted { Check.list_check (field_of dag.prime).bounds (interleaved dag.list.now) dag.n roots.now ≡ Ok tt }
    requires passed { Promises.Passed (field_of dag.prime) entries.words.now entries.count }
    ensures { let d = dag.entry in result ≡ Calls.evaluate_answer (field_of d.prime) (interleaved d.list.now) d.n roots.now entries.entry.words.now entries.entry.count }
{
    let most = dag.n.max(entries.count);
    if most <= FEW {
        evaluate_within::<FEW, FEW_LINKS>(dag, roots, entries)
    } else if most <= MANY {
        evaluate_within::<MANY, MANY_LINKS>(dag, roots, entries)
    } else {
        evaluate_within::<MOST_RECORDS, MOST_LINKS>(dag, roots, entries)
    }
}

// Evaluate: each root's value under an assignment.
#[tactic(auto, using(crate::specs::CallLaws::list_refused, crate::specs::CallLaws::entries_refused))]
pub fn evaluate(
    prime: Prime,
    list: &[u64],
    n: usize,
    roots: &[u64],
    assignment: &[u64],
    m: usize,
) -> Result<RootValues, Refusal>
    ensures { result ≡ Calls.evaluate_answer (field_of prime) (interleaved list.now) n roots.now assignment.now m }
{
    let entries = Entries::<ENTRY_WORDS> {
        words: assignment,
        count: m,
    };
    let dag = Dag::new(prime, list, n, roots)?;
    entries.check(prime)?;
    evaluate_sized(dag, roots, entries)
}
