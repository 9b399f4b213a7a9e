// compiler/encode.rs: a circuit's words, and Emit.
#![tactic(auto)]

ghost use Rattle.std.specs.Prelude.{◌≡◌, ◌<◌, ◌≤◌, ◌+◌, ◌-◌, ◌*◌, ◌++◌, Ok, length, option_to_list, replicate, take};
ghost use Rattle.field.specs.Fields.{field_of};
ghost use Rattle.dag.specs.View.{interleaved};
ghost use Rattle.dag.specs.Arrays.{up_to, padded};
ghost use Rattle.dag.specs.Nodes as Nodes;
ghost use Rattle.dag.specs.Check as Check;
ghost use Rattle.entries.specs.Entries.{entries_check};
ghost use Rattle.entries.specs.KeyIndex.{Sized};
ghost use Rattle.circuit.specs.Circuit as Circuit;
ghost use Rattle.circuit.specs.AceCircuits as AceCircuits;
ghost use Rattle.encode.specs.Encode as Encode;
ghost use Rattle.encode.specs.Calls as Calls;
ghost use Rattle.encode.specs.Promises as Promises;

use circuit::{AceCircuit, AceNode, AceOp, AceOpNode, LAYOUT_WORDS};
use dag::{Dag, MOST_RECORDS, RECORD_WORDS, Refusal, Words};
use entries::{Entries, KeyedEntries};
use field::Prime;
use index::PlaceIndex;

// Constants are padded to a multiple of this.
const CONST_EF_ALIGN: usize = 2;

// The words of a constant.
const BASE_FELTS_PER_EF: usize = 2;

// Twice the constants and the operations are padded to a multiple of this.
const ADV_PIPE_BLOCK_FELTS: usize = 8;

// The words of an operation: kind, left, right.
const OPERATION_WORDS: usize = 3;

// The records and entries that the smallest stores hold, the links of an index of so many, and the words of so many records.
const FEW: usize = 64;

const FEW_LINKS: usize = 2 * FEW;

const FEW_WORDS: usize = RECORD_WORDS * FEW;

// Those that the next larger stores hold.
const MANY: usize = 1024;

const MANY_LINKS: usize = 2 * MANY;

const MANY_WORDS: usize = RECORD_WORDS * MANY;

// Those that the largest hold.
const MOST_LINKS: usize = 2 * MOST_RECORDS;

const MOST_WORDS: usize = RECORD_WORDS * MOST_RECORDS;

// The counts of a circuit's nodes, padding counted in.
#[derive(Clone, Copy)]
pub struct StreamGeometry {
    pub inputs: usize,
    pub constants: usize,
    pub operations: usize,
}

// The counts that the box is given.
#[derive(Clone, Copy)]
pub struct EncodedCircuit {
    pub num_vars: usize,
    pub num_ops: usize,
}

// The operation that squares operation i - 1, as operation i.
#[tactic(auto, unfolding(crate::specs::Encode::square))]
fn square(i: usize) -> AceOpNode
    requires { 0 < i }
    ensures { result ≡ Encode.square i }
{
    let before = AceNode::Operation(i - 1);
    AceOpNode {
        op: AceOp::Mul,
        lhs: before,
        rhs: before,
    }
}

impl StreamGeometry {
    // The counts, by those without padding.
    #[tactic(auto, unfolding(crate::specs::Encode::from_counts, crate::specs::Encode::next_multiple_of))]
    fn from_counts(inputs: usize, constants: usize, operations: usize) -> StreamGeometry
        requires { (inputs ≤ 4096) × (constants ≤ 4096) × (operations ≤ 4096) }
        ensures counts { result ≡ Encode.from_counts inputs constants operations }
        ensures small { Promises.Small result }
    {
        let even = constants.next_multiple_of(CONST_EF_ALIGN);
        let words = BASE_FELTS_PER_EF * even;
        StreamGeometry {
            inputs,
            constants: even,
            operations: (words + operations).next_multiple_of(ADV_PIPE_BLOCK_FELTS) - words,
        }
    }

    // A node's number.
    #[tactic(auto, unfolding(crate::specs::Encode::node_id, crate::specs::Encode::num_nodes))]
    fn node_id(self, node: AceNode) -> usize
        requires { Promises.Small self }
        ensures { result ≡ Encode.node_id self node }
    {
        let nodes = self.inputs + self.constants + self.operations;
        let (from, i) = match node {
            AceNode::Input(i) => (nodes, i),
            AceNode::Constant(i) => (nodes - self.inputs, i),
            AceNode::Operation(i) => (self.operations, i),
        };
        from.saturating_sub(1).saturating_sub(i)
    }

    // Writes an operation at place j of a store of operations.
    fn put_operation(self, store: &mut [u64], j: usize, o: AceOpNode)
        requires { Promises.Small self × (j < (interleaved store.old).room) }
        ensures { store.new ≡ Promises.put self store.old j o }
    {
        let words = Words {
            tag: o.op as u64,
            first: self.node_id(o.lhs) as u64,
            second: self.node_id(o.rhs) as u64,
        };
        dag::put_words(store, j, words);
    }

    // Writes a record's operation, if it is one, at place j; answers the next place.
    fn put_next(self, store: &mut [u64], j: usize, operation: Option<AceOpNode>) -> usize
        requires { Promises.Small self × (j ≤ Nodes.most_records) × (j + length (option_to_list operation) ≤ (interleaved store.old).room) }
        ensures { Promises.Wrote self store.old j (option_to_list operation) store.new result }
    {
        match operation {
            Some(o) => {
                self.put_operation(store, j, o);
                j + 1
            }
            None => j,
        }
    }

    // Writes a circuit's operations at the start of a store of operations.
    fn put_operations(self, circuit: AceCircuit, store: &mut [u64])
        requires { Promises.Small self × (circuit.counts.operations ≤ (interleaved store.old).room) }
        ensures { Promises.Wrote self store.old 0 (AceCircuits.circuit_operations circuit.entry) store.new circuit.entry.counts.operations }
    {
        let zero = circuit.zero();
        let mut next = 0;
        for i in 0..circuit.dag.n {
            next = self.put_next(store, next, circuit.operation(i, zero));
        }
    }

    // Writes the padding behind a circuit's operations.
    fn put_padding(self, operations: usize, store: &mut [u64])
        requires { Promises.Small self × (0 < operations) × (operations ≤ self.operations) × (self.operations ≤ (interleaved store.old).room) }
        ensures { Promises.Wrote self store.old operations (up_to (λ i. Encode.square (operations + i)) (self.operations - operations)) store.new self.operations }
    {
        for j in operations..self.operations {
            self.put_operation(store, j, square(j));
        }
    }

    // Writes a circuit's constants, zeros behind them, into a store that holds just these.
    fn put_constants(self, circuit: AceCircuit, store: &mut [u64])
        requires { Promises.Small self × (circuit.counts.constants ≤ self.constants) × (length store.old ≡ 2 * self.constants) }
        ensures { store.new ≡ padded 0 (2 * self.constants) (Encode.constant_words (AceCircuits.circuit_constants circuit.entry)) }
    {
        store.fill(0);
        for i in 0..circuit.counts.constants {
            let words = dag::words_at(circuit.constants, i);
            store[BASE_FELTS_PER_EF * i] = words.first;
            store[BASE_FELTS_PER_EF * i + 1] = words.second;
        }
    }

    // Writes a circuit's words, blanks behind them.
    fn put_instructions(self, circuit: AceCircuit, res: &mut [u64])
        requires small { Promises.Small self }
        requires counts { Promises.Fitting self circuit.counts (length res.old) }
        ensures { res.new ≡ Nodes.filled (length res.old) (Encode.instructions self (AceCircuits.circuit_constants circuit.entry) (AceCircuits.circuit_operations circuit.entry)) }
    {
        let (constants, operations) = res.split_at_mut(BASE_FELTS_PER_EF * self.constants);
        self.put_constants(circuit, constants);
        self.put_operations(circuit, operations);
        self.put_padding(circuit.counts.operations, operations);
        dag::blank_from(operations, OPERATION_WORDS * self.operations);
    }
}

// Whether there is one root, and it is the last operation.
#[tactic(auto, unfolding(crate::specs::Calls::root_is_last))]
fn root_is_last(circuit: AceCircuit, roots: &[u64]) -> bool
    requires { let c = circuit in Check.list_check (field_of c.dag.prime).bounds (interleaved c.dag.list.now) c.dag.n roots.now ≡ Ok tt }
    ensures { let c = circuit.entry in result ≡ Calls.root_is_last (field_of c.dag.prime) (interleaved c.dag.list.now) c.dag.n roots.now c.layout.words.now c.layout.count }
{
    let alone = roots.len() == 1;
    if !alone {
        return false;
    }
    match circuit.node(roots[0] as usize) {
        AceNode::Operation(i) => i == circuit.counts.operations.saturating_sub(1),
        AceNode::Input(_) => false,
        AceNode::Constant(_) => false,
    }
}

// The tests of a circuit: 42, 43, 44.
#[tactic(auto, unfolding(crate::specs::Calls::circuit_check))]
fn circuit_check(circuit: AceCircuit, roots: &[u64]) -> Result<(), Refusal>
    requires { let c = circuit in Check.list_check (field_of c.dag.prime).bounds (interleaved c.dag.list.now) c.dag.n roots.now ≡ Ok tt }
    ensures { let c = circuit.entry in result ≡ Calls.circuit_check (field_of c.dag.prime) (interleaved c.dag.list.now) c.dag.n roots.now c.layout.words.now c.layout.count }
{
    let none = circuit.counts.operations == 0;
    if none {
        return Err(Refusal::NoOperations);
    }
    let last = root_is_last(circuit, roots);
    if !last {
        return Err(Refusal::RootNotLast);
    }
    if circuit.layout.count % 2 != 0 {
        return Err(Refusal::OddLayout);
    }
    Ok(())
}

// A list's circuit tested and written.
fn to_ace(circuit: AceCircuit, roots: &[u64], res: &mut [u64]) -> Result<EncodedCircuit, Refusal>
    requires { let c = circuit in Promises.Placed (field_of c.dag.prime) (interleaved c.dag.list.now) c.dag.n roots.now c.layout.words.now c.layout.count }
    ensures res { let c = circuit.entry in res.new ≡ Calls.emit_result (field_of c.dag.prime) (interleaved c.dag.list.now) c.dag.n roots.now c.layout.words.now c.layout.count res.old }
    ensures answer { let c = circuit.entry in result ≡ Calls.emit_answer (field_of c.dag.prime) (interleaved c.dag.list.now) c.dag.n roots.now c.layout.words.now c.layout.count (length res.old) }
{
    circuit_check(circuit, roots)?;
    let counts = circuit.counts;
    let geometry = StreamGeometry::from_counts(
        circuit.layout.count,
        counts.constants,
        counts.operations,
    );
    let words = BASE_FELTS_PER_EF * geometry.constants + OPERATION_WORDS * geometry.operations;
    if res.len() < words {
        return Err(Refusal::StoreTooShort);
    }
    geometry.put_instructions(circuit, res);
    Ok(EncodedCircuit {
        num_vars: geometry.inputs + geometry.constants,
        num_ops: geometry.operations,
    })
}

// Emit behind the tests of its words, with stores for so many records and constants, in a frame of its own.
#[inline(never)]
fn emit_within<const RECORDS: usize, const LINKS: usize, const WORDS: usize>(
    dag: Dag,
    roots: &[u64],
    layout: KeyedEntries<LAYOUT_WORDS>,
    res: &mut [u64],
) -> Result<EncodedCircuit, Refusal>
    requires rooted { Check.list_check (field_of dag.prime).bounds (interleaved dag.list.now) dag.n roots.now ≡ Ok tt }
    requires passed { entries_check (field_of dag.prime).bounds LAYOUT_WORDS layout.entries.words.now layout.entries.count ≡ Ok tt }
    requires sized { Promises.SizedTable RECORDS LINKS WORDS dag.n }
    ensures res { let d = dag.entry in let e = layout.entry.entries in res.new ≡ Calls.emit_result (field_of d.prime) (interleaved d.list.now) d.n roots.now e.words.now e.count res.old }
    ensures answer { let d = dag.entry in let e = layout.entry.entries in result ≡ Calls.emit_answer (field_of d.prime) (interleaved d.list.now) d.n roots.now e.words.now e.count (length res.old) }
{
    let mut table = [0u64; WORDS];
    let mut links = [0u64; LINKS];
    let mut index = PlaceIndex::new(&mut links);
    let mut nodes = [AceNode::Input(0); RECORDS];
    let counts = circuit::emit_circuit(dag, layout, &mut table, &mut index, &mut nodes)?;
    let circuit = AceCircuit {
        dag,
        layout: layout.entries,
        constants: &table,
        nodes: &nodes,
        counts,
    };
    to_ace(circuit, roots, res)
}

// The same, with stores for the length of the list.
fn emit_sized(
    dag: Dag,
    roots: &[u64],
    layout: KeyedEntries<LAYOUT_WORDS>,
    res: &mut [u64],
) -> Result<EncodedCircuit, Refusal>
    requires rooted { Check.list_check (field_of dag.prime).bounds (interleaved dag.list.now) dag.n roots.now ≡ Ok tt }
    requires passed { entries_check (field_of dag.prime).bounds LAYOUT_WORDS layout.entries.words.now layout.entries.count ≡ Ok tt }
    ensures res { let d = dag.entry in let e = layout.entry.entries in res.new ≡ Calls.emit_result (field_of d.prime) (interleaved d.list.now) d.n roots.now e.words.now e.count res.old }
    ensures answer { let d = dag.entry in let e = layout.entry.entries in result ≡ Calls.emit_answer (field_of d.prime) (interleaved d.list.now) d.n roots.now e.words.now e.count (length res.old) }
{
    if dag.n <= FEW {
        emit_within::<FEW, FEW_LINKS, FEW_WORDS>(dag, roots, layout, res)
    } else if dag.n <= MANY {
        emit_within::<MANY, MANY_LINKS, MANY_WORDS>(dag, roots, layout, res)
    } else {
        emit_within::<MOST_RECORDS, MOST_LINKS, MOST_WORDS>(dag, roots, layout, res)
    }
}

// The same, with an index of so many keys, in a frame of its own.
#[inline(never)]
fn emit_keyed<const KEYS: usize, const LINKS: usize>(
    dag: Dag,
    roots: &[u64],
    layout: Entries<LAYOUT_WORDS>,
    res: &mut [u64],
) -> Result<EncodedCircuit, Refusal>
    requires rooted { Check.list_check (field_of dag.prime).bounds (interleaved dag.list.now) dag.n roots.now ≡ Ok tt }
    requires passed { entries_check (field_of dag.prime).bounds LAYOUT_WORDS layout.words.now layout.count ≡ Ok tt }
    requires sized { Sized KEYS LINKS 0 layout.count }
    ensures res { let d = dag.entry in let e = layout.entry in res.new ≡ Calls.emit_result (field_of d.prime) (interleaved d.list.now) d.n roots.now e.words.now e.count res.old }
    ensures answer { let d = dag.entry in let e = layout.entry in result ≡ Calls.emit_answer (field_of d.prime) (interleaved d.list.now) d.n roots.now e.words.now e.count (length res.old) }
{
    let mut links = [0u64; LINKS];
    let mut index = PlaceIndex::new(&mut links);
    layout.index(&mut index);
    let keyed = KeyedEntries {
        entries: layout,
        links: index.as_slice(),
    };
    emit_sized(dag, roots, keyed, res)
}

// The same, with an index of the layout's length.
fn emit_layout(
    dag: Dag,
    roots: &[u64],
    layout: Entries<LAYOUT_WORDS>,
    res: &mut [u64],
) -> Result<EncodedCircuit, Refusal>
    requires rooted { Check.list_check (field_of dag.prime).bounds (interleaved dag.list.now) dag.n roots.now ≡ Ok tt }
    requires passed { entries_check (field_of dag.prime).bounds LAYOUT_WORDS layout.words.now layout.count ≡ Ok tt }
    ensures res { let d = dag.entry in let e = layout.entry in res.new ≡ Calls.emit_result (field_of d.prime) (interleaved d.list.now) d.n roots.now e.words.now e.count res.old }
    ensures answer { let d = dag.entry in let e = layout.entry in result ≡ Calls.emit_answer (field_of d.prime) (interleaved d.list.now) d.n roots.now e.words.now e.count (length res.old) }
{
    if layout.count <= FEW {
        emit_keyed::<FEW, FEW_LINKS>(dag, roots, layout, res)
    } else if layout.count <= MANY {
        emit_keyed::<MANY, MANY_LINKS>(dag, roots, layout, res)
    } else {
        emit_keyed::<MOST_RECORDS, MOST_LINKS>(dag, roots, layout, res)
    }
}

// Emit: writes a list's circuit. Answers its counts.
pub fn emit(
    prime: Prime,
    list: &[u64],
    n: usize,
    roots: &[u64],
    layout: &[u64],
    k: usize,
    res: &mut [u64],
) -> Result<EncodedCircuit, Refusal>
    ensures res { res.new ≡ Calls.emit_result (field_of prime) (interleaved list.now) n roots.now layout.now k res.old }
    ensures answer { result ≡ Calls.emit_answer (field_of prime) (interleaved list.now) n roots.now layout.now k (length res.old) }
{
    let dag = Dag::new(prime, list, n, roots)?;
    let layout = Entries {
        words: layout,
        count: k,
    };
    layout.check(prime)?;
    emit_layout(dag, roots, layout, res)
}
