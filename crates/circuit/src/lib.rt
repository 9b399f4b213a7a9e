// circuit.rs: a list's circuit, its constants, the node of each record and its operations.
#![tactic(auto)]

ghost use Rattle.std.specs.Prelude.{◌≡◌, ◌<◌, ◌≤◌, ◌+◌, ◌*◌, cond, IfOk, length, nat_eq, option_to_list};
ghost use Rattle.field.specs.Fields.{field_of, Low};
ghost use Rattle.field.specs.Field.{elements};
ghost use Rattle.dag.specs.View.{interleaved};
ghost use Rattle.dag.specs.Nodes as Nodes;
ghost use Rattle.dag.specs.Refusals as Refusals;
ghost use Rattle.index.specs.Index.{half};
ghost use Rattle.entries.specs.Entries.{entry_of, inputs_check};
ghost use Rattle.builder.specs.Steps.{is_neg};
ghost use Rattle.builder.specs.Promises.{SameStores, ConstantBelow};
ghost use Rattle.circuit.specs.Circuit as Circuit;
ghost use Rattle.circuit.specs.Promises as Promises;

use builder::DagBuilder;
use dag::{Dag, NodeKind, Refusal, Words};
use entries::{Entries, KeyedEntries};
use field::QuadFelt;
use index::PlaceIndex;

// The words of a layout's entry: a key number.
pub const LAYOUT_WORDS: usize = 1;

// The tags of an add, a mul and a neg; below that of an add are inputs and constants.
const ADD: u64 = 2;

const MUL: u64 = 4;

const NEG: u64 = 5;

// An operation of the box (instruction.rs).
#[derive(Clone, Copy, PartialEq, Eq)]
pub enum AceOp {
    Sub = 0,
    Mul = 1,
    Add = 2,
}

// A node of the circuit: the input, constant or operation of a number.
#[derive(Clone, Copy, PartialEq, Eq)]
pub enum AceNode {
    Input(usize),
    Constant(usize),
    Operation(usize),
}

// An operation and its operands.
#[derive(Clone, Copy)]
pub struct AceOpNode {
    pub op: AceOp,
    pub lhs: AceNode,
    pub rhs: AceNode,
}

// How many constants and operations a circuit has.
#[derive(Clone, Copy)]
pub struct Counts {
    pub constants: usize,
    pub operations: usize,
}

// Interns a constant that is used; answers its place.
#[tactic(auto, unfolding(dag::specs::WellFormed::Fine, builder::specs::Steps::step, builder::specs::Steps::outcome, builder::specs::Steps::enter))]
fn use_constant(constants: &mut DagBuilder, c: QuadFelt) -> usize
    requires low { Low (field_of constants.old.prime) c }
    requires table { Promises.Table constants.old }
    requires room { Promises.Room constants.old }
    ensures same { SameStores constants.old constants.new }
    ensures interned { Promises.Interned constants.old c constants.new result }
    ensures table { Promises.Table constants.new }
{
    constants.push(NodeKind::Constant(c))
}

// Interns the zero that the operation x may use, unless `zero` says that it stands.
#[tactic(auto, unfolding(field::specs::Field::elements))]
fn use_zero(constants: &mut DagBuilder, x: NodeKind, zero: bool)
    requires table { Promises.Table constants.old }
    requires room { Promises.Room constants.old }
    requires zero { Promises.ZeroStands (elements constants.old.prime) zero (Promises.held constants.old) }
    ensures same { SameStores constants.old constants.new }
    ensures constants { Promises.held constants.new ≡ Promises.with_zero (elements constants.old.prime) (Promises.held constants.old) x }
    ensures table { Promises.Table constants.new }
{
    if zero {
        return;
    }
    if is_neg(x) {
        use_constant(constants, QuadFelt::ZERO);
    }
}

// The circuit's node of the record x behind `operations` of them; the constant that x uses is interned. None for an input whose key has no place.
fn node_of(
    x: NodeKind,
    layout: KeyedEntries<LAYOUT_WORDS>,
    constants: &mut DagBuilder,
    zero: bool,
    operations: usize,
) -> Option<AceNode>
    requires low { ConstantBelow (field_of constants.old.prime) x }
    requires table { Promises.Table constants.old }
    requires room { Promises.Room constants.old }
    requires zero { Promises.ZeroStands (elements constants.old.prime) zero (Promises.held constants.old) }
    ensures same { SameStores constants.old constants.new }
    ensures constants { Promises.held constants.new ≡ Circuit.with_used (elements constants.old.prime) (Promises.held constants.old) (Circuit.used (elements constants.old.prime) x) }
    ensures node { result ≡ Promises.node_answer (entry_of LAYOUT_WORDS layout.entry.entries.words.now layout.entry.entries.count) (Promises.held constants.old) operations x }
    ensures table { Promises.Table constants.new }
{
    match x {
        NodeKind::Input(key) => layout.find(key).map(AceNode::Input),
        NodeKind::Constant(c) => Some(AceNode::Constant(use_constant(constants, c))),
        _ => {
            use_zero(constants, x, zero);
            Some(AceNode::Operation(operations))
        }
    }
}

// Whether the record x is a Neg.
#[tactic(auto, unfolding(builder::specs::Steps::is_neg))]
fn is_neg(x: NodeKind) -> bool
    ensures { result ≡ is_neg x }
{
    matches!(x, NodeKind::Neg(_))
}

// Whether the record x is an operation.
#[tactic(auto, unfolding(crate::specs::Circuit::is_operation))]
fn is_operation(x: NodeKind) -> bool
    ensures { result ≡ Circuit.is_operation x }
{
    !matches!(x, NodeKind::Input(_) | NodeKind::Constant(_))
}

// What the box does for an operation's tag: a Neg is a difference.
fn op_of(tag: u64) -> AceOp
    ensures { result ≡ Promises.op_of tag }
{
    match tag {
        ADD => AceOp::Add,
        MUL => AceOp::Mul,
        _ => AceOp::Sub,
    }
}

// What an operation's first operand is taken as: a Neg is taken from zero.
fn minuend(tag: u64, zero: AceNode, first: AceNode) -> AceNode
    ensures { result ≡ cond (nat_eq tag 5) zero first }
{
    if tag == NEG { zero } else { first }
}

// The last operand of an operation.
fn last_operand(w: Words) -> u64
    ensures { result ≡ Promises.last_operand w.tag w.first w.second }
{
    if w.tag == NEG { w.first } else { w.second }
}

// How many operations there are with the record x.
fn counted(x: NodeKind, operations: usize) -> usize
    requires { operations < Nodes.most_records }
    ensures { result ≡ operations + cond (Circuit.is_operation x) 1 0 }
{
    if is_operation(x) {
        operations + 1
    } else {
        operations
    }
}

// Fills in the circuit's node of each of a list's records, up to the first input whose key has no place, and interns the constants in a table.
pub fn emit_circuit(
    dag: Dag,
    layout: KeyedEntries<LAYOUT_WORDS>,
    table: &mut [u64],
    index: &mut PlaceIndex,
    nodes: &mut [AceNode],
) -> Result<Counts, Refusal>
    requires { (dag.n ≤ (interleaved table.old).room) × (dag.n ≤ half index.old.links.now) × (dag.n ≤ length nodes.old) }
    ensures checked { let d = dag.entry in let e = layout.entry.entries in Refusals.outcome result ≡ inputs_check (entry_of LAYOUT_WORDS e.words.now e.count) (Nodes.nodes (interleaved d.list.now) d.n) d.n }
    ensures emitted { let d = dag.entry in let e = layout.entry.entries in IfOk result (λ counts. Promises.Emitted (field_of d.prime) (interleaved d.list.now) d.n e.words.now e.count table.new nodes.new counts) }
{
    let mut constants = DagBuilder::new(dag.prime, table, index);
    let mut zero = false;
    let mut operations = 0;
    for i in 0..dag.n {
        let x = dag.node(i);
        let node = node_of(x, layout, &mut constants, zero, operations);
        nodes[i] = node.ok_or(Refusal::Unassigned(i))?;
        zero |= is_neg(x);
        operations = counted(x, operations);
    }
    Ok(Counts {
        constants: constants.count,
        operations,
    })
}

// A list's circuit: its constants as records, the node of each record, and the counts.
#[derive(Clone, Copy)]
pub struct AceCircuit<'a> {
    pub dag: Dag<'a>,
    pub layout: Entries<'a, LAYOUT_WORDS>,
    pub constants: &'a [u64],
    pub nodes: &'a [AceNode],
    pub counts: Counts,
    pub ghost emitted: { Promises.Emitted (field_of dag.prime) (interleaved dag.list.now) dag.n layout.words.now layout.count constants.now nodes.now counts },
    pub ghost room: { dag.n ≤ length nodes.now },
}

impl AceCircuit<'_> {
    ghost use Rattle.circuit.specs.AceCircuits as AceCircuits;

    // The node of the record at place i.
    pub fn node(&self, i: usize) -> AceNode
        requires { i < self.now.dag.n }
        ensures { result ≡ AceCircuits.circuit_node self.now i }
    {
        self.nodes[i]
    }

    // The node of the zero that a Neg is taken from.
    pub fn zero(&self) -> AceNode
        ensures { result ≡ AceCircuits.circuit_zero self.now }
    {
        let zero = NodeKind::Constant(QuadFelt::ZERO);
        let place = dag::lookup(self.constants, self.counts.constants, zero);
        AceNode::Constant(place.unwrap_or(0))
    }

    // The operation of the record at place i, if it is one.
    pub fn operation(&self, i: usize, zero: AceNode) -> Option<AceOpNode>
        requires { (i < self.now.dag.n) × (zero ≡ AceCircuits.circuit_zero self.now) }
        ensures { option_to_list result ≡ AceCircuits.circuit_operation self.now i }
    {
        let w = dag::words_at(self.dag.list, i);
        if w.tag < ADD {
            return None;
        }
        let first = self.node(w.first as usize);
        Some(AceOpNode {
            op: op_of(w.tag),
            lhs: minuend(w.tag, zero, first),
            rhs: self.node(last_operand(w) as usize),
        })
    }
}
