// Draw: a list as Graphviz DOT.
#![tactic(auto)]

ghost use Rattle.std.specs.Prelude.{◌≡◌, ◌<◌, ◌≤◌, length};
ghost use Rattle.field.specs.Field.{modulus_of};
ghost use Rattle.field.specs.Fields.{field_of};
ghost use Rattle.dag.specs.View.{interleaved};
ghost use Rattle.dag.specs.Nodes.{nodes, operands};
ghost use Rattle.text.specs.Promises.{HasRoom, Laid, Wrote};
ghost use Rattle.draw.specs.Drawing as Drawing;
ghost use Rattle.draw.specs.Calls as Calls;
ghost use Rattle.draw.specs.Promises as Promises;

use dag::{Dag, NodeKind, Refusal};
use field::Prime;
use signed::signed;
use text::{Text, decimal_length, integer_length};
use wording::kinds::kind_of;

// A drawing's first line.
const OPENING: &[u8] = b"digraph g {\n";

// A drawing's last line.
const CLOSING: &[u8] = b"}\n";

// What stands before a place.
const NODE: &[u8] = b"n";

// What stands before a label.
const LABEL: &[u8] = b" [label=\"";

// What stands behind a label.
const LABEL_END: &[u8] = b"\"];\n";

// What stands between the places of an edge.
const ARROW: &[u8] = b" -> n";

// What stands behind the places of an edge.
const ARROW_END: &[u8] = b";\n";

// What stands before a number of a label.
const SPACE: &[u8] = b" ";

// Writes a space and a coordinate.
#[tactic(auto, using(crate::specs::LineLaws::length_coordinate))]
fn put_coordinate(text: &mut Text, prime: Prime, c: u64)
    requires below { c < modulus_of prime }
    requires room { HasRoom text.old (Drawing.coordinate (modulus_of prime) c) }
    ensures { Wrote text.old (Drawing.coordinate (modulus_of prime) c) text.new }
{
    text.bytes(SPACE);
    text.integer(signed(prime, c));
}

// Writes what a label has behind the kind.
#[tactic(auto, using(crate::specs::LineLaws::length_input, crate::specs::LineLaws::length_constant))]
fn put_numbers(text: &mut Text, prime: Prime, x: NodeKind)
    requires low { Promises.LowConstant (modulus_of prime) x }
    requires room { HasRoom text.old (Drawing.numbers (modulus_of prime) x) }
    ensures { Wrote text.old (Drawing.numbers (modulus_of prime) x) text.new }
{
    match x {
        NodeKind::Input(key) => {
            text.bytes(SPACE);
            text.decimal(key);
        }
        NodeKind::Constant(c) => {
            put_coordinate(text, prime, c.c0);
            put_coordinate(text, prime, c.c1);
        }
        _ => {}
    }
}

// Writes the line of the record x at place i.
#[tactic(auto, using(crate::specs::LineLaws::length_node))]
fn put_node(text: &mut Text, prime: Prime, i: usize, x: NodeKind)
    requires low { Promises.LowConstant (modulus_of prime) x }
    requires room { HasRoom text.old (Drawing.node_line (modulus_of prime) i x) }
    ensures { Wrote text.old (Drawing.node_line (modulus_of prime) i x) text.new }
{
    text.bytes(NODE);
    text.decimal(i as u64);
    text.bytes(LABEL);
    text.bytes(kind_of(x));
    put_numbers(text, prime, x);
    text.bytes(LABEL_END);
}

// Writes the line of an operand of the record at place i.
#[tactic(auto, using(crate::specs::LineLaws::length_edge))]
fn put_edge(text: &mut Text, i: usize, operand: usize)
    requires { HasRoom text.old (Drawing.edge_line i operand) }
    ensures { Wrote text.old (Drawing.edge_line i operand) text.new }
{
    text.bytes(NODE);
    text.decimal(i as u64);
    text.bytes(ARROW);
    text.decimal(operand as u64);
    text.bytes(ARROW_END);
}

// Writes the lines of the operands of the record at place i.
fn put_edges(text: &mut Text, i: usize, operands: &[usize])
    requires { HasRoom text.old (Drawing.edges i operands.now) }
    ensures { Wrote text.old (Drawing.edges i operands.now) text.new }
{
    for operand in operands {
        put_edge(text, i, *operand);
    }
}

// How long a space and a coordinate are.
#[tactic(auto, using(crate::specs::LineLaws::length_coordinate))]
fn coordinate_length(prime: Prime, c: u64) -> usize
    requires { c < modulus_of prime }
    ensures length { result ≡ length (Drawing.coordinate (modulus_of prime) c) }
    ensures few { result ≤ 22 }
{
    SPACE.len() + integer_length(signed(prime, c))
}

// How long what a label has behind the kind is.
#[tactic(auto, using(crate::specs::LineLaws::length_input, crate::specs::LineLaws::length_constant))]
fn numbers_length(prime: Prime, x: NodeKind) -> usize
    requires { Promises.LowConstant (modulus_of prime) x }
    ensures length { result ≡ length (Drawing.numbers (modulus_of prime) x) }
    ensures few { result ≤ 44 }
{
    match x {
        NodeKind::Input(key) => SPACE.len() + decimal_length(key),
        NodeKind::Constant(c) => coordinate_length(prime, c.c0) + coordinate_length(prime, c.c1),
        _ => 0,
    }
}

// How long the line of the record x at place i is.
#[tactic(auto, using(crate::specs::LineLaws::length_node, wording::specs::KindLaws::kind_few))]
fn node_length(prime: Prime, i: usize, x: NodeKind) -> usize
    requires { Promises.LowConstant (modulus_of prime) x }
    ensures length { result ≡ length (Drawing.node_line (modulus_of prime) i x) }
    ensures few { result ≤ 83 }
{
    let frame = NODE.len() + LABEL.len() + LABEL_END.len();
    frame + decimal_length(i as u64) + kind_of(x).len() + numbers_length(prime, x)
}

// How long the line of an operand of the record at place i is.
#[tactic(auto, using(crate::specs::LineLaws::length_edge))]
fn edge_length(i: usize, operand: usize) -> usize
    ensures length { result ≡ length (Drawing.edge_line i operand) }
    ensures few { result ≤ 48 }
{
    let frame = NODE.len() + ARROW.len() + ARROW_END.len();
    frame + decimal_length(i as u64) + decimal_length(operand as u64)
}

// How long the lines of the operands of the record x at place i are.
#[tactic(auto, using(crate::specs::LineLaws::length_two, crate::specs::LineLaws::length_one), unfolding(dag::specs::Nodes::operands, text::specs::Text::pieces))]
fn edges_length(i: usize, x: NodeKind) -> usize
    ensures length { result ≡ length (Drawing.edges i (operands x)) }
    ensures few { result ≤ 96 }
{
    match x {
        NodeKind::Input(_) | NodeKind::Constant(_) => 0,
        NodeKind::Add(a, b) | NodeKind::Sub(a, b) | NodeKind::Mul(a, b) => edge_length(i, a)
            + edge_length(i, b),
        NodeKind::Neg(a) => edge_length(i, a),
    }
}

// The length of a list's drawing.
fn drawing_length(dag: Dag) -> usize
    ensures { let d = dag.entry in result ≡ length (Calls.drawn (field_of d.prime) (interleaved d.list.now) d.n) }
{
    let mut length = OPENING.len() + CLOSING.len();
    for i in 0..dag.n {
        let x = dag.node(i);
        length += node_length(dag.prime, i, x) + edges_length(i, x);
    }
    length
}

// Writes the lines of a list's records.
fn put_nodes(text: &mut Text, dag: Dag)
    requires { let d = dag in HasRoom text.old (Drawing.node_lines (modulus_of d.prime) (nodes (interleaved d.list.now) d.n) d.n) }
    ensures { let d = dag.entry in Wrote text.old (Drawing.node_lines (modulus_of d.prime) (nodes (interleaved d.list.now) d.n) d.n) text.new }
{
    for i in 0..dag.n {
        put_node(text, dag.prime, i, dag.node(i));
    }
}

// Writes the lines of the operands of a list's records.
fn put_operands(text: &mut Text, dag: Dag)
    requires { let d = dag in HasRoom text.old (Drawing.edge_lines (nodes (interleaved d.list.now) d.n) d.n) }
    ensures { let d = dag.entry in Wrote text.old (Drawing.edge_lines (nodes (interleaved d.list.now) d.n) d.n) text.new }
{
    for i in 0..dag.n {
        put_edges(text, i, dag.node(i).operands().as_slice());
    }
}

// Writes a list's drawing, 0 bytes behind it. Answers its length.
#[tactic(auto, using(crate::specs::SizeLaws::length_drawn))]
fn write(dag: Dag, out: &mut [u8]) -> usize
    requires { let d = dag in length (Calls.drawn (field_of d.prime) (interleaved d.list.now) d.n) ≤ length out.old }
    ensures { let d = dag.entry in Laid out.old (Calls.drawn (field_of d.prime) (interleaved d.list.now) d.n) out.new result }
{
    let mut text = Text::new(out);
    text.bytes(OPENING);
    put_nodes(&mut text, dag);
    put_operands(&mut text, dag);
    text.bytes(CLOSING);
    text.finish()
}

// Draw: writes a list's drawing. Answers its length.
pub fn draw(
    prime: Prime,
    list: &[u64],
    n: usize,
    roots: &[u64],
    text: &mut [u8],
) -> Result<usize, Refusal>
    ensures text { text.new ≡ Calls.draw_text (field_of prime) (interleaved list.now) n roots.now text.old }
    ensures answer { result ≡ Calls.draw_answer (field_of prime) (interleaved list.now) n roots.now (length text.old) }
{
    let dag = Dag::new(prime, list, n, roots)?;
    if text.len() < drawing_length(dag) {
        return Err(Refusal::TextTooShort);
    }
    Ok(write(dag, text))
}
