// builder.rs: what a request comes to, interning, Step and Build.
#![tactic(auto)]

ghost use Rattle.std.specs.Prelude.{◌≡◌, ◌/◌, ◌<◌, ◌≤◌, length};
ghost use Rattle.field.specs.Fields.{field_of};
ghost use Rattle.field.specs.Field.{elements};
ghost use Rattle.dag.specs.View.{interleaved};
ghost use Rattle.dag.specs.Held.{HeldOf};
ghost use Rattle.dag.specs.Nodes as Nodes;
ghost use Rattle.dag.specs.Refusals as Refusals;
ghost use Rattle.dag.specs.Store as Store;
ghost use Rattle.index.specs.Index.{half, noted, node_bucket, NodeIndex};
ghost use Rattle.index.specs.Promises.{SameLinks};
ghost use Rattle.builder.specs.Steps as Steps;
ghost use Rattle.builder.specs.Promises as Promises;
ghost use Rattle.builder.specs.Calls as Calls;

use dag::{Dag, NodeKind, Refusal, RootedDag, Roots, Words};
use field::{Prime, QuadFelt};
use index::PlaceIndex;

// The links of a short list's index.
const FEW_LINKS: usize = 2 * dag::FEW_RECORDS;

// The links of the longest list's index.
const MOST_LINKS: usize = 2 * dag::MOST_RECORDS;

// What a request comes to: a place that is there, or a record to intern.
#[derive(Clone, Copy)]
pub enum Outcome {
    Place(usize),
    Node(NodeKind),
}

// What a rule of a step says: an outcome, or operands handed to the other of add and sub.
#[derive(Clone, Copy)]
pub enum Rule {
    ComesTo(Outcome),
    HandOver(usize, usize),
}

// A result's place, and the number of records then.
#[derive(Clone, Copy)]
pub struct Entered {
    pub place: usize,
    pub count: usize,
}

// The operations whose operands may be swapped.
#[derive(Clone, Copy)]
pub enum AssociativeOp {
    Add,
    Mul,
}

// The record of an operation on places a and b, lower place first.
#[tactic(auto, unfolding(crate::specs::Steps::low_first))]
pub fn canonical(op: AssociativeOp, a: usize, b: usize) -> NodeKind
    ensures { result ≡ Steps.low_first (Promises.operation op) a b }
{
    let (low, high) = if a <= b { (a, b) } else { (b, a) };
    match op {
        AssociativeOp::Add => NodeKind::Add(low, high),
        AssociativeOp::Mul => NodeKind::Mul(low, high),
    }
}

// The elements of two constants.
#[tactic(auto, unfolding(crate::specs::Steps::is_constant, crate::specs::Steps::element))]
fn constants(x: NodeKind, y: NodeKind) -> Option<(QuadFelt, QuadFelt)>
    ensures { result ≡ Promises.constants x y }
{
    match (x, y) {
        (NodeKind::Constant(c), NodeKind::Constant(d)) => Some((c, d)),
        _ => None,
    }
}

// What is left of a sum with a difference that takes its other operand away.
#[tactic(auto, unfolding(crate::specs::Steps::is_sub))]
fn cancel_add(x: NodeKind, y: NodeKind, a: usize, b: usize) -> Option<usize>
    ensures { result ≡ Promises.cancel_add x y a b }
{
    if let NodeKind::Sub(left, right) = x
        && right == b
    {
        return Some(left);
    }
    if let NodeKind::Sub(left, right) = y
        && right == a
    {
        return Some(left);
    }
    None
}

// What is left of a difference that takes away what a sum added, or leaves what a difference took away.
#[tactic(auto, unfolding(crate::specs::Steps::is_sub, crate::specs::Steps::is_add))]
fn cancel_sub(x: NodeKind, y: NodeKind, a: usize, b: usize) -> Option<usize>
    ensures { result ≡ Promises.cancel_sub x y a b }
{
    if let NodeKind::Add(left, right) = x {
        if left == b {
            return Some(right);
        }
        if right == b {
            return Some(left);
        }
    }
    match y {
        NodeKind::Sub(left, right) if left == a => Some(right),
        _ => None,
    }
}

// add(a, b), where places a and b hold x and y.
#[tactic(auto, using(crate::proofs::Rules::add_rules), unfolding(crate::specs::Steps::is_neg, field::specs::Field::elements))]
fn add_rule(prime: Prime, x: NodeKind, y: NodeKind, a: usize, b: usize) -> Rule
    requires { Promises.ConstantsBelow (field_of prime) x y }
    ensures { result ≡ Steps.add_rule (elements prime) x y a b }
{
    if let Some((c, d)) = constants(x, y) {
        return Rule::ComesTo(Outcome::Node(NodeKind::Constant(c.add(prime, d))));
    }
    if x == NodeKind::Constant(QuadFelt::ZERO) {
        return Rule::ComesTo(Outcome::Place(b));
    }
    if y == NodeKind::Constant(QuadFelt::ZERO) {
        return Rule::ComesTo(Outcome::Place(a));
    }
    if let Some(i) = cancel_add(x, y, a, b) {
        return Rule::ComesTo(Outcome::Place(i));
    }
    match (x, y) {
        (NodeKind::Neg(_), NodeKind::Neg(_)) => Rule::ComesTo(Outcome::Node(canonical(
            AssociativeOp::Add,
            a,
            b,
        ))),
        (NodeKind::Neg(c), _) => Rule::HandOver(b, c),
        (_, NodeKind::Neg(d)) => Rule::HandOver(a, d),
        _ => Rule::ComesTo(Outcome::Node(canonical(AssociativeOp::Add, a, b))),
    }
}

// sub(a, b), where places a and b hold x and y.
#[tactic(auto, using(crate::proofs::Rules::sub_rules), unfolding(crate::specs::Steps::is_neg, field::specs::Field::elements))]
fn sub_rule(prime: Prime, x: NodeKind, y: NodeKind, a: usize, b: usize) -> Rule
    requires { Promises.ConstantsBelow (field_of prime) x y }
    ensures { result ≡ Steps.sub_rule (elements prime) x y a b }
{
    if let Some((c, d)) = constants(x, y) {
        return Rule::ComesTo(Outcome::Node(NodeKind::Constant(c.sub(prime, d))));
    }
    if y == NodeKind::Constant(QuadFelt::ZERO) {
        return Rule::ComesTo(Outcome::Place(a));
    }
    if a == b {
        return Rule::ComesTo(Outcome::Node(NodeKind::Constant(QuadFelt::ZERO)));
    }
    if let Some(i) = cancel_sub(x, y, a, b) {
        return Rule::ComesTo(Outcome::Place(i));
    }
    match y {
        NodeKind::Neg(d) => Rule::HandOver(a, d),
        _ => Rule::ComesTo(Outcome::Node(NodeKind::Sub(a, b))),
    }
}

// mul(a, b), where places a and b hold x and y.
#[tactic(auto, using(crate::proofs::Rules::mul_rules), unfolding(field::specs::Field::elements))]
fn mul_outcome(prime: Prime, x: NodeKind, y: NodeKind, a: usize, b: usize) -> Outcome
    requires { Promises.ConstantsBelow (field_of prime) x y }
    ensures { result ≡ Steps.mul_outcome (elements prime) x y a b }
{
    if let Some((c, d)) = constants(x, y) {
        return Outcome::Node(NodeKind::Constant(c.mul(prime, d)));
    }
    if x == NodeKind::Constant(QuadFelt::ZERO) || y == NodeKind::Constant(QuadFelt::ZERO) {
        return Outcome::Node(NodeKind::Constant(QuadFelt::ZERO));
    }
    if x == NodeKind::Constant(QuadFelt::ONE) {
        return Outcome::Place(b);
    }
    if y == NodeKind::Constant(QuadFelt::ONE) {
        return Outcome::Place(a);
    }
    Outcome::Node(canonical(AssociativeOp::Mul, a, b))
}

// neg(a), where place a holds x.
#[tactic(auto, unfolding(crate::specs::Steps::neg_outcome, crate::specs::Steps::is_constant, crate::specs::Steps::element))]
fn neg_outcome(prime: Prime, x: NodeKind, a: usize) -> Outcome
    requires { Promises.ConstantBelow (field_of prime) x }
    ensures { result ≡ Steps.neg_outcome (elements prime) x a }
{
    match x {
        NodeKind::Constant(c) => Outcome::Node(NodeKind::Constant(c.neg(prime))),
        _ => Outcome::Node(NodeKind::Neg(a)),
    }
}

// What add(a, b) on the first n records comes to.
#[cycle(add_outcome_sub_outcome)]
fn add_outcome(prime: Prime, list: &[u64], n: usize, a: usize, b: usize) -> Outcome
    requires { Promises.Operands (field_of prime) (interleaved list.now) n a b }
    ensures { result ≡ Steps.add_outcome (elements prime) (Nodes.nodes (interleaved list.now) n) a b }
{
    match add_rule(prime, dag::node_at(list, a), dag::node_at(list, b), a, b) {
        Rule::ComesTo(outcome) => outcome,
        Rule::HandOver(c, d) => sub_outcome(prime, list, n, c, d),
    }
}

// What sub(a, b) on the first n records comes to.
#[cycle(add_outcome_sub_outcome)]
fn sub_outcome(prime: Prime, list: &[u64], n: usize, a: usize, b: usize) -> Outcome
    requires { Promises.Operands (field_of prime) (interleaved list.now) n a b }
    ensures { result ≡ Steps.sub_outcome (elements prime) (Nodes.nodes (interleaved list.now) n) a b }
{
    match sub_rule(prime, dag::node_at(list, a), dag::node_at(list, b), a, b) {
        Rule::ComesTo(outcome) => outcome,
        Rule::HandOver(c, d) => add_outcome(prime, list, n, c, d),
    }
}

// What a request on the first n records comes to.
fn request_outcome(prime: Prime, list: &[u64], n: usize, x: NodeKind) -> Outcome
    requires { Promises.Request (field_of prime) (interleaved list.now) n x }
    ensures { result ≡ Steps.outcome (elements prime) (Nodes.nodes (interleaved list.now) n) x }
{
    match x {
        NodeKind::Input(_) | NodeKind::Constant(_) => Outcome::Node(x),
        NodeKind::Add(a, b) => add_outcome(prime, list, n, a, b),
        NodeKind::Sub(a, b) => sub_outcome(prime, list, n, a, b),
        NodeKind::Mul(a, b) => mul_outcome(
            prime,
            dag::node_at(list, a),
            dag::node_at(list, b),
            a,
            b,
        ),
        NodeKind::Neg(a) => neg_outcome(prime, dag::node_at(list, a), a),
    }
}

// The place of a request's result among the first n records, or the new record that it needs, by the list's index.
#[tactic(auto, unfolding(crate::specs::Promises::resolved, crate::specs::Promises::found_or_new))]
pub fn resolve(prime: Prime, list: &[u64], n: usize, links: &[u64], x: NodeKind) -> Outcome
    requires { Promises.Request (field_of prime) (interleaved list.now) n x × NodeIndex (Nodes.nodes (interleaved list.now) n) links.now }
    ensures { result ≡ Promises.resolved (field_of prime) (Nodes.nodes (interleaved list.now) n) n x }
{
    let outcome = request_outcome(prime, list, n, x);
    match outcome {
        Outcome::Place(_) => outcome,
        Outcome::Node(y) => index::find(list, n, links, y).map_or(outcome, Outcome::Place),
    }
}

// Appends a new record behind the first n and notes it in the index.
pub fn append_noted(list: &mut [u64], index: &mut PlaceIndex, n: usize, y: NodeKind)
    requires { (n < (interleaved list.old).room) × (n < half index.old.links.now) }
    ensures same { SameLinks index.old index.new }
    ensures list { list.new ≡ Store.put list.old n y }
    ensures links { index.new.links.now ≡ noted index.old.links.now n (node_bucket (half index.old.links.now) y) }
{
    dag::put_node(list, n, y);
    index.note(n, Words::from(y));
}

// A list that is built: its first `count` records, and their index.
#[derive(Drop)]
pub struct DagBuilder<'list, 'index, 'links> {
    pub prime: Prime,
    pub list: &'list mut [u64],
    pub index: &'index mut PlaceIndex<'links>,
    pub count: usize,
}

impl<'list, 'index, 'links> DagBuilder<'list, 'index, 'links> {
    // An empty list.
    pub fn new(
        prime: Prime,
        list: &'list mut [u64],
        index: &'index mut PlaceIndex<'links>,
    ) -> DagBuilder<'list, 'index, 'links>
        ensures same_list { result.list.ghost_name ≡ list.entry.ghost_name }
        ensures same_index { result.index.ghost_name ≡ index.entry.ghost_name }
        ensures same_links { SameLinks index.old result.index.now }
        ensures empty { Promises.Empty prime list.old result }
    {
        index.clear();
        DagBuilder {
            prime,
            list,
            index,
            count: 0,
        }
    }

    // The place of a request's result, or the new record that it needs, by the index.
    pub fn resolve(&self, x: NodeKind) -> Outcome
        requires { Promises.Request (field_of self.now.prime) (interleaved self.now.list.now) self.now.count x × NodeIndex (Nodes.nodes (interleaved self.now.list.now) self.now.count) self.now.index.now.links.now }
        ensures { result ≡ Promises.resolved (field_of self.now.prime) (Nodes.nodes (interleaved self.now.list.now) self.now.count) self.now.count x }
    {
        resolve(self.prime, self.list, self.count, self.index.as_slice(), x)
    }

    // Appends a new record and notes it in the index; answers its place.
    pub fn append(&mut self, y: NodeKind) -> usize
        requires { (self.old.count < (interleaved self.old.list.now).room) × (self.old.count < half self.old.index.now.links.now) }
        ensures same { Promises.SameStores self.old self.new }
        ensures appended { Promises.Appended self.old y self.new result }
    {
        let place = self.count;
        append_noted(self.list, self.index, place, y);
        self.count += 1;
        place
    }

    // Enters one request; answers its place. Inlined, so that no request goes by memory.
    #[inline(always)]
    pub fn push(&mut self, x: NodeKind) -> usize
        requires { Promises.Request (field_of self.old.prime) (interleaved self.old.list.now) self.old.count x × Promises.Room self.old.list.now self.old.count self.old.index.now.links.now }
        ensures same { Promises.SameStores self.old self.new }
        ensures noted { Promises.Noted (field_of self.old.prime) self.old.list.now self.old.count x self.new.list.now self.new.index.now.links.now (record { place = result; count = self.new.count }) }
    {
        match self.resolve(x) {
            Outcome::Place(i) => i,
            Outcome::Node(y) => self.append(y),
        }
    }
}

// Step's tests.
#[tactic(auto, unfolding(crate::specs::Calls::step_check))]
fn step_check(prime: Prime, list: &[u64], n: usize, words: Words) -> Result<(), Refusal>
    ensures { result ≡ Calls.step_check (field_of prime) (interleaved list.now) n words.tag words.first words.second }
{
    dag::rootless_check(prime, list, n, 0)?;
    dag::record_check(prime, words, n)
}

// Appends a new record where there is room.
fn append(list: &mut [u64], n: usize, y: NodeKind) -> Result<Entered, Refusal>
    requires { Store.Records (interleaved list.old) n × (n ≤ Nodes.most_records) }
    ensures { Promises.Stepped list.old n (Promises.appended (Nodes.nodes (interleaved list.old) n) (Outcome.Node y)) result list.new }
{
    let room = dag::room(list);
    if dag::MOST_RECORDS <= n || room <= n {
        return Err(Refusal::NoRoom);
    }
    dag::put_node(list, n, y);
    Ok(Entered {
        place: n,
        count: n + 1,
    })
}

// Interns a record by the plain search.
fn intern(list: &mut [u64], n: usize, y: NodeKind) -> Result<Entered, Refusal>
    requires { Store.Records (interleaved list.old) n × (n ≤ Nodes.most_records) }
    ensures { Promises.Stepped list.old n (Steps.intern (Nodes.nodes (interleaved list.old) n) y) result list.new }
{
    match dag::lookup(list, n, y) {
        Some(place) => Ok(Entered { place, count: n }),
        None => append(list, n, y),
    }
}

// Step past its tests.
fn enter(prime: Prime, list: &mut [u64], n: usize, x: NodeKind) -> Result<Entered, Refusal>
    requires { Promises.Request (field_of prime) (interleaved list.old) n x × (n ≤ Nodes.most_records) }
    ensures { Promises.Stepped list.old n (Steps.step (elements prime) (Nodes.nodes (interleaved list.old) n) x) result list.new }
{
    match request_outcome(prime, list, n, x) {
        Outcome::Place(place) => Ok(Entered { place, count: n }),
        Outcome::Node(y) => intern(list, n, y),
    }
}

// Step: one request on a list.
pub fn step(prime: Prime, list: &mut [u64], n: usize, words: Words) -> Result<Entered, Refusal>
    ensures answer { result ≡ Calls.step_answer (field_of prime) (interleaved list.old) n words.tag words.first words.second }
    ensures store { list.new ≡ Calls.step_store (field_of prime) list.old n words.tag words.first words.second }
{
    step_check(prime, list, n, words)?;
    enter(prime, list, n, NodeKind::from(words))
}

// Replays the requests one after the other into an empty list; answers its count.
fn replay(dag: Dag, res: &mut [u64], map: &mut [u64], index: &mut PlaceIndex) -> usize
    requires { (dag.n ≤ (interleaved res.old).room) × (dag.n ≤ length map.old) × (dag.n ≤ half index.old.links.now) }
    ensures { let d = dag.entry in Promises.Holds (field_of d.prime) (Promises.replay_of d) d.n res.new map.new result }
{
    let mut builder = DagBuilder::new(dag.prime, res, index);
    for i in 0..dag.n {
        let x = dag.node(i).renamed(map);
        map[i] = builder.push(x) as u64;
    }
    builder.count
}

// Build's tests: the list, if they pass.
#[tactic(auto, unfolding(crate::specs::Calls::build_check, crate::specs::Calls::build_stores))]
fn build_check<'a>(
    prime: Prime,
    list: &'a [u64],
    n: usize,
    roots: &[u64],
    result_room: usize,
    map_words: usize,
) -> Result<Dag<'a>, Refusal>
    ensures checked { Refusals.outcome result ≡ Calls.build_check (field_of prime) (interleaved list.now) n roots.now result_room map_words }
    ensures held { HeldOf prime list.now n result }
{
    let dag = Dag::new(prime, list, n, roots)?;
    dag::room_check(n, result_room)?;
    dag::room_check(n, map_words)?;
    Ok(dag)
}

// Build past its tests, with an index of so many links, in a frame of its own.
#[inline(never)]
fn build_with<const LINKS: usize>(
    dag: Dag,
    roots: &Roots,
    res: &mut [u64],
    map: &mut [u64],
) -> RootedDag
    requires { Promises.Ready dag.n roots.now (interleaved res.old).room (length map.old) × (2 ≤ LINKS) × (LINKS ≤ 8192) × (dag.n ≤ LINKS / 2) }
    ensures { Promises.Finished (Promises.replay_of dag.entry) roots.now res.old map.old result res.new map.new }
{
    let mut links = [0u64; LINKS];
    let mut index = PlaceIndex::new(&mut links);
    let count = replay(dag, res, map, &mut index);
    dag::blank_records(res, count);
    dag::blank_from(map, dag.n);
    RootedDag {
        count,
        roots: roots.renamed(map),
    }
}

// Build past its tests, with links for the list's length.
fn build_sized(dag: Dag, roots: &Roots, res: &mut [u64], map: &mut [u64]) -> RootedDag
    requires { Promises.Ready dag.n roots.now (interleaved res.old).room (length map.old) }
    ensures { Promises.Finished (Promises.replay_of dag.entry) roots.now res.old map.old result res.new map.new }
{
    if dag.n <= dag::FEW_RECORDS {
        build_with::<FEW_LINKS>(dag, roots, res, map)
    } else {
        build_with::<MOST_LINKS>(dag, roots, res, map)
    }
}

// Build: a list of requests with roots, one after the other into an empty list.
pub fn build(
    prime: Prime,
    list: &[u64],
    n: usize,
    roots: &[u64],
    res: &mut [u64],
    map: &mut [u64],
) -> Result<RootedDag, Refusal>
    ensures answer { result ≡ Calls.build_answer (field_of prime) (interleaved list.now) n roots.now (interleaved res.old).room (length map.old) }
    ensures res { res.new ≡ Calls.build_result (field_of prime) (interleaved list.now) n roots.now res.old (length map.old) }
    ensures map { map.new ≡ Calls.build_map (field_of prime) (interleaved list.now) n roots.now (interleaved res.old).room map.old }
{
    let dag = build_check(prime, list, n, roots, dag::room(res), map.len())?;
    Ok(build_sized(dag, &Roots::of(roots), res, map))
}
