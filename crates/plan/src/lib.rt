// normalize.rs: what a round does with one record, by fanout, common_factor and existing_rotation.
#![tactic(auto)]

ghost use Rattle.std.specs.Prelude.{◌≡◌, ◌≤◌, [], ◌∷◌, ◌<◌, length, get_or};
ghost use Rattle.dag.specs.View.{interleaved};
ghost use Rattle.dag.specs.Nodes as Nodes;
ghost use Rattle.dag.specs.Lookup as Lookup;
ghost use Rattle.dag.specs.Roots.{roots_of};
ghost use Rattle.dag.specs.Store as Store;
ghost use Rattle.dag.specs.WellFormed.{Any, Fine};
ghost use Rattle.index.specs.Index.{NodeIndex};
ghost use Rattle.builder.specs.Promises.{read, operation};
ghost use Rattle.compact.specs.Promises.{AllBelow};
ghost use Rattle.plan.specs.Plan as Plans;
ghost use Rattle.plan.specs.Promises as Promises;

use builder::AssociativeOp;
use dag::{NodeKind, Roots};

// What a round does with one record: two products that share a factor, with what is left of each; or a record that is there already in place of an inner one, with the operand that remains.
#[derive(Clone, Copy)]
pub enum Rewrite {
    Factored {
        factor: usize,
        a_other: usize,
        b_other: usize,
    },
    Rotated {
        existing: usize,
        remaining: usize,
    },
}

// Counts one mention of each of these places.
#[tactic(auto, using(crate::specs::FanoutLaws::mention_fits), unfolding(crate::specs::Promises::mentioned))]
fn mention(fan: &mut [u64], places: &[usize])
    requires { AllBelow (length fan.old) places.now × Promises.Countable (length places.now) fan.old }
    ensures { fan.new ≡ Promises.mentioned fan.old places.now }
{
    for place in places {
        fan[*place] += 1;
    }
}

// The fanout of each place: each mention as an operand, and one for each root.
pub fn fanout(list: &[u64], n: usize, roots: &Roots, fan: &mut [u64])
    requires { Promises.Counting (interleaved list.now) n roots.now fan.old }
    ensures { read fan.new ≡ Plans.fanout (Nodes.nodes (interleaved list.now) n) (roots_of roots.now) }
{
    for i in 0..n {
        mention(fan, &dag::node_at(list, i).operands());
    }
    mention(fan, roots.as_slice());
}

// The operands of a record, if it is the operation's.
fn operands_of(op: AssociativeOp, x: NodeKind) -> Option<[usize; 2]>
    ensures { result ≡ Promises.operands_if (operation op) x }
{
    match (op, x) {
        (AssociativeOp::Add, NodeKind::Add(a, b)) => Some([a, b]),
        (AssociativeOp::Mul, NodeKind::Mul(a, b)) => Some([a, b]),
        _ => None,
    }
}

// The first factor that two products share: a's first against b's first, then second; then a's second likewise.
#[tactic(auto, using(crate::specs::FactorLaws::search_steps))]
fn shared_factor(a: [usize; 2], b: [usize; 2]) -> Option<Rewrite>
    ensures { result ≡ Promises.shared_in a b }
{
    'search: {
        for i in 0..2 {
            for j in 0..2 {
                if a[i] == b[j] {
                    break 'search Some(Rewrite::Factored {
                        factor: a[i],
                        a_other: a[1 - i],
                        b_other: b[1 - j],
                    });
                }
            }
        }
        None
    }
}

// What a round reads: its list of n records, the index of these, and each place's fanout.
#[derive(Clone, Copy)]
pub struct Round<'a> {
    pub list: &'a [u64],
    pub n: usize,
    pub own: &'a [u64],
    pub fan: &'a [u64],
    pub ghost room: { n ≤ (interleaved list.now).room },
    pub ghost indexed: { NodeIndex (Nodes.nodes (interleaved list.now) n) own.now },
    pub ghost fits: { n ≤ length fan.now },
}

impl Round<'_> {
    ghost use Rattle.plan.specs.Held.{records, fanouts};

    // The operands of the record at place i, if it is the operation's, with fanout 1.
    #[tactic(auto, using(dag::specs::NodeLaws::at_nodes))]
    fn single(&self, op: AssociativeOp, i: usize) -> Option<[usize; 2]>
        requires { i < self.now.n }
        ensures { result ≡ Promises.single_at (operation op) (records self.now) (fanouts self.now) i }
    {
        if self.fan[i] == 1 {
            operands_of(op, dag::node_at(self.list, i))
        } else {
            None
        }
    }

    // Two muls, each of fanout 1, that share a factor.
    #[tactic(auto, unfolding(crate::specs::Plan::common_factor))]
    fn common_factor(&self, a: usize, b: usize) -> Option<Rewrite>
        requires { (a < self.now.n) × (b < self.now.n) }
        ensures { result ≡ Plans.common_factor (records self.now) (fanouts self.now) a b }
    {
        shared_factor(
            self.single(AssociativeOp::Mul, a)?,
            self.single(AssociativeOp::Mul, b)?,
        )
    }

    // The candidate's greatest place, if it stands before place i, with what remains.
    #[tactic(auto, unfolding(crate::specs::Plan::onto_before))]
    fn onto_before(&self, i: usize, candidate: NodeKind, remaining: usize) -> Option<Rewrite>
        requires { Store.Records (interleaved self.now.list.now) self.now.n }
        ensures { result ≡ Plans.onto_before i remaining (Lookup.lookup (records self.now) candidate self.now.n) }
    {
        let existing = index::find(self.list, self.n, self.own, candidate)?;
        (existing < i).then_some(Rewrite::Rotated {
            existing,
            remaining,
        })
    }

    // op (op x y) other at place i: x with `other`, else y with `other`, where that is a record before i.
    #[tactic(auto, using(dag::specs::NodeLaws::length_nodes), unfolding(crate::specs::Plan::existing_rotation, crate::specs::Plan::or_else))]
    fn existing_rotation(
        &self,
        op: AssociativeOp,
        i: usize,
        inner: usize,
        other: usize,
    ) -> Option<Rewrite>
        requires { Store.Records (interleaved self.now.list.now) self.now.n × (inner < self.now.n) }
        ensures { result ≡ Plans.existing_rotation (operation op) (records self.now) (fanouts self.now) i inner other }
    {
        let [x, y] = self.single(op, inner)?;
        match self.onto_before(i, builder::canonical(op, x, other), y) {
            None => self.onto_before(i, builder::canonical(op, y, other), x),
            found => found,
        }
    }

    // The first operand is tried as the inner one, then the second.
    #[tactic(auto, unfolding(crate::specs::Plan::either_rotation, crate::specs::Plan::or_else))]
    fn either_rotation(&self, op: AssociativeOp, i: usize, a: usize, b: usize) -> Option<Rewrite>
        requires { Store.Records (interleaved self.now.list.now) self.now.n × (a < self.now.n) × (b < self.now.n) }
        ensures { result ≡ Plans.either_rotation (operation op) (records self.now) (fanouts self.now) i a b }
    {
        match self.existing_rotation(op, i, a, b) {
            None => self.existing_rotation(op, i, b, a),
            found => found,
        }
    }

    // What a round does with the record x at place i.
    #[tactic(auto, unfolding(crate::specs::Plan::plan_of, crate::specs::Plan::or_else, dag::specs::WellFormed::Fine))]
    pub fn plan_of(&self, i: usize, x: NodeKind) -> Option<Rewrite>
        requires { Store.Records (interleaved self.now.list.now) self.now.n × (i ≤ self.now.n) × Fine Any i x }
        ensures { result ≡ Plans.plan_of (records self.now) (fanouts self.now) i x }
    {
        match x {
            NodeKind::Add(a, b) => match self.common_factor(a, b) {
                None => self.either_rotation(AssociativeOp::Add, i, a, b),
                found => found,
            },
            NodeKind::Sub(a, b) => self.common_factor(a, b),
            NodeKind::Mul(a, b) => self.either_rotation(AssociativeOp::Mul, i, a, b),
            NodeKind::Neg(_) | NodeKind::Input(_) | NodeKind::Constant(_) => None,
        }
    }
}
