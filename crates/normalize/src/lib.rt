// normalize.rs: a round, the rounds, Normalise.
#![tactic(auto)]

ghost use Rattle.std.specs.Prelude.{◌≡◌, ℕ, ◌*◌, ◌≤◌, length};
ghost use Rattle.field.specs.Fields.{field_of};
ghost use Rattle.field.specs.Field.{elements};
ghost use Rattle.dag.specs.View.{interleaved};
ghost use Rattle.dag.specs.Held.{HeldOf};
ghost use Rattle.dag.specs.Nodes as Nodes;
ghost use Rattle.dag.specs.Refusals.{outcome};
ghost use Rattle.dag.specs.Roots.{Inside};
ghost use Rattle.index.specs.Index.{half, NodeIndex};
ghost use Rattle.builder.specs.Promises.{SameStores};
ghost use Rattle.normalize.specs.Rounds as Rounds;
ghost use Rattle.normalize.specs.Promises as Promises;
ghost use Rattle.normalize.specs.Calls as Calls;

use builder::DagBuilder;
use dag::{Dag, FEW_RECORDS, MOST_RECORDS, NodeKind, Refusal, RootedDag, Roots};
use field::Prime;
use index::PlaceIndex;
use plan::{Rewrite, Round};

// A record of x's kind with other operands.
fn like(x: NodeKind, a: usize, b: usize) -> NodeKind
    ensures { result ≡ Nodes.like x a b }
{
    match x {
        NodeKind::Input(_) | NodeKind::Constant(_) => x,
        NodeKind::Add(_, _) => NodeKind::Add(a, b),
        NodeKind::Sub(_, _) => NodeKind::Sub(a, b),
        NodeKind::Mul(_, _) => NodeKind::Mul(a, b),
        NodeKind::Neg(_) => NodeKind::Neg(a),
    }
}

// Enters a record into a round's list by its plan; of a factored one the sum or difference inside first, then the product.
fn enter_planned(work: &mut DagBuilder, map: &[u64], x: NodeKind, plan: Option<Rewrite>) -> usize
    requires { ((i : ℕ) × Promises.Entering (field_of work.old.prime) work.old.list.now work.old.count map.now i x plan) × Promises.Linked work.old.list.now work.old.count work.old.index.now.links.now }
    ensures same { SameStores work.old work.new }
    ensures planned { Promises.Planned (field_of work.old.prime) work.old.list.now work.old.count (Rounds.planned (elements work.old.prime) (Promises.held work.old.list.now work.old.count map.now) x plan) work.new.list.now (record { place = result; count = work.new.count }) }
    ensures index { NodeIndex (Nodes.nodes (interleaved work.new.list.now) work.new.count) work.new.index.now.links.now }
{
    match plan {
        Some(
            Rewrite::Factored {
                factor,
                a_other,
                b_other,
            },
        ) => {
            let inner = work.push(like(x, dag::mapped(map, a_other), dag::mapped(map, b_other)));
            work.push(NodeKind::Mul(dag::mapped(map, factor), inner))
        }
        Some(
            Rewrite::Rotated {
                existing,
                remaining,
            },
        ) => work.push(like(x, dag::mapped(map, existing), dag::mapped(map, remaining))),
        None => work.push(x.renamed(map)),
    }
}

// Replays a round's records into an empty list, each by its plan; answers the list's count where a rewrite fired.
fn round(
    prime: Prime,
    round: Round,
    work: &mut [u64],
    index: &mut PlaceIndex,
    map: &mut [u64],
) -> Option<usize>
    requires { Promises.Rounding (field_of prime) round.list.now round.n round.fan.now work.old map.old × (2 * round.n ≤ half index.old.links.now) }
    ensures { let r = round.entry in Promises.RoundEnds (field_of prime) r.list.now r.n r.fan.now work.new map.new result }
{
    let mut built = DagBuilder::new(prime, work, index);
    let mut fired = false;
    for i in 0..round.n {
        let x = dag::node_at(round.list, i);
        let plan = round.plan_of(i, x);
        let place = enter_planned(&mut built, map, x, plan);
        fired |= plan.is_some();
        map[i] = place as u64;
    }
    fired.then_some(built.count)
}

// One round on the list in the result store, which is written where the round is kept. In the scratch store lie the fanouts, the new places,
// the index of the list and the index of the one that the round builds.
fn normalize_once(
    prime: Prime,
    res: &mut [u64],
    dag: &RootedDag,
    work: &mut [u64],
    scratch: &mut [u64],
) -> Option<RootedDag>
    requires { Promises.Ready (field_of prime) res.old dag.now.count dag.now.roots (interleaved work.old).room × (8 * dag.now.count ≤ length scratch.old) }
    ensures { Promises.Once (field_of prime) res.old dag.now.count dag.now.roots res.new result }
{
    let n = dag.count;
    let (fan, rest) = scratch.split_at_mut(n);
    let (map, rest) = rest.split_at_mut(n);
    let (own, rest) = rest.split_at_mut(2 * n);
    fan.fill(0);
    plan::fanout(res, n, &dag.roots, fan);
    let mut index = PlaceIndex::new(own);
    index.index_list(res, n);
    let read = Round {
        list: res,
        n,
        own: index.as_slice(),
        fan,
    };
    let mut built = PlaceIndex::new(&mut rest[..4 * n]);
    let count = round(prime, read, work, &mut built, map)?;
    let new_roots = dag.roots.renamed(map);
    let mut reachable = [false; compact::MOST_MARKS];
    let size = compact::number_reachable(work, count, &new_roots, &mut reachable, own);
    if n <= size {
        return None;
    }
    Some(RootedDag {
        count: size,
        roots: compact::write_numbered(work, count, &new_roots, &reachable, own, res),
    })
}

// The list after the rounds, and how many rounds were kept.
#[derive(Clone, Copy)]
pub struct NormalEnd {
    pub dag: RootedDag,
    pub rounds: usize,
}

// Rounds on the list in the result store, until one isn't kept, with a scratch store of so many words, in a frame of its own.
#[inline(never)]
fn normalize_within<const SCRATCH_WORDS: usize>(
    prime: Prime,
    dag: RootedDag,
    res: &mut [u64],
    work: &mut [u64],
) -> NormalEnd
    requires { Promises.Ready (field_of prime) res.old dag.count dag.roots (interleaved work.old).room × (8 * dag.count ≤ SCRATCH_WORDS) × (SCRATCH_WORDS ≤ 8 * Nodes.most_records) }
    ensures { Promises.Ended (field_of prime) res.old dag.count dag.roots res.new result }
{
    let mut scratch = [0u64; SCRATCH_WORDS];
    let mut end = NormalEnd { dag, rounds: 0 };
    while let Some(kept) = normalize_once(prime, res, &end.dag, work, &mut scratch) {
        end.dag = kept;
        end.rounds += 1;
    }
    end
}

// The words of a round's scratch store for a short list.
const FEW_SCRATCH_WORDS: usize = 8 * FEW_RECORDS;

// The words of a round's scratch store for the longest list.
const MOST_SCRATCH_WORDS: usize = 8 * MOST_RECORDS;

// The rounds, with a scratch store for the list's length.
fn normalize_sized(prime: Prime, dag: RootedDag, res: &mut [u64], work: &mut [u64]) -> NormalEnd
    requires { Promises.Ready (field_of prime) res.old dag.count dag.roots (interleaved work.old).room }
    ensures { Promises.Ended (field_of prime) res.old dag.count dag.roots res.new result }
{
    if dag.count <= FEW_RECORDS {
        normalize_within::<FEW_SCRATCH_WORDS>(prime, dag, res, work)
    } else {
        normalize_within::<MOST_SCRATCH_WORDS>(prime, dag, res, work)
    }
}

// Normalise's tests: the list, if it passes them.
#[tactic(auto, unfolding(crate::specs::Calls::normalize_check))]
fn normalize_check<'a>(
    prime: Prime,
    list: &'a [u64],
    n: usize,
    roots: &[u64],
    result_room: usize,
    work_room: usize,
) -> Result<Dag<'a>, Refusal>
    ensures checked { outcome result ≡ Calls.normalize_check (field_of prime) (interleaved list.now) n roots.now result_room work_room }
    ensures held { HeldOf prime list.now n result }
{
    let dag = Dag::new(prime, list, n, roots)?;
    dag::room_check(n, result_room)?;
    dag::room_check(2 * n, work_room)?;
    Ok(dag)
}

// Normalise past its tests.
fn normalize_ready(dag: Dag, roots: Roots, res: &mut [u64], work: &mut [u64]) -> NormalEnd
    requires { Inside dag.n roots × (dag.n ≤ (interleaved res.old).room) × (2 * dag.n ≤ (interleaved work.old).room) }
    ensures { Promises.Finished (field_of dag.entry.prime) dag.entry.list.now dag.entry.n roots res.old work.old result res.new work.new }
{
    dag::copy_records(dag.list, dag.n, res);
    let list = RootedDag {
        count: dag.n,
        roots,
    };
    let end = normalize_sized(dag.prime, list, res, work);
    dag::blank_records(res, end.dag.count);
    dag::blank_from(work, 0);
    end
}

// Normalise: rounds of rewrites that make the list shorter, until one doesn't.
pub fn normalize(
    prime: Prime,
    list: &[u64],
    n: usize,
    roots: &[u64],
    res: &mut [u64],
    work: &mut [u64],
) -> Result<NormalEnd, Refusal>
    ensures answer { result ≡ Calls.normalize_answer (field_of prime) (interleaved list.now) n roots.now (interleaved res.old).room (interleaved work.old).room }
    ensures res { res.new ≡ Calls.normalize_result (field_of prime) (interleaved list.now) n roots.now res.old (interleaved work.old).room }
    ensures work { work.new ≡ Calls.normalize_work (field_of prime) (interleaved list.now) n roots.now (interleaved res.old).room work.old }
{
    let dag = normalize_check(prime, list, n, roots, dag::room(res), dag::room(work))?;
    Ok(normalize_ready(dag, Roots::of(roots), res, work))
}
