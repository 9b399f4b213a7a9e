// `AceDag::compact`: reachability marks, new places, Compact.
#![tactic(auto)]

ghost use Rattle.std.specs.Prelude.{◌≡◌, ◌++◌, ◌≤◌, length, drop};
ghost use Rattle.field.specs.Fields.{field_of};
ghost use Rattle.dag.specs.View.{interleaved};
ghost use Rattle.dag.specs.Held.{HeldOf};
ghost use Rattle.dag.specs.Nodes as Nodes;
ghost use Rattle.dag.specs.Refusals.{outcome};
ghost use Rattle.dag.specs.Roots.{roots_of, Inside};
ghost use Rattle.compact.specs.Reach as Reach;
ghost use Rattle.compact.specs.Compact as Places;
ghost use Rattle.dag.specs.Store.{written};
ghost use Rattle.compact.specs.Promises.{most_marks, reached, Unmarked, Markable, Numbered, Writing, AllBelow};
ghost use Rattle.compact.specs.Calls as Calls;

use dag::{Dag, FEW_RECORDS, MOST_RECORDS, Refusal, RootedDag, Roots};
use field::Prime;

// The records of the shortest lists.
const FEWEST_RECORDS: usize = 64;

// The most marks: one for each record of a round's list.
pub const MOST_MARKS: usize = 8192;

// Marks some places.
#[tactic(auto, using(crate::specs::LoopLaws::marked_turn), unfolding(crate::specs::Reach::marked))]
fn mark(reachable: &mut [bool], places: &[usize])
    requires { AllBelow (length reachable.old) places.now }
    ensures { reachable.new ≡ Reach.marked reachable.old places.now }
{
    for place in places {
        reachable[*place] = true;
    }
}

// Marks what the roots reach: the roots, then from the last place down the operands of each marked record.
fn mark_reachable(list: &[u64], n: usize, roots: &Roots, reachable: &mut [bool])
    requires { Markable (interleaved list.now) n roots.now (length reachable.old) }
    ensures { reachable.new ≡ Reach.sweep (Nodes.nodes (interleaved list.now) n) n (Reach.marked reachable.old (roots_of roots.now)) }
{
    mark(reachable, roots.as_slice());
    for i in (0..n).rev() {
        if reachable[i] {
            mark(reachable, &dag::node_at(list, i).operands());
        }
    }
}

// Fills in the new places of the first n records, and answers how many of them are marked.
#[tactic(auto, using(crate::specs::ArrayLaws::ranks_more, crate::specs::ArrayLaws::rank_next, crate::specs::RankLaws::rank_le), unfolding(crate::specs::Compact::rank, crate::specs::Compact::ranks))]
fn number_marked(reachable: &[bool], n: usize, remap: &mut [u64]) -> usize
    requires { (n ≤ length reachable.now) × (n ≤ length remap.old) }
    ensures value { result ≡ Places.rank reachable.now n }
    ensures remap_after { remap.new ≡ Places.ranks reachable.now n ++ drop n remap.old }
{
    let mut count = 0;
    for i in 0..n {
        remap[i] = count as u64;
        count += usize::from(reachable[i]);
    }
    count
}

// Writes the marked ones of the first n records, renamed, to the start of the result store.
fn write_marked(list: &[u64], n: usize, reachable: &[bool], remap: &[u64], res: &mut [u64])
    requires { Writing (interleaved list.now) n reachable.now remap.now (interleaved res.old).room }
    ensures { res.new ≡ written res.old (Places.kept (Nodes.nodes (interleaved list.now) n) reachable.now n) }
{
    for i in 0..n {
        if reachable[i] {
            let x = dag::node_at(list, i).renamed(remap);
            dag::put_node(res, dag::mapped(remap, i), x);
        }
    }
}

// Marks and numbers what the roots reach, new places into a lent store; answers how many records that is.
pub fn number_reachable(
    list: &[u64],
    n: usize,
    roots: &Roots,
    reachable: &mut [bool],
    remap: &mut [u64],
) -> usize
    requires { Markable (interleaved list.now) n roots.now most_marks × Unmarked reachable.old × (n ≤ length remap.old) }
    ensures { (result ≡ length (Calls.compacted (interleaved list.now) n (roots_of roots.now)).list) × Numbered (interleaved list.now) n roots.now reachable.new remap.new }
{
    mark_reachable(list, n, roots, reachable);
    number_marked(reachable, n, remap)
}

// Writes what was numbered, renamed, to the start of the result store; answers the roots' new places.
pub fn write_numbered(
    list: &[u64],
    n: usize,
    roots: &Roots,
    reachable: &[bool],
    remap: &[u64],
    res: &mut [u64],
) -> Roots
    requires { Numbered (interleaved list.now) n roots.now reachable.now remap.now × (length (Calls.compacted (interleaved list.now) n (roots_of roots.now)).list ≤ (interleaved res.old).room) }
    ensures { (result ≡ (Calls.kept_of (Calls.compacted (interleaved list.now) n (roots_of roots.now))).roots) × (res.new ≡ written res.old (Calls.compacted (interleaved list.now) n (roots_of roots.now)).list) }
{
    write_marked(list, n, reachable, remap, res);
    roots.renamed(remap)
}

// Writes what the roots reach, renamed, to the start of the result store; at most so many records. In a frame of its own.
#[inline(never)]
#[tactic(auto, unfolding(crate::specs::Calls::kept_of))]
fn compact_within<const RECORDS: usize>(dag: Dag, roots: &Roots, res: &mut [u64]) -> RootedDag
    requires { Inside dag.n roots.now × (dag.n ≤ RECORDS) × (RECORDS ≤ Nodes.most_records) × (length (reached dag roots.now).list ≤ (interleaved res.old).room) }
    ensures value { result ≡ Calls.kept_of (reached dag.entry roots.now) }
    ensures res_after { res.new ≡ written res.old (reached dag.entry roots.now).list }
{
    let mut reachable = [false; MOST_MARKS];
    let mut remap = [0u64; RECORDS];
    let count = number_reachable(dag.list, dag.n, roots, &mut reachable, &mut remap);
    RootedDag {
        count,
        roots: write_numbered(dag.list, dag.n, roots, &reachable, &remap, res),
    }
}

// The same, with room for the new places by the list's length.
fn compact_sized(dag: Dag, roots: &Roots, res: &mut [u64]) -> RootedDag
    requires inside { Inside dag.n roots.now }
    requires roots_len_bound { length (reached dag roots.now).list ≤ (interleaved res.old).room }
    ensures value { result ≡ Calls.kept_of (reached dag.entry roots.now) }
    ensures res_after { res.new ≡ written res.old (reached dag.entry roots.now).list }
{
    if dag.n <= FEWEST_RECORDS {
        compact_within::<FEWEST_RECORDS>(dag, roots, res)
    } else if dag.n <= FEW_RECORDS {
        compact_within::<FEW_RECORDS>(dag, roots, res)
    } else {
        compact_within::<MOST_RECORDS>(dag, roots, res)
    }
}

// Compact's tests: the list, if it passes them.
#[tactic(auto, unfolding(crate::specs::Calls::compact_check))]
fn compact_check<'a>(
    prime: Prime,
    list: &'a [u64],
    n: usize,
    roots: &[u64],
    result_room: usize,
) -> Result<Dag<'a>, Refusal>
    ensures checked { outcome result ≡ Calls.compact_check (field_of prime) (interleaved list.now) n roots.now result_room }
    ensures held { HeldOf prime list.now n result }
{
    let dag = Dag::new(prime, list, n, roots)?;
    dag::room_check(n, result_room)?;
    Ok(dag)
}

// Compact: the records that the roots reach, in order, into the result store.
pub fn compact(
    prime: Prime,
    list: &[u64],
    n: usize,
    roots: &[u64],
    res: &mut [u64],
) -> Result<RootedDag, Refusal>
    ensures answer { result ≡ Calls.compact_answer (field_of prime) (interleaved list.now) n roots.now (interleaved res.old).room }
    ensures store { res.new ≡ Calls.compact_result (field_of prime) (interleaved list.now) n roots.now res.old }
{
    let dag = compact_check(prime, list, n, roots, dag::room(res))?;
    let kept = compact_sized(dag, &Roots::of(roots), res);
    dag::blank_records(res, kept.count);
    Ok(kept)
}
