// The installers' listing: the text of what Normalise answers to a house file.
#![tactic(auto)]

ghost use Rattle.std.specs.Prelude.{◌≡◌, ◌+◌, ◌≤◌, length, take};
ghost use Rattle.dag.specs.View.{interleaved};
ghost use Rattle.dag.specs.Nodes as Nodes;
ghost use Rattle.dag.specs.Roots.{roots_of};
ghost use Rattle.text.specs.Promises.{HasRoom, Laid, Writes, Wrote};
ghost use Rattle.house_file.specs.File.{enough};
ghost use Rattle.listing.specs.Listing as Listing;
ghost use Rattle.listing.specs.Promises as Promises;

use dag::{NodeKind, Refusal, Words};
use field::Prime;
use house_file::FILED_WORDS;
use normalize::NormalEnd;
use text::{End, Text};
use wording::kinds::kind_of;
use wording::write_refused;

// No listing of a house file has more bytes.
pub const MOST_BYTES: usize = 54340;

// Writes the line of the record x at place i.
#[tactic(auto, using(crate::specs::LineLaws::length_record))]
fn put_record(text: &mut Text, i: usize, x: NodeKind)
    requires { HasRoom text.old (Listing.record_line i x) }
    ensures { Wrote text.old (Listing.record_line i x) text.new }
{
    let words = Words::from(x);
    text.number(i as u64, End::Space);
    text.word(kind_of(x), End::Space);
    text.number(words.first, End::Space);
    text.number(words.second, End::Newline);
}

// Writes the lines of the first n records of a list.
fn put_records(text: &mut Text, list: &[u64], n: usize)
    requires { (n ≤ (interleaved list.now).room) × HasRoom text.old (Listing.record_lines (Nodes.nodes (interleaved list.now) n) n) }
    ensures { Wrote text.old (Listing.record_lines (Nodes.nodes (interleaved list.now) n) n) text.new }
{
    for i in 0..n {
        put_record(text, i, dag::node_at(list, i));
    }
}

// Writes roots, a space behind each.
fn put_roots(text: &mut Text, roots: &[usize])
    requires { HasRoom text.old (Promises.spaced roots.now) }
    ensures { Wrote text.old (Promises.spaced roots.now) text.new }
{
    for root in roots {
        text.number(*root as u64, End::Space);
    }
}

// Writes a listing's first line.
#[tactic(auto, using(crate::specs::LineLaws::length_first), unfolding(text::specs::Text::ascii, dag::specs::Roots::roots_of))]
fn put_first(text: &mut Text, end: &NormalEnd)
    requires { HasRoom text.old (Listing.first_line end.now.dag.count (roots_of end.now.dag.roots) end.now.rounds) }
    ensures { Wrote text.old (Listing.first_line end.now.dag.count (roots_of end.now.dag.roots) end.now.rounds) text.new }
{
    text.named(b"nodes", end.dag.count as u64, End::Space);
    text.word(b"root", End::Space);
    put_roots(text, end.dag.roots.as_slice());
    text.named(b"rounds", end.rounds as u64, End::Newline);
}

// Writes the listing of an answer: a first line, then a line a record. Answers its length.
#[tactic(auto, using(crate::specs::LineLaws::length_answer))]
fn write_listing(list: &[u64], end: &NormalEnd, out: &mut [u8]) -> usize
    requires { (end.now.dag.count ≤ (interleaved list.now).room) × (length (Promises.answer_text (interleaved list.now) end.now) ≤ length out.old) }
    ensures { Laid out.old (Promises.answer_text (interleaved list.now) end.now) out.new result }
{
    let mut text = Text::new(out);
    put_first(&mut text, end);
    put_records(&mut text, list, end.dag.count);
    text.finish()
}

// What Normalise answers to a house file, its list in a store; or why not.
fn normal(file: &[u8], res: &mut [u64; FILED_WORDS]) -> Result<NormalEnd, Refusal>
    ensures { Promises.Tells (Listing.listing file.now) res.new result }
{
    let mut list = [0u64; FILED_WORDS];
    let mut work = [0u64; 2 * FILED_WORDS];
    let filed = house_file::read_file(file, &mut list)?;
    normalize::normalize(
        Prime::Goldilocks,
        &list,
        filed.count,
        filed.roots.as_slice(),
        res,
        &mut work,
    )
}

// Writes the listing of a house file, or the line of its refusal, 0 bytes behind it. Answers its length.
fn list_file(file: &[u8], out: &mut [u8]) -> usize
    requires { length (Listing.listing file.now) ≤ length out.old }
    ensures { Laid out.old (Listing.listing file.now) out.new result }
{
    let mut list = [0u64; FILED_WORDS];
    match normal(file, &mut list) {
        Ok(end) => write_listing(&list, &end, out),
        Err(r) => write_refused(r, out),
    }
}

// Writes the listing of an input of which the first n bytes of a buffer are read. Answers its length.
pub fn list_input(buffer: &[u8], n: usize, out: &mut [u8]) -> usize
    requires { (enough ≤ length buffer.now) × (n ≤ length buffer.now) × (length (Listing.listing (take n buffer.now)) ≤ length out.old) }
    ensures listed { Writes Listing.listing buffer.now n out.old out.new result }
    ensures fits { result ≤ length out.new }
{
    list_file(&buffer[..n], out)
}
