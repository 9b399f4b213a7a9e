// The house file: bytes to the words of a list, or why not.
#![tactic(auto)]

ghost use Rattle.std.specs.Prelude.{◌≡◌, ◌+◌, ◌≤◌, length};
ghost use Rattle.dag.specs.View.{interleaved, Agree};
ghost use Rattle.house_file.specs.File as File;
ghost use Rattle.house_file.specs.Promises as Promises;

use arrayvec::ArrayVec;
use dag::{Refusal, Words};
use field::Prime;

// The most records that a file has.
const MOST_FILED: u64 = 1024;

// The words of the longest file's records.
pub const FILED_WORDS: usize = dag::RECORD_WORDS * MOST_FILED as usize;

// The most roots that a file can name.
const MOST_NAMED: usize = 255;

// So many bytes of an input decide what is made of it: one more than the longest file of good form has.
pub const ENOUGH: usize = 18435;

// What reading a file answers: how many records its list has, and its roots.
#[derive(Drop)]
pub struct Filed {
    pub count: usize,
    pub roots: ArrayVec<u64, MOST_NAMED>,
}

// The number that k bytes from a place on write, highest first.
fn number(file: &[u8], at: usize, k: usize) -> u64
    requires { (k ≤ 8) × (at + k ≤ length file.now) }
    ensures { result ≡ File.number file.now at k }
{
    let mut value = 0;
    for byte in &file[at..at + k] {
        value = value * 256 + u64::from(*byte);
    }
    value
}

// The number of records that a file says it has.
fn file_count(file: &[u8]) -> usize
    requires { 9 ≤ length file.now }
    ensures { result ≡ File.file_count file.now }
{
    number(file, 1, 4) as usize
}

// The number of roots that a file says it has: version 1 has one.
#[tactic(auto, unfolding(crate::specs::File::root_count))]
fn root_count(file: &[u8]) -> u8
    requires { 9 ≤ length file.now }
    ensures { result ≡ File.root_count file.now }
{
    if file[0] == 2 { file[5] } else { 1 }
}

// Where a file's roots begin.
#[tactic(auto, unfolding(crate::specs::File::roots_place))]
fn roots_place(file: &[u8]) -> usize
    requires { 9 ≤ length file.now }
    ensures { result ≡ File.roots_place file.now }
{
    if file[0] == 2 { 6 } else { 5 }
}

// Where a file's records begin.
#[tactic(auto, using(crate::specs::FileLaws::place_most))]
fn records_place(file: &[u8]) -> usize
    requires { 9 ≤ length file.now }
    ensures { (result ≡ File.record_place file.now 0) × (result ≤ 1026) }
{
    roots_place(file) + 4 * usize::from(root_count(file))
}

// The roots that a file names.
fn file_roots(file: &[u8]) -> ArrayVec<u64, MOST_NAMED>
    requires { (9 ≤ length file.now) × (File.record_place file.now 0 ≤ length file.now) }
    ensures { result.items ≡ File.file_roots file.now }
{
    let at = roots_place(file);
    let mut roots = ArrayVec::new();
    for j in 0..usize::from(root_count(file)) {
        roots.push(number(file, at + 4 * j, 4));
    }
    roots
}

// The words of record i.
#[tactic(auto, unfolding(crate::specs::File::words_at))]
fn words_at(file: &[u8], i: usize) -> Words
    requires { File.record_place file.now i + 17 ≤ length file.now }
    ensures { result ≡ File.words_at file.now i }
{
    let at = records_place(file) + 17 * i;
    Words {
        tag: u64::from(file[at]),
        first: number(file, at + 1, 8),
        second: number(file, at + 9, 8),
    }
}

// Whether a file may have this version.
#[tactic(auto, unfolding(crate::specs::File::is_version))]
fn is_version(v: u8) -> bool
    ensures { result ≡ File.is_version v }
{
    v == 1 || v == 2
}

// Whether a file may have this many records.
#[tactic(auto, unfolding(crate::specs::File::is_count))]
fn is_count(n: u64) -> bool
    ensures { result ≡ File.is_count n }
{
    1 <= n && n <= MOST_FILED
}

// The tests of the file's head: 21, 22, 23.
#[tactic(auto, unfolding(crate::specs::File::head_check))]
fn head_check(file: &[u8]) -> Result<(), Refusal>
    ensures { result ≡ File.head_check file.now }
{
    if file.len() < 9 {
        return Err(Refusal::FileTooShort);
    }
    if !is_version(file[0]) {
        return Err(Refusal::FileVersion);
    }
    if !is_count(number(file, 1, 4)) {
        return Err(Refusal::FileCount);
    }
    Ok(())
}

// The tests of the file's form: its head, then its length, 24.
#[tactic(auto, unfolding(crate::specs::File::form_check))]
fn form_check(file: &[u8]) -> Result<(), Refusal>
    ensures { result ≡ File.form_check file.now }
{
    head_check(file)?;
    if file.len() != records_place(file) + 17 * file_count(file) {
        return Err(Refusal::FileLength);
    }
    Ok(())
}

// The tests of the file's form, then of a store with room for so many records.
#[tactic(auto, unfolding(crate::specs::File::store_check))]
fn store_check(file: &[u8], room: usize) -> Result<(), Refusal>
    ensures { result ≡ File.store_check file.now room }
{
    form_check(file)?;
    dag::room_check(file_count(file), room)
}

// Writes the words of a file's first n records at the start of a store.
fn put_records(file: &[u8], n: usize, list: &mut [u64])
    requires { (File.record_place file.now n ≤ length file.now) × (n ≤ (interleaved list.old).room) }
    ensures { Agree (interleaved list.new) (File.file_view file.now) n }
{
    for i in 0..n {
        dag::put_words(list, i, words_at(file, i));
    }
}

// Reads a file that has passed those tests: its words are tested before they are copied to the store.
fn read_held(file: &[u8], list: &mut [u64]) -> Result<Filed, Refusal>
    requires { Promises.Formed file.now × (File.file_count file.now ≤ (interleaved list.old).room) }
    ensures { Promises.Done file.now list.old result list.new }
{
    let count = file_count(file);
    let roots = file_roots(file);
    let mut words = [0u64; FILED_WORDS];
    put_records(file, count, &mut words);
    dag::list_check(Prime::Goldilocks, &words, count, roots.as_slice())?;
    dag::store_records(&words, count, list);
    Ok(Filed { count, roots })
}

// Reads a file: its list, blanks behind it, or why not.
pub fn read_file(file: &[u8], list: &mut [u64]) -> Result<Filed, Refusal>
    ensures answer { result ≡ File.read_answer file.now (interleaved list.old).room }
    ensures list { list.new ≡ File.read_list file.now list.old }
{
    store_check(file, dag::room(list))?;
    read_held(file, list)
}
