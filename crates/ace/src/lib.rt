// The calls that crate ace_c exports for C and Rust (include/ace.h): each takes a field number, is lent its stores and writes the
// answer's words.
#![tactic(auto)]

ghost use Rattle.std.specs.Prelude.{◌≡◌, ◌≤◌, ◌∷◌, length};
ghost use Rattle.std.specs.Option.{ok_or};
ghost use Rattle.field.specs.Numbers.{numbered};
ghost use Rattle.dag.specs.declared.Refusal.TheVariants as Refusal';
ghost use Rattle.dag.specs.Roots.{most_roots};
ghost use Rattle.columns.specs.Prepare.{most_columns};
ghost use Rattle.ace.specs.Answers as Answers;
ghost use Rattle.ace.specs.Calls as Calls;

use builder::Entered;
use columns::{Form, MOST_COLUMNS, Prepared};
use dag::{MOST_ROOTS, Refusal, RootedDag, Words};
use encode::EncodedCircuit;
use evaluate::RootValues;
use field::{Prime, QuadFelt};
use normalize::NormalEnd;

// The interface that include/ace.h names: a caller built against another number is wrong.
const INTERFACE: u64 = 3;

// The words of Step's, Lower's, Draw's and Emit's answers.
pub const ANSWER_WORDS: usize = 4;

// The words of Build's, Compact's and Normalise's answers.
pub const LIST_WORDS: usize = 3 + MOST_ROOTS;

// The words of Evaluate's answer.
pub const EVALUATE_WORDS: usize = 1 + 2 * MOST_ROOTS;

// The words of Prepare's answer.
pub const PREPARE_WORDS: usize = 2 + MOST_COLUMNS;

// A refusal in so many words.
fn refused_words<const WORDS: usize>(r: Refusal) -> [u64; WORDS]
    requires { 2 ≤ WORDS }
    ensures { result ≡ Answers.refused_words WORDS r }
{
    let mut words = [0; WORDS];
    words[0] = r.number();
    words[1] = r.place() as u64;
    words
}

// The words of an accepted list's count, rounds kept and roots' places, 0 past the last.
fn accepted_words(count: usize, rounds: usize, roots: &[usize]) -> [u64; LIST_WORDS]
    requires { length roots.now ≤ most_roots }
    ensures { result ≡ Answers.accepted_words count rounds roots.now }
{
    let mut words = [0; LIST_WORDS];
    words[1] = count as u64;
    words[2] = rounds as u64;
    for (j, root) in roots.iter().enumerate() {
        words[j + 3] = *root as u64;
    }
    words
}

// The words of Step's answer.
fn step_words(answer: Result<Entered, Refusal>) -> [u64; ANSWER_WORDS]
    ensures { result ≡ Answers.step_words answer }
{
    match answer {
        Ok(Entered { place, count }) => [0, place as u64, count as u64, 0],
        Err(r) => refused_words(r),
    }
}

// The words of Build's and Compact's answers.
#[tactic(auto, unfolding(dag::specs::Roots::roots_of))]
fn list_words(answer: Result<RootedDag, Refusal>) -> [u64; LIST_WORDS]
    ensures { result ≡ Answers.list_words answer }
{
    match answer {
        Ok(list) => accepted_words(list.count, 0, list.roots.as_slice()),
        Err(r) => refused_words(r),
    }
}

// The words of Normalise's answer.
#[tactic(auto, unfolding(dag::specs::Roots::roots_of))]
fn normalize_words(answer: Result<NormalEnd, Refusal>) -> [u64; LIST_WORDS]
    ensures { result ≡ Answers.normalize_words answer }
{
    match answer {
        Ok(end) => accepted_words(end.dag.count, end.rounds, end.dag.roots.as_slice()),
        Err(r) => refused_words(r),
    }
}

// The words of the roots' values, both coordinates of each in turn, 0 past the last.
fn value_words(values: &[QuadFelt]) -> [u64; EVALUATE_WORDS]
    requires { length values.now ≤ most_roots }
    ensures { result ≡ Answers.value_words values.now }
{
    let mut words = [0; EVALUATE_WORDS];
    for (j, value) in values.iter().enumerate() {
        words[2 * j + 1] = value.c0;
        words[2 * j + 2] = value.c1;
    }
    words
}

// The words of Evaluate's answer.
fn evaluate_words(answer: Result<RootValues, Refusal>) -> [u64; EVALUATE_WORDS]
    ensures { result ≡ Answers.evaluate_words answer }
{
    match answer {
        Ok(RootValues { values }) => value_words(&values),
        Err(r) => refused_words(r),
    }
}

// The words of the number of columns and of each column's form, 0 past the last.
fn form_words(forms: &[Form]) -> [u64; PREPARE_WORDS]
    requires { length forms.now ≤ most_columns }
    ensures { result ≡ Answers.form_words forms.now }
{
    let mut words = [0; PREPARE_WORDS];
    words[1] = forms.len() as u64;
    for (j, form) in forms.iter().enumerate() {
        words[j + 2] = *form as u64;
    }
    words
}

// The words of Prepare's answer.
fn prepare_words(answer: Result<Prepared, Refusal>) -> [u64; PREPARE_WORDS]
    ensures { result ≡ Answers.prepare_words answer }
{
    match answer {
        Ok(prepared) => form_words(prepared.as_slice()),
        Err(r) => refused_words(r),
    }
}

// The words of Lower's and Draw's answers: the list's count, the text's length.
fn number_words(answer: Result<usize, Refusal>) -> [u64; ANSWER_WORDS]
    ensures { result ≡ Answers.number_words answer }
{
    match answer {
        Ok(number) => [0, number as u64, 0, 0],
        Err(r) => refused_words(r),
    }
}

// The words of Emit's answer.
fn encoded_words(answer: Result<EncodedCircuit, Refusal>) -> [u64; ANSWER_WORDS]
    ensures { result ≡ Answers.encoded_words answer }
{
    match answer {
        Ok(EncodedCircuit { num_vars, num_ops }) => [0, num_vars as u64, num_ops as u64, 0],
        Err(r) => refused_words(r),
    }
}

// The field of a number: 49 where it is no field's.
fn prime_of(number: u64) -> Result<Prime, Refusal>
    ensures { result ≡ ok_or (numbered number) Refusal'.FieldNumber }
{
    field::numbered(number).ok_or(Refusal::FieldNumber)
}

// Step, in a numbered field.
#[tactic(auto, unfolding(crate::specs::Calls::step_answer, crate::specs::Calls::step_list))]
fn step(field: u64, list: &mut [u64], n: usize, words: Words) -> Result<Entered, Refusal>
    ensures store { list.new ≡ Calls.step_list field list.old n words.tag words.first words.second }
    ensures answer { Answers.step_words result ≡ Calls.step_answer field list.old n words.tag words.first words.second }
{
    builder::step(prime_of(field)?, list, n, words)
}

// Step. Accepted: place, new n.
pub fn ace_step(
    field: u64,
    list: &mut [u64],
    n: usize,
    tag: u64,
    first: u64,
    second: u64,
    answer: &mut [u64; ANSWER_WORDS],
)
    ensures store { list.new ≡ Calls.step_list field list.old n tag first second }
    ensures answer { answer.new ≡ Calls.step_answer field list.old n tag first second }
{
    *answer = step_words(step(field, list, n, Words { tag, first, second }));
}

// Build, in a numbered field.
#[tactic(auto, unfolding(crate::specs::Calls::build_answer, crate::specs::Calls::build_result, crate::specs::Calls::build_map))]
fn build(
    field: u64,
    list: &[u64],
    n: usize,
    roots: &[u64],
    res: &mut [u64],
    map: &mut [u64],
) -> Result<RootedDag, Refusal>
    ensures res { res.new ≡ Calls.build_result field list.now n roots.now res.old map.old }
    ensures map { map.new ≡ Calls.build_map field list.now n roots.now res.old map.old }
    ensures answer { Answers.list_words result ≡ Calls.build_answer field list.now n roots.now res.old map.old }
{
    builder::build(prime_of(field)?, list, n, roots, res, map)
}

// Build. Accepted: count, 0, the roots' places.
pub fn ace_build(
    field: u64,
    list: &[u64],
    n: usize,
    roots: &[u64],
    res: &mut [u64],
    map: &mut [u64],
    answer: &mut [u64; LIST_WORDS],
)
    ensures res { res.new ≡ Calls.build_result field list.now n roots.now res.old map.old }
    ensures map { map.new ≡ Calls.build_map field list.now n roots.now res.old map.old }
    ensures answer { answer.new ≡ Calls.build_answer field list.now n roots.now res.old map.old }
{
    *answer = list_words(build(field, list, n, roots, res, map));
}

// Compact, in a numbered field.
#[tactic(auto, unfolding(crate::specs::Calls::compact_answer, crate::specs::Calls::compact_result))]
fn compact(
    field: u64,
    list: &[u64],
    n: usize,
    roots: &[u64],
    res: &mut [u64],
) -> Result<RootedDag, Refusal>
    ensures res { res.new ≡ Calls.compact_result field list.now n roots.now res.old }
    ensures answer { Answers.list_words result ≡ Calls.compact_answer field list.now n roots.now res.old }
{
    compact::compact(prime_of(field)?, list, n, roots, res)
}

// Compact. Accepted: count, 0, the roots' places.
pub fn ace_compact(
    field: u64,
    list: &[u64],
    n: usize,
    roots: &[u64],
    res: &mut [u64],
    answer: &mut [u64; LIST_WORDS],
)
    ensures res { res.new ≡ Calls.compact_result field list.now n roots.now res.old }
    ensures answer { answer.new ≡ Calls.compact_answer field list.now n roots.now res.old }
{
    *answer = list_words(compact(field, list, n, roots, res));
}

// Normalise, in a numbered field.
#[tactic(auto, unfolding(crate::specs::Calls::normalize_answer, crate::specs::Calls::normalize_result, crate::specs::Calls::normalize_work))]
fn normalize(
    field: u64,
    list: &[u64],
    n: usize,
    roots: &[u64],
    res: &mut [u64],
    work: &mut [u64],
) -> Result<NormalEnd, Refusal>
    ensures res { res.new ≡ Calls.normalize_result field list.now n roots.now res.old work.old }
    ensures work { work.new ≡ Calls.normalize_work field list.now n roots.now res.old work.old }
    ensures answer { Answers.normalize_words result ≡ Calls.normalize_answer field list.now n roots.now res.old work.old }
{
    normalize::normalize(prime_of(field)?, list, n, roots, res, work)
}

// Normalise. Accepted: count, rounds kept, the roots' places.
pub fn ace_normalize(
    field: u64,
    list: &[u64],
    n: usize,
    roots: &[u64],
    res: &mut [u64],
    work: &mut [u64],
    answer: &mut [u64; LIST_WORDS],
)
    ensures res { res.new ≡ Calls.normalize_result field list.now n roots.now res.old work.old }
    ensures work { work.new ≡ Calls.normalize_work field list.now n roots.now res.old work.old }
    ensures answer { answer.new ≡ Calls.normalize_answer field list.now n roots.now res.old work.old }
{
    *answer = normalize_words(normalize(field, list, n, roots, res, work));
}

// Evaluate, in a numbered field.
#[tactic(auto, unfolding(crate::specs::Calls::evaluate_answer))]
fn evaluate(
    field: u64,
    list: &[u64],
    n: usize,
    roots: &[u64],
    assignment: &[u64],
    m: usize,
) -> Result<RootValues, Refusal>
    ensures { Answers.evaluate_words result ≡ Calls.evaluate_answer field list.now n roots.now assignment.now m }
{
    evaluate::evaluate(prime_of(field)?, list, n, roots, assignment, m)
}

// Evaluate. Accepted: c0, c1 of each root in order.
pub fn ace_evaluate(
    field: u64,
    list: &[u64],
    n: usize,
    roots: &[u64],
    assignment: &[u64],
    m: usize,
    answer: &mut [u64; EVALUATE_WORDS],
)
    ensures answer { answer.new ≡ Calls.evaluate_answer field list.now n roots.now assignment.now m }
{
    *answer = evaluate_words(evaluate(field, list, n, roots, assignment, m));
}

// Prepare, in a numbered field.
#[tactic(auto, unfolding(crate::specs::Calls::prepare_answer))]
fn prepare(field: u64, lengths: &[u64], entries: &[u64]) -> Result<Prepared, Refusal>
    ensures { Answers.prepare_words result ≡ Calls.prepare_answer field lengths.now entries.now }
{
    columns::prepare(prime_of(field)?, lengths, entries)
}

// Prepare. Accepted: columns, then a form each.
pub fn ace_prepare(field: u64, lengths: &[u64], entries: &[u64], answer: &mut [u64; PREPARE_WORDS])
    ensures answer { answer.new ≡ Calls.prepare_answer field lengths.now entries.now }
{
    *answer = prepare_words(prepare(field, lengths, entries));
}

// Lower, in a numbered field.
#[tactic(auto, unfolding(crate::specs::Calls::lower_answer, crate::specs::Calls::lower_result, crate::specs::Calls::lower_work, crate::specs::Calls::lower_places))]
fn lower(
    field: u64,
    list: &[u64],
    n: usize,
    lengths: &[u64],
    entries: &[u64],
    period: u64,
    res: &mut [u64],
    work: &mut [u64],
    places: &mut [u64],
) -> Result<usize, Refusal>
    ensures res { res.new ≡ Calls.lower_result field list.now n lengths.now entries.now period res.old work.old places.old }
    ensures work { work.new ≡ Calls.lower_work field list.now n lengths.now entries.now period res.old work.old places.old }
    ensures places { places.new ≡ Calls.lower_places field list.now n lengths.now entries.now period res.old work.old places.old }
    ensures answer { Answers.number_words result ≡ Calls.lower_answer field list.now n lengths.now entries.now period res.old work.old places.old }
{
    lower::lower(
        prime_of(field)?,
        list,
        n,
        lengths,
        entries,
        period,
        res,
        work,
        places,
    )
}

// Lower. Accepted: count.
pub fn ace_lower(
    field: u64,
    list: &[u64],
    n: usize,
    lengths: &[u64],
    entries: &[u64],
    period: u64,
    res: &mut [u64],
    work: &mut [u64],
    places: &mut [u64],
    answer: &mut [u64; ANSWER_WORDS],
)
    ensures res { res.new ≡ Calls.lower_result field list.now n lengths.now entries.now period res.old work.old places.old }
    ensures work { work.new ≡ Calls.lower_work field list.now n lengths.now entries.now period res.old work.old places.old }
    ensures places { places.new ≡ Calls.lower_places field list.now n lengths.now entries.now period res.old work.old places.old }
    ensures answer { answer.new ≡ Calls.lower_answer field list.now n lengths.now entries.now period res.old work.old places.old }
{
    *answer = number_words(lower(field, list, n, lengths, entries, period, res, work, places));
}

// Draw, in a numbered field.
#[tactic(auto, unfolding(crate::specs::Calls::draw_answer, crate::specs::Calls::draw_text))]
fn draw(
    field: u64,
    list: &[u64],
    n: usize,
    roots: &[u64],
    text: &mut [u8],
) -> Result<usize, Refusal>
    ensures text { text.new ≡ Calls.draw_text field list.now n roots.now text.old }
    ensures answer { Answers.number_words result ≡ Calls.draw_answer field list.now n roots.now text.old }
{
    draw::draw(prime_of(field)?, list, n, roots, text)
}

// Draw. Accepted: the text's length in bytes.
pub fn ace_draw(
    field: u64,
    list: &[u64],
    n: usize,
    roots: &[u64],
    text: &mut [u8],
    answer: &mut [u64; ANSWER_WORDS],
)
    ensures text { text.new ≡ Calls.draw_text field list.now n roots.now text.old }
    ensures answer { answer.new ≡ Calls.draw_answer field list.now n roots.now text.old }
{
    *answer = number_words(draw(field, list, n, roots, text));
}

// Emit, in a numbered field.
#[tactic(auto, unfolding(crate::specs::Calls::emit_answer, crate::specs::Calls::emit_result))]
fn emit(
    field: u64,
    list: &[u64],
    n: usize,
    roots: &[u64],
    layout: &[u64],
    k: usize,
    res: &mut [u64],
) -> Result<EncodedCircuit, Refusal>
    ensures res { res.new ≡ Calls.emit_result field list.now n roots.now layout.now k res.old }
    ensures answer { Answers.encoded_words result ≡ Calls.emit_answer field list.now n roots.now layout.now k res.old }
{
    encode::emit(prime_of(field)?, list, n, roots, layout, k, res)
}

// Emit. Accepted: num_vars, num_ops.
pub fn ace_emit(
    field: u64,
    list: &[u64],
    n: usize,
    roots: &[u64],
    layout: &[u64],
    k: usize,
    res: &mut [u64],
    answer: &mut [u64; ANSWER_WORDS],
)
    ensures res { res.new ≡ Calls.emit_result field list.now n roots.now layout.now k res.old }
    ensures answer { answer.new ≡ Calls.emit_answer field list.now n roots.now layout.now k res.old }
{
    *answer = encoded_words(emit(field, list, n, roots, layout, k, res));
}

// The interface's number.
pub fn ace_interface() -> u64
    ensures { result ≡ 3 }
{
    INTERFACE
}
