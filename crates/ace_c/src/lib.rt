// The calls of crate ace under the names and the calling convention that C and Rust link by (include/ace.h): libace.a.
#![tactic(auto)]

ghost use Rattle.std.specs.Prelude.{◌≡◌};
ghost use Rattle.ace.specs.Calls as Calls;

// Step. Accepted: place, new n.
#[unsafe(no_mangle)]
pub extern "C" fn ace_step(
    field: u64,
    list: &mut [u64],
    n: usize,
    tag: u64,
    first: u64,
    second: u64,
    answer: &mut [u64; 4],
)
    ensures store { list.new ≡ Calls.step_list field list.old n tag first second }
    ensures answer { answer.new ≡ Calls.step_answer field list.old n tag first second }
{
    ace::ace_step(field, list, n, tag, first, second, answer);
}

// Build. Accepted: count, 0, the roots' places.
#[unsafe(no_mangle)]
pub extern "C" fn ace_build(
    field: u64,
    list: &[u64],
    n: usize,
    roots: &[u64],
    res: &mut [u64],
    map: &mut [u64],
    answer: &mut [u64; 11],
)
    ensures res { res.new ≡ Calls.build_result field list.now n roots.now res.old map.old }
    ensures map { map.new ≡ Calls.build_map field list.now n roots.now res.old map.old }
    ensures answer { answer.new ≡ Calls.build_answer field list.now n roots.now res.old map.old }
{
    ace::ace_build(field, list, n, roots, res, map, answer);
}

// Compact. Accepted: count, 0, the roots' places.
#[unsafe(no_mangle)]
pub extern "C" fn ace_compact(
    field: u64,
    list: &[u64],
    n: usize,
    roots: &[u64],
    res: &mut [u64],
    answer: &mut [u64; 11],
)
    ensures res { res.new ≡ Calls.compact_result field list.now n roots.now res.old }
    ensures answer { answer.new ≡ Calls.compact_answer field list.now n roots.now res.old }
{
    ace::ace_compact(field, list, n, roots, res, answer);
}

// Normalise. Accepted: count, rounds kept, the roots' places.
#[unsafe(no_mangle)]
pub extern "C" fn ace_normalize(
    field: u64,
    list: &[u64],
    n: usize,
    roots: &[u64],
    res: &mut [u64],
    work: &mut [u64],
    answer: &mut [u64; 11],
)
    ensures res { res.new ≡ Calls.normalize_result field list.now n roots.now res.old work.old }
    ensures work { work.new ≡ Calls.normalize_work field list.now n roots.now res.old work.old }
    ensures answer { answer.new ≡ Calls.normalize_answer field list.now n roots.now res.old work.old }
{
    ace::ace_normalize(field, list, n, roots, res, work, answer);
}

// Evaluate. Accepted: c0, c1 of each root in order.
#[unsafe(no_mangle)]
pub extern "C" fn ace_evaluate(
    field: u64,
    list: &[u64],
    n: usize,
    roots: &[u64],
    assignment: &[u64],
    m: usize,
    answer: &mut [u64; 17],
)
    ensures answer { answer.new ≡ Calls.evaluate_answer field list.now n roots.now assignment.now m }
{
    ace::ace_evaluate(field, list, n, roots, assignment, m, answer);
}

// Prepare. Accepted: columns, then a form each.
#[unsafe(no_mangle)]
pub extern "C" fn ace_prepare(field: u64, lengths: &[u64], entries: &[u64], answer: &mut [u64; 18])
    ensures answer { answer.new ≡ Calls.prepare_answer field lengths.now entries.now }
{
    ace::ace_prepare(field, lengths, entries, answer);
}

// Lower. Accepted: count.
#[unsafe(no_mangle)]
pub extern "C" fn ace_lower(
    field: u64,
    list: &[u64],
    n: usize,
    lengths: &[u64],
    entries: &[u64],
    period: u64,
    res: &mut [u64],
    work: &mut [u64],
    places: &mut [u64],
    answer: &mut [u64; 4],
)
    ensures res { res.new ≡ Calls.lower_result field list.now n lengths.now entries.now period res.old work.old places.old }
    ensures work { work.new ≡ Calls.lower_work field list.now n lengths.now entries.now period res.old work.old places.old }
    ensures places { places.new ≡ Calls.lower_places field list.now n lengths.now entries.now period res.old work.old places.old }
    ensures answer { answer.new ≡ Calls.lower_answer field list.now n lengths.now entries.now period res.old work.old places.old }
{
    ace::ace_lower(
        field, list, n, lengths, entries, period, res, work, places, answer,
    );
}

// Draw. Accepted: the text's length in bytes.
#[unsafe(no_mangle)]
pub extern "C" fn ace_draw(
    field: u64,
    list: &[u64],
    n: usize,
    roots: &[u64],
    text: &mut [u8],
    answer: &mut [u64; 4],
)
    ensures text { text.new ≡ Calls.draw_text field list.now n roots.now text.old }
    ensures answer { answer.new ≡ Calls.draw_answer field list.now n roots.now text.old }
{
    ace::ace_draw(field, list, n, roots, text, answer);
}

// Emit. Accepted: num_vars, num_ops.
#[unsafe(no_mangle)]
pub extern "C" fn ace_emit(
    field: u64,
    list: &[u64],
    n: usize,
    roots: &[u64],
    layout: &[u64],
    k: usize,
    res: &mut [u64],
    answer: &mut [u64; 4],
)
    ensures res { res.new ≡ Calls.emit_result field list.now n roots.now layout.now k res.old }
    ensures answer { answer.new ≡ Calls.emit_answer field list.now n roots.now layout.now k res.old }
{
    ace::ace_emit(field, list, n, roots, layout, k, res, answer);
}

// The interface's number.
#[unsafe(no_mangle)]
pub extern "C" fn ace_interface() -> u64
    ensures { result ≡ 3 }
{
    ace::ace_interface()
}
