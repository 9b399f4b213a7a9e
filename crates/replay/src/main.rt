// Replays recorded answers of the Rust (crates/recorded), made by: ./differential record --out crates/replay/stdin
// A section for each call: the call's number, the number of cases, the number of their words, and those words.
#![tactic(auto)]

ghost use Rattle.std.specs.Prelude.{◌≡◌, OnOk};
ghost use Rattle.std.specs.Io.KnownBytes.{Appends};
ghost use Rattle.recorded_calls.specs.Promises as Promises;
ghost use Rattle.replay.specs.Cases as Cases;
ghost use Rattle.replay.specs.Report as Report;

use recorded::{Cursor, Reads, Trio, Writes};
use recorded_calls::Call;
use std::io;
use std::io::{Read, Write};

// The words of an array that a store is laid in which a call reads.
const READ: usize = 4096;

// The words of one for a store that a call writes.
const WRITTEN: usize = 12352;

// Where the parts of a case are: the stores that its call reads, those that it writes, the answer, the written stores
// after the call, and the next case.
#[derive(Clone, Copy)]
struct Parts {
    read: Trio,
    written: Trio,
    said: usize,
    held: Trio,
    next: usize,
}

// The parts of the case at a place.
#[tactic(auto, unfolding(crate::specs::Cases::parts_of))]
fn parts_of(call: Call, case: Cursor) -> Parts
    ensures { result ≡ Cases.parts_of call case.entry.stream.now case.entry.at }
{
    let h = call.shape();
    let read = case.skip(h.numbers);
    let written = read.past(1, h.read);
    let said = written.past(1, h.written);
    let after = said.skip(h.answer);
    Parts {
        read: read.places(1, h.read),
        written: written.places(1, h.written),
        said: said.at,
        held: after.places(0, h.written),
        next: after.past(0, h.written).at,
    }
}

// A call's case at a place of a stream, and where its parts are.
#[derive(Clone, Copy)]
struct Case<'a> {
    call: Call,
    start: Cursor<'a>,
    parts: Parts,
    ghost parted: { parts ≡ Cases.parts_of call start.stream.now start.at },
}

impl<'a> Case<'a> {
    // The case at a place.
    fn new(call: Call, start: Cursor<'a>) -> Case<'a>
        ensures call { result.call ≡ call }
        ensures stream { result.start.stream.now ≡ start.entry.stream.now }
        ensures at { result.start.at ≡ start.entry.at }
    {
        let parts = parts_of(call, start);
        Case { call, start, parts }
    }

    // Whether the case has room in the arrays that it is lent from.
    #[tactic(auto, unfolding(crate::specs::Cases::room))]
    fn has_room(self) -> bool
        ensures { result ≡ Cases.room self.entry.start.stream.now self.entry.parts }
    {
        self.start.fit(self.parts.read, READ as u64)
            && self.start.fit(self.parts.written, WRITTEN as u64)
    }

    // Whether the case is answered as recorded, with the stores that its call reads laid.
    fn answered_with(self, read: Reads) -> bool
        requires laid { Promises.read read ≡ Cases.laid self.start.stream.now self.parts.read }
        requires room { Cases.HasRoom self.start.stream.now self.parts }
        ensures { result ≡ Cases.answered self.entry.call self.entry.start.stream.now self.entry.start.at self.entry.parts }
    {
        let Case { call, start, parts } = self;
        let mut a = [0; WRITTEN];
        let mut b = [0; WRITTEN];
        let mut c = [0; WRITTEN];
        let mut written = Writes {
            a: start.to(parts.written.a).laid(&mut a),
            b: start.to(parts.written.b).laid(&mut b),
            c: start.to(parts.written.c).laid(&mut c),
        };
        let told = call.ask(start, parts.said, read, &mut written);
        let Writes { a, b, c } = written;
        told && start.hold_all(parts.held, a, b, c)
    }

    // Whether the case is answered as recorded.
    fn answered(self) -> bool
        requires { Cases.HasRoom self.start.stream.now self.parts }
        ensures { result ≡ Cases.answered self.entry.call self.entry.start.stream.now self.entry.start.at self.entry.parts }
    {
        let Case { start, parts, .. } = self;
        let mut a = [0; READ];
        let mut b = [0; READ];
        let mut c = [0; READ];
        let read = Reads {
            a: start.to(parts.read.a).laid(&mut a),
            b: start.to(parts.read.b).laid(&mut b),
            c: start.to(parts.read.c).laid(&mut c),
        };
        self.answered_with(read)
    }

    // Whether the case has room and is answered as recorded.
    #[tactic(auto, unfolding(crate::specs::Cases::same))]
    fn same(self) -> bool
        ensures { result ≡ Cases.same self.entry.call self.entry.start.stream.now self.entry.start.at }
    {
        self.has_room() && self.answered()
    }
}

// The call of a number.
fn call_of(number: u64) -> Option<Call> {
    match number {
        1 => Some(Call::Step),
        2 => Some(Call::Build),
        3 => Some(Call::Compact),
        4 => Some(Call::Normalize),
        5 => Some(Call::Evaluate),
        6 => Some(Call::Prepare),
        7 => Some(Call::Lower),
        9 => Some(Call::Emit),
        _ => None,
    }
}

// How many of a call's first cases are answered as recorded.
fn compare(call: Call, s: &[u8], cases: u64) -> u64
    ensures { result ≡ Cases.matched call s.now cases }
{
    let mut matched = 0;
    let mut at = 0;
    for _ in 0..cases {
        let case = Case::new(call, Cursor { stream: s, at });
        matched += u64::from(case.same());
        at = case.parts.next;
    }
    matched
}

// Names the cases that are not answered as recorded.
fn tell<W: Write>(output: &mut W, call: Call, s: &[u8], cases: u64) -> io::Result<()>
    ensures { OnOk result (Appends (W.contents output.old) (W.contents output.new) (Report.differing call s.now cases)) }
{
    let mut at = 0;
    for i in 0..cases {
        let case = Case::new(call, Cursor { stream: s, at });
        if !case.same() {
            writeln!(output, "case {i} differs")?;
        }
        at = case.parts.next;
    }
    Ok(())
}

// Writes how many answers match.
fn report<W: Write>(
    output: &mut W,
    call: Call,
    s: &[u8],
    matched: u64,
    cases: u64,
) -> io::Result<()>
    requires { matched ≡ Cases.matched call s.now cases }
    ensures { OnOk result (Appends (W.contents output.old) (W.contents output.new) (Report.matching call s.now cases)) }
{
    writeln!(
        output,
        "{call}: {matched} of {cases} recorded answers match"
    )
}

// Replays a call's cases.
fn replay_cases<W: Write>(output: &mut W, call: Call, s: &[u8], cases: u64) -> io::Result<()>
    ensures { OnOk result (Appends (W.contents output.old) (W.contents output.new) (Report.report_of call s.now cases)) }
{
    let matched = compare(call, s, cases);
    if matched < cases {
        tell(output, call, s, cases)?;
    }
    report(output, call, s, matched, cases)
}

// Reads a section's cases into a store of their length, and replays them.
fn read_cases<R: Read, W: Write>(
    input: &mut R,
    output: &mut W,
    call: Call,
    cases: u64,
    store: &mut [u8],
) -> io::Result<()> {
    let n = streams::read_full(input, store)?;
    replay_cases(output, call, &store[..n], cases)
}

// Replays the section that the input is at: whether there is one that the buffer holds.
fn section<R: Read, W: Write>(
    input: &mut R,
    output: &mut W,
    buffer: &mut [u8],
) -> io::Result<bool> {
    let mut head = [0u8; 24];
    streams::read_full(input, &mut head)?;
    let head = Cursor {
        stream: &head,
        at: 0,
    };
    let Some(call) = call_of(head.word()) else {
        return Ok(false);
    };
    let words = head.number(2);
    if words > buffer.len() as u64 / 8 {
        return Ok(false);
    }
    let store = &mut buffer[..8 * words as usize];
    read_cases(input, output, call, head.number(1), store)?;
    Ok(true)
}

// Replays every section of an input, at most 16.
fn run<R: Read, W: Write>(input: &mut R, output: &mut W, buffer: &mut [u8]) -> io::Result<()> {
    for _ in 0..16 {
        if !section(input, output, buffer)? {
            return Ok(());
        }
    }
    Ok(())
}

fn main(rt: HostRuntime) -> io::Result<()> {
    let mut buffer = [0u8; 262144];
    run(&mut rt.stdin(), &mut rt.stdout(), &mut buffer)
}
