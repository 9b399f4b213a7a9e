// The calls that are exported, each on the numbers and stores of a recorded case.
#![tactic(auto)]

ghost use Rattle.std.specs.Prelude.{◌≡◌, Some};
ghost use Rattle.recorded_calls.specs.Calls.{name, shape, shape_of};
ghost use Rattle.recorded_calls.specs.Promises.{Asked, SameStores};

use ace::{
    ANSWER_WORDS, EVALUATE_WORDS, LIST_WORDS, PREPARE_WORDS, ace_build, ace_compact, ace_emit,
    ace_evaluate, ace_lower, ace_normalize, ace_prepare, ace_step,
};
use recorded::{Cursor, Reads, Writes};
use std::fmt;

// A call.
#[derive(Clone, Copy)]
pub enum Call {
    Step,
    Build,
    Compact,
    Normalize,
    Evaluate,
    Prepare,
    Lower,
    Emit,
}

impl fmt::Display for Call {
    ghost output = { λ call. Some (name call) };

    fn fmt<W: fmt::Write>(&self, f: &mut fmt::Formatter<W>) -> fmt::Result {
        f.write_str(match self {
            Call::Step => "step",
            Call::Build => "build",
            Call::Compact => "compact",
            Call::Normalize => "normalize",
            Call::Evaluate => "evaluate",
            Call::Prepare => "prepare",
            Call::Lower => "lower",
            Call::Emit => "emit",
        })
    }
}

// How many numbers a call takes, stores it reads and stores it writes, and words it answers.
#[derive(Clone, Copy)]
pub struct Shape {
    pub numbers: u64,
    pub read: u64,
    pub written: u64,
    pub answer: u64,
}

impl Shape {
    fn new(numbers: u64, read: u64, written: u64, answer: u64) -> Self
        ensures { result ≡ shape numbers read written answer }
    {
        Self {
            numbers,
            read,
            written,
            answer,
        }
    }
}

impl Call {
    // A call's shape.
    #[tactic(auto, unfolding(crate::specs::Calls::shape_of))]
    pub fn shape(self) -> Shape
        ensures { result ≡ shape_of self }
    {
        match self {
            Call::Step => Shape::new(5, 0, 1, 4),
            Call::Build => Shape::new(2, 2, 2, 11),
            Call::Compact => Shape::new(2, 2, 1, 11),
            Call::Normalize => Shape::new(2, 2, 2, 11),
            Call::Evaluate => Shape::new(3, 3, 0, 17),
            Call::Prepare => Shape::new(1, 2, 0, 18),
            Call::Lower => Shape::new(3, 3, 3, 4),
            Call::Emit => Shape::new(3, 3, 1, 4),
        }
    }

    // A call on the case at a place, in the stores r that it reads and w that it writes: whether its answer is the one recorded at `said`.
    #[tactic(auto, unfolding(crate::specs::Calls::outcome))]
    pub fn ask(self, case: Cursor, said: usize, r: Reads, w: &mut Writes) -> bool
        ensures same { SameStores w.old w.new }
        ensures asked { Asked self case.entry.stream.now case.entry.at said r.entry w.old result w.new }
    {
        let said = case.to(said);
        let n = |k: u64| case.number(k);
        let m = |k: u64| case.number(k) as usize;
        let mut words = [0; ANSWER_WORDS];
        let mut list = [0; LIST_WORDS];
        let mut values = [0; EVALUATE_WORDS];
        let mut forms = [0; PREPARE_WORDS];
        match self {
            Call::Step => ace_step(n(0), w.a, m(1), n(2), n(3), n(4), &mut words),
            Call::Build => ace_build(n(0), r.a, m(1), r.b, w.a, w.b, &mut list),
            Call::Compact => ace_compact(n(0), r.a, m(1), r.b, w.a, &mut list),
            Call::Normalize => ace_normalize(n(0), r.a, m(1), r.b, w.a, w.b, &mut list),
            Call::Evaluate => ace_evaluate(n(0), r.a, m(1), r.b, r.c, m(2), &mut values),
            Call::Prepare => ace_prepare(n(0), r.a, r.b, &mut forms),
            Call::Lower => ace_lower(n(0), r.a, m(1), r.b, r.c, n(2), w.a, w.b, w.c, &mut words),
            Call::Emit => ace_emit(n(0), r.a, m(1), r.b, r.c, m(2), w.a, &mut words),
        }
        match self {
            Call::Step | Call::Lower | Call::Emit => said.follow(&words),
            Call::Build | Call::Compact | Call::Normalize => said.follow(&list),
            Call::Evaluate => said.follow(&values),
            Call::Prepare => said.follow(&forms),
        }
    }
}
