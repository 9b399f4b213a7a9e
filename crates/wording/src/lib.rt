// The words that texts have for a record's kind and for a refusal.
#![tactic(auto)]

ghost use Rattle.std.specs.Prelude.{◌≤◌, length};
ghost use Rattle.text.specs.Promises.{Laid};
ghost use Rattle.wording.specs.Refused.{refused_line};

use dag::Refusal;
use text::{End, Text};

pub mod kinds;

// Writes the line of a refusal, 0 bytes behind it. Answers its length.
#[tactic(auto, using(crate::specs::RefusedLaws::length_refused), unfolding(text::specs::Text::ascii))]
pub fn write_refused(r: Refusal, out: &mut [u8]) -> usize
    requires { length (refused_line r) ≤ length out.old }
    ensures { Laid out.old (refused_line r) out.new result }
{
    let mut text = Text::new(out);
    text.named(b"refused", r.number(), End::Space);
    text.number(r.place() as u64, End::Newline);
    text.finish()
}
