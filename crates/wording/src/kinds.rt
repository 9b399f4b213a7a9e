// The words of the kinds of records.
ghost use Rattle.std.specs.Prelude.{◌≡◌};
ghost use Rattle.text.specs.Text.{ascii};
ghost use Rattle.wording.specs.Kinds.{kind};

use dag::NodeKind;

// The word of a record's kind.
#[tactic(auto, unfolding(crate::specs::Kinds::kind, text::specs::Text::ascii))]
pub fn kind_of(x: NodeKind) -> &'static [u8]
    ensures { result.now ≡ kind x }
{
    match x {
        NodeKind::Input(_) => b"in",
        NodeKind::Constant(_) => b"const",
        NodeKind::Add(_, _) => b"add",
        NodeKind::Sub(_, _) => b"sub",
        NodeKind::Mul(_, _) => b"mul",
        NodeKind::Neg(_) => b"neg",
    }
}
