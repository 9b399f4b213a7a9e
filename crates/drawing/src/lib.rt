// The drawing of a house file: its list as Graphviz DOT, or the line of its refusal.
#![tactic(auto)]

ghost use Rattle.std.specs.Prelude.{◌≤◌, length, take};
ghost use Rattle.text.specs.Promises.{Laid, Writes};
ghost use Rattle.house_file.specs.File.{enough};
ghost use Rattle.drawing.specs.FileDrawing.{file_drawing};
ghost use Rattle.drawing.specs.Promises.{Tells};

use dag::Refusal;
use field::Prime;
use house_file::FILED_WORDS;
use wording::write_refused;

// No drawing of a house file has more bytes.
pub const MOST_BYTES: usize = 66574;

// Writes the drawing of a house file's list, 0 bytes behind it, and answers its length; or says why not.
fn draw_list(file: &[u8], out: &mut [u8]) -> Result<usize, Refusal>
    requires { length (file_drawing file.now) ≤ length out.old }
    ensures { Tells (file_drawing file.now) out.old out.new result }
{
    let mut list = [0u64; FILED_WORDS];
    let filed = house_file::read_file(file, &mut list)?;
    draw::draw(
        Prime::Goldilocks,
        &list,
        filed.count,
        filed.roots.as_slice(),
        out,
    )
}

// Writes the drawing of a house file, or the line of its refusal, 0 bytes behind it. Answers its length.
fn draw_file(file: &[u8], out: &mut [u8]) -> usize
    requires { length (file_drawing file.now) ≤ length out.old }
    ensures { Laid out.old (file_drawing file.now) out.new result }
{
    match draw_list(file, out) {
        Ok(length) => length,
        Err(r) => write_refused(r, out),
    }
}

// Writes the drawing of an input of which the first n bytes of a buffer are read. Answers its length.
pub fn draw_input(buffer: &[u8], n: usize, out: &mut [u8]) -> usize
    requires { (enough ≤ length buffer.now) × (n ≤ length buffer.now) × (length (file_drawing (take n buffer.now)) ≤ length out.old) }
    ensures drawn { Writes file_drawing buffer.now n out.old out.new result }
    ensures fits { result ≤ length out.new }
{
    draw_file(&buffer[..n], out)
}
