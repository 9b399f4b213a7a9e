// Draws the house file on standard input: its list as Graphviz DOT, or the refused line.
#![tactic(auto)]

ghost use Rattle.std.specs.Prelude.{IfSome, OnOk};
ghost use Rattle.std.specs.Io.KnownBytes.{Appends};
ghost use Rattle.drawing.specs.FileDrawing.{file_drawing};

use std::io;
use std::io::{Read, Write};

// Writes the drawing of the house file that a reader gives.
fn draw<R: Read, W: Write>(input: &mut R, output: &mut W) -> io::Result<()>
    ensures { OnOk result (IfSome (R.remaining input.old) (λ file. Appends (W.contents output.old) (W.contents output.new) (file_drawing file))) }
{
    let mut buffer = [0u8; house_file::ENOUGH];
    let n = streams::read_full(input, &mut buffer)?;
    let mut text = [0u8; drawing::MOST_BYTES];
    let length = drawing::draw_input(&buffer, n, &mut text);
    output.write_all(&text[..length])
}

fn main(rt: HostRuntime) -> io::Result<()> {
    draw(&mut rt.stdin(), &mut rt.stdout())
}
