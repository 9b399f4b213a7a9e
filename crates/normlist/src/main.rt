// Lists the house file on standard input: what Normalise answers to it, or the refused line.
#![tactic(auto)]

ghost use Rattle.std.specs.Prelude.{IfSome, OnOk};
ghost use Rattle.std.specs.Io.KnownBytes.{Appends};
ghost use Rattle.listing.specs.Listing.{listing};

use std::io;
use std::io::{Read, Write};

// Writes the listing of the house file that a reader gives.
fn list<R: Read, W: Write>(input: &mut R, output: &mut W) -> io::Result<()>
    ensures { OnOk result (IfSome (R.remaining input.old) (λ file. Appends (W.contents output.old) (W.contents output.new) (listing file))) }
{
    let mut buffer = [0u8; house_file::ENOUGH];
    let n = streams::read_full(input, &mut buffer)?;
    let mut text = [0u8; listing::MOST_BYTES];
    let length = listing::list_input(&buffer, n, &mut text);
    output.write_all(&text[..length])
}

fn main(rt: HostRuntime) -> io::Result<()> {
    list(&mut rt.stdin(), &mut rt.stdout())
}
