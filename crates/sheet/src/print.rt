// The line printed: of a header that is read from an input, to an output.
ghost use Rattle.std.specs.Prelude.{◌≤◌, ◌<◌, length, take, IfOk, OnOk, IfSome};
ghost use Rattle.std.specs.Io.KnownBytes.{Appends, Consumes, IsAtEnd};
ghost use Rattle.sheet.specs.Line.{line_of};

use std::io;

// Reads until the slice is full or the input ends. Returns how many bytes there were.
fn read_full<R: io::Read>(input: &mut R, header: &mut [u8]) -> io::Result<usize>
    ensures n_bound { IfOk result (λ n. n ≤ length header.new) }
    ensures bytes { IfOk result (λ n. Consumes (R.remaining input.old) (R.remaining input.new) (take n header.new)) }
    ensures end { IfOk result (λ n. n < length header.new → IsAtEnd (R.remaining input.new)) }
{
    let mut n = 0;
    // A `while`, since a read may bring any number of bytes.
    while n < header.len() {
        let k = input.read(&mut header[n..])?;
        if k == 0 {
            break;
        }
        n += k;
    }
    Ok(n)
}

// Reads one byte more than a header has, so that eleven bytes are seen, and writes the line of all that the input holds.
pub fn print_line<R: io::Read, W: io::Write>(input: &mut R, out: &mut W) -> io::Result<()>
    ensures printed { OnOk result (IfSome (R.remaining input.old) (λ bytes. Appends (W.contents out.old) (W.contents out.new) (line_of bytes))) }
    ensures taken { OnOk result (IfSome (R.remaining input.old) (λ bytes. Consumes (R.remaining input.old) (R.remaining input.new) (take 11 bytes))) }
{
    // Memory is fixed: arrays, of which the slices that are filled go on.
    let mut header = [0u8; 11];
    let n = read_full(input, &mut header)?;
    let mut text = [0u8; 256];
    let k = crate::line(&header[..n], &mut text);
    out.write_all(&text[..k])
}
