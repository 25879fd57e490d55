// Text written into a slice, piece by piece.
ghost use Rattle.std.specs.Prelude.{◌+◌, ◌*◌, ◌≤◌, length};
ghost use Rattle.sheet.specs.Text.{decimal, item, items};
ghost use Rattle.sheet.specs.Inner.{Put};

// Writes a piece of text from `at` on, and returns the place after it.
pub fn put(piece: &[u8], at: usize, out: &mut [u8]) -> usize
    requires { at + length piece.now ≤ length out.old }
    ensures { Put out.old at piece.now out.new result }
{
    let next = at + piece.len();
    out[at..next].copy_from_slice(piece);
    next
}

// A number in decimal.
fn put_decimal(n: u64, at: usize, out: &mut [u8]) -> usize
    requires { at + 20 ≤ length out.old }
    ensures { Put out.old at (decimal n) out.new result }
{
    // The longest number has 20 digits; memory is fixed.
    let mut text = [0u8; 20];
    let k = io::decimal(n, &mut text);
    put(&text[..k], at, out)
}

// A space and a number.
fn put_item(n: u64, at: usize, out: &mut [u8]) -> usize
    requires { at + 21 ≤ length out.old }
    ensures { Put out.old at (item n) out.new result }
{
    out[at] = b' ';
    put_decimal(n, at + 1, out)
}

// Each number after a space, and the end of the line.
pub fn put_items(numbers: &[u64], at: usize, out: &mut [u8]) -> usize
    requires { at + (21 * length numbers.now + 1) ≤ length out.old }
    ensures { Put out.old at (items numbers.now) out.new result }
{
    let mut next = at;
    for i in 0..numbers.len() {
        next = put_item(numbers[i], next, out);
    }
    out[next] = b'\n';
    next + 1
}
