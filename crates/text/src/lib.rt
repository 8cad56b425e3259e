// Texts and numbers, as bytes written into a lent buffer, which has room for them: so nothing here can fail, as `write!`
// into a slice may.
#![tactic(auto)]

ghost use Rattle.std.specs.Prelude.{◌+◌, ◌≤◌, length, replicate};
ghost use Rattle.model.specs.Paper.{right};
ghost use Rattle.model.specs.Report.{decimal};
ghost use Rattle.text.specs.Put.{Put};

// The text, into the buffer from `at` on; answers the offset past it.
pub fn put(buf: &mut [u8], at: usize, text: &[u8]) -> usize
    requires { at + length text.now ≤ length buf.old }
    ensures { Put buf.old at text.now buf.new result }
{
    let end = at + text.len();
    buf[at..end].copy_from_slice(text);
    end
}

// A number in decimal: at most 20 digits.
pub fn put_number(buf: &mut [u8], at: usize, n: u64) -> usize
    requires { at + 20 ≤ length buf.old }
    ensures { Put buf.old at (decimal n) buf.new result × (result ≤ at + 20) }
{
    let mut digits = [0u8; 20];
    let k = io::decimal(n, &mut digits);
    put(buf, at, &digits[..k])
}

// One byte, so many times; answers the offset past them.
pub fn fill(buf: &mut [u8], at: usize, byte: u8, count: usize) -> usize
    requires { at + count ≤ length buf.old }
    ensures { Put buf.old at (replicate count byte) buf.new result }
{
    let end = at + count;
    buf[at..end].fill(byte);
    end
}

// A number in decimal, at the right of so many columns.
pub fn put_right(buf: &mut [u8], at: usize, columns: usize, n: u64) -> usize
    requires { (length (decimal n) ≤ columns) × (at + columns ≤ length buf.old) }
    ensures { Put buf.old at (right columns (decimal n)) buf.new result }
{
    let mut digits = [0u8; 20];
    let k = io::decimal(n, &mut digits);
    let from = fill(buf, at, b' ', columns - k);
    put(buf, from, &digits[..k])
}
