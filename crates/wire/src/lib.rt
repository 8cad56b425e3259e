// Big-endian integers of 16, 32 and 64 bits, read from a slice, and of 16 bits written into one: the widths share a
// proof. Words of 8 bytes in the machine's order, and the comparison of two runs of bytes. How long a record is, module
// `records` says.
#![tactic(auto)]

ghost use Rattle.std.specs.Prelude.{◌≡◌, ◌++◌, ◌+◌, ◌≤◌, length, drop};
ghost use Rattle.model.specs.Bytes.{field, be_bytes, part};
ghost use Rattle.model.specs.Lists.{same_bytes};
ghost use Rattle.wire.specs.Words.{le_of};

pub mod records;

// The N bytes at `at`.
fn bytes<const N: usize>(s: &[u8], at: usize) -> [u8; N]
    requires { at + N ≤ length s.now }
    ensures { result ≡ part at N s.now }
{
    *s[at..at + N].first_chunk().unwrap()
}

pub fn be16(s: &[u8], at: usize) -> u16
    requires { at + 2 ≤ length s.now }
    ensures { result ≡ field at 2 s.now }
{
    u16::from_be_bytes(bytes(s, at))
}

pub fn be32(s: &[u8], at: usize) -> u32
    requires { at + 4 ≤ length s.now }
    ensures { result ≡ field at 4 s.now }
{
    u32::from_be_bytes(bytes(s, at))
}

pub fn be64(s: &[u8], at: usize) -> u64
    requires { at + 8 ≤ length s.now }
    ensures { result ≡ field at 8 s.now }
{
    u64::from_be_bytes(bytes(s, at))
}

// The integer of the 8 bytes at `at`, its first byte the lowest. This is the order of the machine, which reads such a
// word at once: it is for comparing bytes, and no record has it.
pub fn le64(s: &[u8], at: usize) -> u64
    requires { at + 8 ≤ length s.now }
    ensures { result ≡ le_of (part at 8 s.now) }
{
    u64::from_le_bytes(bytes(s, at))
}

// The two bytes of v, the higher first, at the start of what is lent; the rest of it stays.
pub fn put16(buf: &mut [u8], v: u16)
    requires { 2 ≤ length buf.old }
    ensures { buf.new ≡ be_bytes 2 v ++ drop 2 buf.old }
{
    buf[..2].copy_from_slice(&v.to_be_bytes());
}

// Whether the n bytes of a at i are those of b at j. Every byte is looked at, so that the loop has one way out, and many
// bytes are compared at once.
pub fn same(a: &[u8], i: usize, b: &[u8], j: usize, n: usize) -> bool
    requires { (i + n ≤ length a.now) × (j + n ≤ length b.now) }
    ensures { result ≡ same_bytes (part i n a.now) (part j n b.now) }
{
    let mut eq = true;
    for k in 0..n {
        eq &= a[i + k] == b[j + k];
    }
    eq
}
