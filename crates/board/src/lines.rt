// The lines of the paper: 64 columns and a newline each.
ghost use Rattle.std.specs.Prelude.{◌+◌, ◌≤◌, ◌++◌, ◌≡◌, length, replicate};
ghost use Rattle.model.specs.Paper.{blanks, left, right, heading};
ghost use Rattle.model.specs.Report.{decimal, newline, status_text};
ghost use Rattle.text.specs.Put.{Put};
ghost use Rattle.board.specs.Rows.{line_of};

use crate::rows::Row;
use model::Status;
use text::{fill, put, put_number, put_right};

// A number in its columns, and the two blanks before the next field.
fn put_field(buf: &mut [u8], at: usize, columns: usize, n: u64) -> usize
    requires { (length (decimal n) ≤ columns) × (at + (columns + 2) ≤ length buf.old) }
    ensures { Put buf.old at (right columns (decimal n) ++ blanks 2) buf.new result }
{
    let next = put_right(buf, at, columns, n);
    fill(buf, next, b' ', 2)
}

// A standing in its columns, and the two blanks before the next field.
fn put_standing(buf: &mut [u8], at: usize, s: Status) -> usize
    requires { at + 14 ≤ length buf.old }
    ensures { Put buf.old at (left 12 (status_text s) ++ blanks 2) buf.new result }
{
    match s {
        Status::Plain => put(buf, at, b"plain         "),
        Status::Justified => put(buf, at, b"justified     "),
        Status::Final => put(buf, at, b"final         "),
    }
}

// The row of a checkpoint.
pub fn put_row(buf: &mut [u8], at: usize, row: &Row) -> usize
    requires { at + 65 ≤ length buf.old }
    ensures { Put buf.old at (line_of row.now) buf.new result × (result ≡ at + 65) }
{
    let one = put_field(buf, at, 5, u64::from(row.place.0));
    let two = put_field(buf, one, 10, u64::from(row.height.0));
    let three = put_standing(buf, two, row.status);
    let four = put_field(buf, three, 5, u64::from(row.number));
    let five = put_right(buf, four, 24, row.bonds);
    put(buf, five, b"\n")
}

// A line of one character: the foot of a page, and a row where no checkpoint stands.
pub fn put_rule(buf: &mut [u8], at: usize, byte: u8) -> usize
    requires { at + 65 ≤ length buf.old }
    ensures { Put buf.old at (replicate 64 byte ++ newline) buf.new result × (result ≡ at + 65) }
{
    let next = fill(buf, at, byte, 64);
    put(buf, next, b"\n")
}

// The heading of a page.
pub fn put_heading(buf: &mut [u8], at: usize, n: u64) -> usize
    requires { at + 65 ≤ length buf.old }
    ensures { Put buf.old at (heading n) buf.new result × (result ≡ at + 65) }
{
    let one = put(buf, at, b"page ");
    let two = put_number(buf, one, n);
    let three = fill(buf, two, b' ', at + 64 - two);
    put(buf, three, b"\n")
}
