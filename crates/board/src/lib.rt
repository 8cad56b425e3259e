// The board paper: a row for each checkpoint, laid out in pages and written into a lent buffer.
#![tactic(auto)]

pub mod lines;
pub mod rows;

ghost use Rattle.std.specs.Prelude.{◌≡◌, ◌+◌, ◌*◌, ◌<◌, ◌≤◌, length};
ghost use Rattle.model.specs.Buffer.{Written};
ghost use Rattle.model.specs.Limits.{checkpoint_limit};
ghost use Rattle.model.specs.Lists.{concat_below};
ghost use Rattle.model.specs.Paper.{page, paper};
ghost use Rattle.state.specs.Sound.{Sound};
ghost use Rattle.state.specs.State.{model_of};
ghost use Rattle.text.specs.Put.{Put};
ghost use Rattle.board.specs.Rows.{row_in};

use crate::lines::{put_heading, put_row, put_rule};
use crate::rows::Row;
use model::Refusal;
use state::Witness;

// A line has 64 columns and a newline, and a page 48 rows between its heading and its foot.
const LINE: usize = 65;

const ROWS: usize = 48;

const PAGE: usize = (ROWS + 2) * LINE;

// The rows of a page, for the places from `from` on; where no checkpoint stands, a row is blank.
fn put_rows(rows: &[Row], buf: &mut [u8], at: usize, from: usize) -> usize
    requires { (from ≤ checkpoint_limit) × (at + 65 * 48 ≤ length buf.old) }
    ensures { Put buf.old at (concat_below 48 (λ i. row_in rows.now (from + i))) buf.new result
        × (result ≡ at + 65 * 48) }
{
    let mut next = at;
    for i in 0..ROWS {
        next = match rows.get(from + i) {
            Some(row) => put_row(buf, next, row),
            None => put_rule(buf, next, b' '),
        };
    }
    next
}

// The page that comes after k others.
fn put_page(rows: &[Row], buf: &mut [u8], at: usize, k: usize) -> usize
    requires { (48 * k < checkpoint_limit) × (at + 3250 ≤ length buf.old) }
    ensures { Put buf.old at (page (row_in rows.now) k) buf.new result × (result ≡ at + 3250) }
{
    let one = put_heading(buf, at, (k + 1) as u64);
    let two = put_rows(rows, buf, one, ROWS * k);
    put_rule(buf, two, b'-')
}

// So many pages, from the start of the buffer on.
fn put_pages(rows: &[Row], buf: &mut [u8], pages: usize) -> usize
    requires { (48 * pages < checkpoint_limit + 48) × (3250 * pages ≤ length buf.old) }
    ensures { Put buf.old 0 (concat_below pages (page (row_in rows.now))) buf.new result × (result ≡ 3250 * pages) }
{
    let mut at: usize = 0;
    for k in 0..pages {
        at = put_page(rows, buf, at, k);
    }
    at
}

// The paper at the start of the buffer, unless the buffer is too short for it; answers its length.
pub fn write_paper(w: Witness, buf: &mut [u8]) -> Result<usize, Refusal>
    requires { Sound w }
    ensures { Written (paper (model_of w)) buf.old result buf.new }
{
    let pages = (w.checkpoint_count + (ROWS - 1)) / ROWS;
    if buf.len() < PAGE * pages {
        return Err(Refusal::BufferTooShort);
    }
    let rows = rows::rows(&w);
    Ok(put_pages(&rows[..w.checkpoint_count], buf, pages))
}
