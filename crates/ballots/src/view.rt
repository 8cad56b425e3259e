// What the rows look at of what is held.
use model::{Height, Place};
use state::Numbers;

// The tables of the members and of the checkpoints, lent: of a member the id; of a checkpoint the name, 32 bytes each,
// the parent and the height. Each but the names is as long as what it holds; what stands past the held names means
// nothing. Beside the tables stand the numbers, and how many votes are held: a vote is looked for by its number, among
// those that come in chains.
#[derive(Clone, Copy)]
pub struct View<'a> {
    pub ids: &'a [u16],
    pub names: &'a [u8],
    pub parents: &'a [Place],
    pub heights: &'a [Height],
    pub numbers: Numbers,
    pub votes: usize,
}
