// A witness to be handed in where none is held yet: reading a header takes any.
#![tactic(auto)]

use model::{Height, MAX_CHECKPOINTS, MAX_MEMBERS, MAX_VOTES, NAME_BYTES, Place};
use state::{Numbers, Witness};

pub fn blank() -> Witness {
    Witness {
        ids: [0u16; MAX_MEMBERS],
        bonds: [0u64; MAX_MEMBERS],
        names: [0u8; NAME_BYTES],
        parents: [Place(0); MAX_CHECKPOINTS],
        heights: [Height(0); MAX_CHECKPOINTS],
        voters: [0u16; MAX_VOTES],
        sources: [Place(0); MAX_VOTES],
        targets: [Place(0); MAX_VOTES],
        member_count: 0,
        checkpoint_count: 0,
        vote_count: 0,
        numbers: Numbers { p: 0, q: 0 },
    }
}
