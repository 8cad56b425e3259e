// The types of the finality witness, its limits and its refusals. The rules themselves are in specs/.
#![tactic(auto)]

ghost use Rattle.std.specs.Prelude.{◌≡◌};
ghost use Rattle.model.specs.Refusals.{refusal_number};

// A checkpoint's place: checkpoints are counted in the order of acceptance, the root being 0; anew after a move of the
// root.
#[repr(C)]
#[derive(Clone, Copy, Debug, PartialEq, Eq, PartialOrd, Ord)]
pub struct Place(pub u16);

// A checkpoint's height in the tree: the root's, and one more for each step away from it.
#[repr(C)]
#[derive(Clone, Copy, Debug, PartialEq, Eq, PartialOrd, Ord)]
pub struct Height(pub u32);

// What a quorum needs: p of q parts of all bonds.
#[derive(Clone, Copy, Debug, PartialEq, Eq)]
pub struct Quota {
    pub p: u16,
    pub q: u16,
}

// The standing of a checkpoint. A final checkpoint is justified too.
#[derive(Clone, Copy, Debug, PartialEq, Eq)]
pub enum Status {
    Plain,
    Justified,
    Final,
}

// How much is held at most, the largest bond, the most parts of a quota, and the greatest height that the root may
// have.
pub const MAX_MEMBERS: usize = 128;

pub const MAX_CHECKPOINTS: usize = 512;

pub const MAX_VOTES: usize = 4096;

// The names of so many checkpoints, 32 bytes each.
pub const NAME_BYTES: usize = 32 * MAX_CHECKPOINTS;

pub const MAX_BOND: u64 = 1_000_000_000_000;

pub const MAX_PARTS: u16 = 1_000;

pub const MAX_ROOT_HEIGHT: u32 = 4_294_966_784;

// Why something is refused: a case for each row of document 01's table, in its order, and then of the change requests;
// specs/Refusals.antt has the numbers.
#[derive(Clone, Copy, Debug, PartialEq, Eq)]
pub enum Refusal {
    LogTooShort,
    LogMark,
    LogVersion,
    UnknownKind,
    CutRecord,
    MembersFixed,
    BondOutOfRange,
    IdHeld,
    MembersFull,
    NameHeld,
    ParentNotHeld,
    CheckpointsFull,
    VoterNotHeld,
    SourceNotHeld,
    TargetNotHeld,
    WrongHeight,
    NotAncestor,
    VoteHeld,
    VotesFull,
    UnsoundState,
    PlaceNotHeld,
    ListLength,
    ListMark,
    ListVersion,
    IdNotRising,
    ChargedNotHeld,
    NotOwnVote,
    NotEarlier,
    NoViolation,
    BufferTooShort,
    BitWithoutMember,
    NoBitSet,
    QuorumFixed,
    BadQuorum,
    SourceNotBelowTarget,
    TargetNotAboveLast,
    SourceBelowLast,
    RootNotFinal,
    EvidenceDropped,
    HigherVoteDropped,
}

// The number of a refusal in document 01's table, or of a change request's.
impl From<Refusal> for u8 {
    ghost from_gives = { λ r n. n ≡ refusal_number r };

    fn from(r: Refusal) -> u8 {
        match r {
            Refusal::LogTooShort => 1,
            Refusal::LogMark => 2,
            Refusal::LogVersion => 3,
            Refusal::UnknownKind => 4,
            Refusal::CutRecord => 5,
            Refusal::MembersFixed => 10,
            Refusal::BondOutOfRange => 11,
            Refusal::IdHeld => 12,
            Refusal::MembersFull => 13,
            Refusal::NameHeld => 20,
            Refusal::ParentNotHeld => 21,
            Refusal::CheckpointsFull => 22,
            Refusal::VoterNotHeld => 30,
            Refusal::SourceNotHeld => 31,
            Refusal::TargetNotHeld => 32,
            Refusal::WrongHeight => 33,
            Refusal::NotAncestor => 34,
            Refusal::VoteHeld => 35,
            Refusal::VotesFull => 36,
            Refusal::UnsoundState => 40,
            Refusal::PlaceNotHeld => 41,
            Refusal::ListLength => 50,
            Refusal::ListMark => 51,
            Refusal::ListVersion => 52,
            Refusal::IdNotRising => 53,
            Refusal::ChargedNotHeld => 54,
            Refusal::NotOwnVote => 55,
            Refusal::NotEarlier => 56,
            Refusal::NoViolation => 57,
            Refusal::BufferTooShort => 60,
            Refusal::BitWithoutMember => 61,
            Refusal::NoBitSet => 62,
            Refusal::QuorumFixed => 63,
            Refusal::BadQuorum => 64,
            Refusal::SourceNotBelowTarget => 65,
            Refusal::TargetNotAboveLast => 66,
            Refusal::SourceBelowLast => 67,
            Refusal::RootNotFinal => 70,
            Refusal::EvidenceDropped => 71,
            Refusal::HigherVoteDropped => 72,
        }
    }
}
