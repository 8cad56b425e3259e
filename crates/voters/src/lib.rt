// The members behind a link, what their bonds come to, and whether that is a quorum.
#![tactic(auto)]

ghost use Rattle.std.specs.Prelude.{◌≡◌, true, ◌||◌, ℕ, ◌*◌, ◌≤◌, ◌<◌, eqb, get_or, length};
ghost use Rattle.model.specs.Limits.{member_limit, bond_limit};
ghost use Rattle.voters.specs.Bits.{among, sum_below, count_below};
ghost use Rattle.voters.specs.Weights.{Bonds, Fits, weight_of, enough, carried};

use model::Quota;

// The members behind a link as 128 bits: the member at place i is bit i, in `lo` below 64 and in `hi` from there on.
#[derive(Clone, Copy, Debug, PartialEq, Eq)]
pub struct Voters {
    pub lo: u64,
    pub hi: u64,
}

impl Voters {
    // No member.
    pub const NOBODY: Voters = Voters { lo: 0, hi: 0 };

    // Whether the member at place i is among them.
    pub fn has(self, i: usize) -> bool
        requires { i < member_limit }
        ensures { result ≡ among self i }
    {
        if i < 64 {
            (self.lo >> i) % 2 == 1
        } else {
            (self.hi >> (i - 64)) % 2 == 1
        }
    }

    // Takes the member at place i in.
    pub fn insert(&mut self, i: usize)
        requires { i < member_limit }
        ensures { (j : ℕ) → among self.new j ≡ (among self.old j || eqb j i) }
    {
        if i < 64 {
            self.lo |= 1 << i;
        } else {
            self.hi |= 1 << (i - 64);
        }
    }

    // How many they are.
    pub fn count(self) -> u32
        ensures { result ≡ count_below member_limit (among self) }
    {
        self.lo.count_ones() + self.hi.count_ones()
    }

    // Their bonds, one after another: `bonds` has those of the members, by place.
    fn add_bonds(self, bonds: &[u64]) -> u64
        requires { Bonds bonds.now (length bonds.now) }
        ensures { result ≡ weight_of bonds.now (length bonds.now) self }
    {
        let mut sum: u64 = 0;
        for (i, bond) in bonds.iter().enumerate() {
            if self.has(i) {
                sum += *bond;
            }
        }
        sum
    }

    // Their bonds. Most links have no voter, and there is nothing to add up then.
    pub fn weigh(self, bonds: &[u64]) -> u64
        requires { Bonds bonds.now (length bonds.now) }
        ensures { result ≡ weight_of bonds.now (length bonds.now) self }
    {
        if self.lo == 0 && self.hi == 0 {
            return 0;
        }
        self.add_bonds(bonds)
    }

    // Whether they are a quorum.
    pub fn carries(self, bonds: &[u64], bar: Bar) -> bool
        requires { Bonds bonds.now (length bonds.now) × Fits bar }
        ensures { result ≡ carried bonds.now (length bonds.now) bar self }
    {
        bar.is_met_by(self.weigh(bonds))
    }
}

// The bonds of all members.
pub fn total_bond(bonds: &[u64]) -> u64
    requires { Bonds bonds.now (length bonds.now) }
    ensures { result ≡ sum_below (length bonds.now) (λ i. true) (λ i. get_or bonds.now i 0) }
{
    let everybody = Voters {
        lo: 0xffff_ffff_ffff_ffff,
        hi: 0xffff_ffff_ffff_ffff,
    };
    everybody.weigh(bonds)
}

// What a quorum is measured against: p of q parts of the bonds of all members.
#[derive(Clone, Copy, Debug, PartialEq, Eq)]
pub struct Bar {
    pub quota: Quota,
    pub total: u64,
}

impl Bar {
    // Whether bonds that come to `part` are a quorum. No sum of 128 bonds is so large that 1,000 times it would not fit.
    pub fn is_met_by(self, part: u64) -> bool
        requires { (part ≤ member_limit * bond_limit) × Fits self }
        ensures { result ≡ enough part self }
    {
        let whole = u64::from(self.quota.p) * self.total;
        (0 < self.total) & (whole <= u64::from(self.quota.q) * part)
    }
}
