// Reading a log on: several records in one call.
#![tactic(auto)]

ghost use Rattle.std.specs.Prelude.{◌≡◌, false, ◌+◌, ◌≤◌, ◌<◌, leb, length, drop};
ghost use Rattle.std.specs.Prelude.{Ok};
ghost use Rattle.model.specs.Bits.{set_places};
ghost use Rattle.model.specs.Bytes.{part};
ghost use Rattle.model.specs.Decide.{decide};
ghost use Rattle.model.specs.Limits.{member_limit, checkpoint_limit, vote_limit};
ghost use Rattle.model.specs.Lists.{any};
ghost use Rattle.state.specs.Sound.{Typed, Sound};
ghost use Rattle.state.specs.State.{model_of, with_vote};
ghost use Rattle.ballots.specs.Ballot.{vote_in, link_answer_of};
ghost use Rattle.registry.specs.Decision.{decision_of};
ghost use Rattle.rules.specs.Decision.{BitsFit};
ghost use Rattle.reader.specs.Many.{read_many, IsBatch};
ghost use Rattle.reader.specs.Storing.{IsView, Searched, bundle_cast, Stores};

use ballots::links::Link;
use ballots::view::View;
use ballots::votes::{Ballot, decide_cast};
use model::{MAX_MEMBERS, Refusal};
use registry::Decision;
use search::Links;
use state::{Numbers, Outcome, Passed, Witness};

// What reading on comes to: why it ended, what the last record that was passed came to (`Nothing` where none was), the
// offset to go on from, how many records were passed and how many entries they have, and the witness.
// The end is what the next record came to, where that cannot be passed (`Nothing` where none is left). It is `None`
// where no more records may be passed, since as many were as the limit says, or fewer than 128 bytes are left for their
// entries (so with a limit of 0, or fewer than 128 bytes lent, none ever is).
#[derive(Clone, Copy)]
pub struct Batch {
    pub end: Option<Outcome>,
    pub last: Outcome,
    pub next: usize,
    pub records: u64,
    pub used: usize,
    pub witness: Witness,
}

// What the rows look at: of the ids, the parents and the heights those that are held; all of the names; the
// numbers, and how many votes are held.
fn view_of<'a>(held: &'a Witness) -> View<'a>
    requires { (held.now.member_count ≤ member_limit) × (held.now.checkpoint_count ≤ checkpoint_limit) }
    ensures { IsView held.now result }
{
    let checkpoints = held.checkpoint_count;
    View {
        ids: &held.ids[..held.member_count],
        names: &held.names,
        parents: &held.parents[..checkpoints],
        heights: &held.heights[..checkpoints],
        numbers: held.numbers,
        votes: held.vote_count,
    }
}

// A vote that has room is held, and its number stands in its chain.
fn store_vote(held: &mut Witness, links: &mut Links, ballot: Ballot)
    requires { Typed held.old × (held.old.vote_count < vote_limit) × Searched held.old links.old }
    ensures { (held.new ≡ with_vote held.old (vote_in ballot)) × Searched held.new links.new }
{
    let k = held.vote_count;
    held.voters[k] = ballot.voter;
    held.sources[k] = ballot.source;
    held.targets[k] = ballot.target;
    held.vote_count = k + 1;
    links.put_first(k, ballot.key());
}

// The votes of the bundle at `at`, one after the other: each meets what the last one left. Their entries stand from
// `used` on, and end at what is given.
fn cast_votes(
    held: &mut Witness,
    links: &mut Links,
    link: Result<Link, Refusal>,
    log: &[u8],
    at: usize,
    rows: &mut [u8],
    used: usize,
) -> usize
    requires held { Sound held.old × Searched held.old links.old }
    requires bits { (at + 17 ≤ length log.now)
        × (any (λ p. leb held.old.member_count p) (set_places (part (at + 1) 16 log.now)) ≡ false)
        × (0 < length (set_places (part (at + 1) 16 log.now))) }
    requires room { used + member_limit ≤ length rows.old }
    ensures { Stores held.old (bundle_cast held.old (link_answer_of link) (part (at + 1) 16 log.now)) rows.old used rows.new
        held.new links.new result }
{
    let mut end = used;
    for p in 0..MAX_MEMBERS {
        if bits::is_set(log, at + 1, p) {
            let vote = decide_cast(links, held.vote_count, link, held.ids[p]);
            rows[end] = entries::vote_entry(vote, end == used);
            end += 1;
            if let Ok(ballot) = vote {
                store_vote(held, links, ballot);
            }
        }
    }
    end
}

// What was decided on the record at `at` is held, and its entries stand from `used` on; they end at what is given. The
// state is written in place: it is large, and a function that took it and gave it back would copy it for each record.
fn store(
    held: &mut Witness,
    links: &mut Links,
    decision: Decision,
    log: &[u8],
    at: usize,
    rows: &mut [u8],
    used: usize,
) -> usize
    requires held { Sound held.old × Searched held.old links.old }
    requires decided { decision_of (model_of held.old) (drop at log.now) (Ok decision)
        ≡ decide (model_of held.old) (drop at log.now) }
    requires bits { BitsFit held.old.member_count (drop at log.now) (Ok decision) }
    requires room { used + member_limit ≤ length rows.old }
    ensures { Stores held.old (decide (model_of held.old) (drop at log.now)) rows.old used rows.new held.new
        links.new result }
{
    match decision {
        Decision::Nothing => {}
        Decision::Member(id, bond) => {
            let k = held.member_count;
            held.ids[k] = id;
            held.bonds[k] = bond;
            held.member_count = k + 1;
        }
        Decision::Checkpoint(parent, height) => {
            let k = held.checkpoint_count;
            state::copy_name(&mut held.names, k * 32, log, at + 1);
            held.parents[k] = parent;
            held.heights[k] = height;
            held.checkpoint_count = k + 1;
        }
        Decision::Vote(ballot) => store_vote(held, links, ballot),
        Decision::Bundle(_, link) => return cast_votes(held, links, link, log, at, rows, used),
        Decision::Quorum(quota) => {
            held.numbers = Numbers {
                p: quota.p,
                q: quota.q,
            };
        }
    }
    rows[used] = 0;
    used + 1
}

// The records from `at` on, into a sound witness, to the log's end or its stop, at most `limit`, while 128 of the bytes
// lent are free; the entries of each go there. Beside the state go the votes' numbers in chains, so that a vote is soon
// looked for.
pub fn read_many(w: Witness, log: &[u8], at: usize, limit: u64, rows: &mut [u8]) -> Batch
    requires { Sound w }
    ensures { IsBatch (read_many limit (length rows.old) w log.now at) rows.old result
        rows.new }
{
    let n = w.vote_count;
    let mut links = tables::votes::index(&w.voters[..n], &w.sources[..n], &w.targets[..n]);
    let mut held = w;
    let mut next = at;
    let mut last: Outcome = Ok(Passed::Nothing);
    let mut records: u64 = 0;
    let mut used: usize = 0;
    while (records < limit) & (MAX_MEMBERS <= rows.len() - used) {
        let view = view_of(&held);
        let decided = rules::decide_record(&view, &links, log, next);
        let outcome = rules::outcome_of(decided);
        let passed = wire::records::record_length(log, next);
        if passed == 0 {
            return Batch {
                end: Some(outcome),
                last,
                next,
                records,
                used,
                witness: held,
            };
        }
        match decided {
            Ok(decision) => used = store(&mut held, &mut links, decision, log, next, rows, used),
            Err(refusal) => {
                rows[used] = u8::from(refusal);
                used += 1;
            }
        }
        last = outcome;
        next += passed;
        records += 1;
    }
    Batch {
        end: None,
        last,
        next,
        records,
        used,
        witness: held,
    }
}
