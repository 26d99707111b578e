//! A time's minute by vote.
//!
//! On worn discs many fields show line 16, with the second and the picture, and neither line 17 nor 18, with the
//! minute. The disc goes on, so each time that is read nearby tells which minute stands here, if it goes on with this
//! second and picture. A misread minute mostly stands alone. So each such time within 240 fields has a vote, of the
//! weight of its line, and the number that has more than half of all is elected, if they weigh 4 or more: two lines in
//! pass 1, so that no misread line alone decides if nothing else was read (`elected_is_right` says when it is the
//! right one).
//!
//! That number is found in two passes (the vote of Boyer and Moore): the first finds the only one that can have more
//! than half, the second weighs its votes. Votes are told apart by a **key**, from which no distance is taken off, so
//! that it is never negative: twice the number that the field itself would have, and the reach.

ghost use Rattle.std.specs.Prelude.{◌≡◌, ◌↔◌, ℕ, ◌+◌, ◌-◌, ◌*◌, ◌%◌, ◌≤◌, ◌<◌, ◌^◌, ◌==◌};
ghost use Rattle.std.specs.Prelude.{if◌then◌else◌, length, Some, true};
ghost use Rattle.vbi_side.specs.Beliefs.{field_most, sighting_weight, field_weight};
ghost use Rattle.vbi_side.specs.Votes.{vote_reach, minute_of, IsVoter, votes, weight_of_first, votes_cast, IsElected};
ghost use Rattle.vbi_side.specs.VoteCounts.{election_of, key_of, votes_by, Leads};

use crate::belief::FIELD_MOST;
use crate::election::Election;
use crate::lines::rate;
use crate::sighting::{Sighting, Sightings};
use vbi_words::System;

/// The fields on either side of one whose times vote: four seconds of NTSC, so that some line 17 or 18 of a worn disc
/// is read among them, and few enough that a clock leaves out four numbers there at most (`few_left_out`).
pub const VOTE_REACH: usize = 240;

/// A field whose times vote in an election.
#[derive(Clone, Copy)]
struct Voter {
    election: Election,
    field: usize,
    ghost near: { IsVoter election.field field },
}

/// What was counted of an election's votes.
#[derive(Clone, Copy)]
struct Count {
    /// The key in the lead: no other one has more than half of the votes.
    key: u64,
    /// By how much it may have more than half.
    ahead: u64,
    /// The weight of all votes.
    all: u64,
}

/// The pictures of a minute.
pub(crate) fn minute(system: System) -> u64
    ensures value { result ≡ minute_of system }
    ensures some { 1 ≤ result }
    ensures range { result ≤ 1800 }
{
    60 * u64::from(rate(system))
}

/// The key of a number of another field: a number of this one fits it whose double is less by the reach.
fn key_of(voter: Voter, number: u32) -> u64
    ensures value { result ≡ key_of voter.election.field voter.field number }
{
    let number = u64::from(number);
    2 * number + (voter.election.field + VOTE_REACH - voter.field) as u64
}

/// Whether this key goes on with the part of some minute.
fn goes_on(election: Election, key: u64) -> bool
    requires { key < 2 ^ 62 }
    ensures { result ≡ (key % (2 * minute_of election.system)
        == (2 * election.part + vote_reach) % (2 * minute_of election.system)) }
{
    let round = 2 * minute(election.system);
    key % round == (2 * u64::from(election.part) + VOTE_REACH as u64) % round
}

/// The count with a vote of this weight for a key.
fn with_vote(count: Count, key: u64, weight: u32) -> Count
    requires few { count.all < 2 ^ 62 }
    requires within { count.ahead ≤ count.all }
    ensures all { result.all ≡ count.all + weight }
    ensures within { result.ahead ≤ result.all }
    ensures leads { (of : ℕ → ℕ) → Leads of count
        → Leads (λ k. of k + (if key == k then weight else 0)) result }
{
    let weight = u64::from(weight);
    let all = count.all + weight;
    let (key, ahead) = if key == count.key {
        (key, count.ahead + weight)
    } else if weight <= count.ahead {
        (count.key, count.ahead - weight)
    } else {
        (key, weight - count.ahead)
    };
    Count { key, ahead, all }
}

/// The weight of a sighting, if it votes.
fn vote_of(voter: Voter, sighting: &Sighting) -> u32
    ensures value { result ≡ sighting_weight (votes (election_of voter.election) voter.field) sighting.now }
    ensures range { result ≤ 2 }
{
    if sighting.is_seen() && goes_on(voter.election, key_of(voter, sighting.number)) {
        sighting.counts()
    } else {
        0
    }
}

/// The count with a sighting of another field.
fn with_sighting(voter: Voter, count: Count, sighting: &Sighting) -> Count
    requires few { count.all < 2 ^ 62 }
    requires within { count.ahead ≤ count.all }
    ensures all { result.all
        ≡ count.all + sighting_weight (votes (election_of voter.election) voter.field) sighting.now }
    ensures within { result.ahead ≤ result.all }
    ensures few { result.all ≤ count.all + 2 }
    ensures leads { (of : ℕ → ℕ) → Leads of count
        → Leads (λ k. of k + sighting_weight (votes_by (election_of voter.election) k voter.field) sighting.now)
        result }
{
    let key = key_of(voter, sighting.number);
    with_vote(count, key, vote_of(voter, sighting))
}

/// The count with both sightings of another field.
fn with_both_lines(voter: Voter, count: Count, seen: &Sightings) -> Count
    requires few { count.all < 2 ^ 61 }
    requires within { count.ahead ≤ count.all }
    ensures all { result.all
        ≡ count.all + field_weight (votes (election_of voter.election) voter.field) (Some seen.now) }
    ensures within { result.ahead ≤ result.all }
    ensures few { result.all ≤ count.all + 4 }
    ensures leads { (of : ℕ → ℕ) → Leads of count
        → Leads (λ k. of k + field_weight (votes_by (election_of voter.election) k voter.field) (Some seen.now))
        result }
{
    let first = with_sighting(voter, count, &seen.line_17);
    with_sighting(voter, first, &seen.line_18)
}

/// The first field within reach.
fn first_voter(field: usize) -> usize
    ensures { result ≡ field - vote_reach }
{
    field.saturating_sub(VOTE_REACH)
}

/// Who is in the lead when all votes are counted.
#[tactic(auto, using(crate::proofs::Voting::keyed))]
fn counted(fields: &[Sightings], election: Election) -> Count
    requires { election.field < length fields.now }
    ensures all { result.all ≡ votes_cast (election_of election) fields.now }
    ensures few { result.all ≤ 4 * length fields.now }
    ensures leads { Leads (λ k. weight_of_first (votes_by (election_of election) k) fields.now (length fields.now))
        result }
{
    let mut count = Count {
        key: 0,
        ahead: 0,
        all: 0,
    };
    let end = fields.len().min(election.field + VOTE_REACH + 1);
    for other in first_voter(election.field)..end {
        let voter = Voter {
            election,
            field: other,
        };
        count = with_both_lines(voter, count, &fields[other]);
    }
    count
}

/// The weight of a sighting, if it votes for this key.
fn vote_by(voter: Voter, key: u64, sighting: &Sighting) -> u32
    ensures value { result ≡ sighting_weight (votes_by (election_of voter.election) key voter.field) sighting.now }
    ensures range { result ≤ 2 }
{
    if key_of(voter, sighting.number) == key {
        vote_of(voter, sighting)
    } else {
        0
    }
}

/// The weight of the votes for this key.
#[tactic(auto, using(crate::proofs::Voting::keyed))]
fn votes_by(fields: &[Sightings], election: Election, key: u64) -> u64
    requires { election.field < length fields.now }
    ensures value { result ≡ weight_of_first (votes_by (election_of election) key) fields.now (length fields.now) }
    ensures few { result ≤ 4 * length fields.now }
{
    let mut weight = 0;
    let end = fields.len().min(election.field + VOTE_REACH + 1);
    for other in first_voter(election.field)..end {
        let voter = Voter {
            election,
            field: other,
        };
        let seen = &fields[other];
        weight += u64::from(vote_by(voter, key, &seen.line_17));
        weight += u64::from(vote_by(voter, key, &seen.line_18));
    }
    weight
}

/// The number of the election's field that has this key, if it has the part of a minute.
fn number_of(election: Election, key: u64) -> Option<u64>
    ensures { (m : ℕ) → (result ≡ Some m)
        ↔ ((key ≡ 2 * m + vote_reach) × (m % minute_of election.system ≡ election.part)) }
{
    let reach = VOTE_REACH as u64;
    if key < reach || key % 2 == 1 {
        return None;
    }
    let number = (key - reach) / 2;
    (number % minute(election.system) == u64::from(election.part)).then_some(number)
}

/// Whether this many votes are enough: at least what both lines of one field weigh in pass 1, and more than half of
/// all.
fn are_enough(votes: u64, all: u64) -> bool
    requires { votes < 2 ^ 63 }
    ensures { (result ≡ true) ↔ ((field_most ≤ votes) × (all < 2 * votes)) }
{
    votes >= u64::from(FIELD_MOST) && 2 * votes > all
}

/// The number that is elected in a field that shows this part of a minute, if one is.
pub fn elected(system: System, fields: &[Sightings], field: usize, part: u32) -> Option<u64>
    requires { field < length fields.now }
    ensures { (m : ℕ) → (result ≡ Some m)
        ↔ IsElected (record { minute = minute_of system; field = field; part = part }) fields.now m }
{
    let election = Election {
        system,
        field,
        part,
    };
    let count = counted(fields, election);
    if are_enough(votes_by(fields, election, count.key), count.all) {
        number_of(election, count.key)
    } else {
        None
    }
}
