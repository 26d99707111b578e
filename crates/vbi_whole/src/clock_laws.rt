//! Laws of the clock: what it leaves out, and that this is never called lost. A function here does nothing: its
//! contract is a law.

ghost use Rattle.std.specs.Prelude.{◌≡◌, ℕ, ◌+◌, ◌-◌, ◌<◌, ◌≤◌, Bool, List, [], ◌∷◌, Option, Some, None, map, true};
ghost use Rattle.std.specs.Prelude.{false, if◌then◌else◌};
ghost use Rattle.vbi_whole.specs.Types.{Clock, Plain, DropFrame, OneIn, Gap, Numbering, Pace, Video};
ghost use Rattle.vbi_whole.specs.Gaps.{lost, open_gap, gap_of, gap_made, skipped, to_judge, rule_by, amid};
ghost use Rattle.vbi_whole.specs.WorkedSides.{clv, clv_by, worked_side, worked_answers, worked_ends, by_times, unseen};
ghost use Rattle.vbi_whole.specs.{Tallies.lost_of, Tallies.undecided_of, Verdicts.IsFinding, Verdicts.found_whole};
ghost use Rattle.vbi_side.specs.Clocks.{left_out, leaves_out, kept, place, clock_fits, IsProper, IsClear, out_between};
ghost use Rattle.vbi_side.specs.Clocks.{out_near, DiscCountsBy, IsClearAt, numbered, drop_number, thousand_number};
ghost use Rattle.vbi_side.specs.{Clocks.more_number, Side.DiscRuns, Side.captured, Votes.IsVoter, Beliefs.enough};
ghost use Rattle.vbi_side.specs.{Truth.wrong_weight, Paces.spot};

/// The closed forms count what they say: none is left out below number 0, and below the next number one more than below
/// this one, just if this one is left out. The others are kept.
pub fn left_out_is()
    ensures none { (clock : Clock) → IsProper clock → left_out clock 0 ≡ 0 }
    ensures next { (clock : Clock) (n : ℕ) → IsProper clock
        → left_out clock (n + 1) ≡ left_out clock n + (if leaves_out clock n then 1 else 0) }
    ensures others { (clock : Clock) (n : ℕ) → kept clock n + left_out clock n ≡ n }
{}

/// With no clock each number is kept, none is ever near one that is left out, and a disc counts by it that counts on.
pub fn plain_is()
    ensures kept { (n : ℕ) → kept Plain n ≡ n }
    ensures clear { (n : ℕ) → IsClear Plain n }
    ensures runs { (pace : Pace) (disc : ℕ → Option ℕ) → DiscRuns pace disc → DiscCountsBy Plain pace disc }
{}

/// What the clock leaves out is never called lost, undecided or unread: these and what is left out are together no more
/// than the numbers between. And where the places of two numbers are as far apart as their fields there is no gap.
pub fn left_out_is_not_lost()
    ensures gap { (clock : Clock) (gap : Gap) → gap.from < gap.to
        → lost_of clock gap + undecided_of clock gap + out_between clock gap.from gap.to ≤ gap.to - gap.from - 1 }
    ensures unread { (clock : Clock) (m n : ℕ) → m < n
        → skipped clock m n + out_between clock m n ≤ n - m - 1 }
    ensures none { (numbering : Numbering) (ended : Bool) (shown i m k n : ℕ)
        → clock_fits numbering.clock i m k n ≡ true → gap_of (rule_by Video 0 numbering) (amid ended shown) (spot i m)
        (spot k n) ≡ None }
{}

/// Within 240 fields these clocks leave out four numbers at most: what `RunsFromBy` asks for beside the places. Of 24
/// numbers they leave out two at most, by drop-frame, or one.
#[tactic(auto, using(vbi_side::proofs::FewLeftOut::few_numbers))]
pub fn few_left_out()
    ensures drop { (i m j n : ℕ) → IsVoter i j → clock_fits DropFrame i m j n ≡ true
        → left_out DropFrame n ≤ left_out DropFrame m + 4 }
    ensures thousand { (phase i m j n : ℕ) → phase < 1000 → IsVoter i j → clock_fits (OneIn 1000 phase) i m j n ≡ true
        → left_out (OneIn 1000 phase) n ≤ left_out (OneIn 1000 phase) m + 4 }
    ensures more { (phase i m j n : ℕ) → phase < 1001 → IsVoter i j → clock_fits (OneIn 1001 phase) i m j n ≡ true
        → left_out (OneIn 1001 phase) n ≤ left_out (OneIn 1001 phase) m + 4 }
    ensures drop_near { (n : ℕ) → out_near DropFrame n ≤ 2 }
    ensures even_near { (phase n : ℕ) → (phase < 1000 → out_near (OneIn 1000 phase) n ≤ 1)
        × (phase < 1001 → out_near (OneIn 1001 phase) n ≤ 1) }
{}

/// There are discs that count by the clocks, whatever the phase; they don't count on without.
pub fn clocked_discs_are()
    ensures drop { DiscCountsBy DropFrame Video (numbered drop_number) }
    ensures thousand { (phase : ℕ) → phase < 1000
        → DiscCountsBy (OneIn 1000 phase) Video (numbered (thousand_number phase)) }
    ensures more { (phase : ℕ) → phase < 1001
        → DiscCountsBy (OneIn 1001 phase) Video (numbered (more_number phase)) }
    ensures not_on { DiscRuns Video (numbered drop_number) → ⊥ }
{}

/// The premises of `whole_yes` by a clock hold together, beside those in `worked_premises`: of the same capture, as one
/// of a disc that leaves out one number in 1,000.
#[tactic(auto, unfolding(vbi_side::specs::Clocks::kept, vbi_side::specs::Clocks::left_out))]
pub fn worked_premises_by_clock()
    ensures runs { DiscCountsBy (OneIn 1000 500) Video (numbered (thousand_number 500)) }
    ensures finding { IsFinding (to_judge (rule_by Video 0 (clv_by
        (OneIn 1000 500))) worked_side worked_answers worked_ends) true (found_whole 0 48) [] [] }
    ensures few { wrong_weight (captured (numbered (thousand_number 500)) (λ i. i)) worked_side 0 < enough }
    ensures low { wrong_weight (captured (numbered (thousand_number 500)) (λ i. i)) worked_side 48 < enough }
    ensures clear { IsClearAt (OneIn 1000 500) worked_answers 0 × IsClearAt (OneIn 1000 500) worked_answers 48 }
{}

/// Gaps by a clock, worked by hand: 0:00:59.29 is followed by 0:01:00.02, and 0:09:59.29 by 0:10:00.00.
#[tactic(auto, unfolding(vbi_side::specs::Clocks::left_out, vbi_side::specs::Clocks::kept))]
pub fn worked_clocks()
    ensures goes_on { gap_of (rule_by Video 0 (clv_by DropFrame)) unseen (spot 3597 1799) (spot 3599 1802) ≡ None }
    ensures open { gap_of by_times unseen (spot 3597 1799) (spot 3599 1802)
        ≡ Some (gap_made (spot 3597 1799) (spot 3599 1802) open_gap 4 0) }
    ensures lost { gap_of (rule_by Video 0 (clv_by DropFrame)) unseen (spot 3597 1799) (spot 3599 1803)
        ≡ Some (gap_made (spot 3597 1799) (spot 3599 1803) lost 2 0) }
    ensures other { gap_of (rule_by Video 0 (clv_by DropFrame)) unseen (spot 10 5) (spot 12 7)
        ≡ Some (gap_made (spot 10 5) (spot 12 7) lost 2 0) }
    ensures tenth { gap_of (rule_by Video 0 (clv_by DropFrame)) unseen (spot 35961 17999) (spot 35963 18002)
        ≡ Some (gap_made (spot 35961 17999) (spot 35963 18002) lost 4 0) }
    ensures one { gap_of (rule_by Video 0 (clv_by (OneIn 1000 399))) unseen (spot 797 398) (spot 799 400) ≡ None }
{}
