//! What the calls that judge a whole side say together. A function here does nothing: its contract is a law.
//!
//! `vbi_side` has these laws of its judge (`gap_laws`, `clean_laws`), with the numbers of a rule. Here they speak of
//! what C hands over and is answered: by `ldvbi_judge`, and then by `ldvbi_judge_side`, by a clock or by none (the
//! clauses `plain`). The last ones say what a search finds on such a side.

ghost use Rattle.std.specs.Prelude.{◌≡◌, ℕ, ◌+◌, ◌*◌, ◌-◌, ◌<◌, ◌≤◌, true, false, Bool, Option, Some, Ok};
ghost use Rattle.vbi_words.specs.Levels.{Slicing};
ghost use Rattle.vbi_side.specs.{Clocks.DiscCountsBy, Clocks.DiscNearlyBy, Clocks.out_near, Truth.IsNear};
ghost use Rattle.vbi_side.specs.{Numbers.IsMarked, Side.DiscRuns, Side.DiscCounts, Side.AreLost, Side.NoneLost};
ghost use Rattle.vbi_whole.specs.CleanRuns.{IsCleanRun};
ghost use Rattle.vbi_c.specs.{Types.FoundField, CalledWhole.Called, CalledWhole.IsCalledWhole};
ghost use Rattle.vbi_c.specs.CalledWhole.{AreClearEnds, AreFewLost};
ghost use Rattle.vbi_c.specs.Types.{System, Clock, Plain, Video, Film, LdvbiSideRule, Siding, Asked, Sought};
ghost use Rattle.vbi_c.specs.CleanSides.{IsJudgedClean, AsksVideo, AreChaptersRead, IsFirstPicture};
ghost use Rattle.vbi_c.specs.{DrawnSides.drawn_numbers, Numbers.clock_given, Numbers.both_by, WholeSides.siding_by};
ghost use Rattle.vbi_seek.specs.{NumberLeads.IsCompleteIn, NumberLeads.number_spots, Spots.Leads, NumberSearch.Numbers};
ghost use Rattle.vbi_seek.specs.{NumberSearch.shown_of, FieldLines.Side, ChapterSearch.chapters_from};
ghost use Rattle.vbi_seek.specs.{ChapterLeads.IsChapterComplete, ChapterLeads.chapter_spots};

/// A call that isn't refused judges by the clock of its rule, and by none if the rule has none.
pub fn clock_asked()
    ensures by_clock { (rule : LdvbiSideRule) (fit : Bool) (siding : Siding) → siding_by rule fit ≡ Ok siding
        → clock_given rule.clock ≡ Some siding.numbering.clock }
    ensures plain { (rule : LdvbiSideRule) (fit : Bool) (siding : Siding) → siding_by rule fit ≡ Ok siding
        → rule.clock.kind ≡ 0 → siding.numbering.clock ≡ Plain }
{}

/// If a side of video is called whole by the clock by which its disc counts, which leaves out no number near the first
/// and the last one, no field is lost from 24 after the first to 24 before the last.
pub fn called_whole()
    ensures by_clock { (disc : ℕ → Option ℕ) (place : ℕ → ℕ) (called : Called) → IsCalledWhole disc place called
        → called.siding.pace ≡ Video → both_by called.both called.numbers ≡ false
        → DiscCountsBy called.siding.numbering.clock Video disc → AreClearEnds called
        → NoneLost place (called.side.first + 24) (called.side.last - 24) }
    ensures plain { (disc : ℕ → Option ℕ) (place : ℕ → ℕ) (called : Called) → IsCalledWhole disc place called
        → called.siding.pace ≡ Video → both_by called.both called.numbers ≡ false
        → called.siding.numbering.clock ≡ Plain → DiscRuns Video disc
        → NoneLost place (called.side.first + 24) (called.side.last - 24) }
{}

/// With numbers on both fields of a picture at most two fields are lost between one near the first number and one near
/// the last; of film at most four; and if the clock leaves out numbers near these two, at most two for each.
pub fn nearly_called_whole()
    ensures both { (disc : ℕ → Option ℕ) (place : ℕ → ℕ) (called : Called) → IsCalledWhole disc place called
        → called.siding.pace ≡ Video → both_by called.both called.numbers ≡ true
        → DiscNearlyBy called.siding.numbering.clock 1 disc → AreClearEnds called → AreFewLost place called 2 }
    ensures film { (disc : ℕ → Option ℕ) (place : ℕ → ℕ) (called : Called) → IsCalledWhole disc place called
        → called.siding.pace ≡ Film → DiscCountsBy called.siding.numbering.clock Film disc → AreClearEnds called
        → AreFewLost place called 4 }
    ensures anywhere { (disc : ℕ → Option ℕ) (place : ℕ → ℕ) (called : Called) → IsCalledWhole disc place called
        → called.siding.pace ≡ Video → both_by called.both called.numbers ≡ false
        → DiscCountsBy called.siding.numbering.clock Video disc
        → (m n p q some : ℕ) × IsMarked called.numbers called.side.first m × IsMarked called.numbers called.side.last n
        × IsNear called.side.first p × IsNear called.side.last q × AreLost place p q some
        × (some ≤ 2 * (out_near called.siding.numbering.clock m + out_near called.siding.numbering.clock n)) }
    ensures both_plain { (disc : ℕ → Option ℕ) (place : ℕ → ℕ) (called : Called) → IsCalledWhole disc place called
        → called.siding.pace ≡ Video → both_by called.both called.numbers ≡ true
        → called.siding.numbering.clock ≡ Plain → DiscCounts 1 disc → AreFewLost place called 2 }
    ensures film_plain { (disc : ℕ → Option ℕ) (place : ℕ → ℕ) (called : Called) → IsCalledWhole disc place called
        → called.siding.pace ≡ Film → called.siding.numbering.clock ≡ Plain → DiscRuns Film disc
        → AreFewLost place called 4 }
{}

/// A side of video that is one run of its disc from the first number to lead-out, each number of which was read on both
/// lines in pass 1, is called whole, with no gap, no unread number and no reason.
pub fn clean_side_is_whole()
    ensures { (number : ℕ → ℕ) (called : Called) (begin last : ℕ) → IsJudgedClean number called begin last
        → (called.side.verdict ≡ 1) × (called.side.reasons ≡ 0) × (called.side.tally.gaps ≡ 0)
        × (called.side.tally.unread ≡ 0) × (called.side.swap ≡ 0) × (called.side.first ≡ begin)
        × (called.side.last ≡ begin + 2 * last) }
{}

/// What the fields of such a run tell leads a search to each of its numbers, if the run has three fields more than a
/// sixteenth of the side. So on a side of at most a million fields each is found, if the pace of video is asked for, or
/// the pace is to be found, and the disc leaves out no number, counts times, or is PAL.
pub fn clean_leads()
    ensures leads { (numbers : Numbers) (clock : Clock) (number : ℕ → ℕ) (begin last p : ℕ)
        → IsCleanRun clock number (shown_of numbers) begin last → numbers.side.count + 16 ≤ 32 * last → p ≤ last
        → Leads (number_spots numbers) (number p) (begin + 2 * p) (begin - 9) (begin + 2 * last - 2) }
    ensures found { (numbers : Numbers) (clock : Clock) (number : ℕ → ℕ) (begin last p : ℕ)
        (sought : Sought) → IsCleanRun clock number (shown_of numbers) begin last
        → numbers.side.count + 16 ≤ 32 * last → p ≤ last → AsksVideo clock numbers.judging
        → numbers.side.count ≤ 1000000 → IsCompleteIn numbers (number p) sought → sought.field ≡ begin + 2 * p }
{}

/// There are such sides: what the fields tell of one that is drawn with pictures 1, 2 and 3 leads to picture 2.
pub fn worked_leads()
    ensures { (system : System) (levels : Slicing) (asked : Asked) → levels.black < levels.white
        → Leads (number_spots (drawn_numbers system levels asked)) 2 2 0 2 }
{}

/// What the fields of a run of chapters tell leads a search to each of them, if the run has three fields more than a
/// sixteenth of the side. So on a side of at most a million fields each is found in its first picture.
pub fn chapters_read_lead()
    ensures leads { (side : Side) (chapter : ℕ → ℕ) (begin last p : ℕ)
        → AreChaptersRead chapter (chapters_from side 0 side.count) begin last → side.count + 16 ≤ 32 * last → p ≤ last
        → IsFirstPicture chapter p
        → Leads (chapter_spots side) (chapter p) (begin + 2 * p) (begin - 21) (begin + 2 * last - 2) }
    ensures found { (side : Side) (chapter : ℕ → ℕ) (begin last p : ℕ)
        (place : FoundField) → AreChaptersRead chapter (chapters_from side 0 side.count) begin last
        → side.count + 16 ≤ 32 * last → p ≤ last → IsFirstPicture chapter p → side.count ≤ 1000000
        → IsChapterComplete side (chapter p) place → place.field ≡ begin + 2 * p }
{}
