//! Decoding the levels of a line to the word that they show, one run of equal levels at a time.
//!
//! A cell has two half cells, of which one is low and one is high, and its bit is the level of the second. So the level
//! changes in the middle of every cell, and may stay the same from one cell to the next. A run of equal levels is one
//! half cell or two, and two are always longer than one: the most columns of one are less than twice the fewest. Here
//! are four cells after three lows, with the state that begins with each run:
//!
//! ```text
//! cell         |      1      |      2      |      3      |      4
//! bit          |      1      |      0      |      0      |      1
//! level     ..........##############.......#######..............#######
//! state     Lead      Second        Second First  Second        Second
//! ```
//!
//! How long a run will be isn't known while it lasts. One that begins in the middle of a cell (`Second`) may end with
//! that cell or, as a double run, in the middle of the next: `turn_second` decides it by the length, once the level has
//! changed. One that begins with a cell (`First`) ends in its middle. The first half cell of a word is low, so it can't
//! be told from the lows before it, and `Lead` counts both. The lows after a word may be any number too: they are the
//! `Tail` or, if the last bit is 0, belong to the last cell's `Second`, which has no greatest length then.
//!
//! A run that is too short, or neither one half cell nor two, shows when the level changes (the cause `change`), and
//! so does a high after the word; one that is too long shows at the first column past its limit (`hold`). `None` and
//! `Err` mean that no continuation shows a word, so that column is the first hopeless one.
//!
//! `read_runs` (outcome.rt) decodes a line this way if straight.rt finds no word, and `smoothed_word` (reading.rt)
//! decodes the smoothed levels. The contracts here speak of a machine, `vbi_words/proofs/Machine.antt`, for which it is
//! proved once what its states mean for the definition `Shows`; `specs/Decoder.antt` says which of its states a value
//! here is. So a change of the states changes both files, and the proofs about the machine. How long a half cell may be
//! is decided in `vbi_words` (system.rt, and `Geometry.antt`), and nothing here changes with it.

ghost use Rattle.std.specs.Prelude.{◌≡◌, ◌<◌, ◌^◌, ◌+◌, ◌≤◌, List, Bool, [], ◌∷◌};
ghost use Rattle.std.specs.Prelude.{◌++◌, replicate, IfSome, IfNone, IfOk, IfErr};
ghost use Rattle.vbi_words.specs.{Words.lowest_bits, Words.IsWord, Outcomes.IsOutcome};
ghost use Rattle.vbi_words.proofs.Machine.{second, dead, level_of, length_of, grown, is_lead};
ghost use Rattle.vbi_words.proofs.SystemMachine.{stay_of, turn_of, next_of, after_of, limit_of, ending_of, IsFit};
ghost use Rattle.vbi_words.proofs.SystemMachine.{state_after};
ghost use Rattle.vbi_line.specs.Decoder.{state_of, IsSound, run_of, DiesAfter};

use vbi_words::{Outcome, System, Word24};

/// The number of cells of a word, one for each bit.
const CELLS: u32 = 24;

/// What is known after some levels of a line: the last run of equal levels, and the bits of the cells so far, the first
/// the most significant. Whether that run is one half cell or two is decided by its length when the level changes.
#[derive(Clone, Copy)]
pub(crate) enum Decoder {
    /// All levels were low, and there were this many.
    Lead(usize),
    /// The run began at the start of a cell. `cells` is the number of cells before it, and `bits` has their bits.
    First {
        level: bool,
        run: usize,
        cells: u32,
        bits: u32,
    },
    /// The run began in the middle of a cell, which is counted in `cells` and has its bit in `bits`.
    Second {
        level: bool,
        run: usize,
        cells: u32,
        bits: u32,
    },
    /// All cells are read, and only lows followed the last; these are the word's bits.
    Tail(u32),
}

/// Some bits with one more at the end.
#[tactic(auto, using(crate::proofs::Steps::steps))]
pub(crate) fn with_bit(cells: u32, bits: u32, bit: bool) -> u32
    requires cells { cells < 24 }
    requires bits { bits < 2 ^ cells }
    ensures list { lowest_bits (cells + 1) result ≡ lowest_bits cells bits ++ bit ∷ [] }
    ensures range { result < 2 ^ (cells + 1) }
{
    if bit { 2 * bits + 1 } else { 2 * bits }
}

/// The decoder at the first column of a run that begins in the middle of a cell. A run's level there is the cell's bit.
#[tactic(auto, using(crate::proofs::Steps::steps))]
fn begin_second(level: bool, cells: u32, bits: u32) -> Decoder
    requires cells { cells < 24 }
    requires bits { bits < 2 ^ cells }
    ensures state { state_of result ≡ second level 1 (lowest_bits cells bits ++ level ∷ []) }
    ensures sound { IsSound result × (run_of result ≤ 1) }
{
    Decoder::Second {
        level,
        run: 1,
        cells: cells + 1,
        bits: with_bit(cells, bits, level),
    }
}

/// The word of these bits.
pub(crate) fn word_of(bits: u32) -> Word24
    requires { IsWord bits }
    ensures { result ≡ bits }
{
    Word24::new(bits).unwrap()
}

/// The decoder after a change of level that ends a run from the middle of a cell, or `None` if no word can be shown
/// any more. The run was the cell's second half, or both that and the first half of the next cell.
#[tactic(auto, using(crate::proofs::Steps::steps))]
fn turn_second(system: System, level: bool, run: usize, cells: u32, bits: u32) -> Option<Decoder>
    requires sound { IsSound (Decoder.Second level run cells bits) }
    ensures some { IfSome result (λ r. state_of r ≡ turn_of system (state_of (Decoder.Second level run cells bits))) }
    ensures sound { IfSome result (λ r. IsSound r × (run_of r ≤ 1)) }
    ensures none { IfNone result (turn_of system (state_of (Decoder.Second level run cells bits)) ≡ dead) }
{
    if run <= system.half_max() {
        if run < system.half_min() {
            None
        } else if cells < CELLS {
            Some(Decoder::First {
                level: !level,
                run: 1,
                cells,
                bits,
            })
        } else if level {
            Some(Decoder::Tail(bits))
        } else {
            None
        }
    } else if run >= 2 * system.half_min() && cells < CELLS {
        Some(begin_second(!level, cells, bits))
    } else {
        None
    }
}

impl Decoder {
    /// The level of the last run.
    fn level(self) -> bool
        ensures { result ≡ level_of (state_of self) }
    {
        match self {
            Decoder::Lead(_) | Decoder::Tail(_) => false,
            Decoder::First { level, .. } | Decoder::Second { level, .. } => level,
        }
    }

    /// The decoder after one more column of the same level, or `None` if no word can be shown any more.
    // A column at a time, as the machine of the proofs goes. `read_run` takes one such step, and then the rest at once.
    #[tactic(auto, using(crate::proofs::Steps::steps))]
    fn stay(self, system: System) -> Option<Decoder>
        requires sound { IsSound self }
        requires room { run_of self + 1 < 2 ^ 32 }
        ensures some { IfSome result (λ r. state_of r ≡ stay_of system (state_of self)) }
        ensures sound { IfSome result (λ r. IsSound r × (run_of r ≤ run_of self + 1)) }
        ensures none { IfNone result (stay_of system (state_of self) ≡ dead) }
    {
        match self.limit(system) {
            Some(limit) if self.length() >= limit => None,
            _ => Some(self.grown(1)),
        }
    }

    /// The decoder after a change of level, or `None` if no word can be shown any more.
    #[tactic(auto, using(crate::proofs::Steps::steps))]
    fn turn(self, system: System) -> Option<Decoder>
        requires sound { IsSound self }
        ensures some { IfSome result (λ r. state_of r ≡ turn_of system (state_of self)) }
        ensures sound { IfSome result (λ r. IsSound r × (run_of r ≤ 1)) }
        ensures none { IfNone result (turn_of system (state_of self) ≡ dead) }
    {
        match self {
            Decoder::Lead(run) if run >= system.half_min() => Some(begin_second(true, 0, 0)),
            Decoder::First {
                level,
                run,
                cells,
                bits,
            } if run >= system.half_min() => Some(begin_second(!level, cells, bits)),
            Decoder::Second {
                level,
                run,
                cells,
                bits,
            } => turn_second(system, level, run, cells, bits),
            Decoder::Lead(_) | Decoder::First { .. } | Decoder::Tail(_) => None,
        }
    }

    /// The decoder after one more column of this level, or `None` if no word can be shown any more.
    #[inline(always)]
    fn next(self, system: System, level: bool) -> Option<Decoder>
        requires sound { IsSound self }
        requires room { run_of self + 1 < 2 ^ 32 }
        ensures some { IfSome result (λ r. state_of r ≡ next_of system (state_of self) level) }
        ensures sound { IfSome result (λ r. IsSound r × (run_of r ≤ run_of self + 1)) }
        ensures none { IfNone result (next_of system (state_of self) level ≡ dead) }
    {
        if level == self.level() {
            self.stay(system)
        } else {
            self.turn(system)
        }
    }

    /// The word that the line shows if it ends here.
    #[tactic(auto, using(crate::proofs::Steps::steps))]
    pub(crate) fn word(self, system: System) -> Option<Word24>
        requires sound { IsSound self }
        requires fit { IsFit system (state_of self) }
        ensures some { IfSome result (λ w. IsWord w × (ending_of system (state_of self) ≡ Some (lowest_bits 24 w))) }
        ensures none { IfNone result (ending_of system (state_of self) ≡ None) }
    {
        match self {
            Decoder::Second {
                run,
                cells,
                bits,
                ..
            } if cells == CELLS && run >= system.half_min() => Some(word_of(bits)),
            Decoder::Tail(bits) => Some(word_of(bits)),
            Decoder::Lead(_) | Decoder::First { .. } | Decoder::Second { .. } => None,
        }
    }

    /// Whether all levels were low.
    fn is_lead(self) -> bool
        ensures { result ≡ is_lead (state_of self) }
    {
        matches!(self, Decoder::Lead(_))
    }

    /// The outcome of a line that ends here.
    pub(crate) fn end(self, system: System) -> Outcome
        requires sound { IsSound self }
        requires fit { IsFit system (state_of self) }
        ensures { (levels : List Bool) → state_of self ≡ state_after system levels → IsOutcome system levels result }
    {
        match self.word(system) {
            Some(word) => Outcome::Word(word),
            None if self.is_lead() => Outcome::Blank,
            None => Outcome::Unfinished,
        }
    }

    /// The greatest length that the last run may have, if there is one.
    #[tactic(auto, using(crate::proofs::Steps::steps))]
    fn limit(self, system: System) -> Option<usize>
        requires { IsSound self }
        ensures { result ≡ limit_of system (state_of self) }
    {
        match self {
            Decoder::Tail(_) | Decoder::Lead(_) => None,
            Decoder::First { .. } => Some(system.half_max()),
            Decoder::Second { cells, .. } if cells < CELLS => Some(2 * system.half_max()),
            Decoder::Second { level: true, .. } => Some(system.half_max()),
            Decoder::Second { .. } => None,
        }
    }

    /// How many columns the last run has; 0 if its length has no limit and is not kept.
    fn length(self) -> usize
        ensures { result ≡ length_of (state_of self) }
    {
        match self {
            Decoder::Lead(run) | Decoder::First { run, .. } | Decoder::Second { run, .. } => run,
            Decoder::Tail(_) => 0,
        }
    }

    /// The decoder with its last run longer by `count` columns.
    fn grown(self, count: usize) -> Decoder
        requires sound { IsSound self }
        requires room { run_of self + count < 2 ^ 32 }
        ensures state { state_of result ≡ grown count (state_of self) }
        ensures sound { IsSound result × (run_of result ≤ run_of self + count) }
    {
        let mut grown = self;
        match &mut grown {
            Decoder::Lead(run) => *run += count,
            Decoder::First { run, .. } => *run += count,
            Decoder::Second { run, .. } => *run += count,
            Decoder::Tail(_) => {}
        }
        grown
    }

    /// The decoder after `count` columns of this level. `Err(n)`: after n of them a word could still be shown, and
    /// after one more none can.
    // Inlined like `next`, so that the decoder stays in registers from run to run.
    #[inline(always)]
    pub(crate) fn read_run(
        self,
        system: System,
        level: bool,
        count: usize,
    ) -> Result<Decoder, usize>
        requires sound { IsSound self }
        requires fit { IsFit system (state_of self) }
        requires some { 0 < count }
        requires room { run_of self + count < 2 ^ 32 }
        ensures ok { IfOk result (λ r. state_of r ≡ after_of system (state_of self) (replicate count level)) }
        ensures sound { IfOk result (λ r. IsSound r × (run_of r ≤ run_of self + count)) }
        ensures err { IfErr result (λ lived. (lived < count) × DiesAfter system (state_of self) level lived) }
    {
        let Some(begun) = self.next(system, level) else {
            return Err(0);
        };
        // The other columns have the level of the first, so only the limit of a run's length can be passed now.
        let more = count - 1;
        match begun.limit(system) {
            Some(limit) => {
                if begun.length() + more <= limit {
                    Ok(begun.grown(more))
                } else {
                    Err(1 + limit - begun.length())
                }
            }
            None => Ok(begun.grown(more)),
        }
    }
}
