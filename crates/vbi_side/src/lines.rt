//! From the words of a field's lines to the numbers that they show.

ghost use Rattle.std.specs.Prelude.{◌≡◌, ◌≤◌, ◌∷◌, [], List};
ghost use Rattle.vbi_side.specs.Lines.{rate_of, pass_weight, code_in, sighting_of, is_instead, sightings_of};

use crate::sighting::{Sighting, Sightings};
use vbi_words::{Code, System, Word24, classify};

/// What is counted.
#[derive(Clone, Copy)]
pub enum Counted {
    /// The picture numbers of a CAV disc.
    Pictures,
    /// The times of a CLV disc, as pictures from the disc's beginning, 30 (NTSC) or 25 (PAL) to a second.
    Times,
}

/// What a line shows.
#[derive(Clone, Copy)]
pub struct Shown {
    /// The word that the line shows, if it shows one.
    pub word: Option<Word24>,
    /// 2 if only the smoothed levels show the word, 3 if it is the nearest one: it then weighs half.
    pub pass: u8,
}

impl Shown {
    /// How much its word weighs.
    pub(crate) fn weight(&self) -> u32
        ensures value { result ≡ pass_weight self.now.pass }
        ensures range { result ≤ 2 }
    {
        match self.pass {
            2 | 3 => 1,
            _ => 2,
        }
    }

    /// The code of its word.
    pub(crate) fn code(&self) -> Option<Code>
        ensures { result ≡ code_in self.now }
    {
        match self.word {
            Some(word) => Some(classify(word)),
            None => None,
        }
    }
}

/// The pictures of a second.
pub(crate) fn rate(system: System) -> u32
    ensures value { result ≡ rate_of system }
    ensures range { result ≤ 30 }
{
    match system {
        System::Ntsc => 30,
        System::Pal => 25,
    }
}

/// The number that line 17 or 18 shows, beside line 16.
fn sighting(system: System, counted: Counted, line_16: &Shown, line: &Shown) -> Sighting
    ensures { result ≡ sighting_of system counted line_16.now line.now }
{
    match (counted, line_16.code(), line.code()) {
        (Counted::Pictures, _, Some(Code::Picture(number))) => Sighting {
            number,
            weight: line.weight(),
        },
        (
            Counted::Times,
            Some(Code::ClvPicture { seconds, picture }),
            Some(Code::Time { hours, minutes }),
        ) if minutes < 60 && u32::from(picture) < rate(system) => {
            let minutes = u32::from(hours) * 60 + u32::from(minutes);
            Sighting {
                number: (minutes * 60 + u32::from(seconds)) * rate(system) + u32::from(picture),
                weight: line_16.weight().min(line.weight()),
            }
        }
        _ => Sighting::default(),
    }
}

/// Whether the line shows a code that stands there in place of a number.
fn is_instead(counted: Counted, line: &Shown) -> bool
    ensures { result ≡ is_instead counted (code_in line.now) }
{
    match (counted, line.code()) {
        (_, Some(Code::Chapter(_) | Code::LeadIn | Code::LeadOut)) => true,
        (Counted::Pictures, Some(Code::Time { .. })) => true,
        (Counted::Times, Some(Code::Picture(_))) => true,
        _ => false,
    }
}

/// The numbers that a field shows on its lines 16, 17 and 18.
pub fn sightings(system: System, counted: Counted, lines: &[Shown; 3]) -> Sightings
    ensures { (line_16 line_17 line_18 : _) → lines.now ≡ line_16 ∷ line_17 ∷ line_18 ∷ []
        → result ≡ sightings_of system counted line_16 line_17 line_18 }
{
    let [line_16, line_17, line_18] = lines;
    let instead = is_instead(counted, line_17) || is_instead(counted, line_18);
    Sightings {
        line_17: sighting(system, counted, line_16, line_17),
        line_18: sighting(system, counted, line_16, line_18),
        instead: u32::from(instead),
    }
}
