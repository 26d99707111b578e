//! The two television systems and their geometry in ld-decode's TBC files.

ghost use Rattle.std.specs.Prelude.{◌≡◌, ◌↔◌, Some};
ghost use Rattle.vbi_words.specs.Geometry.{width_of, height_of, line_bytes, field_bytes};
ghost use Rattle.vbi_words.specs.Geometry.{half_min, half_max, start_of, name_of, system_named};
ghost use Rattle.vbi_words.specs.declared.system.System.{System};

/// The bytes of the longest line, that of PAL.
pub const LONGEST_LINE: usize = 2270;

/// A television system, with the sizes of its lines and fields in ld-decode's TBC files.
#[derive(Clone, Copy, Debug, PartialEq, Eq)]
pub enum System {
    /// 525 lines (discs after IEC 60857), sampled at 315/22 MHz.
    Ntsc,
    /// 625 lines (discs after IEC 60856), sampled at 17.734475 MHz.
    Pal,
}

impl System {
    /// The system of this name, which is `NTSC` or `PAL`, in capital letters.
    pub fn named(name: &str) -> Option<System>
        ensures is { (system : System) → (result ≡ Some system) ↔ (name.now ≡ name_of system) }
        ensures value { result ≡ system_named name.now }
    {
        match name {
            "NTSC" => Some(System::Ntsc),
            "PAL" => Some(System::Pal),
            _ => None,
        }
    }

    /// Samples per line.
    pub fn width(self) -> usize
        ensures { result ≡ width_of self }
    {
        match self {
            System::Ntsc => 910,
            System::Pal => 1135,
        }
    }

    /// Lines per field.
    pub fn height(self) -> usize
        ensures { result ≡ height_of self }
    {
        match self {
            System::Ntsc => 263,
            System::Pal => 313,
        }
    }

    /// Bytes per line: two bytes a sample.
    pub fn line_bytes(self) -> usize
        ensures { result ≡ line_bytes self }
    {
        2 * self.width()
    }

    /// Bytes per field: two bytes a sample.
    pub fn field_bytes(self) -> usize
        ensures { result ≡ field_bytes self }
    {
        self.line_bytes() * self.height()
    }

    /// The fewest samples of a half cell, which lasts one microsecond.
    pub fn half_min(self) -> usize
        ensures { result ≡ half_min self }
    {
        match self {
            System::Ntsc => 11,
            System::Pal => 14,
        }
    }

    /// The most samples of a half cell.
    // A microsecond has 14.3 samples in NTSC and 17.7 in PAL. The most is less than twice the fewest, so that one long
    // half cell is never taken for two short ones.
    pub fn half_max(self) -> usize
        ensures { result ≡ half_max self }
    {
        match self {
            System::Ntsc => 18,
            System::Pal => 22,
        }
    }

    /// The column, counted from 0, at which a drawn word begins.
    pub fn start(self) -> usize
        ensures { result ≡ start_of self }
    {
        match self {
            System::Ntsc => 150,
            System::Pal => 190,
        }
    }

    /// The name in ld-decode's metadata: `NTSC` or `PAL`.
    pub fn name(self) -> &'static str
        ensures { result.now ≡ name_of self }
    {
        match self {
            System::Ntsc => "NTSC",
            System::Pal => "PAL",
        }
    }
}
