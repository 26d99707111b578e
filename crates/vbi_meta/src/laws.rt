//! Laws over the definitions: each function's contract is one, for every config and stream.

ghost use Rattle.std.specs.Prelude.{ℕ, ◌<◌, ◌^◌, All, Bool, List, Option, Ok};
ghost use Rattle.vbi_field.specs.RecoveredDocument.{recovered_record_of, recovered_without};
ghost use Rattle.vbi_field.specs.{ConfigView.ConfigView, ConfigView.System, ConfigView.Slicing};
ghost use Rattle.vbi_field.specs.{declared.outlet.Outlet.Outlet, declared.summary.Summary.Summary, Ran.over};
ghost use Rattle.vbi_field.specs.{Ran.Appends, Ran.Consumes, Ran.IsAtEnd, Extracts.ExtractsAll, Extracts.Runs};
ghost use Rattle.vbi_field.specs.{Stream.rows_in, Texts.document, Texts.recovered_document, Texts.whole_text};
ghost use Rattle.vbi_line.specs.{Counted.device_of, Intake.counted_of, declared.intake.Intake.Intake};
ghost use Rattle.vbi_field.specs.Outlet as outlets;
ghost use Rattle.vbi_meta.specs.ReadBack.{IsPlainText, IsPrinted, IsReadAs, HasReadings, HasRecovered, ReadsBack};
ghost use Rattle.vbi_meta.specs.ReadBack.{FollowsLines, FollowsRule, RecoversBack};
ghost use Rattle.vbi_meta.specs.DocumentValue.{IsConfig, IsOfRun, document_value, recovered_value};
ghost use Rattle.vbi_meta.specs.DocumentValue.{recovered_field_value};

use std::io;

/// The document of a stream is JSON in UTF-8, its value is the one that `specs/DocumentValue` names member by member,
/// and no object in it has a key twice.
pub fn document_reads()
    ensures { (c : ConfigView) (z : List ℕ) → IsOfRun c z → IsReadAs (whole_text document c z) (document_value c z) }
{}

/// What a reader of JSON finds in the document of a stream is what its lines show: words, causes, passes, the fields'
/// numbers and the cut field.
pub fn document_words()
    ensures { (c : ConfigView) (z : List ℕ) → IsOfRun c z → HasReadings c z (whole_text document c z) }
{}

/// The bytes that `extract` wrote when it answered Ok are read as the document of the bytes that it fetched, and have
/// the readings of the lines in them. `ExtractsAll` is what its contract says then, and `settings` gives such configs.
pub fn extracted_words()
    ensures { (c : ConfigView) (input : Option (List ℕ)) (z text : List ℕ) (summary : Summary)
        → IsConfig c → ExtractsAll document c input z text summary → ReadsBack c z text }
{}

/// The document of a stream with recovered words is JSON in UTF-8, its value is the one that `specs/DocumentValue`
/// names member by member, and no object in it has a key twice.
pub fn recovered_reads()
    ensures { (c : ConfigView) (z : List ℕ) → IsOfRun c z
        → IsReadAs (whole_text recovered_document c z) (recovered_value c z) }
{}

/// What a reader of JSON finds in the document of a stream with recovered words is what the rule of recovery makes of
/// its lines: words, causes, passes, nearest words, the fields' numbers and the cut field.
pub fn recovered_words()
    ensures { (c : ConfigView) (z : List ℕ) → IsOfRun c z → HasRecovered c z (whole_text recovered_document c z) }
{}

/// A record of the document with recovered words by itself, as `vbi_field::recovered_record` answers it, is JSON in
/// UTF-8, its value is the one that `specs/DocumentValue` names, and no object in it has a key twice, whichever columns
/// are erased.
pub fn record_reads()
    ensures { (system : System) (slicing : Slicing) (number : ℕ) (bytes : List ℕ) (marks : List Bool)
        → slicing.white < 2 ^ 16 → number < 2 ^ 64
        → let field = recovered_without system slicing (rows_in system bytes) marks in
        IsReadAs (recovered_record_of slicing number field) (recovered_field_value slicing number field) }
{}

/// A record of the document with recovered words is on one line: each of its bytes is printed ASCII.
pub fn record_is_line()
    ensures { (system : System) (slicing : Slicing) (number : ℕ) (bytes : List ℕ) (marks : List Bool)
        → slicing.white < 2 ^ 16 → number < 2 ^ 64
        → let field = recovered_without system slicing (rows_in system bytes) marks in
        All IsPrinted (recovered_record_of slicing number field) }
{}

/// The bytes that `extract_recovered` wrote when it answered Ok are read as the document of the bytes that it fetched
/// with recovered words, and have what the lines in them show. Its contract says `ExtractsAll` then.
pub fn extracted_recovered()
    ensures { (c : ConfigView) (input : Option (List ℕ)) (z text : List ℕ) (summary : Summary)
        → IsConfig c → ExtractsAll recovered_document c input z text summary → RecoversBack c z text }
{}

/// If `extract` answered Ok, its reader gave some bytes and was at its end, and its writer took a text, as far as the
/// two tell. This text has the readings of the lines in these bytes. `Runs` is what the contract of `extract` says, and
/// `settings` gives such configs.
pub fn extracted_by_lines<R: io::Read, W: io::Write>()
    ensures { (c : ConfigView) (i0 i : Intake R) (o0 o : Outlet W) (summary : Summary) → IsConfig c
        → Runs document c (over R.remaining i0 i) (over W.contents o0 o) (Ok summary)
        → (z text : List ℕ) × IsAtEnd (R.remaining (device_of (counted_of i)))
        × Consumes (R.remaining (device_of (counted_of i0))) (R.remaining (device_of (counted_of i))) z
        × Appends (W.contents (device_of (outlets.counted_of o0))) (W.contents (device_of (outlets.counted_of o))) text
        × FollowsLines c z text }
{}

/// If `extract_recovered` answered Ok, its reader and its writer gave and took as those of `extract` do, and for each
/// line in the bytes the text has the word and the pass that the rule of recovery says, or why it says none.
pub fn extracted_by_rule<R: io::Read, W: io::Write>()
    ensures { (c : ConfigView) (i0 i : Intake R) (o0 o : Outlet W) (summary : Summary) → IsConfig c
        → Runs recovered_document c (over R.remaining i0 i) (over W.contents o0 o) (Ok summary)
        → (z text : List ℕ) × IsAtEnd (R.remaining (device_of (counted_of i)))
        × Consumes (R.remaining (device_of (counted_of i0))) (R.remaining (device_of (counted_of i))) z
        × Appends (W.contents (device_of (outlets.counted_of o0))) (W.contents (device_of (outlets.counted_of o))) text
        × FollowsRule c z text }
{}

/// The document of a stream is plain: its bytes are printed ASCII without a backslash, so without escapes, and line
/// feeds; each number in it is written in decimal digits alone and is below 2 ^ 24. So a reader that knows ASCII alone,
/// or keeps numbers as floats of 32 bits or more, loses nothing.
pub fn plain_document()
    ensures text { (c : ConfigView) (z : List ℕ) → IsOfRun c z → IsPlainText (whole_text document c z) }
    ensures extracted { (c : ConfigView) (input : Option (List ℕ)) (z text : List ℕ) (summary : Summary)
        → IsConfig c → ExtractsAll document c input z text summary → IsPlainText text }
{}
