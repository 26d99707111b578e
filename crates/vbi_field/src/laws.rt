//! Laws over the definitions: each function's contract is one, for every config, stream and text of words.

ghost use Rattle.std.specs.Prelude.{◌≡◌, ◌↔◌, ℕ, ◌+◌, ◌*◌, ◌<◌, ◌≤◌, ◌⊎◌, List, length, take, Option, Some, slice_get};
ghost use Rattle.std.specs.Prelude.{◌++◌, Bool, Result, codes, [], ◌∷◌};
ghost use Rattle.std.specs.List.{concat};
ghost use Rattle.vbi_field.specs.Texts.{FieldReads, IsWholeText, text_before_tail, whole_text, Kind, ReadingKind, by};
ghost use Rattle.vbi_field.specs.Texts.{document, report, plain_document, plain_report, RecoveredKind, recovering};
ghost use Rattle.vbi_field.specs.Texts.{IsRecoveredText, recovered_document, worn_field, plain_config, black_field};
ghost use Rattle.vbi_field.specs.Texts.{picture_field, time_field, second_pass_field, refused_field, Outlet, Wrote};
ghost use Rattle.vbi_field.specs.RecoveredRows.{IsNearRow, near_of, recovery_of, as_readings};
ghost use Rattle.vbi_field.specs.RecoveredDocument.{FieldRecovered, RowsRecover, recovered_without};
ghost use Rattle.vbi_field.specs.RecoveredDocument.{recovered_record_of, Near, Recovered};
ghost use Rattle.vbi_field.specs.Ran.{IsFirstOf, Consumes, IsAtEnd, RunFault, Summary};
ghost use Rattle.vbi_field.specs.ConfigView.{ConfigView, width_of, field_bytes, Ntsc, Pal, System, Slicing};
ghost use Rattle.vbi_field.specs.Draws.{draw_out, AreDrawable, drawn_readings, drawn_text};
ghost use Rattle.vbi_field.specs.{Report.recovered_entry_of, Extracts.EndsWithin, Extracts.ExtractsAll, Feed.StandsAt};
ghost use Rattle.vbi_field.specs.{Feed.IsFed, Feed.FeedsAll, Feed.Pushes, Feed.Feeding, Stream.fields_of};
ghost use Rattle.vbi_field.specs.{Stream.rest_of, Stream.looks_of, Stream.FieldRows, WordRows.IsWordRow};
ghost use Rattle.vbi_field.specs.{WordRows.AreRows, WordRows.word_row_of, WordRows.WordRow};
ghost use Rattle.vbi_words.specs.declared.outcome.Outcome.TheVariants.{Word, Blank, Change};
ghost use Rattle.vbi_near.specs.{Candidates.Row, Recovery.IsRecovered};

use std::io::Write;

/// A stream has one document and one report, fixed by the config and the bytes alone: those that its lines' readings
/// give.
pub fn one_document()
    ensures { (t : ReadingKind) (c : ConfigView) (z text : List ℕ)
        → (IsWholeText t c z text ↔ (text ≡ whole_text (by t) c z)) }
{}

/// A stream has one document and one report with recovered words, fixed by the config and the bytes alone: those that
/// the rule of recovery gives of its lines.
pub fn one_recovered_document()
    ensures { (t : RecoveredKind) (c : ConfigView) (z text : List ℕ)
        → (IsRecoveredText t c z text ↔ (text ≡ whole_text (recovering t) c z)) }
{}

/// A row has one nearest word, whatever columns are erased, that which the document with recovered words has of it.
pub fn one_near_row()
    ensures { (system : System) (slicing : Slicing) (row : Row) (near : Near)
        → (IsNearRow system slicing row near ↔ (near ≡ near_of system slicing row)) }
{}

/// Three rows show one thing, whatever columns are erased, that which document and report with recovered words have of
/// them.
pub fn one_shown()
    ensures { (system : System) (slicing : Slicing) (rows : List ℕ) (marks : List Bool) (shown : List Recovered)
        → (IsRecovered system slicing rows marks shown ↔ (shown ≡ recovery_of system slicing rows marks)) }
{}

/// What a record has of three rows is fixed by them, their levels and their erased columns.
pub fn one_field()
    ensures { (system : System) (slicing : Slicing) (rows : FieldRows) (marks : List Bool) (field : FieldRecovered)
        → (RowsRecover system slicing rows marks field ↔ (field ≡ recovered_without system slicing rows marks)) }
{}

/// A row stands for these words exactly if it is their three items with one space between two of them.
pub fn one_word_row()
    ensures { (row : List ℕ) (words : WordRow) → (word_row_of row ≡ Some words) ↔ IsWordRow row words }
{}

/// Field i of a drawn stream, counted from 0, is read as the words of its row in the first pass, and as blank if
/// there is none.
pub fn drawn_field()
    ensures { (c : ConfigView) (rows : List WordRow) (i : ℕ) (words : WordRow) → c.levels.black < c.levels.white
        → slice_get rows i ≡ Some words → AreDrawable words → FieldReads c (draw_out c rows) i (drawn_readings words) }
{}

/// The rows of a text stand for words or none, so they are read again from the stream that is drawn of them.
pub fn drawn_rows()
    ensures { (c : ConfigView) (text : List ℕ) (rows : List WordRow) (i : ℕ) (words : WordRow)
        → c.levels.black < c.levels.white
        → AreRows text rows → slice_get rows i ≡ Some words → FieldReads c (draw_out c rows) i (drawn_readings words) }
{}

/// A drawn stream has a field for each row.
pub fn drawn_length()
    ensures { (c : ConfigView) (rows : List WordRow) → length (draw_out c rows) ≡ length rows * field_bytes c.system }
{}

/// The document or the report of the stream that is drawn of a text's rows has an entry for each row, with its words in
/// the first pass and blank if it has none, and no cut field.
#[tactic(auto, using(crate::proofs::DrawnDocument::drawn_document))]
pub fn drawn_document()
    ensures { (t : ReadingKind) (c : ConfigView) (text : List ℕ) (rows : List WordRow) → c.levels.black < c.levels.white
        → AreRows text rows → whole_text (by t) c (draw_out c rows) ≡ drawn_text t c rows }
{}

/// The bytes fetched are the first of those that the reader had, and all of them if it is at its end.
#[tactic(auto, using(crate::proofs::RunLaws::first, crate::proofs::RunLaws::whole))]
pub fn whole_stream()
    ensures first { (all z : List ℕ) (input : Option (List ℕ)) → Consumes (Some all) input z
        → (length z ≤ length all) × (z ≡ take (length z) all) }
    ensures whole { (all z : List ℕ) (input : Option (List ℕ)) → Consumes (Some all) input z → IsAtEnd input → z ≡ all }
{}

/// The samples looked at are at most those of three rows for each field that begins.
#[tactic(auto, using(crate::proofs::RunLaws::few))]
pub fn few_looks()
    ensures { (c : ConfigView) (z : List ℕ) → looks_of c z ≤ 3 * width_of c.system * (fields_of c z + 1) }
{}

/// A text that a failed writer cut inside the head, an entry or the tail is a first part of the text of the whole
/// fields, or, if the reader ended, of the whole text.
#[tactic(auto, using(crate::proofs::RunLaws::first_of_text))]
pub fn first_of_text()
    ensures { (t : Kind) (c : ConfigView) (input : Option (List ℕ)) (z text : List ℕ) → EndsWithin t c input z text
        → IsFirstOf text (text_before_tail t c z) ⊎ (IsAtEnd input × IsFirstOf text (whole_text t c z)) }
{}

/// A text that a failed writer cut inside the head, an entry or the tail has all that was due before: no byte past the
/// whole fields was fetched yet, or the reader had ended and the texts of all whole fields were written.
#[tactic(auto, using(crate::proofs::RunLaws::prompt))]
pub fn prompt()
    ensures { (t : Kind) (c : ConfigView) (input : Option (List ℕ)) (z text : List ℕ) → EndsWithin t c input z text
        → (rest_of c z ≡ 0) ⊎ (IsAtEnd input × (length (text_before_tail t c z) ≤ length text)) }
{}

/// However a stream is cut, what `feed` promises of all pieces joined holds of a `feed` of each piece in order, up to
/// the first that fails: of its answer, of what is appended, and of the position afterwards.
pub fn pieces_join<W: Write>()
    ensures { (f f' : Feeding) (o o' : Outlet W) (z : List ℕ) (pieces : List (List ℕ))
        (result : Result (Unit {0}) RunFault) → StandsAt f z → FeedsAll W.contents f f' o o' pieces result
        → IsFed W.contents f.config o o' z (concat pieces) f'.position result }
{}

/// A stream that is pushed in pieces, however cut, has the document of the joined stream: `begin`, a `feed` of each
/// piece and `finish`, if none fails, append its whole text and no more. An `extract` of the same bytes that is Ok
/// writes this text, and answers the same summary.
pub fn pushed_document<W: Write>()
    ensures text { (c : ConfigView) (o o' : Outlet W) (pieces : List (List ℕ)) (s : Summary)
        → Pushes W.contents c o o' pieces s → Wrote W.contents o o' (whole_text document c (concat pieces)) }
    ensures pulled { (c : ConfigView) (o o' : Outlet W) (pieces : List (List ℕ)) (s s' : Summary)
        (input : Option (List ℕ)) (text : List ℕ) → Pushes W.contents c o o' pieces s
        → ExtractsAll document c input (concat pieces) text s' → Wrote W.contents o o' text × (s ≡ s') }
{}

/// The document's and the report's texts of some configs, fields and ends, written down by hand.
pub fn worked_texts()
    ensures heads { (document.head (plain_config Ntsc) ≡ codes "{\"version\":2,\"videoParameters\":{\"system\":"
        ++ codes "\"NTSC\",\"fieldWidth\":910,\"fieldHeight\":263"
        ++ codes ",\"black16bIre\":16384,\"white16bIre\":51200},\"fields\":[\n")
        × (document.head (plain_config Pal) ≡ codes "{\"version\":2,\"videoParameters\":{\"system\":"
        ++ codes "\"PAL\",\"fieldWidth\":1135,\"fieldHeight\":313"
        ++ codes ",\"black16bIre\":16384,\"white16bIre\":51200},\"fields\":[\n") }
    ensures records { (plain_document.entry 1 black_field ≡ codes "{\"seqNo\":1,\"vbi\":{\"vbiData\":[0,0,0]}"
        ++ codes ",\"vbiCause\":[\"blank\",\"blank\",\"blank\"],\"vbiPass\":[0,0,0]}")
        × (plain_document.entry 1 picture_field ≡ codes "{\"seqNo\":1,\"vbi\":{\"vbiData\":[8572927,15803205,15803205]}"
        ++ codes ",\"vbiCause\":[\"word\",\"word\",\"word\"],\"vbiPass\":[1,1,1]}")
        × (plain_document.entry 20 time_field ≡ codes "{\"seqNo\":20,\"vbi\":{\"vbiData\":[9101330,8912895,15785216]}"
        ++ codes ",\"vbiCause\":[\"word\",\"word\",\"word\"],\"vbiPass\":[1,1,1]}")
        × (plain_document.entry 1 second_pass_field ≡ codes "{\"seqNo\":1,\"vbi\":{\"vbiData\":[8572927,15803205,0]}"
        ++ codes ",\"vbiCause\":[\"word\",\"word\",\"unfinished\"],\"vbiPass\":[2,1,0]}")
        × (plain_document.entry 1000000 refused_field ≡ codes "{\"seqNo\":1000000,\"vbi\":{\"vbiData\":[0,0,9289889]}"
        ++ codes ",\"vbiCause\":[\"change 34\",\"hold 909\",\"word\"],\"vbiPass\":[0,0,1]}") }
    ensures tails { (document.tail 1 0 ≡ codes "\n],\"cutField\":null}\n")
        × (document.tail 0 478659 ≡ codes "\n],\"cutField\":{\"seqNo\":1,\"bytes\":478659}}\n") }
    ensures report_ends { (report.head (plain_config Ntsc) ≡ codes "system NTSC 910x263 black 16384 white 51200\n")
        × (report.head (plain_config Pal) ≡ codes "system PAL 1135x313 black 16384 white 51200\n")
        × (report.tail 1 0 ≡ codes "fields 1 cut none\n")
        × (report.tail 0 478659 ≡ codes "fields 0 cut field 1 bytes 478659\n") }
    ensures report_fields { (plain_report.entry 1 black_field ≡ codes "field 1 neither\n16 none blank\n"
        ++ codes "17 none blank\n18 none blank\n")
        × (plain_report.entry 1 picture_field ≡ codes "field 1 cav\n16 82CFFF picture stop\n"
        ++ codes "17 F12345 picture 12345\n18 F12345 picture 12345\n")
        × (plain_report.entry 1 time_field ≡ codes "field 1 clv\n16 8AE012 clv picture 00 12\n"
        ++ codes "17 87FFFF clv\n18 F0DD00 time 0:00\n")
        × (plain_report.entry 7 refused_field ≡ codes "field 7 neither\n16 none change 34\n17 none hold 909\n"
        ++ codes "18 8DC0A1 cx on 0A1\n") }
{}

/// The record of a field with recovered words, and its lines in the report, written down by hand.
pub fn worked_recovered()
    ensures record_is { recovered_record_of (plain_config Ntsc).levels 7 worn_field
        ≡ codes "{\"seqNo\":7,\"vbi\":{\"vbiData\":[8572927,15803205,15803206]},\"vbiCause\":[\"word\",\"change 34\""
        ++ codes ",\"word\"],\"vbiPass\":[2,3,3],\"vbiNear\":[null,{\"word\":15803205,\"distance\":100,\"rival\":250}"
        ++ codes ",{\"word\":0,\"distance\":0,\"rival\":99}]}" }
    ensures fallen { recovered_record_of (plain_config Pal).levels 8 (record worn_field {
      shown = record { outcome = Change 34; pass = 0 } ∷ record { outcome = Blank; pass = 0 }
          ∷ record { outcome = Word 0xF12346; pass = 1 } ∷ [];
    })
        ≡ codes "{\"seqNo\":8,\"vbi\":{\"vbiData\":[0,0,15803206]},\"vbiCause\":[\"change 34\",\"blank\""
        ++ codes ",\"word\"],\"vbiPass\":[0,0,1],\"vbiNear\":[null,null,null]}" }
    ensures report_is { recovered_entry_of 7 (as_readings worn_field.shown)
        ≡ codes "field 7 cav\n16 82CFFF picture stop\n17 F12345 picture 12345 (recovered)\n"
        ++ codes "18 F12346 picture 12346 (recovered)\n" }
{}
