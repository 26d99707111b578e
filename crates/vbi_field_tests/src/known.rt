//! Known texts, and the texts that they make.

/// The head of a document of NTSC with black 16384 and white 51200: 135 bytes.
pub(crate) const HEAD: &str = "{\"version\":2,\"videoParameters\":{\"system\":\"NTSC\",\
    \"fieldWidth\":910,\"fieldHeight\":263,\"black16bIre\":16384,\"white16bIre\":51200},\"fields\":[\n";

/// The head of a document of PAL with black 16384 and white 54016.
pub(crate) const PAL_HEAD: &str = "{\"version\":2,\"videoParameters\":{\"system\":\"PAL\",\
    \"fieldWidth\":1135,\"fieldHeight\":313,\"black16bIre\":16384,\"white16bIre\":54016},\"fields\":[\n";

/// The record of a first field of black samples: 92 bytes.
pub(crate) const BLACK: &str = "{\"seqNo\":1,\"vbi\":{\"vbiData\":[0,0,0]},\
    \"vbiCause\":[\"blank\",\"blank\",\"blank\"],\"vbiPass\":[0,0,0]}";

/// The record of a second field of black samples, and what joins it to the first: 94 bytes.
pub(crate) const SECOND_BLACK: &str = ",\n{\"seqNo\":2,\"vbi\":{\"vbiData\":[0,0,0]},\
    \"vbiCause\":[\"blank\",\"blank\",\"blank\"],\"vbiPass\":[0,0,0]}";

/// The heads of the documents with recovered words.
pub(crate) const RECOVERED_HEAD: &str = "{\"version\":3,\"videoParameters\":{\"system\":\"NTSC\",\
    \"fieldWidth\":910,\"fieldHeight\":263,\"black16bIre\":16384,\"white16bIre\":51200},\"fields\":[\n";

pub(crate) const PAL_RECOVERED_HEAD: &str =
    "{\"version\":3,\"videoParameters\":{\"system\":\"PAL\",\
    \"fieldWidth\":1135,\"fieldHeight\":313,\"black16bIre\":16384,\"white16bIre\":54016},\"fields\":[\n";

/// The record of a first black field in such a document, and that of a second one with what joins them.
pub(crate) const RECOVERED_BLACK: &str = "{\"seqNo\":1,\"vbi\":{\"vbiData\":[0,0,0]},\
    \"vbiCause\":[\"blank\",\"blank\",\"blank\"],\"vbiPass\":[0,0,0],\"vbiNear\":[null,null,null]}";

pub(crate) const SECOND_RECOVERED_BLACK: &str = ",\n{\"seqNo\":2,\"vbi\":{\"vbiData\":[0,0,0]},\
    \"vbiCause\":[\"blank\",\"blank\",\"blank\"],\"vbiPass\":[0,0,0],\"vbiNear\":[null,null,null]}";

pub(crate) const WORDS: &str = "{\"seqNo\":1,\"vbi\":{\"vbiData\":[8572927,15803205,15803205]},\
    \"vbiCause\":[\"word\",\"word\",\"word\"],\"vbiPass\":[1,1,1]}";

pub(crate) const PAL_WORDS: &str = "{\"seqNo\":1,\"vbi\":{\"vbiData\":[9101330,8912895,15785216]},\
    \"vbiCause\":[\"word\",\"word\",\"word\"],\"vbiPass\":[1,1,1]}";

/// The end of a document where no field was cut: 20 bytes.
pub(crate) const TAIL: &str = "\n],\"cutField\":null}\n";

/// What stands before the number of bytes of a cut first field, and after it.
pub(crate) const CUT: &str = "\n],\"cutField\":{\"seqNo\":1,\"bytes\":";

pub(crate) const CUT_END: &str = "}}\n";

/// The first line of a report: 44 bytes.
pub(crate) const REPORT_HEAD: &str = "system NTSC 910x263 black 16384 white 51200\n";

pub(crate) const PAL_REPORT_HEAD: &str = "system PAL 1135x313 black 16384 white 54016\n";

pub(crate) const REPORT_WORDS: &str = "field 1 cav\n16 82CFFF picture stop\n\
    17 F12345 picture 12345\n18 F12345 picture 12345\n";

/// The four lines of a first field of black samples: 58 bytes.
pub(crate) const REPORT_BLACK: &str =
    "field 1 neither\n16 none blank\n17 none blank\n18 none blank\n";

pub(crate) const REPORT_SECOND_BLACK: &str =
    "field 2 neither\n16 none blank\n17 none blank\n18 none blank\n";

/// The last line of a report of one field: 18 bytes.
pub(crate) const REPORT_TAIL: &str = "fields 1 cut none\n";
