//! By how much a nearest word has to be ahead, as rows written down: the least of each kind is said, and one less
//! isn't. A function here does nothing: its contract holds the numbers of margins.rt.

ghost use Rattle.vbi_near.specs.Margins.{levelled_margins, given_margins};
ghost use Rattle.vbi_near.specs.WorkedRules.{code_ahead, close_code_ahead, other_ahead, SayUntil, SharesUntil};
ghost use Rattle.vbi_near.specs.WorkedRules.{HasNoShare, EndsFrom};

/// One levelled line.
pub fn worked_lone()
    ensures code { SayUntil levelled_margins.lone 1 code_ahead 0xF12345 400 399 }
    ensures other { SayUntil levelled_margins.lone 1 other_ahead 0xF1234A 500 499 }
    ensures shares { SharesUntil levelled_margins.lone 1 39100 46000 }
    ensures ends { EndsFrom levelled_margins.lone 1 9800 }
{}

/// One of two levelled lines that don't agree.
pub fn worked_apart()
    ensures code { SayUntil levelled_margins.apart 1 code_ahead 0xF12345 800 799 }
    ensures other { SayUntil levelled_margins.apart 1 other_ahead 0xF1234A 1000 999 }
    ensures no_share { HasNoShare levelled_margins.apart 800 1000 }
    ensures ends { EndsFrom levelled_margins.apart 1 9800 }
{}

/// Two levelled lines together.
pub fn worked_both()
    ensures code { SayUntil levelled_margins.both 2 close_code_ahead 0xF12345 800 799 }
    ensures other { SayUntil levelled_margins.both 2 other_ahead 0xF1234A 500 499 }
    ensures shares { SharesUntil levelled_margins.both 2 39100 51142 }
    ensures ends { EndsFrom levelled_margins.both 2 9600 }
{}

/// One line as it is.
pub fn worked_given_lone()
    ensures code { SayUntil given_margins.lone 1 code_ahead 0xF12345 600 599 }
    ensures other { SayUntil given_margins.lone 1 other_ahead 0xF1234A 800 799 }
    ensures no_share { HasNoShare given_margins.lone 600 800 }
    ensures ends { EndsFrom given_margins.lone 1 9700 }
{}

/// One of two lines that don't agree, as they are.
pub fn worked_given_apart()
    ensures code { SayUntil given_margins.apart 1 code_ahead 0xF12345 800 799 }
    ensures other { SayUntil given_margins.apart 1 other_ahead 0xF1234A 1000 999 }
    ensures no_share { HasNoShare given_margins.apart 800 1000 }
    ensures ends { EndsFrom given_margins.apart 1 9700 }
{}

/// Two lines together, as they are.
pub fn worked_given_both()
    ensures code { SayUntil given_margins.both 2 close_code_ahead 0xF12345 800 799 }
    ensures other { SayUntil given_margins.both 2 other_ahead 0xF1234A 800 799 }
    ensures shares { SharesUntil given_margins.both 2 46300 58000 }
    ensures ends { EndsFrom given_margins.both 2 9400 }
{}
