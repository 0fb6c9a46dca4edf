// What is proved of the meanings. The functions do nothing: their contracts are the laws, and the examples.
ghost use Rattle.ef_meaning.specs.Laws.{BoundsExtend, EventsGrow, ModulesKeep, SourceMeant, ValuesCompare, ValuesOrdered};
ghost use Rattle.ef_meaning.specs.Refused.{RefusedRows};
ghost use Rattle.ef_meaning.specs.Rows.{CaseRows, CoreKeeps, MatchRows, Rows};

/// The laws of both meanings, and of what it is to keep one.
pub fn laws()
    ensures values { ValuesCompare }
    ensures order { ValuesOrdered }
    ensures events { EventsGrow }
    ensures bounds { BoundsExtend }
    ensures meant { SourceMeant }
    ensures modules { ModulesKeep }
{}

/// What small modules show, in the source and in Core, and Core modules that are refused.
pub fn rows()
    ensures shown { Rows }
    ensures matched { MatchRows }
    ensures branched { CaseRows }
    ensures kept { CoreKeeps }
    ensures refused { RefusedRows }
{}
