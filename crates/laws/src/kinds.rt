ghost use Rattle.laws.specs.Kinds.{ViewsKeepKinds};

/// Masking a cell keeps its kind.
pub fn views_keep_kinds()
    ensures { ViewsKeepKinds }
{}
