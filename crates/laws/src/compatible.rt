ghost use Rattle.laws.specs.Compatible.{CompatibleMeansJoinable, CompatibleInEveryBook, CompatibleExamples};

/// Compatible rows are those that some lawful valuation makes the same row.
pub fn compatible_means_joinable()
    ensures { CompatibleMeansJoinable }
{}

/// They are so in the view of every book that memory can hold.
pub fn compatible_in_every_book()
    ensures { CompatibleInEveryBook }
{}

/// Rows that are compatible and rows that are not.
pub fn compatible_examples()
    ensures { CompatibleExamples }
{}
