/// What a rule does with the cells that it is about.
#[derive(Clone, Copy, PartialEq, Eq, Debug)]
pub enum Sign {
    Allow,
    Prohibit,
}

/// When a rule holds for a row: always, or where a column of the row holds a number.
#[derive(Clone, Copy, PartialEq, Eq, Debug)]
pub enum Test {
    Always,
    Holds { column: usize, number: u32 },
}

/// A rule of a filter policy: what a broker may see, or may not see, of a table's column.
#[derive(Clone, Copy, PartialEq, Eq, Debug)]
pub struct Rule {
    pub broker: u16,
    pub table: usize,
    pub column: usize,
    pub sign: Sign,
    pub test: Test,
}

/// What a customer has consented to: the columns that are shown, and those that are linked. One that is
/// in both is shown.
#[derive(Clone, Copy, PartialEq, Eq, Debug)]
pub struct Consent {
    pub key: u32,
    pub shown: [bool; 8],
    pub linked: [bool; 8],
}
