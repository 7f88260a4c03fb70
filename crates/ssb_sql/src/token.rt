//! What a statement is made of.
use ssb_questions::Spelled;
use ssb_schema::{Column, Table};

/// A word of the language.
#[derive(Clone, Copy)]
pub enum SqlWord {
    Select,
    Sum,
    Average,
    Count,
    NullIf,
    As,
    From,
    Join,
    Inner,
    On,
    Where,
    And,
    Or,
    Not,
    In,
    Between,
    Group,
    Having,
    Order,
    By,
    Asc,
    Desc,
    Limit,
    /// COLLATE "C", as one word: by bytes.
    ByBytes,
}

/// A mark.
#[derive(Clone, Copy)]
pub enum Mark {
    Open,
    Close,
    Comma,
    Semicolon,
    Star,
    Minus,
    Equal,
    NotEqual,
    Less,
    LessOrEqual,
    Greater,
    GreaterOrEqual,
}

/// A number of a line that questions read.
#[derive(Clone, Copy)]
pub enum LineColumn {
    Quantity,
    ExtendedPrice,
    Discount,
    Revenue,
    SupplyCost,
}

/// What stands between blanks.
#[derive(Clone, Copy)]
pub enum SqlToken<'a> {
    Word(SqlWord),
    Mark(Mark),
    Table(Table),
    /// A column of a dimension that questions read.
    Column(Column),
    /// A column of lineorder that questions read.
    Line(LineColumn),
    /// The key of a dimension's rows.
    Key(Table),
    /// The key by which a line names its row of a dimension.
    LineKey(Table),
    /// A number, or a text in quotes.
    Value(Spelled<'a>),
    /// A number of more than 32 bits.
    Large(u64),
    /// Another name.
    Name(&'a str),
    /// A word of SQL, or a column, that no statement here has.
    Foreign,
}
