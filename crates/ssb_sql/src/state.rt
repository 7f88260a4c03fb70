//! How far a statement has been read.
use crate::piece::{Aggregate, Comparison, Operand, SqlPiece};
use crate::token::LineColumn;
use ssb_questions::Spelled;
use ssb_schema::Table;

/// In the list behind SELECT.
#[derive(Clone, Copy)]
pub enum InList {
    /// `SELECT` comes.
    Start,
    /// A column, or an aggregate.
    Item,
    /// Behind a column, or an aggregate.
    Total,
    /// A name comes.
    As,
    /// `,` or FROM comes.
    Behind,
}

/// What an aggregate is for.
#[derive(Clone, Copy)]
pub enum Purpose {
    /// It is printed.
    Printing,
    /// Groups are kept by it.
    Keeping,
    /// Rows stand by it.
    Ordering,
}

/// What is done with numbers of lines.
#[derive(Clone, Copy)]
pub enum Adding {
    Sum,
    Average,
}

/// In an aggregate.
#[derive(Clone, Copy)]
pub enum InAggregate {
    /// `(` comes, behind SUM or AVG.
    Adds(Adding),
    /// A column to add up.
    Added(Adding),
    /// Behind that column.
    AddedOf(Adding, LineColumn),
    /// Behind `LO_REVENUE -`.
    Minus(Adding),
    /// Behind `LO_EXTENDEDPRICE *`.
    Times(Adding),
    /// Behind `LO_DISCOUNT *`.
    TimesPrice(Adding),
    /// `)` comes.
    Close(Aggregate),
    /// `(` comes, behind COUNT; `*` comes.
    Count,
    Counted,
    /// Behind NULLIF.
    NullIf(InNullIf),
}

/// In NULLIF of the number of lines and 0.
#[derive(Clone, Copy)]
pub enum InNullIf {
    /// `(` comes; COUNT; `(`; `*`; `)`; `,`; 0.
    Open,
    Count,
    CountOpen,
    Star,
    CountClose,
    Comma,
    Zero,
}

/// Behind FROM.
#[derive(Clone, Copy)]
pub enum InTables {
    /// A table comes.
    Table,
    /// Behind a table, or behind the key of a join.
    Behind,
    /// JOIN comes.
    Inner,
    /// A table to be joined comes.
    Joined,
    /// ON comes.
    On,
    /// A key comes.
    Key,
    /// `=` comes, behind the key of a dimension, or that of a line.
    EqualKey(Table),
    EqualLineKey(Table),
    /// The other key of the dimension comes.
    Key2(Table),
    LineKey2(Table),
}

/// Behind WHERE.
#[derive(Clone, Copy)]
pub enum InTests<'a> {
    /// A condition comes.
    Test,
    /// AND, or what follows the conditions.
    Behind,
    /// `=` comes, behind a key.
    EqualKey(Table),
    EqualLineKey(Table),
    /// The other key of the dimension comes.
    Key(Table),
    LineKey(Table),
    /// Behind what is tested.
    Tested(Operand),
    /// A value comes.
    Equal(Operand),
    Stands(Operand, Comparison),
    /// The first value of BETWEEN comes; AND; the last value.
    From(Operand),
    And(Operand, Spelled<'a>),
    To(Operand, Spelled<'a>),
    /// IN comes, behind NOT.
    Not(Operand),
    /// Behind IN.
    Values(Operand, Listing, InValues),
    /// Behind `(`.
    Choice(InChoice),
}

/// What a list of values is for.
#[derive(Clone, Copy)]
pub enum Listing {
    /// What is tested has one of them.
    OneOf,
    /// It has none of them.
    NoneOf,
}

/// In a list of values.
#[derive(Clone, Copy)]
pub enum InValues {
    /// `(` comes.
    Open,
    /// The first value comes.
    First,
    /// `,` or `)` comes.
    Listed,
    /// Another value comes.
    Next,
}

/// In a choice between values.
#[derive(Clone, Copy)]
pub enum InChoice {
    /// What is tested comes; `=`; a value.
    Open,
    Tested(Operand),
    Equal(Operand),
    /// OR or `)` comes.
    Either,
    /// What is tested comes again; `=`; a value.
    Or,
    OrTested(Operand),
    OrEqual(Operand),
}

/// Behind HAVING.
#[derive(Clone, Copy)]
pub enum InHaving {
    /// An aggregate comes.
    Test,
    /// Behind it.
    Tested(Aggregate),
    /// A number comes, or `-`.
    Stands(Aggregate, Comparison),
    /// A number comes, behind `-`.
    Minus(Aggregate, Comparison),
    /// AND, or what follows the tests of groups.
    Behind,
}

/// Behind the conditions.
#[derive(Clone, Copy)]
pub enum InEnd {
    /// BY comes, behind GROUP.
    GroupBy,
    /// A group column comes.
    Group,
    /// Behind a group column.
    Grouped,
    /// BY comes, behind ORDER.
    OrderBy,
    /// A column, a name, a place or an aggregate comes.
    Key,
    /// Behind it.
    Keyed,
    /// Behind ASC or DESC.
    Directed,
    /// A number comes.
    Limit,
    /// `;` or nothing.
    Limited,
    /// Nothing.
    Done,
}

/// How far a statement has been read.
#[derive(Clone, Copy)]
pub enum State<'a> {
    List(InList),
    Tables(InTables),
    Tests(InTests<'a>),
    Having(InHaving),
    End(InEnd),
    Aggregate(Purpose, InAggregate),
}

/// What a token leads to, and what it says.
#[derive(Clone, Copy)]
pub struct SqlStep<'a> {
    pub next: State<'a>,
    pub says: Option<SqlPiece<'a>>,
}
