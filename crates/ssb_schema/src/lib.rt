//! The typed values that the whole warehouse is made of: rows of the five tables of the Star Schema Benchmark, orders
//! and refreshes.
//!
//! The one contract: a value of these types keeps the limits of its columns. A constructor makes the value exactly
//! where its definition finds no fault; else it tells the first fault and hands the values back. The values of a row
//! stand in one list, its [`Cells`]: the fault of a row is found in it, and tables and traces are written from it. The
//! definitions stand in `specs/`: `Columns` (each column's name, place and kind), `Orders` and `Refreshes`.
//!
//! ```
//! let line = Line::new(fields).map_err(|refused| refused.fault)?;   // 10 OutOfRange LO_QUANTITY, say
//! let order = Order::new(lines)?;                                   // one key, line numbers that differ
//! let refresh = Refresh::new(actions)?;                             // 1 to 64 actions on whole orders
//! ```
#![tactic(auto)]

mod cells;
mod column;
mod customer;
mod date;
mod fact;
mod fault;
mod items;
mod kind;
mod line;
mod numeral;
mod order;
mod part;
mod refresh;
mod row;
mod supplier;
mod table;
mod text;
mod texts;

pub use cells::Cells;
pub use column::{
    C_CITY, C_MKTSEGMENT, C_NATION, C_REGION, Column, D_DATEKEY, D_DAYOFWEEK, D_HOLIDAYFL, D_MONTH,
    D_SELLINGSEASON, D_WEEKNUMINYEAR, D_YEAR, D_YEARMONTH, D_YEARMONTHNUM, P_BRAND1, P_CATEGORY,
    P_MFGR, S_CITY, S_NATION, S_REGION, query_columns,
};
pub use customer::{Customer, CustomerFields};
pub use date::{DateFields, DateRow};
pub use fact::Fact;
pub use fault::{Refused, SchemaFault};
pub use items::Items;
pub use kind::{Cell, Kind, text_fault};
pub use line::{Line, LineFields};
pub use numeral::number;
pub use order::{MOST_ORDER_LINES, Order};
pub use part::{Part, PartFields};
pub use refresh::{Action, MOST_ACTIONS, Refresh};
pub use row::{Fields, Keyed, Row};
pub use supplier::{Supplier, SupplierFields};
pub use table::Table;
pub use text::Text;
pub use texts::LineTexts;
