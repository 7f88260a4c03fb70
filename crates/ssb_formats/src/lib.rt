//! Answers in formats that people, and other programs, read: tables, bars, CSV, JSON, Markdown, HTML.
//!
//! The contract of [`write_formatted`]: what is written is the text of the answers in the format, byte by byte; where a
//! write fails or memory runs out, a part of it from its beginning. [`write_board`] promises the same of answers that
//! stand under titles. The definitions stand in `specs/`: `Cells` (the heads and the cells of a row), `Alignment`
//! (cells below one another), `TableText`, `BarsText`, `CsvText`, `JsonText`, `MarkdownText`, `HtmlText`; `Formats`,
//! which has them all; and `Titled`.
//!
//! A live session has six of these formats ([`ReplyFormat`], `specs/ReplyFormats`), in which it tells its client each
//! reply: answers, receipts, refusals, orders, faults ([`write_reply_as`] and its neighbours), and what it looks up
//! ([`write_overview_as`]). The contract is again the exact text (`specs/ReplyTexts`, `ReplyJson`, `OrderJson`,
//! `OverviewShown`).
//!
//! ```text
//! write_formatted(alloc, &mut output, Format::Csv, answers)?;             // D_YEAR,C_NATION,LO_REVENUE-LO_SUPPLYCOST
//!                                                                         // 1997,UNITED STATES,-1330
//! ```
#![tactic(auto)]

mod alignment;
mod bar;
mod bars_text;
mod cells;
mod csv_text;
mod fault;
mod format;
mod html_text;
mod json_text;
mod laws;
mod markdown_text;
mod markup;
mod order_json;
mod overview_text;
mod reply;
mod reply_format;
mod reply_json;
mod reports;
mod statement_bars;
mod statement_cells;
mod statement_html;
mod statement_text;
mod table_text;
mod title;
mod titled;

pub use fault::FormatFault;
pub use format::{Format, write_formatted};
pub use laws::csv_is_read_back;
pub use overview_text::write_overview_as;
pub use reply::{
    write_aborted_as, write_answers_as, write_fault_as, write_format, write_listing_as,
    write_order_as, write_reply_as,
};
pub use reply_format::{REPLY_FORMATS, ReplyFormat};
pub use reports::{Reported, write_reports};
pub use titled::write_board;
