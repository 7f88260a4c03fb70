//! The markup of a page of HTML.

ghost use Rattle.std.specs.Prelude.{◌≡◌, ◌++◌, OnOk};
ghost use Rattle.ssb_formats.specs.Markup.{markup};

use std::alloc::AllocError;

/// A piece of markup, the same whatever the answers are.
#[derive(Clone, Copy)]
pub(crate) enum Markup {
    /// The beginning of a page.
    Page,
    /// Around the line above a table.
    LineOpen,
    LineClose,
    /// Around the heads and the rows.
    TableOpen,
    TableClose,
    /// Around the cells of the heads.
    HeadsOpen,
    HeadsClose,
    /// Around the cells of a row.
    RowOpen,
    RowClose,
    /// Before the class of a bar, before its width, and behind it.
    BarOpen,
    BarWidth,
    BarClose,
}

impl Markup {
    #[tactic(auto, unfolding(crate::specs::Markup::markup))]
    fn text(self) -> &'static str
        ensures { result.now ≡ markup self }
    {
        match self {
            Markup::Page => PAGE,
            Markup::LineOpen => "<p>",
            Markup::LineClose => "</p>\n",
            Markup::TableOpen => "<table>\n",
            Markup::TableClose => "</table>\n",
            Markup::HeadsOpen => "<tr class=\"h\">",
            Markup::HeadsClose => "<td></td></tr>\n",
            Markup::RowOpen => "<tr>",
            Markup::RowClose => "</tr>\n",
            Markup::BarOpen => {
                "<td class=\"b\"><svg width=\"100%\" height=\"14\"><rect class=\""
            }
            Markup::BarWidth => "\" height=\"14\" width=\"",
            Markup::BarClose => "%\"/></svg></td>",
        }
    }

    /// Adds it to a text.
    pub(crate) fn push(self, text: &mut Vec<u8>) -> Result<(), AllocError>
        ensures { OnOk result (text.new.items ≡ text.old.items ++ markup self) }
    {
        text.extend_from_slice(self.text().as_bytes())
    }
}

// It needs nothing from outside. HTML asks for no end of it.
const PAGE: &str = "\
<!DOCTYPE html>
<html lang=\"en\">
<meta charset=\"utf-8\">
<title>ssb_live</title>
<style>
body{font:15px sans-serif;margin:2em auto;max-width:60em;padding:0 1em;color:#222}
h2{font-size:1.2em;margin:2em 0 0}
p{color:#667;margin:.3em 0}
table{border-collapse:collapse;width:100%}
.h{font-weight:bold}
td{border-bottom:1px solid #e4e4ea;padding:.25em .8em .25em 0;white-space:nowrap}
.n{text-align:right}
.b{width:50%}
svg{display:block}
.p{fill:#4477aa}
.m{fill:#cc6677}
</style>
";
