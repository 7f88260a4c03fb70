//! What second servers have told of, as metrics and as lines of a status.

use arguments::ServeWords;
use confirmed_commits::Seconds;
use std::alloc::{AllocError, Global};
use std::fmt;
use std::io::{self, Write};
use std::sync::{Arc, Wait};

/// The second servers that confirm a journal's commits, by the paths of what they tell.
#[derive(Drop)]
pub(crate) struct NamedSeconds<'a> {
    paths: Vec<&'a str>,
    seconds: Arc<Seconds>,
}

// A path as the value of a label of Prometheus.
#[derive(Clone, Copy)]
struct LabelValue<'a>(&'a str);

impl<'a> fmt::Display for LabelValue<'a> {
    fn fmt<W: fmt::Write>(&self, f: &mut fmt::Formatter<W>) -> fmt::Result {
        for letter in self.0.chars() {
            match letter {
                '\\' => f.write_str("\\\\")?,
                '"' => f.write_str("\\\"")?,
                '\n' => f.write_str("\\n")?,
                _ => f.write_char(letter)?,
            }
        }
        Ok(())
    }
}

impl<'a> NamedSeconds<'a> {
    /// Those that the words name.
    pub(crate) fn of(
        alloc: Global,
        words: &ServeWords<'a>,
        seconds: &Arc<Seconds>,
    ) -> Result<NamedSeconds<'a>, AllocError> {
        let mut paths = Vec::new(alloc);
        for path in &words.confirmed {
            paths.push(*path)?;
        }
        Ok(NamedSeconds {
            paths,
            seconds: Arc::try_clone(seconds)?,
        })
    }

    /// Writes how many commits each has told of, as a metric of Prometheus, where there are some.
    pub(crate) fn write_metrics<R: Wait, W: Write>(&self, rt: &R, out: &mut W) -> io::Result<()> {
        if self.paths.is_empty() {
            return Ok(());
        }
        writeln!(
            out,
            "# HELP ssb_live_confirmed Commits that a second server has told of."
        )?;
        writeln!(out, "# TYPE ssb_live_confirmed gauge")?;
        for (place, path) in self.paths.iter().enumerate() {
            if let Some(figures) = self.seconds.figures(rt, place) {
                let by = LabelValue(path);
                writeln!(out, "ssb_live_confirmed{{by=\"{by}\"}} {}", figures.told)?;
            }
        }
        Ok(())
    }

    /// Writes how many commits each has told of, and for how many more clients wait, as lines of a status.
    pub(crate) fn write_status<R: Wait, W: Write>(&self, rt: &R, screen: &mut W) {
        for (place, path) in self.paths.iter().enumerate() {
            if let Some(figures) = self.seconds.figures(rt, place) {
                let (told, awaited) = (figures.told, figures.awaited);
                let _ = match awaited {
                    0 => writeln!(screen, "confirmed {told} by {path}"),
                    _ => writeln!(
                        screen,
                        "confirmed {told} by {path}, clients wait for {awaited} more"
                    ),
                };
            }
        }
    }
}
