//! The systems whose SQL is written.

ghost use Rattle.std.specs.Prelude.{◌≡◌, ◌≢◌, IfOk, IfErr};
ghost use Rattle.ssb_explain.specs.Names.{system_name};
ghost use Rattle.ssb_explain.specs.declared.system.System.{System as Named};

use thiserror::Error;

/// A system that a statement is written for, with the tables of the benchmark.
#[derive(Clone, Copy, Debug, PartialEq, Eq)]
pub enum System {
    Sqlite,
    Postgresql,
    Clickhouse,
}

/// No system has the name.
#[derive(Clone, Copy, Debug, PartialEq, Eq, Error)]
#[error("no such system")]
pub struct NoSuchSystem;

static SYSTEMS: [System; 3] = [System::Sqlite, System::Postgresql, System::Clickhouse];

impl System {
    /// The name, as the command line has it.
    pub fn name(self) -> &'static str
        ensures { result.now ≡ system_name self }
    {
        match self {
            System::Sqlite => "sqlite",
            System::Postgresql => "postgresql",
            System::Clickhouse => "clickhouse",
        }
    }

    /// The system of a name, letter for letter.
    pub fn by_name(name: &str) -> Result<System, NoSuchSystem>
        ensures named { IfOk result (λ system. system_name system ≡ name.now) }
        ensures none { IfErr result (λ _. (system : Named) → system_name system ≢ name.now) }
    {
        for system in &SYSTEMS {
            if system.name() == name {
                return Ok(*system);
            }
        }
        Err(NoSuchSystem)
    }
}
