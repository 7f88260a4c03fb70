mod crashes;
mod found;
mod log;
mod runs;
mod serving;
