mod crashes;
mod faults;
mod own_log;
mod refusals;
mod runs;
