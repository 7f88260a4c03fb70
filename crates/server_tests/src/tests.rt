mod clients;
mod closing;
mod figures;
mod following;
mod held;
mod memory;
mod opening;
mod parties;
mod thirty;
mod trial;
mod turns;

// What Q4.1 is told as before any commit, and after one that adds an order of a loss of 1,990.
const LOADED: &str = "Q4.1 at 0 rows 1\n1997|UNITED STATES|660";

const WITH_NINE: &str = "Q4.1 at 1 rows 1\n1997|UNITED STATES|-1330";
