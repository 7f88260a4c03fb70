//! What is stored of the small data set, worked out by hand: the thirteen reports, and a run, which is a script and
//! what it leaves. An absent order refuses the
//! whole refresh, which is then committed without it. Order 3 has a profit of 760 - 100, and order 9 one of 10 - 2000.

/// The script.
pub const SCRIPT: &str = "\
query|Q4.1
begin
add
line|9|1|3|4|3|19971215|o|0|1|10|10|0|10|2000|0|19971215|AIR
withdraw|77
commit
query|Q4.1
begin
add
line|9|1|3|4|3|19971215|o|0|1|10|10|0|10|2000|0|19971215|AIR
commit
query|Q4.1
";

/// Its report.
pub const REPORT: &str = "\
Q4.1 at 0 rows 1
1997|UNITED STATES|660
refused at 0 action 2: 47 Absent 77
Q4.1 at 0 rows 1
1997|UNITED STATES|660
committed 1
Q4.1 at 1 rows 1
1997|UNITED STATES|-1330
";

/// What `run` prints for it.
pub const RUN: &str = "\
client 1
Q4.1 at 0 rows 1
1997|UNITED STATES|660
refused at 0 action 2: 47 Absent 77
Q4.1 at 0 rows 1
1997|UNITED STATES|660
committed 1
Q4.1 at 1 rows 1
1997|UNITED STATES|-1330
commits 1
";

/// Its trace.
pub const TRACE: &str = "\
commit|1
add
line|9|1|3|4|3|19971215|o|0|1|10|10|0|10|2000|0|19971215|AIR
end
answer|1|0|Q4.1|1
row|1997|UNITED STATES|660
answer|1|0|Q4.1|1
row|1997|UNITED STATES|660
answer|1|1|Q4.1|1
row|1997|UNITED STATES|-1330
";

/// The thirteen reports before any refresh.
pub const THIRTEEN: &str = "\
Q1.1 at 0 rows 1
3000
Q1.2 at 0 rows 1
NULL
Q1.3 at 0 rows 1
NULL
Q2.1 at 0 rows 0
Q2.2 at 0 rows 1
970|1993|MFGR#2221
Q2.3 at 0 rows 0
Q3.1 at 0 rows 1
CHINA|JAPAN|1993|2950
Q3.2 at 0 rows 1
UNITED ST4|UNITED ST7|1997|760
Q3.3 at 0 rows 1
UNITED KI1|UNITED KI5|1997|500
Q3.4 at 0 rows 1
UNITED KI1|UNITED KI5|1997|500
Q4.1 at 0 rows 1
1997|UNITED STATES|660
Q4.2 at 0 rows 1
1997|UNITED STATES|MFGR#14|660
Q4.3 at 0 rows 1
1997|UNITED ST7|MFGR#1440|660
";
