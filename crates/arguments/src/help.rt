//! The texts of the help.

// A help that says what the queries' constants are and how star is asked, between two other texts.
macro_rules! help_with_questions {
    ($before:literal, $behind:literal) => {
        concat!(
            $before,
            "  Q1.1        year; discount from, to; quantity from, to
  Q1.2        year and month, like 199401; discount from, to; quantity from, to
  Q1.3        week; year; discount from, to; quantity from, to
  Q2.1        category; supplier region
  Q2.2        brand from, to; supplier region
  Q2.3        brand; supplier region
  Q3.1        customer region; supplier region; year from, to
  Q3.2        customer nation; supplier nation; year from, to
  Q3.3        two customer cities; two supplier cities; year from, to
  Q3.4        two customer cities; two supplier cities; year and month, like Dec1997
  Q4.1        customer region; supplier region; two manufacturers
  Q4.2        those of Q4.1; two years
  Q4.3        customer region; supplier nation; two years; category

The query star is a question of your own. Its constants, at most 64, are a measure, then group columns, then tests:

  LO_REVENUE, LO_REVENUE-LO_SUPPLYCOST, LO_EXTENDEDPRICE*LO_DISCOUNT, LO_QUANTITY, LO_EXTENDEDPRICE, LO_SUPPLYCOST or
  COUNT       the measure: what is summed over the lines; COUNT is the number of lines
  COLUMN      a group column; they are printed in the order given; at most four, each once
  COLUMN=VALUE
              a test: the column has this value; given again for the column: one of these values, at most 16
  COLUMN!=VALUE
              a test: the column has another value; given again for the column: none of these values, at most 16
  COLUMN=FROM..TO
              a test: from FROM to TO, both included; once for a column, and no COLUMN=VALUE of it
  LO_QUANTITY=FROM..TO, LO_DISCOUNT=FROM..TO
              a test of the line itself; also with one number; once each
  ORDER=SUM   at the end: the largest sum first; without it rows are in the order of the group columns

COLUMN is C_CITY, C_NATION, C_REGION, C_MKTSEGMENT, S_CITY, S_NATION, S_REGION, P_MFGR, P_CATEGORY, P_BRAND1, D_DATEKEY,
D_DAYOFWEEK, D_MONTH, D_YEAR, D_YEARMONTHNUM, D_YEARMONTH, D_WEEKNUMINYEAR, D_SELLINGSEASON or D_HOLIDAYFL.
",
            $behind
        )
    };
}

/// What `query --help` shows.
pub const QUERY_HELP: &str = help_with_questions!(
    "\
Loads the five table files of a folder and prints the report of one question: a line with the query's name, the number
of commits (0) and the number of rows, and then the rows. With --all it prints the reports of the thirteen queries with
the benchmark's constants, in order, answered in one pass over the lines.

The queries are Q1.1, Q1.2, Q1.3, Q2.1, Q2.2, Q2.3, Q3.1, Q3.2, Q3.3, Q3.4, Q4.1, Q4.2, Q4.3 and star. Without
constants, one of the thirteen has those of the benchmark. Else give all of its constants, in this order:

",
    "
With any other --format than report the columns have heads: the names of the group columns, and the measure as star
spells it. JSON has one object a line. An empty line parts the answers, but not those of JSON. Bars are drawn beside the
sums, each as long as its sum is great; that of a negative sum is drawn with another sign. HTML is a page for a browser,
with tables and bars.

With --board it prints the reports that FILE asks for, in order, each under its title. A line of FILE is 'Title|NAME',
'Title|NAME|CONSTANT..' or 'Title|sql|TEXT'; there are 1 to 64.

With --store FOLDER the tables are those of a store after its commits on the disk, beside its server too, and the number
of commits is theirs; with --at N those after its first N commits, as far as the store still has them.

With --sql it prints the rows of statements of SQL: one SELECT each, of group columns, COUNT, SUM and AVG over lineorder
and its dimensions, with WHERE, GROUP BY, HAVING, ORDER BY and LIMIT.

With --explain it prints what is asked, and needs no tables: a request of star that asks the same, the printed columns,
and what the rows are ordered by. With --data DIR also how many rows of each dimension the tests take, and how many
groups there can be. With --sql it is one statement for that system, over the benchmark's tables.

Examples:
  ssb_live query --data tables Q4.1
  ssb_live query --data tables Q2.1 'MFGR#12' EUROPE
  ssb_live query --data tables star LO_REVENUE D_YEAR P_BRAND1 'P_CATEGORY=MFGR#12' 'S_REGION=AMERICA'
  ssb_live query --data tables --format csv Q4.1
  ssb_live query --data tables --format bars star LO_REVENUE D_YEAR C_REGION=ASIA
  ssb_live query --data tables --all --times
  ssb_live query --data tables --board morning.board --format html > morning.html
  ssb_live query --data tables --sql 'SELECT d_year, sum(lo_revenue), count(*) FROM lineorder JOIN date
    ON lo_orderdate = d_datekey GROUP BY d_year ORDER BY 2 DESC LIMIT 3'
  ssb_live query --data tables --format table --sql - < morning.sql
  ssb_live query --store warehouse --at 1204 Q4.1
  ssb_live query --explain Q2.1
  ssb_live query --explain --sql postgresql star COUNT C_REGION"
);

/// What `run --help` shows.
pub const RUN_HELP: &str = "\
Loads the five table files of a folder and serves 1 to 16 scripts at once. Each script is a client of the live server,
and the dispatchers answer the clients' questions in batches. When all scripts have ended, it prints for each script, in
the order given, the line 'client K' and the report of its records, and at the end the line 'commits C'. With --trace it
then writes the commits and the answers into FILE, which 'ssb_live audit' checks.

A script has one record on a line. 'query|NAME' or 'query|NAME|CONSTANT..' asks. 'ask', then 1 to 16 of these, then
'answer' asks them together: all are answered after the same commits. 'begin', then 'add', 'amend' or 'put' with
'line|..' records, and 'withdraw|KEY', then 'commit' is one refresh, which is accepted whole or refused whole.
'order|KEY' shows the lines of an order.

With --standing the questions of FILE stand: each keeps totals that follow the commits, and is answered from these. The
reports are the same without it.

With --store FOLDER the tables are those of a store after its commits on the disk, or with --at N after its first N. The
store is not changed: numbers count the commits of the run, from 0.

Examples:
  ssb_live run --data tables morning.txt
  ssb_live run --data tables --dispatchers 2 --trace run.trace orders.txt questions.txt
  ssb_live run --data tables --standing benchmark --times morning.txt";

/// What `audit --help` shows.
pub const AUDIT_HELP: &str = "\
Reads a trace that 'ssb_live run --trace' wrote, and checks it with the five table files of a folder: each commit is
accepted after those before it, each answer has the rows of its question after its number of commits, and no answer is
after fewer commits than its client's answer before it. It prints 'ok C A', the number of commits and the number of
answers, or reports the first error found (status 3).

With --store FOLDER --at N it checks the trace of a run over the tables of a store after its first N commits.

Examples:
  ssb_live audit --data tables run.trace
  ssb_live audit --store warehouse --at 1204 run.trace";

/// What `serve --help` shows.
pub const SERVE_HELP: &str = "\
Loads the five table files of a folder and serves clients as their requests come, until all have ended. Without --client
there is one client, on standard input and output. Each --client, 1 to 16 of them, is read from IN and answered to OUT.
IN and OUT are named pipes (mkfifo) or files; a client opens them in either order. If OUT does not exist, it is created
as a plain file. An OUT that has bytes in it is refused, and so are two ends that are one file: nothing is changed then.

A client sends the records of a script. A request is a line 'query|NAME' or 'query|NAME|CONSTANT..', or the lines from
'ask' to 'answer' or from 'begin' to 'commit'. Its reply comes before the server waits for the next request: one line,
or for each question a line that says how many rows follow. The 1 to 16 questions from 'ask' to 'answer' are all answered
after the same commits. A request with a fault is answered 'fault: ..', and does nothing. 'format|NAME' changes how
replies are written: report, table, csv, json, markdown or bars. 'columns' lists the columns that questions read,
'values|COLUMN' the values of one, and 'status' what the server has done. The end of the input ends the session. At a
terminal the word 'help' shows the queries and their constants.

With --new-journal a journal begins in FILE, which is created if it does not exist, and the commits are kept there. With
--journal the next server with this FILE and the same tables goes on from there, whatever has ended the one before; if
FILE does not exist, that is refused. 'committed N' is sent when commit N is on the disk; an answer is sent when all
commits that it contains are.

With --store FOLDER the tables and the journal are those of a store, which 'ssb_live store' has made. The journal goes on
in a new segment after --segment N commits, and 'ssb_live checkpoint' keeps the store small meanwhile. Numbers of commits
count from the store's first one.

With --confirmed both also wait until a line 'committed M', of at least as many commits, was read from BY: a pipe or a
file that gets what a second server tells. It can be repeated; then each BY has to have such a line.

With --standing the questions of FILE stand: each keeps totals that follow the commits, and is answered from these, so
that a report which is asked again and again takes no pass over the lines. Replies are the same without it.

With --metrics the server's figures (commits, answers, sessions, memory and others) are written into FILE at the start,
every 10 seconds and at the end, as a text for the textfile collector of Prometheus. FILE has to be missing or empty, or
to have such a text; it is written as FILE.new, and renamed.

Examples:
  ssb_live serve --data tables
  ssb_live serve --data tables --new-journal orders.journal < /dev/null
  ssb_live serve --data tables --journal orders.journal
  ssb_live serve --data tables --standing reports.txt
  mkfifo in out; ssb_live serve --data tables --keep --client in out";

/// What `export --help` shows.
pub const EXPORT_HELP: &str = "\
Reads the commits that 'ssb_live serve --journal' kept in FILE, with the same five table files of a folder. It writes
the tables as they are after these commits into FOLDER, which is created if it does not exist, and must be empty: the
dimensions in their order, the loaded lines that are still live, and then the live lines of commits, in the order of the
commits. Other programs can load these tables, and a new journal can begin with them. FILE is not changed.

The tables are written under other names, and renamed when they are on the disk, lineorder.tbl last: a folder that has
lineorder.tbl has all five. If an export fails, delete by hand what it has left in FOLDER.

With --store the tables and the commits are those of a store, as they are on the disk now; with --at N its first N.

Examples:
  ssb_live export --data tables --journal orders.journal --to tables-2
  ssb_live export --store warehouse --to tables-2";

/// What `changes --help` shows.
pub const CHANGES_HELP: &str = "\
Reads the commits that 'ssb_live serve --journal' kept in FILE, with the same five table files of a folder, and prints
what they changed, for other systems. A line 'N|1|' and the 17 fields of a line order: commit N brought this line. A
line 'N|-1|' and the fields: commit N took it away, by a withdrawal, or as one that an order had before an amend or put.
Of each line the signs up to commit N add up to 1 where it is live after N commits, and to 0 where it is not.

With --base the loaded lines come first, as those of commit 0. With --after N the commits behind the first N are
written, so that a system which has some gets the others. FILE is not changed; a server goes on meanwhile only where
FILE is a copy.

With --feed the commits are those that 'ssb_live ship' prints, as they come: the lines of each are printed at once.

With --store the tables and the commits are those of a store, with which a server may go on meanwhile. N counts from its
first commit. What lies before its oldest tables is gone. Begin there with --base: the lines of its newest tables come
first, as those of the commit that these are after.

With --format csv the fields are parted by commas, below a line with their names: COMMIT, SIGN, and those of a line
order, LO_ORDERKEY and so on. With --format json each line is an object whose members have these names.

Examples:
  ssb_live changes --data tables --journal orders.journal --base
  ssb_live changes --data tables --journal orders.journal --after 1204
  ssb_live changes --store warehouse --base --format csv > signed.csv
  ssb_live ship --journal orders.journal | ssb_live changes --data tables --feed -";

/// What `ship --help` shows.
pub const SHIP_HELP: &str = "\
Prints the commits that 'ssb_live serve --journal' keeps in FILE, as they come, for a second machine. A server may go on
with FILE meanwhile; it is not changed. What is printed is on the disk before, and is a journal for whoever keeps all of
it. After each second without a commit comes a group without commits, as a sign of life.

With --after N those that end with commit N or before are left out: behind the head stands a group 'after|M', and the
groups behind it begin with commit M + 1. With --once the command ends when it has printed what is there.

With --store the commits are those of a store, over all of its segments. N counts from its first commit, and the head is
that of a journal over its newest tables that are after N commits or fewer. Where 'checkpoint' has deleted what is to
come next, that is told: --keep-from N keeps it.

Examples:
  ssb_live ship --journal orders.journal | ssh second 'cat > copy.journal'
  ssb_live ship --journal orders.journal --after 1204 --once";

/// What `store --help` shows.
pub const STORE_HELP: &str = "\
Loads the five table files of a folder, and makes a store of them in FOLDER, which is created if it does not exist, and
must be empty: a copy of the tables, and a journal behind them. 'ssb_live serve --store FOLDER' goes on with it, and
'ssb_live checkpoint --store FOLDER' keeps it small.

Example:
  ssb_live store --data tables --store warehouse";

/// What `checkpoint --help` shows.
pub const CHECKPOINT_HELP: &str = "\
Makes newer tables of those of a store and of its closed segments, which are all but the last, and deletes the tables
and the segments that no start needs any more. A server may go on with the store meanwhile. What it had told is kept,
whatever ends this. With --keep-from N the tables that '--at N' and later numbers are read from stay.

Example:
  ssb_live checkpoint --store warehouse";

/// What the word `help` shows on the terminal of a live session.
pub const TERMINAL_HELP: &str = help_with_questions!(
    "\
Q1.1 asks with the benchmark's constants, and Q1.1 1994 1 3 0 24 with these. Names may be in any case. A constant with a
blank in it stands in quotes: star COUNT 'C_REGION=MIDDLE EAST'; or bars part the fields: star|COUNT|C_REGION=MIDDLE
EAST. ask, then 1 to 16 questions, then answer asks them together: all are answered after the same commits. begin, then
add, amend or put with line|.. records, and withdraw KEY, then commit is one refresh; without commit nothing is done.

  order 7     shows the lines of order 7, as they are then
  columns     lists the columns that questions read; values C_REGION lists the values of one
  abort       drops the refresh, or the questions, that were begun
  format csv  from then on replies are written so; also table, json, markdown and bars, and report, as at the beginning
  timing      from then on shows how many seconds each reply took; again: no more
  status      shows what the server has done, its memory, and how long ago the last reply came
  help star   shows questions of your own, with examples
  help begin  shows a refresh, and the 17 fields of a line
  schema      shows the tables and their columns
  help, ?     show this
  quit, exit  end the session, as Ctrl-D does; a refresh without its commit is then fault: 71 NoCommit, and not done

Ctrl-C ends the program at once: a refresh without its commit is not done. Without a journal all commits end with it.

The queries, and their constants in this order:

",
    ""
);

/// What the words `help star` show there.
pub const STAR_HELP: &str = "\
star asks a question of your own: a measure, then the columns to group by, then tests, and ORDER=SUM at the end where
the largest sum is to stand first.

  star COUNT                                  the number of lines
  star LO_REVENUE D_YEAR                      the revenue of each year
  star LO_REVENUE C_NATION C_REGION=ASIA ORDER=SUM
                                              that of each nation in Asia, the largest first
  star LO_QUANTITY P_MFGR D_YEAR=1993..1995 LO_DISCOUNT=10
                                              the pieces of each manufacturer from 1993 to 1995, at 10 % discount
  star COUNT D_YEAR 'C_REGION=MIDDLE EAST' C_REGION=ASIA
                                              a value with a blank in quotes; two values: lines that have one of these

The measure is LO_REVENUE, LO_REVENUE-LO_SUPPLYCOST, LO_EXTENDEDPRICE*LO_DISCOUNT, LO_QUANTITY, LO_EXTENDEDPRICE,
LO_SUPPLYCOST or COUNT. The columns are C_CITY, C_NATION, C_REGION, C_MKTSEGMENT of customers, S_CITY, S_NATION,
S_REGION of suppliers, P_MFGR, P_CATEGORY, P_BRAND1 of parts, and D_DATEKEY, D_DAYOFWEEK, D_MONTH, D_YEAR,
D_YEARMONTHNUM, D_YEARMONTH, D_WEEKNUMINYEAR, D_SELLINGSEASON, D_HOLIDAYFL. LO_QUANTITY and LO_DISCOUNT can be tested
too. To see which values a column has, group by it: star COUNT C_REGION.
";

/// What the word `schema` shows there.
pub const SCHEMA_HELP: &str = "\
The five tables. What has a * can be tested and grouped by; LO_QUANTITY and LO_DISCOUNT can be tested.

  lineorder  LO_ORDERKEY, LO_LINENUMBER, LO_CUSTKEY, LO_PARTKEY, LO_SUPPKEY, LO_ORDERDATE, LO_ORDERPRIORITY,
             LO_SHIPPRIORITY, LO_QUANTITY, LO_EXTENDEDPRICE, LO_ORDTOTALPRICE, LO_DISCOUNT, LO_REVENUE, LO_SUPPLYCOST,
             LO_TAX, LO_COMMITDATE, LO_SHIPMODE
  customer   C_CUSTKEY, C_NAME, C_ADDRESS, C_CITY*, C_NATION*, C_REGION*, C_PHONE, C_MKTSEGMENT*
  supplier   S_SUPPKEY, S_NAME, S_ADDRESS, S_CITY*, S_NATION*, S_REGION*, S_PHONE
  part       P_PARTKEY, P_NAME, P_MFGR*, P_CATEGORY*, P_BRAND1*, P_COLOR, P_TYPE, P_SIZE, P_CONTAINER
  date       D_DATEKEY*, D_DAYOFWEEK*, D_MONTH*, D_YEAR*, D_YEARMONTHNUM*, D_YEARMONTH*, D_WEEKNUMINYEAR*,
             D_SELLINGSEASON*, D_HOLIDAYFL*, and eight that no question reads

LO_CUSTKEY, LO_SUPPKEY, LO_PARTKEY and LO_ORDERDATE of a line name its rows of the other tables, which stay as they were
loaded: refreshes change lineorder alone. To see which values a column has, group by it: star COUNT C_REGION.
";

/// What the words `help begin` show there.
pub const REFRESH_HELP: &str = "\
A refresh adds, amends, puts and withdraws whole orders. All of it is done at its commit, or nothing of it.

  begin
  add
  line|9|1|3|4|3|19930615|5-LOW|0|10|1000000|1000000|2|980000|600000|0|19930701|AIR
  withdraw 7
  commit

add makes an order of the 1 to 7 lines below it; amend puts such an order in the place of the one with its key; put does
so, too, where there is one, and else adds it; withdraw removes the order of a key. The fields of a line are, in this
order: LO_ORDERKEY, LO_LINENUMBER, LO_CUSTKEY, LO_PARTKEY, LO_SUPPKEY, LO_ORDERDATE, LO_ORDERPRIORITY, LO_SHIPPRIORITY,
LO_QUANTITY, LO_EXTENDEDPRICE, LO_ORDTOTALPRICE, LO_DISCOUNT, LO_REVENUE, LO_SUPPLYCOST, LO_TAX, LO_COMMITDATE,
LO_SHIPMODE. Its customer, part, supplier and order date are rows of the load. abort in the place of commit drops the
refresh.
";
