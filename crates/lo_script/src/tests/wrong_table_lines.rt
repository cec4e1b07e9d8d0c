// The tables of wrong lines of tables, cursors and array variables: each with the column of the first token that is not allowed, as
// the grammar gives it. A row is that column in two digits, a space, the line, and a bar.
use super::wrong_lines::{expect_bad, expect_table};
use crate::read_script;
use lo_base::Bytes;
use std::test::Fail;

/// `create table`: its word, its name, and its columns.
const CREATES: &[u8] = b"10 A: create|
11 A: create |
11 A: create tables t id:int8|
11 A: create Table t id:int8|
11 A: create t id:int8|
16 A: create table|
17 A: create table |
17 A: create table  id:int8|
17 A: create table T id:int8|
17 A: create table 1t id:int8|
17 A: create table t-u id:int8|
17 A: create table t.u id:int8|
17 A: create table tU id:int8|
17 A: create table \"t\" id:int8|
18 A: create table t|
19 A: create table t |
19 A: create table t id|
19 A: create table t id:|
19 A: create table t id:int|
19 A: create table t id:int4|
19 A: create table t id:int8:plain|
19 A: create table t id:int8:|
19 A: create table t id:INT8|
19 A: create table t Id:int8|
19 A: create table t i:int8|
19 A: create table t :int8|
19 A: create table t ids:int8|
19 A: create table t id:oid|
19 A: create table t id :int8|
19 A: create table t a:bytea id:int8|
19 A: create table t id=int8|
19 A: create table t id:int8x|
27 A: create table t id:int8 |
27 A: create table t id:int8 a|
27 A: create table t id:int8 a:|
27 A: create table t id:int8 :oid|
27 A: create table t id:int8 A:oid|
27 A: create table t id:int8 1:oid|
27 A: create table t id:int8 a:OID|
27 A: create table t id:int8 a:oids|
27 A: create table t id:int8 a:oi|
27 A: create table t id:int8 a:int4|
27 A: create table t id:int8 a:int4[|
27 A: create table t id:int8 a:int4[]x|
27 A: create table t id:int8 a:int4[1]|
27 A: create table t id:int8 a:text|
27 A: create table t id:int8 a:oid:plain|
27 A: create table t id:int8 a:oid:|
27 A: create table t id:int8 a:lo:main|
27 A: create table t id:int8 a:lo:external|
27 A: create table t id:int8 a:int8:plain|
27 A: create table t id:int8 a:int8:extended|
27 A: create table t id:int8 a:bytea:|
27 A: create table t id:int8 a:bytea:x|
27 A: create table t id:int8 a:bytea:mains|
27 A: create table t id:int8 a:bytea:MAIN|
27 A: create table t id:int8 a:bytea:plain:|
27 A: create table t id:int8 a:bytea:plain:plain|
27 A: create table t id:int8 a:bytea::plain|
27 A: create table t id:int8 a::bytea|
27 A: create table t id:int8 a:int4[]:|
27 A: create table t id:int8 a:int4[]:compressed|
27 A: create table t id:int8 a:int4[]plain|
27 A: create table t id:int8 a:byteaplain|
27 A: create table t id:int8 a=oid|
27 A: create table t id:int8 a b:oid|
27 A: create table t id:int8 a: oid|
27 A: create table t id:int8 id:int8|
27 A: create table t id:int8 id:oid|
27 A: create table t id:int8 id:bytea:main|
33 A: create table t id:int8 a:oid |
33 A: create table t id:int8 a:oid a:oid|
38 A: create table t id:int8 a:oid b:lo a:bytea:main|
38 A: create table t id:int8 a:oid b:lo b:int4[] b:oid|
33 A: create table t id:int8 a:oid  b:lo|
47 A: create table t id:int8 aa:oid a:oid ab:oid aa:lo|";

/// `insert`: its table and its values.
const INSERTS: &[u8] = b"10 A: insert|
11 A: insert |
11 A: insert  1|
11 A: insert T 1|
11 A: insert 1t 1|
11 A: insert t-u 1|
11 A: insert t.u 1|
11 A: insert tU 1|
11 A: insert \"t\" 1|
12 A: insert t|
13 A: insert t |
13 A: insert t NULL|
13 A: insert t Null|
13 A: insert t nul|
13 A: insert t nulls|
13 A: insert t -0|
13 A: insert t 01|
13 A: insert t +1|
13 A: insert t 1x|
13 A: insert t -|
13 A: insert t 9223372036854775808|
13 A: insert t -9223372036854775809|
13 A: insert t x|
13 A: insert t t|
13 A: insert t \\|
13 A: insert t \\x4|
13 A: insert t \\x4g|
13 A: insert t \\X41|
13 A: insert t \\y41|
13 A: insert t x41|
13 A: insert t @|
13 A: insert t @A|
13 A: insert t @1|
13 A: insert t @a-|
13 A: insert t @@a|
13 A: insert t @N|
13 A: insert t }|
13 A: insert t ]|
13 A: insert t (1)|
13 A: insert t \"a\"|
13 A: insert t 'a'|
13 A: insert t  {1}|
13 A: insert t @ {1}|
15 A: insert t 1 |
15 A: insert t 1  2|
20 A: insert t 1 null x|
18 A: insert t 1 @a @|
22 A: insert t 1 {1} {2 |
19 A: insert t {1,2} 2} 3|
23 A: insert t [0:0]={1} =|
18 A: insert t \\x41 \\x4|
16 A: insert t \\x x|";

/// `update`: its table, its id and its changes.
const UPDATES: &[u8] = b"10 A: update|
11 A: update |
11 A: update  1 a=1|
11 A: update T 1 a=1|
11 A: update 1t 1 a=1|
11 A: update t-u 1 a=1|
11 A: update t.u 1 a=1|
11 A: update tU 1 a=1|
11 A: update \"t\" 1 a=1|
12 A: update t|
13 A: update t -9223372036854775809 a=1|
13 A: update t 9223372036854775808 a=1|
13 A: update t -0 a=1|
13 A: update t 01 a=1|
13 A: update t +1 a=1|
13 A: update t 1.0 a=1|
13 A: update t x a=1|
14 A: update t 1|
15 A: update t 1 |
15 A: update t 1 a|
15 A: update t 1 a=|
15 A: update t 1 =1|
15 A: update t 1 A=1|
15 A: update t 1 1=1|
15 A: update t 1 a-=1|
15 A: update t 1 a==1|
15 A: update t 1 a=+1|
15 A: update t 1 a=01|
15 A: update t 1 a=-0|
15 A: update t 1 a=9223372036854775808|
15 A: update t 1 a=NULL|
15 A: update t 1 a=x|
15 A: update t 1 a=b=1|
15 A: update t 1 a=\\x4|
15 A: update t 1 a=\\X41|
15 A: update t 1 a=\\|
15 A: update t 1 a=@|
15 A: update t 1 a=@A|
15 A: update t 1 a=}|
15 A: update t 1 a:1|
15 A: update t 1 a = 1|
15 A: update t 1 a =1|
15 A: update t 1 {a=1}|
15 A: update t 1 a=null=|
15 A: update t 1 a=1=1|
15 A: update t 1 a= 1|
19 A: update t 1 a=1 |
19 A: update t 1 a=1 a=1|
19 A: update t 1 a=1 a=2|
23 A: update t 1 a=1 b=2 a=null|
23 A: update t 1 a=1 b=2 b=2|
27 A: update t 1 a=[0:0]={1} a={1}|
19 A: update t 1 a=1 b|
19 A: update t 1 a=1 b=|
29 A: update t 1 aa=1 a=1 ab=1 a=1|
21 A: update t 1 a={1, 2}|";

/// `rewrite`: its table and its storages.
const REWRITES: &[u8] = b"11 A: rewrite|
12 A: rewrite |
12 A: rewrite  a:main|
12 A: rewrite T a:main|
12 A: rewrite 1t a:main|
12 A: rewrite t-u a:main|
12 A: rewrite t.u a:main|
12 A: rewrite tU a:main|
12 A: rewrite \"t\" a:main|
13 A: rewrite t|
14 A: rewrite t |
14 A: rewrite t a|
14 A: rewrite t a:|
14 A: rewrite t :main|
14 A: rewrite t A:main|
14 A: rewrite t 1:main|
14 A: rewrite t a:MAIN|
14 A: rewrite t a:mains|
14 A: rewrite t a:mai|
14 A: rewrite t a:bytea|
14 A: rewrite t a:bytea:main|
14 A: rewrite t a:main:|
14 A: rewrite t a::main|
14 A: rewrite t a=main|
14 A: rewrite t a main|
14 A: rewrite t a:plain:main|
14 A: rewrite t a:int8|
21 A: rewrite t a:main |
21 A: rewrite t a:main a:main|
29 A: rewrite t a:main b:plain a:external|
29 A: rewrite t a:main b:plain b:extended|
21 A: rewrite t a:main b|
29 A: rewrite t aa:main a:main a:main|";

/// The other forms on tables and rows.
const ROWS: &[u8] = b"10 A: delete|
11 A: delete |
11 A: delete  1|
11 A: delete T 1|
11 A: delete 1t 1|
11 A: delete t-u 1|
11 A: delete t.u 1|
11 A: delete tU 1|
11 A: delete \"t\" 1|
12 A: delete t|
13 A: delete t -9223372036854775809|
13 A: delete t 9223372036854775808|
13 A: delete t -0|
13 A: delete t 01|
13 A: delete t +1|
13 A: delete t 1.0|
13 A: delete t x|
13 A: delete t |
15 A: delete t 1 |
15 A: delete t 1 1|
07 A: get|
08 A: get |
08 A: get  1|
08 A: get T 1|
08 A: get 1t 1|
08 A: get t-u 1|
08 A: get t.u 1|
08 A: get tU 1|
08 A: get \"t\" 1|
09 A: get t|
10 A: get t -9223372036854775809|
10 A: get t 9223372036854775808|
10 A: get t -0|
10 A: get t 01|
10 A: get t +1|
10 A: get t 1.0|
10 A: get t x|
10 A: get t |
12 A: get t 1 |
12 A: get t 1 a|
07 A: ids|
08 A: ids |
08 A: ids T|
08 A: ids 1t|
08 A: ids t-u|
08 A: ids t.u|
08 A: ids tU|
08 A: ids \"t\"|
10 A: ids t |
10 A: ids t 1|
09 A: slice|
10 A: slice  1 a 0 2|
10 A: slice T 1 a 0 2|
10 A: slice 1t 1 a 0 2|
10 A: slice t-u 1 a 0 2|
10 A: slice t.u 1 a 0 2|
10 A: slice tU 1 a 0 2|
10 A: slice \"t\" 1 a 0 2|
11 A: slice t|
12 A: slice t -9223372036854775809 a 0 2|
12 A: slice t 9223372036854775808 a 0 2|
12 A: slice t -0 a 0 2|
12 A: slice t 01 a 0 2|
12 A: slice t +1 a 0 2|
12 A: slice t 1.0 a 0 2|
12 A: slice t x a 0 2|
13 A: slice t 1|
14 A: slice t 1  0 2|
14 A: slice t 1 T 0 2|
14 A: slice t 1 1t 0 2|
14 A: slice t 1 t-u 0 2|
14 A: slice t 1 t.u 0 2|
14 A: slice t 1 tU 0 2|
14 A: slice t 1 \"t\" 0 2|
15 A: slice t 1 a|
16 A: slice t 1 a -9223372036854775809 2|
16 A: slice t 1 a 9223372036854775808 2|
16 A: slice t 1 a -0 2|
16 A: slice t 1 a 01 2|
16 A: slice t 1 a +1 2|
16 A: slice t 1 a 1.0 2|
16 A: slice t 1 a x 2|
17 A: slice t 1 a 0|
18 A: slice t 1 a 0 -9223372036854775809|
18 A: slice t 1 a 0 9223372036854775808|
18 A: slice t 1 a 0 -0|
18 A: slice t 1 a 0 01|
18 A: slice t 1 a 0 +1|
18 A: slice t 1 a 0 1.0|
18 A: slice t 1 a 0 x|
20 A: slice t 1 a 0 2 |
20 A: slice t 1 a 0 2 1|
12 A: slice t a 1 0 2|";

/// Forms on cursors.
const CURSORS: &[u8] = b"11 A: declare|
12 A: declare  t 1|
12 A: declare T t 1|
12 A: declare 1t t 1|
12 A: declare t-u t 1|
12 A: declare t.u t 1|
12 A: declare tU t 1|
12 A: declare \"t\" t 1|
13 A: declare c|
14 A: declare c  1|
14 A: declare c T 1|
14 A: declare c 1t 1|
14 A: declare c t-u 1|
14 A: declare c t.u 1|
14 A: declare c tU 1|
14 A: declare c \"t\" 1|
15 A: declare c t|
16 A: declare c t -9223372036854775809|
16 A: declare c t 9223372036854775808|
16 A: declare c t -0|
16 A: declare c t 01|
16 A: declare c t +1|
16 A: declare c t 1.0|
16 A: declare c t x|
18 A: declare c t 1 |
18 A: declare c t 1 1|
14 A: declare c 1 t|
09 A: fetch|
10 A: fetch  a 0 2|
10 A: fetch T a 0 2|
10 A: fetch 1t a 0 2|
10 A: fetch t-u a 0 2|
10 A: fetch t.u a 0 2|
10 A: fetch tU a 0 2|
10 A: fetch \"t\" a 0 2|
11 A: fetch c|
12 A: fetch c  0 2|
12 A: fetch c T 0 2|
12 A: fetch c 1t 0 2|
12 A: fetch c t-u 0 2|
12 A: fetch c t.u 0 2|
12 A: fetch c tU 0 2|
12 A: fetch c \"t\" 0 2|
13 A: fetch c a|
14 A: fetch c a -9223372036854775809 2|
14 A: fetch c a 9223372036854775808 2|
14 A: fetch c a -0 2|
14 A: fetch c a 01 2|
14 A: fetch c a +1 2|
14 A: fetch c a 1.0 2|
14 A: fetch c a x 2|
15 A: fetch c a 0|
16 A: fetch c a 0 -9223372036854775809|
16 A: fetch c a 0 9223372036854775808|
16 A: fetch c a 0 -0|
16 A: fetch c a 0 01|
16 A: fetch c a 0 +1|
16 A: fetch c a 0 1.0|
16 A: fetch c a 0 x|
18 A: fetch c a 0 2 |
18 A: fetch c a 0 2 1|
09 A: close|
10 A: close |
10 A: close T|
10 A: close 1t|
10 A: close t-u|
10 A: close t.u|
10 A: close tU|
10 A: close \"t\"|
12 A: close c |
12 A: close c c|";

/// Forms on array variables.
const ARRAYS: &[u8] = b"09 A: array|
10 A: array  {1}|
10 A: array T {1}|
10 A: array 1t {1}|
10 A: array t-u {1}|
10 A: array t.u {1}|
10 A: array tU {1}|
10 A: array \"t\" {1}|
11 A: array a|
12 A: array a |
12 A: array a  {1}|
16 A: array a {1} |
16 A: array a {1, 2}|
16 A: array a {1} {2}|
08 A: load|
09 A: load  t 1 c|
09 A: load T t 1 c|
09 A: load 1t t 1 c|
09 A: load t-u t 1 c|
09 A: load t.u t 1 c|
09 A: load tU t 1 c|
09 A: load \"t\" t 1 c|
10 A: load a|
11 A: load a  1 c|
11 A: load a T 1 c|
11 A: load a 1t 1 c|
11 A: load a t-u 1 c|
11 A: load a t.u 1 c|
11 A: load a tU 1 c|
11 A: load a \"t\" 1 c|
12 A: load a t|
13 A: load a t -9223372036854775809 c|
13 A: load a t 9223372036854775808 c|
13 A: load a t -0 c|
13 A: load a t 01 c|
13 A: load a t +1 c|
13 A: load a t 1.0 c|
13 A: load a t x c|
14 A: load a t 1|
15 A: load a t 1 |
15 A: load a t 1 T|
15 A: load a t 1 1t|
15 A: load a t 1 t-u|
15 A: load a t 1 t.u|
15 A: load a t 1 tU|
15 A: load a t 1 \"t\"|
17 A: load a t 1 c |
17 A: load a t 1 c c|
07 A: set|
08 A: set  1 5|
08 A: set T 1 5|
08 A: set 1t 1 5|
08 A: set t-u 1 5|
08 A: set t.u 1 5|
08 A: set tU 1 5|
08 A: set \"t\" 1 5|
09 A: set a|
10 A: set a -2147483649 5|
10 A: set a 2147483648 5|
10 A: set a -0 5|
10 A: set a 01 5|
10 A: set a +1 5|
10 A: set a x 5|
10 A: set a null 5|
11 A: set a 1|
12 A: set a 1 -2147483649|
12 A: set a 1 2147483648|
12 A: set a 1 -0|
12 A: set a 1 01|
12 A: set a 1 +1|
12 A: set a 1 x|
12 A: set a 1 |
12 A: set a 1 NULL|
12 A: set a 1 nulls|
12 A: set a 1 nul|
12 A: set a 1 {5}|
12 A: set a 1 @b|
14 A: set a 1 5 |
17 A: set a 1 null 1|
08 A: elem|
09 A: elem  1|
09 A: elem T 1|
09 A: elem 1t 1|
09 A: elem t-u 1|
09 A: elem t.u 1|
09 A: elem tU 1|
09 A: elem \"t\" 1|
10 A: elem a|
11 A: elem a -2147483649|
11 A: elem a 2147483648|
11 A: elem a -0|
11 A: elem a 01|
11 A: elem a +1|
11 A: elem a x|
11 A: elem a null|
13 A: elem a 1 |
13 A: elem a 1 2|
08 A: show|
09 A: show |
09 A: show T|
09 A: show 1t|
09 A: show t-u|
09 A: show t.u|
09 A: show tU|
09 A: show \"t\"|
11 A: show a |
11 A: show a 1|";

/// Words that are no form, or not yet.
const WORDS: &[u8] = b"04 A: createtable t id:int8|
04 A: creates table t id:int8|
04 A: CREATE table t id:int8|
04 A: inserts t 1|
04 A: insert_into t 1|
04 A: updates t 1 a=1|
04 A: deletes t 1|
04 A: gets t 1|
04 A: id t|
04 A: slices t 1 a 0 2|
04 A: declares c t 1|
04 A: fetchs c a 0 2|
04 A: closes c|
04 A: rewrites t a:main|
04 A: arrays a {1}|
04 A: loads a t 1 c|
04 A: sets a 1 5|
04 A: elems a 1|
04 A: shows a|
04 A: show\ta|
12 A: vacuumlo|
04 A: step|
04 A: finish|
04 A: drop table t|
04 A: select|
04 A: table|
04 A: lo_insert t 1|
04 A: lo_show a|";

/// As many columns as a table can have: `id`, and 31 whose tokens take seven bytes each with their space.
const FULL: &[u8] =
    b"A: create table t id:int8 c01:lo c02:lo c03:lo c04:lo c05:lo c06:lo c07:lo c08:lo c09:lo c10:lo c11:lo c12:lo c13:lo c14:lo c15:lo c16:lo c17:lo c18:lo c19:lo c20:lo c21:lo c22:lo c23:lo c24:lo c25:lo c26:lo c27:lo c28:lo c29:lo c30:lo c31:lo";

#[test]
fn wrong_columns_are_refused(rt: HostRuntime) {
    expect_table(&rt, rt.alloc(), CREATES, 76);
}

#[test]
fn wrong_values_are_refused(rt: HostRuntime) {
    expect_table(&rt, rt.alloc(), INSERTS, 52);
}

#[test]
fn wrong_changes_are_refused(rt: HostRuntime) {
    expect_table(&rt, rt.alloc(), UPDATES, 56);
}

#[test]
fn wrong_storages_are_refused(rt: HostRuntime) {
    expect_table(&rt, rt.alloc(), REWRITES, 33);
}

#[test]
fn wrong_forms_of_rows_are_refused(rt: HostRuntime) {
    expect_table(&rt, rt.alloc(), ROWS, 93);
}

#[test]
fn wrong_forms_of_cursors_are_refused(rt: HostRuntime) {
    expect_table(&rt, rt.alloc(), CURSORS, 71);
}

#[test]
fn wrong_forms_of_arrays_are_refused(rt: HostRuntime) {
    expect_table(&rt, rt.alloc(), ARRAYS, 107);
}

#[test]
fn other_words_are_refused(rt: HostRuntime) {
    expect_table(&rt, rt.alloc(), WORDS, 28);
}

#[test]
fn the_column_after_the_last_is_refused(rt: HostRuntime) -> Result<(), Fail> {
    let script = read_script(rt.alloc(), FULL)?;
    assert_eq!(rt; script.order.items().len(), 1);
    let mut line = Bytes::from_slice(rt.alloc(), FULL)?;
    line.extend(b" d:lo")?;
    expect_bad(&rt, rt.alloc(), line.items(), 1, 25 + 31 * 7 + 2);
    Ok(())
}
