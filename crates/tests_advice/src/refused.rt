//! Words, tables and orders that are refused.

use crate::asked::{Given, NOTHING, Row, first_other};
use std::test::Fail;

const WORDS: [Row; 10] = [
    (
        2,
        "build a b c d",
        "words",
        "catchup: build takes NODES ROADS PROFILES ORDER OUT (5 words), and there were 4. See: catchup --help\n",
    ),
    (
        2,
        "ask",
        "words",
        "catchup: ask takes HIERARCHY (1 word), and there were 0. See: catchup --help\n",
    ),
    (
        2,
        "desk a",
        "words",
        "catchup: desk takes HIERARCHY OUT (2 words), and there was 1. See: catchup --help\n",
    ),
    (
        2,
        "biuld a b c d e",
        "words",
        "catchup: biuld is no command; the nearest is build. See: catchup --help\n",
    ),
    (
        2,
        "Serve",
        "words",
        "catchup: Serve is no command; the nearest is serve. See: catchup --help\n",
    ),
    (
        2,
        "navigate",
        "words",
        "catchup: navigate is no command. See: catchup --help\n",
    ),
    (
        2,
        "",
        "words",
        "catchup: there is no command. See: catchup --help\n",
    ),
    (
        2,
        "make 7 513 1 a b c",
        "words",
        "catchup: make: W is a whole number from 1 to 512, and here it is 513. See: catchup --help\n",
    ),
    (
        2,
        "make x 1 1 a b c",
        "words",
        "catchup: make: START is a whole number from 0 to 18446744073709551615, and here it is x. See: catchup --help\n",
    ),
    (
        2,
        "trial 1 2 2 1000001",
        "words",
        "catchup: trial: K is a whole number from 0 to 1000000, and here it is 1000001. See: catchup --help\n",
    ),
];

#[test]
fn words_of_no_command(rt: HostRuntime) -> Result<(), Fail> {
    assert_eq!(rt; first_other(rt.alloc(), &NOTHING, &WORDS)?, WORDS.len());
    Ok(())
}

// Three nodes, two roads and two profiles. In the nodes a blank line stands behind the header; the roads have a byte-order mark, and
// line ends of two bytes; the first profile has a field over two lines.
const TABLES: Given = Given {
    nodes: "node,x,y\n\n0,0,0\n1,5,5\n2,9,1000000001\n",
    roads: "\u{feff}arc,tail,head,profile\r\n0,0,2,0\r\n1,1,9,4\r\n7,2,9\r\n",
    profiles: "profile,from,kind,value\n0,0,\"tra\nvel\",100\n0,7200,fly,700000\n1,60,until,1\n1,60,closed,8\n4,86400,travel,604801\n",
    order: "0\n2\nx\n2\n3\n1,2\n",
    reason: "",
};

const S: &str = "serve n.csv r.csv p.csv o";

const NETWORKS: [Row; 20] = [
    (
        4,
        S,
        "network: nodes header",
        "catchup: n.csv, line 1: the header is node,x,y, and has to be node,x,y\n",
    ),
    (
        4,
        S,
        "network: nodes 1 number",
        "catchup: n.csv, line 4: a field has to be a whole number\n",
    ),
    (
        4,
        S,
        "network: nodes 2 number",
        "catchup: n.csv, line 5: y is 1000000001, and has to be a whole number from 0 to 1000000000\n",
    ),
    (
        4,
        S,
        "network: nodes 0 sequence",
        "catchup: n.csv, line 3: node is 0, and has to be 0: rows are numbered from 0 on, in their order\n",
    ),
    (
        4,
        S,
        "network: nodes 2 count",
        "catchup: n.csv, line 5: there are more than 262144 nodes, the most that catchup takes\n",
    ),
    (
        4,
        S,
        "network: roads 2 fields",
        "catchup: r.csv, line 4: 3 fields, and a row has 4: arc,tail,head,profile\n",
    ),
    (
        4,
        S,
        "network: roads 2 sequence",
        "catchup: r.csv, line 4: arc is 7, and has to be 2: rows are numbered from 0 on, in their order\n",
    ),
    (
        4,
        S,
        "network: roads 1 node",
        "catchup: r.csv, line 3: arc 1 leads to node 9; n.csv has nodes 0 to 2\n",
    ),
    (
        4,
        S,
        "network: roads 1 profile",
        "catchup: r.csv, line 3: arc 1 has profile 4; p.csv has profiles 0 to 4\n",
    ),
    (
        4,
        S,
        "network: roads 5 count",
        "catchup: r.csv, row 5 behind the header: there are more rows than may be\n",
    ),
    (
        4,
        S,
        "network: profiles 1 kind",
        "catchup: p.csv, line 4: kind is fly, and has to be travel, until or closed\n",
    ),
    (
        4,
        S,
        "network: profiles 0 kind",
        "catchup: p.csv, line 2: kind is tra?vel, and has to be travel, until or closed\n",
    ),
    (
        4,
        S,
        "network: profiles 4 limit",
        "catchup: p.csv, line 7: from is 86400, and a second of the day is at most 86399\n",
    ),
    (
        4,
        S,
        "network: profiles 3 limit",
        "catchup: p.csv, line 6: value is 8, and of closed it is at most 0\n",
    ),
    (
        4,
        S,
        "network: profiles 2 start",
        "catchup: p.csv, line 5: from is 60, and has to be 0 in the first row of profile 1\n",
    ),
    (
        4,
        S,
        "network: profiles 3 rising",
        "catchup: p.csv, line 6: from is 60, and has to be later than 60, that of the row before of profile 1\n",
    ),
    (
        4,
        S,
        "network: profiles 3 closed",
        "catchup: p.csv, line 6: profile 1 is closed here, and has other rows: a closed one has this row alone\n",
    ),
    (
        4,
        S,
        "network: profiles 2 early 28799",
        "catchup: p.csv: profile 1 lets who departs at 07:59:59 arrive before that. Let an until piece end by the second that it names\ncatchup: p.csv, line 5: profile 1 begins here\n",
    ),
    (
        4,
        S,
        "network: profiles 2 fifo 28799",
        "catchup: p.csv: profile 1 lets who departs at 07:59:59 arrive later than who departs a second later. Measured times that do so: catchup measure, or catchup wait\ncatchup: p.csv, line 5: profile 1 begins here\n",
    ),
    (
        4,
        S,
        "network: profiles 4 sequence",
        "catchup: p.csv, line 7: profile is 4, and has to be 1 or 2 behind profile 1\n",
    ),
];

// Tables in the places of others, and one without a row.
const SWAPPED: Given = Given {
    nodes: "arc,tail,head,profile\n0,0,0,0\n",
    roads: "\n\nnode,x,y\n",
    profiles: "profile,second,mode,travel\n",
    ..NOTHING
};

const HEADERS: [Row; 5] = [
    (
        4,
        S,
        "network: nodes header",
        "catchup: n.csv, line 1: the header is arc,tail,head,profile, and has to be node,x,y. This is a table of roads: are the words in their order?\n",
    ),
    (
        4,
        S,
        "network: roads header",
        "catchup: r.csv, line 3: the header is node,x,y, and has to be arc,tail,head,profile. This is a table of nodes: are the words in their order?\n",
    ),
    (
        4,
        S,
        "network: profiles header",
        "catchup: p.csv, line 1: the header is profile,second,mode,travel, and has to be profile,from,kind,value. Measured times: catchup measure, or catchup wait\n",
    ),
    (
        4,
        S,
        "network: roads 0 node",
        "catchup: r.csv, row 0 behind the header: the tail and the head of a road are nodes\n",
    ),
    (
        4,
        "order n.csv r.csv p.csv o",
        "network: profiles 7 fifo 0",
        "catchup: p.csv: the profile of row 7 lets who departs at 00:00:00 arrive later than who departs a second later. Measured times that do so: catchup measure, or catchup wait\n",
    ),
];

#[test]
fn headers_that_are_refused(rt: HostRuntime) -> Result<(), Fail> {
    assert_eq!(rt; first_other(rt.alloc(), &SWAPPED, &HEADERS)?, HEADERS.len());
    Ok(())
}

#[test]
fn tables_that_are_refused(rt: HostRuntime) -> Result<(), Fail> {
    assert_eq!(rt;
        first_other(rt.alloc(), &TABLES, &NETWORKS)?,
        NETWORKS.len()
    );
    Ok(())
}

// Measured profiles.
const MEASURED: Given = Given {
    profiles: "profile,second,mode,travel\n1,5,line,a\n0,5,walk,604801\n0,5,step,3\n0,86400,step,3\n",
    ..NOTHING
};

const M: &str = "measure m.csv p.csv";

const MEASURES: [Row; 9] = [
    (
        4,
        "wait n r m.csv o",
        "measured: header",
        "catchup: m.csv, line 1: the header is profile,second,mode,travel, and has to be profile,second,mode,travel\n",
    ),
    (
        4,
        M,
        "measured: 0 fields",
        "catchup: m.csv, line 2: 4 fields, and a row has 4: profile,second,mode,travel\n",
    ),
    (
        4,
        M,
        "measured: 0 number",
        "catchup: m.csv, line 2: travel is a, and has to be a whole number\n",
    ),
    (
        4,
        M,
        "measured: 0 sequence",
        "catchup: m.csv, line 2: profile is 1, and has to be 0: profiles are numbered from 0 on\n",
    ),
    (
        4,
        M,
        "measured: 3 count",
        "catchup: m.csv, line 5: there are more than 49710 measured profiles, the most that catchup takes\n",
    ),
    (
        4,
        M,
        "measured: 1 mode",
        "catchup: m.csv, line 3: mode is walk, and has to be line or step\n",
    ),
    (
        4,
        M,
        "measured: 3 limit",
        "catchup: m.csv, line 5: second is 86400, and a second of the day is at most 86399\n",
    ),
    (
        4,
        M,
        "measured: 1 start",
        "catchup: m.csv, line 3: second is 5, and has to be 0 in the first row of profile 0\n",
    ),
    (
        4,
        M,
        "measured: 2 rising",
        "catchup: m.csv, line 4: second is 5, and has to be later than 5, that of the row before of profile 0\n",
    ),
];

#[test]
fn measured_profiles_that_are_refused(rt: HostRuntime) -> Result<(), Fail> {
    assert_eq!(rt;
        first_other(rt.alloc(), &MEASURED, &MEASURES)?,
        MEASURES.len()
    );
    Ok(())
}

const ORDERS: [Row; 6] = [
    (
        5,
        S,
        "order: 2 number",
        "catchup: o, line 3: node is x, and has to be a whole number; an order has no header\n",
    ),
    (
        5,
        S,
        "order: 5 number",
        "catchup: o, line 6: 2 fields, and a row has one, the number of a node\n",
    ),
    (
        5,
        S,
        "order: 4 range",
        "catchup: o, line 5: there is no node 3; n.csv has nodes 0 to 2\n",
    ),
    (
        5,
        S,
        "order: 3 twice",
        "catchup: o, line 4: node 2 stands in line 2 already, and each node stands once\n",
    ),
    (
        5,
        S,
        "order: 2 count",
        "catchup: o has 2 rows, and n.csv has nodes 0 to 2: each node stands once. To make an order: catchup order\n",
    ),
    (
        5,
        S,
        "order: 9 number",
        "catchup: o, row 9: each row is one node, and each node stands once\n",
    ),
];

#[test]
fn orders_that_are_refused(rt: HostRuntime) -> Result<(), Fail> {
    assert_eq!(rt; first_other(rt.alloc(), &TABLES, &ORDERS)?, ORDERS.len());
    Ok(())
}
