//! Scripts over packed files, and their replies.

use crate::files::{BUILT, FORGED};

/// A script over a packed file, and its replies.
#[derive(Clone, Copy)]
pub struct Script {
    /// The packed file.
    pub file: &'static [u8],
    /// The lines.
    pub lines: &'static str,
    /// A line for each of them.
    pub replies: &'static str,
}

/// Scripts whose replies were worked out by hand.
pub const SCRIPTS: [Script; 14] = [
    Script {
        file: &BUILT,
        lines: "q,0,2,0\nq,0,2,28739\nq,0,2,28740\nq,0,2,35851\nq,1,1,5\nq,2,0,0\r\nq,3,0,0\nq,0,2,86400\n\nx",
        replies: "arrive=160 arcs=0 1\narrive=28899 arcs=0 1\narrive=28990 arcs=2\narrive=36100 arcs=0 1\narrive=5 arcs=\nunreachable\nrefused: node\nrefused: second\nrefused: line\nrefused: line\n",
    },
    // A slower first road, and back: then the road beside both is the better way.
    Script {
        file: &BUILT,
        lines: "s,0,0,travel,200\nq,0,2,0\ns,0,0,travel,60\nq,0,2,0\n",
        replies: "done 2\narrive=250 arcs=2\ndone 2\narrive=160 arcs=0 1\n",
    },
    // Another profile for the road beside both; and lines that are refused.
    Script {
        file: &BUILT,
        lines: "a,2,0\nq,0,2,0\na,9,0\ns,0,5,travel,1\nq,0,2,0\n",
        replies: "done 1\narrive=60 arcs=2\nrefused: arc\nrefused: start\narrive=60 arcs=2\n",
    },
    // Forged ways are driven as they stand, and a shortcut is settled anew only where an edit touches it.
    Script {
        file: &FORGED,
        lines: "q,2,3,0\na,8,0\nq,2,3,0\nq,2,1,0\n",
        replies: "damaged 5 up 0\ndone 1\narrive=10 arcs=8\narrive=20 arcs=6 0\n",
    },
    // The drives of queries: the second at which each road is entered, from the query's on, past midnight as well; and lines that are
    // refused, each by the first check that it fails.
    Script {
        file: &BUILT,
        lines: "v,0,2,0\nv,0,2,28800\nv,0,2,86399\nv,0,2,35851\nv,1,1,5\nv,2,0,0\r\nv,00,02,00\nv,3,0,0\nv,0,3,86400\nv,0,2,86400\nv,0,2\nv,0,2,0,0\nv,0,x,0\nV,0,2,0\nvv,0,2,0\nv",
        replies: "arrive=160 drive=0,0 1,60\narrive=29050 drive=2,28800\narrive=86559 drive=0,86399 1,86459\narrive=36100 drive=0,35851 1,35911\narrive=5 drive=\nunreachable\narrive=160 drive=0,0 1,60\nrefused: node\nrefused: node\nrefused: second\nrefused: line\nrefused: line\nrefused: line\nrefused: line\nrefused: line\nrefused: line\n",
    },
    // The same between edits, by which a road is entered later.
    Script {
        file: &BUILT,
        lines: "s,0,0,travel,140\nv,0,2,0\nq,0,2,0\ns,0,0,travel,200\nv,0,2,0\nv,0,1,86399\n",
        replies: "done 2\narrive=240 drive=0,0 1,140\narrive=240 arcs=0 1\ndone 2\narrive=250 drive=2,0\narrive=86599 drive=0,86399\n",
    },
    // Over forged ways.
    Script {
        file: &FORGED,
        lines: "v,2,3,0\na,8,0\nv,2,3,0\nv,2,1,7\n",
        replies: "damaged 5 up 0\ndone 1\narrive=10 drive=8,0\narrive=27 drive=6,7 0,17\n",
    },
    // Whole days: over the morning's rush, without a road, and where no road leads back; and lines that are refused.
    Script {
        file: &BUILT,
        lines: "d,0,2\nd,1,1\nd,2,0\r\nd,0,1\nd,1,2\nd,3,0\nd,0,3\nd,0\nd,0,2,0\nd,0,x\nd,,2\nd\nD,0,2\nd,00,02\nd,0,99999999999999999999",
        replies: "day 0,travel,160 28740,travel,250 35851,until,36100 35941,travel,160\nday 0,travel,0\nunreachable\nday 0,travel,60\nday 0,travel,100 28800,travel,300 35801,until,36100 36001,travel,100\nrefused: node\nrefused: node\nrefused: line\nrefused: line\nrefused: line\nrefused: line\nrefused: line\nrefused: line\nday 0,travel,160 28740,travel,250 35851,until,36100 35941,travel,160\nrefused: node\n",
    },
    // Edits between days. After the first, the slow minutes behind midnight end the day too, by a drive that begins before it.
    Script {
        file: &BUILT,
        lines: "d,0,2\ns,1,0,travel,300,200,until,500,400,travel,100\nd,0,2\ns,0,0,closed,0\nd,0,2\ns,2,0,until,86400\nd,0,2\nq,0,2,5\ns,2,0,closed,0\nd,0,2\nd,0,0\n",
        replies: "day 0,travel,160 28740,travel,250 35851,until,36100 35941,travel,160\ndone 2\nday 0,travel,250 251,until,500 341,travel,160 86340,travel,250\ndone 2\nday 0,travel,250\ndone 1\nday 0,until,86400\narrive=86400 arcs=2\ndone 1\nunreachable\nday 0,travel,0\n",
    },
    // Days take forged ways as they stand, also where a query finds a walk that is too long.
    Script {
        file: &FORGED,
        lines: "d,2,3\nq,2,3,0\nd,2,1\nd,1,3\nd,1,2\na,8,0\nd,2,3\nq,2,3,0\nd,2,1\n",
        replies: "day 0,travel,40\ndamaged 5 up 0\nday 0,travel,20\nday 0,travel,20\nday 0,travel,10\ndone 1\nday 0,travel,10\narrive=10 arcs=8\nday 0,travel,20\n",
    },
    // All nodes from one, tables, and latest departures: over the morning's rush, at the day's end, and where no road leads.
    Script {
        file: &BUILT,
        lines: "r,0,0\nr,2,5\nr,0,28740\nt,0,1,0,0,1,2\nt,0,2,0,2,2\nt,28740,3,2,1,0,2,0\nt,0,0\nt,0,0,1,2\nt,0,2,0,1\nl,0,2,160\nl,0,2,159\nl,0,2,36100\nl,0,2,86559\nl,0,2,1099511627776\nl,1,1,5\nl,2,0,50\n",
        replies: "reach 0 60 160\nreach - - 5\nreach 28740 28800 28990\ntable 0 60 160\ntable 160 0\ntable 28740 - 28840 - 28990 28740\ntable\ntable\ntable\ndepart=0 arrive=160 arcs=0 1\ntoo late\ndepart=35940 arrive=36100 arcs=0 1\ndepart=86399 arrive=86559 arcs=0 1\ndepart=86399 arrive=86559 arcs=0 1\ndepart=5 arrive=5 arcs=\nunreachable\n",
    },
    // Lines of these kinds that are refused, each by the first check that it fails.
    Script {
        file: &BUILT,
        lines: "r\nr,0\nr,0,0,0\nr,0,x\nR,0,0\nr,3,86400\nr,2,86400\nr,99999999999999999999,0\nr,0,99999999999999999999\nt\nt,0\nt,0,5,0\nt,0,1,0,x\nt,0,99999999999999999999,0\nt,86400,1,3\nt,86400,1,0,3\nt,86400,1,0,2\nt,86400,0\nl,0,2\nl,0,2,0,0\nl,0,2,x\nl,3,0,1099511627777\nl,0,3,0\nl,0,2,1099511627777\nl,0,2,99999999999999999999\n",
        replies: "refused: line\nrefused: line\nrefused: line\nrefused: line\nrefused: line\nrefused: node\nrefused: second\nrefused: node\nrefused: second\nrefused: line\nrefused: line\nrefused: line\nrefused: line\nrefused: line\nrefused: node\nrefused: node\nrefused: second\nrefused: second\nrefused: line\nrefused: line\nrefused: line\nrefused: node\nrefused: node\nrefused: second\nrefused: second\n",
    },
    // The same lines between edits: a slower first road, by which the one beside both is the better way, and roads that are closed.
    Script {
        file: &BUILT,
        lines: "s,0,0,travel,200\nr,0,0\nt,0,2,1,0,2,1\nl,0,2,36100\ns,2,0,closed,0\ns,0,0,closed,0\nr,0,0\nt,7,2,0,1,2,0\nl,0,2,5\n",
        replies: "done 2\nreach 0 200 250\ntable 100 0 250 200\ndepart=35850 arrive=36100 arcs=2\ndone 1\ndone 2\nreach 0 - -\ntable - 7 107 -\nunreachable\n",
    },
    // Forged ways are taken as they stand. A walk that is too long ends a reach, a table behind the rows before it, and a search.
    Script {
        file: &FORGED,
        lines: "r,2,0\nr,3,0\nt,0,2,3,2,3,0\nt,0,1,2,0\nt,0,1,2\nl,2,3,100\nl,3,2,100\nl,3,2,9\na,8,0\nr,2,0\nl,2,1,20\n",
        replies: "damaged 5 up 0\nreach 10 10 10 0\ntable 0 10 damaged 5 up 0\ntable damaged 5 up 0\ntable\ndamaged 5 up 0\ndepart=90 arrive=100 arcs=11\ntoo late\ndone 1\nreach 10 20 0 10\ndepart=0 arrive=20 arcs=6 0\n",
    },
];
