//! Tables of networks, and orders of their nodes.

/// The texts of a network's tables and of an order of its nodes.
#[derive(Clone, Copy)]
pub struct Tables<'a> {
    /// The table `node,x,y`.
    pub nodes: &'a [u8],
    /// The table `arc,tail,head,profile`.
    pub roads: &'a [u8],
    /// The table `profile,from,kind,value`.
    pub profiles: &'a [u8],
    /// The node at each rank, one a row.
    pub ranks: &'a [u8],
}

/// Three nodes.
pub const NODES: &[u8] = b"node,x,y\n0,0,0\n1,50,10\n2,100,0\n";

/// The roads 0 -> 1, 1 -> 2 and 0 -> 2 between three nodes, each with a profile of its own.
pub const ROADS: &[u8] = b"arc,tail,head,profile\n0,0,1,0\n1,1,2,1\n2,0,2,2\n";

/// A minute; 100 seconds, but 300 from 8:00 and closed from 9:56:40 to 10:01:40; and 250 seconds.
pub const RUSH: &[u8] =
    b"profile,from,kind,value\n0,0,travel,60\n1,0,travel,100\n1,28800,travel,300\n1,35800,until,36100\n1,36000,travel,100\n2,0,travel,250\n";

/// An order of three nodes by which node 1 has the lowest rank: nodes 1, 0 and 2 have the ranks 0, 1 and 2.
pub const RANKS: &[u8] = b"1\n0\n2\n";

/// A morning's rush on the second of three roads, and the way over node 1, which has the lowest rank, beside the third. Edge 0
/// takes road 0 downwards, edge 1 road 1 upwards, and edge 2 upwards the middle, from second 28,740 on road 2, and from second
/// 35,851 on the middle again; the three other lists are empty.
pub const RUSH_HOUR: Tables<'static> = Tables {
    nodes: NODES,
    roads: ROADS,
    profiles: RUSH,
    ranks: RANKS,
};

/// The same with each node its own rank: the roads are 1 -> 0, 0 -> 2 and 1 -> 2.
pub const RANKED: Tables<'static> = Tables {
    nodes: NODES,
    roads: b"arc,tail,head,profile\n0,1,0,0\n1,0,2,1\n2,1,2,2\n",
    profiles: RUSH,
    ranks: b"0\n1\n2\n",
};

/// Nine nodes in a row, with a road of a minute from each to the next, and each its own rank. A dissection cuts it at its fifth.
pub const ROW: Tables<'static> = Tables {
    nodes: b"node,x,y\n0,0,0\n1,100,0\n2,200,0\n3,300,0\n4,400,0\n5,500,0\n6,600,0\n7,700,0\n8,800,0\n",
    roads: b"arc,tail,head,profile\n0,0,1,0\n1,1,2,0\n2,2,3,0\n3,3,4,0\n4,4,5,0\n5,5,6,0\n6,6,7,0\n7,7,8,0\n",
    profiles: b"profile,from,kind,value\n0,0,travel,60\n",
    ranks: b"0\n1\n2\n3\n4\n5\n6\n7\n8\n",
};

/// No nodes, no roads and no profiles.
pub const EMPTY: Tables<'static> = Tables {
    nodes: b"node,x,y\n",
    roads: b"arc,tail,head,profile\n",
    profiles: b"profile,from,kind,value\n",
    ranks: b"",
};
