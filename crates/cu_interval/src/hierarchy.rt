//! Hierarchies: a network, an order, the chordal graph of both, and the way lists of each edge.

ghost use Rattle.std.specs.Prelude.{◌≡◌, ◌≤◌, ◌<◌, ℕ, Some, IfSome, length, slice_get};
ghost use Rattle.cu_chordal.specs.Graphs.{FindsEdge};
ghost use Rattle.cu_interval.specs.WayLists.{way_at};
ghost use Rattle.cu_interval.specs.Hierarchies.{HierarchyValue, IsHierarchy, IsHierarchyOf, graph_of, list_of};
ghost use Rattle.cu_interval.specs.LeastBounds.{least_bound};

use crate::shortcuts::Shortcut;
use crate::ways::{Dir, Entry, Way, WayList};
use cu_chordal::{Chordal, Ends};
use cu_model::{Network, Order, Piece, RoadArc, Roads};
use std::marker::Model;

/// Whatever stands for a hierarchy. No call takes memory.
pub trait Ways: Roads {
    ghost hierarchy: { Self → HierarchyValue };

    /// The rank of a node, which is below the number of nodes. So is the rank.
    fn rank(&self, node: u32) -> u32
        requires { node < (hierarchy self.now).network.nodes }
        ensures there { slice_get (hierarchy self.now).order.rank_of node ≡ Some result }
        ensures range { result < (hierarchy self.now).network.nodes }
        ensures sound { IsHierarchy (hierarchy self.now) };

    /// The node with a rank, which is below the number of nodes. So is the node.
    fn node(&self, rank: u32) -> u32
        requires { rank < (hierarchy self.now).network.nodes }
        ensures there { slice_get (hierarchy self.now).order.node_at rank ≡ Some result }
        ensures range { result < (hierarchy self.now).network.nodes }
        ensures sound { IsHierarchy (hierarchy self.now) };

    /// How many ranks there are, as many as nodes.
    fn ranks(&self) -> u32
        ensures count { result ≡ (hierarchy self.now).network.nodes }
        ensures sound { IsHierarchy (hierarchy self.now) };

    /// How many edges there are, at most 16,777,216.
    fn edges(&self) -> u32
        ensures count { result ≡ length (hierarchy self.now).edges }
        ensures sound { IsHierarchy (hierarchy self.now) };

    /// The ends of the edge with this number, which is below the number of edges.
    fn ends(&self, edge: u32) -> Ends
        requires { edge < length (hierarchy self.now).edges }
        ensures there { slice_get (hierarchy self.now).edges edge ≡ Some result }
        ensures sound { IsHierarchy (hierarchy self.now) };

    /// The number of the edge between two ranks, of which the lower is below the number of nodes. None exactly where there
    /// is no such edge.
    fn edge(&self, low: u32, high: u32) -> Option<u32>
        requires { low < (hierarchy self.now).network.nodes }
        ensures found { FindsEdge (hierarchy self.now).edges low high result }
        ensures sound { IsHierarchy (hierarchy self.now) };

    /// The way that is taken at a second over an edge in a direction. None exactly where its list is empty.
    fn way(&self, edge: u32, dir: Dir, second: u64) -> Option<Way>
        requires { edge < length (hierarchy self.now).edges }
        ensures way { result ≡ way_at (list_of (hierarchy self.now) edge dir) second }
        ensures sound { IsHierarchy (hierarchy self.now) };

    /// How many entries the list of an edge in a direction has, at most 86,400.
    fn entries(&self, edge: u32, dir: Dir) -> u32
        requires { edge < length (hierarchy self.now).edges }
        ensures count { result ≡ length (list_of (hierarchy self.now) edge dir) }
        ensures sound { IsHierarchy (hierarchy self.now) };

    /// The entry with this index, below the number of entries, of the list of an edge in a direction.
    fn entry(&self, edge: u32, dir: Dir, index: u32) -> Entry
        requires edge { edge < length (hierarchy self.now).edges }
        requires index { index < length (list_of (hierarchy self.now) edge dir) }
        ensures there { slice_get (list_of (hierarchy self.now) edge dir) index ≡ Some result }
        ensures sound { IsHierarchy (hierarchy self.now) };

    ghost same_network: { (ways : Self) → (hierarchy ways).network ≡ Self.Roads.network ways };
}

/// Ways that know the least bound of each list.
pub trait BoundedWays: Ways {
    /// The seconds below which no travel over the list of an edge in a direction falls; 2^60 where it has no entry. Takes no
    /// memory.
    fn least(&self, edge: u32, dir: Dir) -> u64
        requires edge { edge < length (Self.Ways.hierarchy self.now).edges }
        ensures bound { result ≡ least_bound (Self.Ways.hierarchy self.now) edge dir };
}

/// A hierarchy in memory. It keeps no travel times but the profiles.
#[derive(Drop)]
pub struct Hierarchy {
    network: Network,
    order: Order,
    graph: Chordal,
    lists: Vec<WayList>,
}

impl Model for Hierarchy {
    ghost use Rattle.cu_interval.specs.Hierarchies.{HierarchyValue, IsHierarchyOf};

    ghost Value = { HierarchyValue };

    ghost view = { λ h. record {
      network = h.network;
      order = h.order;
      edges = h.graph.edges;
      lists = h.lists.items;
    } };

    ghost invariant = { λ h. IsHierarchyOf h.graph
        (record {
          network = h.network;
          order = h.order;
          edges = h.graph.edges;
          lists = h.lists.items;
        }) };
}

impl Hierarchy {
    /// The hierarchy of these parts. The graph's edges are the chordal ones of network and order, and the lists, number
    /// 2 * edge for up and 2 * edge + 1 for down, have well-formed ways. Takes no memory.
    pub fn of(network: Network, order: Order, graph: Chordal, lists: Vec<WayList>) -> Hierarchy
        requires { IsHierarchyOf graph
            (record {
              network = network;
              order = order;
              edges = graph.edges;
              lists = lists.items;
            }) }
        ensures { result ≡ record {
          network = network;
          order = order;
          edges = graph.edges;
          lists = lists.items;
        } }
    {
        Hierarchy {
            network,
            order,
            graph,
            lists,
        }
    }

    /// Its network.
    pub fn network(&self) -> &Network
        ensures { result.now ≡ self.now.network }
    {
        &self.network
    }

    /// Its order.
    pub fn order(&self) -> &Order
        ensures { result.now ≡ self.now.order }
    {
        &self.order
    }

    /// Its graph.
    pub fn graph(&self) -> &Chordal
        ensures { result.now ≡ graph_of self.now }
    {
        &self.graph
    }

    // The list of an edge in a direction.
    fn list(&self, edge: u32, dir: Dir) -> &WayList
        requires { edge < length self.now.edges }
        ensures list { result.now ≡ list_of self.now edge dir }
        ensures sound { IsHierarchy self.now }
    {
        &self.lists[Shortcut { edge, dir }.list()]
    }
}

impl Roads for Hierarchy {
    ghost network = { λ h. h.network };

    fn nodes(&self) -> u32 {
        self.network.nodes()
    }

    fn arcs(&self) -> u32 {
        self.network.arcs()
    }

    fn profiles(&self) -> u32 {
        self.network.profiles()
    }

    fn arc(&self, arc: u32) -> RoadArc {
        self.network.arc(arc)
    }

    fn closed(&self, arc: u32) -> bool {
        self.network.closed(arc)
    }

    fn drive(&self, arc: u32, second: u64) -> u64 {
        self.network.drive(arc, second)
    }

    fn pieces(&self, profile: u32) -> u32 {
        self.network.pieces(profile)
    }

    fn piece(&self, profile: u32, index: u32) -> Piece {
        self.network.piece(profile, index)
    }
}

impl Ways for Hierarchy {
    ghost hierarchy = { λ h. h };

    ghost same_network = { λ h i. h.network };

    fn rank(&self, node: u32) -> u32 {
        self.order.rank(node)
    }

    fn node(&self, rank: u32) -> u32 {
        self.order.node(rank)
    }

    fn ranks(&self) -> u32 {
        self.graph.ranks()
    }

    fn edges(&self) -> u32 {
        self.graph.edges()
    }

    fn ends(&self, edge: u32) -> Ends {
        self.graph.ends(edge)
    }

    fn edge(&self, low: u32, high: u32) -> Option<u32> {
        self.graph.edge(low, high)
    }

    fn way(&self, edge: u32, dir: Dir, second: u64) -> Option<Way> {
        self.list(edge, dir).at(second)
    }

    fn entries(&self, edge: u32, dir: Dir) -> u32 {
        self.list(edge, dir).entries().len() as u32
    }

    fn entry(&self, edge: u32, dir: Dir, index: u32) -> Entry {
        self.list(edge, dir).entries()[index as usize]
    }
}
