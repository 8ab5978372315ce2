//! Texts of networks, and grids.

use cu_model::{Network, NoMemory, RoadArc, Roads};
use cu_profile::{ProfileRefusal, read_profiles};
use cu_roads::{
    Draws, File, GridTexts, Place, Places, RoadRefusal, draw_grid, grid, read_network, read_roads,
};
use std::alloc::Global;

const NODES: File = File::Nodes;

const ROADS: File = File::Roads;

// Why a network of these nodes and roads, and of one profile, is refused.
fn refusal(alloc: Global, nodes: &[u8], roads: &[u8]) -> Option<RoadRefusal> {
    let profiles = b"profile,from,kind,value\n0,0,travel,60\n".as_slice();
    read_network(alloc, nodes, roads, profiles).err()
}

// Why it is refused where the profile is there before.
fn refusal_behind(alloc: Global, nodes: &[u8], roads: &[u8]) -> Option<RoadRefusal> {
    let profiles = b"profile,from,kind,value\n0,0,travel,60\n".as_slice();
    read_roads(alloc, nodes, roads, read_profiles(alloc, profiles).ok()?).err()
}

// Texts of nodes, and why they are refused.
const REFUSED_NODES: [(&[u8], RoadRefusal); 17] = [
    (b"", RoadRefusal::Header { file: NODES }),
    (b"node,x\n", RoadRefusal::Header { file: NODES }),
    (b"node,x,y,z\n", RoadRefusal::Header { file: NODES }),
    (b"node,y,x\n", RoadRefusal::Header { file: NODES }),
    (b"0,0,0\n", RoadRefusal::Header { file: NODES }),
    (
        b"node,x,y\n0,0\n",
        RoadRefusal::Fields {
            file: NODES,
            row: 0,
        },
    ),
    (
        b"node,x,y\n0,0,0\n\n1,0,0,\n",
        RoadRefusal::Fields {
            file: NODES,
            row: 1,
        },
    ),
    (
        b"node,x,y\n+0,0,0\n",
        RoadRefusal::Number {
            file: NODES,
            row: 0,
        },
    ),
    (
        b"node,x,y\n0, 1,0\n",
        RoadRefusal::Number {
            file: NODES,
            row: 0,
        },
    ),
    (
        b"node,x,y\n0,0,\n",
        RoadRefusal::Number {
            file: NODES,
            row: 0,
        },
    ),
    (
        b"node,x,y\n0,0,1000000001\n",
        RoadRefusal::Number {
            file: NODES,
            row: 0,
        },
    ),
    (
        b"node,x,y\n0,1000000001,0\n",
        RoadRefusal::Number {
            file: NODES,
            row: 0,
        },
    ),
    (
        b"node,x,y\n0,100000000000000000000000000000,0\n",
        RoadRefusal::Number {
            file: NODES,
            row: 0,
        },
    ),
    (
        b"node,x,y\n7,a,0\n",
        RoadRefusal::Number {
            file: NODES,
            row: 0,
        },
    ),
    (
        b"node,x,y\n1,0,0\n",
        RoadRefusal::Sequence {
            file: NODES,
            row: 0,
        },
    ),
    (
        b"node,x,y\n0,0,0\n0,0,0\n",
        RoadRefusal::Sequence {
            file: NODES,
            row: 1,
        },
    ),
    (
        b"node,x,y\n100000000000000000000000000000,0,0\n",
        RoadRefusal::Sequence {
            file: NODES,
            row: 0,
        },
    ),
];

#[test]
fn refuses_nodes(rt: HostRuntime) {
    for (nodes, expected) in &REFUSED_NODES {
        assert!(rt; refusal(rt.alloc(), *nodes, b"".as_slice()) == Some(*expected));
        assert!(rt; refusal_behind(rt.alloc(), *nodes, b"".as_slice()) == Some(*expected));
    }
}

// Texts of roads between two nodes, and why they are refused.
const REFUSED_ROADS: [(&[u8], RoadRefusal); 13] = [
    (b"", RoadRefusal::Header { file: ROADS }),
    (b"arc,tail,head\n", RoadRefusal::Header { file: ROADS }),
    (
        b"arc,tail,head,profile\n0,0,1\n",
        RoadRefusal::Fields {
            file: ROADS,
            row: 0,
        },
    ),
    (
        b"arc,tail,head,profile\n0,0,1,\n",
        RoadRefusal::Number {
            file: ROADS,
            row: 0,
        },
    ),
    (
        b"arc,tail,head,profile\n5,a,9,9\n",
        RoadRefusal::Number {
            file: ROADS,
            row: 0,
        },
    ),
    (
        b"arc,tail,head,profile\n5,9,9,9\n",
        RoadRefusal::Sequence {
            file: ROADS,
            row: 0,
        },
    ),
    (
        b"arc,tail,head,profile\n0,0,1,0\n1,1,9,1\n",
        RoadRefusal::NodeRange { row: 1 },
    ),
    (
        b"arc,tail,head,profile\n0,2,0,0\n",
        RoadRefusal::NodeRange { row: 0 },
    ),
    (
        b"arc,tail,head,profile\n0,0,2,0\n",
        RoadRefusal::NodeRange { row: 0 },
    ),
    (
        b"arc,tail,head,profile\n0,0,100000000000000000000000000000,0\n",
        RoadRefusal::NodeRange { row: 0 },
    ),
    (
        b"arc,tail,head,profile\n0,0,1,1\n",
        RoadRefusal::ProfileRange { row: 0 },
    ),
    (
        b"arc,tail,head,profile\n0,0,1,4294967296\n",
        RoadRefusal::ProfileRange { row: 0 },
    ),
    (
        b"arc,tail,head,profile\n0,1,1,0\n1,0,1,7\nx\n",
        RoadRefusal::ProfileRange { row: 1 },
    ),
];

#[test]
fn refuses_roads(rt: HostRuntime) {
    let nodes = b"node,x,y\n0,0,0\n1,5,5\n".as_slice();
    for (roads, expected) in &REFUSED_ROADS {
        assert!(rt; refusal(rt.alloc(), nodes, *roads) == Some(*expected));
        assert!(rt; refusal_behind(rt.alloc(), nodes, *roads) == Some(*expected));
    }
}

#[test]
fn reads_profiles_before_roads(rt: HostRuntime) {
    let nodes = b"node,x,y\n".as_slice();
    let read = read_network(rt.alloc(), nodes, b"".as_slice(), b"profile\n".as_slice());
    assert!(rt; read.err() == Some(RoadRefusal::Profiles(ProfileRefusal::Header)));
}

// Are these its nodes' places, in the order of the nodes?
fn are_places(places: &Places, wanted: &[Place]) -> bool {
    places.places.as_slice() == wanted
}

// Has a network so many nodes and profiles, and these roads?
fn is_network(network: &Network, nodes: u32, profiles: u32, roads: &[RoadArc]) -> bool {
    if network.nodes() != nodes || network.profiles() != profiles {
        return false;
    }
    for arc in 0..network.arcs() {
        if roads.get(arc as usize) != Some(&network.arc(arc)) {
            return false;
        }
    }
    network.arcs() as usize == roads.len()
}

fn road(tail: u32, head: u32, profile: u32) -> RoadArc {
    RoadArc {
        tail,
        head,
        profile,
    }
}

#[test]
fn reads_networks(rt: HostRuntime) {
    let nodes = b"\xef\xbb\xbfnode,\"x\",y\r\n000,1000000000,\"0\"\r\n\r\n\
        1,000000000000000000000000000007,8"
        .as_slice();
    let roads = b"arc,tail,head,profile\n0,0,1,1\n1,1,1,0\n2,0,1,1\n".as_slice();
    let profiles =
        b"profile,from,kind,value\n0,0,travel,60\n1,0,travel,0\n2,0,travel,9\n".as_slice();
    let Ok((network, places)) = read_network(rt.alloc(), nodes, roads, profiles) else {
        panic!(rt; "a network")
    };
    let far = Place {
        x: 1_000_000_000,
        y: 0,
    };
    assert!(rt; are_places(&places, &[far, Place { x: 7, y: 8 }]));
    let roads = [road(0, 1, 1), road(1, 1, 0), road(0, 1, 1)];
    assert!(rt; is_network(&network, 2, 3, &roads));
}

#[test]
fn reads_a_network_of_nothing(rt: HostRuntime) {
    let nodes = b"node,x,y".as_slice();
    let roads = b"arc,tail,head,profile\n\n".as_slice();
    let profiles = b"profile,from,kind,value\n".as_slice();
    let Ok((network, places)) = read_network(rt.alloc(), nodes, roads, profiles) else {
        panic!(rt; "a network")
    };
    assert!(rt; are_places(&places, &[]));
    assert!(rt; is_network(&network, 0, 0, &[]));
}

#[test]
fn draws_numbers(rt: HostRuntime) {
    let mut draws = Draws::new(0);
    assert_eq!(rt; draws.next(100), 7);
    assert_eq!(rt; draws.next(600), 24);
    let mut wrapped = Draws::new(u64::MAX);
    assert_eq!(rt; wrapped.next(u32::MAX), 1_574_552_488);
}

// Are these the texts of its nodes and roads, and does that of its profiles begin so?
fn is_written(texts: &GridTexts, nodes: &[u8], roads: &[u8], profiles: &[u8]) -> bool {
    texts.nodes.as_slice() == nodes
        && texts.roads.as_slice() == roads
        && texts.profiles.starts_with(profiles)
}

#[test]
fn writes_a_grid_of_one_node(rt: HostRuntime) -> Result<(), NoMemory> {
    let texts = grid(rt.alloc(), &mut Draws::new(0), 1, 1)?;
    let nodes = b"node,x,y\n0,0,0\n".as_slice();
    let roads = b"arc,tail,head,profile\n".as_slice();
    let first_days = b"profile,from,kind,value\n\
        0,0,travel,27\n0,25200,travel,52\n0,32400,until,32452\n0,32425,travel,27\n\
        1,0,travel,57\n1,25200,travel,494\n1,32400,until,32894\n1,32837,travel,57\n"
        .as_slice();
    assert!(rt; is_written(&texts, nodes, roads, first_days));
    Ok(())
}

#[test]
fn writes_a_grid_with_roads(rt: HostRuntime) -> Result<(), NoMemory> {
    let mut draws = Draws::new(7);
    let texts = grid(rt.alloc(), &mut draws, 3, 2)?;
    let nodes = b"node,x,y\n0,0,0\n1,100,0\n2,200,0\n3,0,100\n4,100,100\n5,200,100\n".as_slice();
    let roads = b"arc,tail,head,profile\n\
        0,0,1,17\n1,1,0,17\n2,0,3,42\n3,3,0,37\n4,1,2,55\n5,2,1,33\n6,1,4,49\n\
        7,4,1,7\n8,2,5,25\n9,5,2,19\n10,3,4,57\n11,4,3,26\n12,4,5,8\n13,5,4,4\n"
        .as_slice();
    assert!(rt; is_written(&texts, nodes, roads, b"".as_slice()));
    assert_eq!(rt; draws.next(100), 84);
    Ok(())
}

// Is a network read from these texts, with a place for each node? How many nodes, roads and profiles it has.
fn sizes(alloc: Global, texts: &GridTexts) -> Option<(usize, u32, u32, u32)> {
    let read = read_network(alloc, &texts.nodes, &texts.roads, &texts.profiles);
    let (network, places) = read.ok()?;
    Some((
        places.places.len(),
        network.nodes(),
        network.arcs(),
        network.profiles(),
    ))
}

#[test]
fn reads_a_grid(rt: HostRuntime) -> Result<(), NoMemory> {
    let texts = grid(rt.alloc(), &mut Draws::new(7), 2, 2)?;
    assert_eq!(rt; sizes(rt.alloc(), &texts), Some((4, 4, 8, 64)));
    Ok(())
}

#[test]
fn draws_a_grid(rt: HostRuntime) -> Result<(), NoMemory> {
    let (network, places) = draw_grid(rt.alloc(), &mut Draws::new(7), 2, 2)?;
    let roads = [
        road(0, 1, 17),
        road(1, 0, 17),
        road(0, 2, 42),
        road(2, 0, 37),
        road(1, 3, 55),
        road(3, 1, 33),
        road(2, 3, 49),
        road(3, 2, 7),
    ];
    assert!(rt; is_network(&network, 4, 64, &roads));
    assert!(rt; are_places(&places, &[at(0, 0), at(100, 0), at(0, 100), at(100, 100)]));
    Ok(())
}

fn at(x: u32, y: u32) -> Place {
    Place { x, y }
}
