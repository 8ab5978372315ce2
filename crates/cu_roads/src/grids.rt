//! Grid networks to try things on: nodes in rows, a road each way between neighbours, and days with a rush hour.

ghost use Rattle.std.specs.Prelude.{◌≡◌, ◌<◌, ◌+◌, ◌*◌, ◌∷◌, ◌++◌, [], ℕ, Some, Ok, IfOk, OnErr, OnOk, length, nat_lt, slice_get};
ghost use Rattle.cu_model.specs.Profiles.{IsProfile};
ghost use Rattle.cu_roads.specs.declared.grids.TheConstants.{DISTANCE, PROFILES};
ghost use Rattle.cu_roads.specs.Draws.{after};
ghost use Rattle.cu_roads.specs.Grids.{IsSide, behind_grid, drawn_day, drawn_days, drawn_roads, ends_of_node, ends_to, grid_ends, grid_network, grid_places};
ghost use Rattle.cu_roads.specs.NetworkTexts.{network_of};
ghost use Rattle.cu_roads.specs.Steps.DrawnRoads.{AddsRoads};
ghost use Rattle.cu_roads.specs.Written.{written_network};

use crate::draws::Draws;
use crate::places::{Place, Places};
use crate::writer::{write_places, write_roads};
use cu_model::{Network, NoMemory, Piece, Profile, RoadArc, Rule};
use cu_profile::write_profiles;
use std::alloc::Global;
use std::marker::Model;

/// The most nodes in a row of a grid, and the most rows.
pub const MAX_SIDE: u32 = 512;

// How many profiles a grid has.
pub const PROFILES: u32 = 64;

// The distance between neighbours.
pub const DISTANCE: u32 = 100;

// The second of the day, 7:00, at which the rush hour begins, and that, 9:00, from which it eases.
pub const RUSH: u32 = 25_200;

pub const EASING: u32 = 32_400;

// The least number of seconds that a day takes at all hours, and the number below which those on top of it are drawn.
pub const LEAST_FREE: u32 = 20;

pub const FREE_RANGE: u32 = 100;

// The number below which the seconds are drawn that a day takes more in the rush hour, but for the first of them.
pub const EXTRA_RANGE: u32 = 600;

/// The three texts of a grid network. Contracts see three lists of bytes.
#[derive(Drop)]
pub struct GridTexts {
    pub nodes: Vec<u8>,
    pub roads: Vec<u8>,
    pub profiles: Vec<u8>,
}

impl Model for GridTexts {
    ghost use Rattle.cu_roads.specs.Written.{ThreeTexts};

    ghost Value = { ThreeTexts };

    ghost view = { λ texts. record {
      nodes = texts.nodes.items;
      roads = texts.roads.items;
      profiles = texts.profiles.items;
    } };
}

/// The texts of the network of a grid, 1 to 512 nodes wide and 1 to 512 high, drawn from where `draws` stands; after that
/// `draws` stands behind it, and after a refusal where it stood.
///
/// Node `y * width + x` lies at (100x, 100y), where x is below the width. There are 64 profiles, each drawn by
/// [`draw_day`]. Then the nodes give their roads in rising order: where there is a right neighbour a road to it and one
/// back, and then the same for the neighbour in the next row. Each road's profile is drawn below 64, in that order.
pub fn grid(
    alloc: Global,
    draws: &mut Draws,
    width: u32,
    height: u32,
) -> Result<GridTexts, NoMemory>
    requires width { IsSide width }
    requires height { IsSide height }
    ensures texts { IfOk result (λ texts. texts
        ≡ written_network (grid_network draws.old width height)) }
    ensures read { IfOk result (λ texts. network_of texts.nodes texts.roads texts.profiles
        ≡ Ok (grid_network draws.old width height)) }
    ensures behind { OnOk result (draws.new ≡ behind_grid draws.old width height) }
    ensures unchanged { OnErr result (draws.new ≡ draws.old) }
{
    let mut drawn = *draws;
    let profiles = draw_days(alloc, &mut drawn)?;
    let roads = draw_roads(alloc, &mut drawn, width, height)?;
    let places = places_of(alloc, width, height)?;
    let texts = GridTexts {
        nodes: write_places(alloc, &places)?,
        roads: write_roads(alloc, &roads)?,
        profiles: write_profiles(alloc, &profiles)?,
    };
    *draws = drawn;
    Ok(texts)
}

/// The network of a grid as [`grid`] draws it, and the places of its nodes, without any text.
pub fn draw_grid(
    alloc: Global,
    draws: &mut Draws,
    width: u32,
    height: u32,
) -> Result<(Network, Places), NoMemory>
    requires width { IsSide width }
    requires height { IsSide height }
    ensures network { IfOk result (λ drawn. record { network = drawn.0; places = drawn.1 }
        ≡ grid_network draws.old width height) }
    ensures places { IfOk result (λ drawn. length drawn.1 ≡ drawn.0.nodes) }
    ensures behind { OnOk result (draws.new ≡ behind_grid draws.old width height) }
    ensures unchanged { OnErr result (draws.new ≡ draws.old) }
{
    let mut drawn = *draws;
    let profiles = draw_days(alloc, &mut drawn)?;
    let roads = draw_roads(alloc, &mut drawn, width, height)?;
    let places = places_of(alloc, width, height)?;
    *draws = drawn;
    Ok((
        Network::of(width * height, roads, profiles),
        Places { places },
    ))
}

/// How many roads a grid has, 1 to 512 nodes wide and 1 to 512 high: two between neighbours in a row or in a column.
pub fn grid_roads(width: u32, height: u32) -> u32
    requires width { IsSide width }
    requires height { IsSide height }
    ensures { (start : ℕ) → result ≡ length (grid_network start width height).network.arcs }
{
    2 * ((width - 1) * height + (height - 1) * width)
}

/// A law: where the node in column x and row y lies, and which roads it gives.
pub fn grid_by_rows()
    ensures place { (width height x y : ℕ) → x < width → y < height
        → slice_get (grid_places width height) (y * width + x)
        ≡ Some (record { x = x * DISTANCE; y = y * DISTANCE }) }
    ensures roads { (width height x y : ℕ) → x < width
        → ends_of_node width height (y * width + x)
        ≡ ends_to (nat_lt (x + 1) width) (y * width + x) (y * width + (x + 1))
        ++ ends_to (nat_lt (y + 1) height) (y * width + x) ((y + 1) * width + x) }
{}

/// Draws the pieces of a day with a rush hour: first the 20 to 119 seconds that it takes at all hours, which are 20 and a
/// number drawn below 100, and then the 1 to 600 seconds that it takes more from 7:00 on, which are 1 and a number drawn
/// below 600. From 9:00 on whoever leaves arrives with those of 9:00, until the day takes what it took before.
pub fn draw_day(draws: &mut Draws) -> [Piece; 4]
    ensures pieces { result ≡ drawn_day draws.old }
    ensures valid { IsProfile result }
    ensures state { draws.new ≡ after 2 draws.old }
{
    let free = LEAST_FREE + draws.next(FREE_RANGE);
    let extra = 1 + draws.next(EXTRA_RANGE);
    [
        Piece {
            from: 0,
            rule: Rule::Travel(free),
        },
        Piece {
            from: RUSH,
            rule: Rule::Travel(free + extra),
        },
        Piece {
            from: EASING,
            rule: Rule::Until(EASING + free + extra),
        },
        Piece {
            from: EASING + extra,
            rule: Rule::Travel(free),
        },
    ]
}

// Draws a day as a profile.
fn draw_profile(alloc: Global, draws: &mut Draws) -> Result<Profile, NoMemory>
    ensures day { IfOk result (λ profile. profile ≡ drawn_day draws.old) }
    ensures state { draws.new ≡ after 2 draws.old }
{
    let day = draw_day(draws);
    let mut pieces = Vec::new(alloc);
    pieces.extend_from_slice(&day)?;
    Ok(Profile::of(pieces).unwrap())
}

// Draws the profiles of a grid.
fn draw_days(alloc: Global, draws: &mut Draws) -> Result<Vec<Profile>, NoMemory>
    ensures days { IfOk result (λ profiles. profiles.items ≡ drawn_days PROFILES draws.old) }
    ensures state { OnOk result (draws.new ≡ after (2 * PROFILES) draws.old) }
{
    let mut profiles = Vec::new(alloc);
    for _ in 0..PROFILES {
        profiles.push(draw_profile(alloc, draws)?)?;
    }
    Ok(profiles)
}

// The places of the nodes of a grid.
fn places_of(alloc: Global, width: u32, height: u32) -> Result<Vec<Place>, NoMemory>
    requires width { IsSide width }
    requires height { IsSide height }
    ensures { IfOk result (λ places. places.items ≡ grid_places width height) }
{
    let mut places = Vec::new(alloc);
    for node in 0..width * height {
        places.push(Place {
            x: node % width * DISTANCE,
            y: node / width * DISTANCE,
        })?;
    }
    Ok(places)
}

// Draws the roads of a grid.
fn draw_roads(
    alloc: Global,
    draws: &mut Draws,
    width: u32,
    height: u32,
) -> Result<Vec<RoadArc>, NoMemory>
    requires width { IsSide width }
    requires height { IsSide height }
    ensures roads { IfOk result (λ roads. roads.items
        ≡ drawn_roads (grid_ends width height) draws.old) }
    ensures state { OnOk result (draws.new
        ≡ after (length (grid_ends width height)) draws.old) }
{
    let mut roads = Vec::new(alloc);
    for node in 0..width * height {
        add_roads(&mut roads, draws, width, height, node)?;
    }
    Ok(roads)
}

// Draws the roads that a node gives.
fn add_roads(
    roads: &mut Vec<RoadArc>,
    draws: &mut Draws,
    width: u32,
    height: u32,
    node: u32,
) -> Result<(), NoMemory>
    requires width { IsSide width }
    requires height { IsSide height }
    requires node { node < width * height }
    ensures { OnOk result (AddsRoads (ends_of_node width height node)
        roads.old.items draws.old roads.new.items draws.new) }
{
    let (x, y) = (node % width, node / width);
    add_roads_to(roads, draws, x + 1 < width, node, node + 1)?;
    add_roads_to(roads, draws, y + 1 < height, node, node + width)
}

// Draws a road to a neighbour and one back, if it is there.
fn add_roads_to(
    roads: &mut Vec<RoadArc>,
    draws: &mut Draws,
    is_there: bool,
    node: u32,
    neighbour: u32,
) -> Result<(), NoMemory>
    ensures { OnOk result (AddsRoads (ends_to is_there node neighbour)
        roads.old.items draws.old roads.new.items draws.new) }
{
    if !is_there {
        return Ok(());
    }
    add_road(roads, draws, node, neighbour)?;
    add_road(roads, draws, neighbour, node)
}

#[tactic(auto, using(crate::proofs::DrawnGrids::adds_one))]
fn add_road(
    roads: &mut Vec<RoadArc>,
    draws: &mut Draws,
    tail: u32,
    head: u32,
) -> Result<(), NoMemory>
    ensures { OnOk result (AddsRoads (record { tail = tail; head = head } ∷ [])
        roads.old.items draws.old roads.new.items draws.new) }
{
    let profile = draws.next(PROFILES);
    roads.push(RoadArc {
        tail,
        head,
        profile,
    })?;
    Ok(())
}
