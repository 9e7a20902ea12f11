//! Each fault that the plain test of a good graph names is seen in a graph made for it.
ghost use Rattle.std.specs.Prelude.{◌≡◌, ◌<◌};

use super::*;
use std::alloc::Global;
use std::marker::Brand;
use std::process::Abort;
use std::sync::ledger::{Blank, Ledger};
use vs_graph::{Edit, InlineBody, LayerLinks, ListNodes, Node, Nodes, Steps};
use vs_graph_fixtures::attr_of;
use vs_outside::NoMemory;

/// What is put into a node: name, words, level, for how many layers above 0 it has lists, the links with their layers, and the attribute.
#[derive(Clone, Copy)]
struct Sketch {
    name: &'static [u8],
    words: &'static [u64],
    level: u8,
    above: u8,
    links: &'static [(u8, u32)],
    attr: &'static [u8],
}

const A: Sketch = Sketch {
    name: b"a",
    words: &[0],
    level: 0,
    above: 0,
    links: &[(0, 1)],
    attr: b"",
};

const B: Sketch = Sketch {
    name: b"b",
    links: &[(0, 0)],
    ..A
};

fn node_of(alloc: Global, sketch: Sketch) -> Result<Node, NoMemory> {
    let mut links = LayerLinks::new(alloc, sketch.above)?;
    for (layer, id) in sketch.links {
        if (*layer as usize) < links.len() {
            links.push(*layer, *id)?;
        }
    }
    Ok(Node {
        body: InlineBody::new(alloc, sketch.name, sketch.words)?,
        attr: attr_of(alloc, sketch.attr)?,
        level: sketch.level,
        links,
    })
}

/// Members with the ids 0, 1 and so on.
fn nodes_of(alloc: Global, sketches: &[Sketch]) -> Result<ListNodes, NoMemory> {
    let mut edit = Edit::new(alloc);
    let mut id: u32 = 0;
    for sketch in sketches {
        edit.put(id, node_of(alloc, *sketch)?)?;
        id = id.saturating_add(1);
    }
    let mut nodes = ListNodes::new(alloc)?;
    if edit.end() <= 1048576 {
        nodes.publish(edit)?;
    }
    Ok(nodes)
}

/// What is wrong with these members, of which there should be two.
fn fault_by<L: Ledger>(
    alloc: Global,
    sketches: &[Sketch],
    entry: Option<u32>,
    blank: Blank,
) -> Result<Result<(), Fault>, NoMemory>
    requires name { blank.name ≡ L.name }
    requires parts { blank.parts ≡ L.parts }
    requires some { 0 < L.parts }
{
    let mut reads = Steps::<L>::new(blank);
    let nodes = nodes_of(alloc, sketches)?;
    let bounds = Bounds { m: 4, dim: 64 };
    Ok(check_nodes(&nodes, entry, bounds, 2, &mut reads))
}

// A member of level 1 with its list there.
const HIGH: Sketch = Sketch {
    level: 1,
    above: 1,
    ..A
};

/// Two members, the entry, and what is wrong with them.
type Row = (&'static [Sketch], Option<u32>, Result<(), Fault>);

const NODES: [Row; 8] = [
    (&[A, B], Some(1), Ok(())),
    (&[HIGH, B], Some(0), Ok(())),
    (
        &[
            Sketch {
                words: &[0, 0],
                ..A
            },
            B,
        ],
        Some(0),
        Err(Fault::Words),
    ),
    (&[Sketch { words: &[], ..A }, B], Some(0), Err(Fault::Words)),
    (
        &[
            Sketch {
                level: 16,
                above: 16,
                ..A
            },
            B,
        ],
        Some(0),
        Err(Fault::Level),
    ),
    (&[Sketch { level: 1, ..A }, B], Some(0), Err(Fault::Lists)),
    (&[Sketch { above: 1, ..A }, B], Some(0), Err(Fault::Lists)),
    (&[A, Sketch { name: b"a", ..B }], Some(0), Err(Fault::Name)),
];

const LINKS: [Row; 7] = [
    (
        &[
            Sketch {
                links: &[
                    (0, 1),
                    (0, 1),
                    (0, 1),
                    (0, 1),
                    (0, 1),
                    (0, 1),
                    (0, 1),
                    (0, 1),
                    (0, 1),
                ],
                ..A
            },
            B,
        ],
        Some(0),
        Err(Fault::TooManyLinks),
    ),
    (
        &[
            Sketch {
                links: &[(0, 1), (1, 1), (1, 1), (1, 1), (1, 1), (1, 1)],
                ..HIGH
            },
            B,
        ],
        Some(0),
        Err(Fault::TooManyLinks),
    ),
    (
        &[
            A,
            Sketch {
                links: &[(0, 0), (0, 0)],
                ..B
            },
        ],
        Some(0),
        Err(Fault::RepeatedLink),
    ),
    (
        &[
            Sketch {
                links: &[(0, 1), (0, 0)],
                ..A
            },
            B,
        ],
        Some(0),
        Err(Fault::LinkToItself),
    ),
    (
        &[
            A,
            Sketch {
                links: &[(0, 0), (0, 2)],
                ..B
            },
        ],
        Some(0),
        Err(Fault::LinkToNobody),
    ),
    (
        &[
            Sketch {
                links: &[(0, 1), (1, 1)],
                ..HIGH
            },
            B,
        ],
        Some(0),
        Err(Fault::LinkToNobody),
    ),
    (
        &[A, Sketch { links: &[], ..B }],
        Some(0),
        Err(Fault::LinkOneWay),
    ),
];

const ENTRIES: [Row; 6] = [
    (
        &[Sketch { links: &[], ..A }, Sketch { links: &[], ..B }],
        Some(0),
        Err(Fault::Alone),
    ),
    (
        &[
            HIGH,
            Sketch {
                level: 1,
                above: 1,
                ..B
            },
        ],
        Some(0),
        Err(Fault::Alone),
    ),
    (&[A, B], None, Err(Fault::Entry)),
    (&[A, B], Some(2), Err(Fault::Entry)),
    (&[HIGH, B], Some(1), Err(Fault::Entry)),
    (&[Sketch { links: &[], ..A }], Some(0), Err(Fault::Count)),
];

fn are_seen<A: Abort>(rt: &A, alloc: Global, table: &[Row]) -> Result<(), NoMemory> {
    for (row, (sketches, entry, expected)) in table.iter().enumerate() {
        let seen = fault_by::<Brand>(alloc, sketches, *entry, Blank::new(1))?;
        assert_eq!(rt; seen, *expected, "in row {row}");
    }
    Ok(())
}

// Every fault but that of a removal.
#[test]
fn faults_are_seen(rt: HostRuntime) -> Result<(), NoMemory> {
    are_seen(&rt, rt.alloc(), &NODES)?;
    are_seen(&rt, rt.alloc(), &LINKS)?;
    are_seen(&rt, rt.alloc(), &ENTRIES)
}

// As the other, with an attribute.
const C: Sketch = Sketch { attr: b"{}", ..B };

/// What is wrong where the second of two members was removed, and these are there.
fn change_by<L: Ledger>(
    alloc: Global,
    sketches: &[Sketch],
    blank: Blank,
) -> Result<Result<(), Fault>, NoMemory>
    requires name { blank.name ≡ L.name }
    requires parts { blank.parts ≡ L.parts }
    requires some { 0 < L.parts }
{
    let mut reads = Steps::<L>::new(blank);
    let before = nodes_of(alloc, &[C, A])?;
    let after = nodes_of(alloc, sketches)?;
    Ok(check_others(&before, &after, 1, &mut reads))
}

const CHANGES: [(&'static [Sketch], Result<(), Fault>); 9] = [
    (&[C], Ok(())),
    (&[Sketch { links: &[], ..C }], Ok(())),
    (&[C, A], Err(Fault::Change)),
    (&[], Err(Fault::Change)),
    (&[Sketch { name: b"c", ..C }], Err(Fault::Change)),
    (&[Sketch { words: &[1], ..C }], Err(Fault::Change)),
    (
        &[Sketch {
            level: 1,
            above: 1,
            ..C
        }],
        Err(Fault::Change),
    ),
    (&[Sketch { attr: b"[]", ..C }], Err(Fault::Change)),
    (&[B], Err(Fault::Change)),
];

// The second member goes; the first is to be as it was but for its links.
#[test]
fn changes_are_seen(rt: HostRuntime) -> Result<(), NoMemory> {
    for (row, (sketches, expected)) in CHANGES.iter().enumerate() {
        let seen = change_by::<Brand>(rt.alloc(), sketches, Blank::new(1))?;
        assert_eq!(rt; seen, *expected, "in row {row}");
    }
    Ok(())
}
