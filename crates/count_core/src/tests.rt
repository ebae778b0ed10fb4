//! Steps on small worlds, by their answers and their words.
use crate::change::TreeChange;
use crate::memory::Memory;
use crate::step::Step;
use crate::tree::Tree;
use crate::view::View;
use crate::world::World;
use node_forest::{Kind, Side};
use rand_core::utils::NextWord;
use rand_pcg::Pcg32;
use std::alloc::Global;

/// A flat of 20 bytes.
fn flat(alloc: Global, number: u32) -> Tree {
    Tree {
        number,
        kind: Kind::Flat,
        length: 20,
        children: Vec::new(alloc),
    }
}

#[test]
fn words_follow_a_flat_through_its_life(rt: HostRuntime) {
    let alloc = rt.alloc();
    let mut world = World::new(alloc, 4, 1).expect(&rt, "a small world");
    let take = Step::Take {
        view: 0,
        number: 0,
        tree: flat(alloc, 0),
    };
    let share = Step::Share { view: 0, number: 0 };
    let leave = Step::Leave { view: 0, number: 0 };
    for (step, word) in [(&take, 1), (&share, 2), (&leave, 1), (&leave, 0)] {
        assert_eq!(rt; world.apply(alloc, step), Ok(true));
        assert_eq!(rt; world.words.first().copied(), Some(word));
        assert_eq!(rt; world.holders(0), word);
    }
    assert_eq!(rt; world.apply(alloc, &leave), Ok(false));
    assert_eq!(rt; world.words.first().copied(), Some(0));
}

/// A world of 3 numbers and 2 views: the first has a branch, number 2, over a flat, number 0, which it also holds.
fn branch_world(alloc: Global) -> Result<World, Memory> {
    let mut world = World::new(alloc, 3, 2)?;
    let take = Step::Take {
        view: 0,
        number: 0,
        tree: flat(alloc, 0),
    };
    let _ = world.apply(alloc, &take)?;
    let _ = world.apply(alloc, &Step::Share { view: 0, number: 0 })?;
    let _ = world.apply(alloc, &branch(alloc, 0, 2, 1)?)?;
    Ok(world)
}

/// The take of a branch over so many flats with the number 0.
fn branch(alloc: Global, view: u32, number: u32, edges: u64) -> Result<Step, Memory> {
    let mut children = Vec::new(alloc);
    for _ in 0..edges {
        children.push(flat(alloc, 0))?;
    }
    let tree = Tree {
        number,
        kind: Kind::Branch,
        length: edges.saturating_mul(20),
        children,
    };
    Ok(Step::Take { view, number, tree })
}

/// Whether each of the steps is refused.
fn all_refused(alloc: Global, world: &mut World, steps: &[Step]) -> Result<bool, Memory> {
    for step in steps {
        if world.apply(alloc, step)? {
            return Ok(false);
        }
    }
    Ok(true)
}

/// Takes that aren't possible in the branch world: by their view, number, tree, word or children.
fn refused_takes(alloc: Global) -> Result<Vec<Step>, Memory> {
    let mut steps = Vec::new(alloc);
    for (view, number, tree) in [(2, 1, 1), (0, 3, 3), (0, 1, 0), (0, 0, 0)] {
        let tree = flat(alloc, tree);
        steps.push(Step::Take { view, number, tree })?;
    }
    steps.push(branch(alloc, 0, 1, 2)?)?;
    steps.push(branch(alloc, 1, 1, 1)?)?;
    let mut children = Vec::new(alloc);
    children.push(Tree {
        number: 0,
        kind: Kind::Flat,
        length: 21,
        children: Vec::new(alloc),
    })?;
    let tree = Tree {
        number: 1,
        kind: Kind::Part,
        length: 5,
        children,
    };
    let (view, number) = (0, 1);
    steps.push(Step::Take { view, number, tree })?;
    Ok(steps)
}

/// Splits of the branch world's first view at places that it lacks or that aren't different.
fn refused_splits(alloc: Global) -> Result<Vec<Step>, Memory> {
    let mut beyond = Vec::new(alloc);
    beyond.push(2)?;
    let mut twice = Vec::new(alloc);
    twice.push(1)?;
    twice.push(1)?;
    let mut steps = Vec::new(alloc);
    for places in [beyond, twice] {
        steps.push(Step::Split { view: 0, places })?;
    }
    Ok(steps)
}

#[test]
fn impossible_steps_are_refused(rt: HostRuntime) {
    let alloc = rt.alloc();
    let mut world = branch_world(alloc).expect(&rt, "a small world");
    let takes = refused_takes(alloc).expect(&rt, "small trees");
    let splits = refused_splits(alloc).expect(&rt, "short lists");
    let others = [
        Step::Share { view: 1, number: 0 },
        Step::Share { view: 0, number: 1 },
        Step::Leave { view: 1, number: 2 },
        Step::Leave { view: 0, number: 1 },
        Step::Look { view: 1, number: 0 },
        Step::Merge { view: 0, other: 0 },
        Step::Merge { view: 0, other: 2 },
        Step::Uncounted { view: 0 },
        Step::Counted { view: 2 },
        Step::Home { view: 2 },
    ];
    assert_eq!(rt; all_refused(alloc, &mut world, &takes), Ok(true));
    assert_eq!(rt; all_refused(alloc, &mut world, &splits), Ok(true));
    assert_eq!(rt; all_refused(alloc, &mut world, &others), Ok(true));
    assert_eq!(rt; world.words.as_slice(), [2, 0, 1].as_slice());
}

/// Changes of the branch world's branch, along the path to its flat.
fn mark(alloc: Global, changes: Vec<(u8, TreeChange)>) -> Result<Step, Memory> {
    let mut path = Vec::new(alloc);
    path.push(0)?;
    Ok(Step::Mark {
        view: 0,
        number: 2,
        path,
        changes,
    })
}

/// One change at a depth.
fn change(alloc: Global, depth: u8, change: TreeChange) -> Result<Vec<(u8, TreeChange)>, Memory> {
    let mut changes = Vec::new(alloc);
    changes.push((depth, change))?;
    Ok(changes)
}

/// Direct holds with this number alone become edges behind the others.
fn add(alloc: Global, number: u32) -> Result<TreeChange, Memory> {
    let mut numbers = Vec::new(alloc);
    numbers.push(number)?;
    let side = Side::Front;
    Ok(TreeChange::Add { side, numbers })
}

/// Changes that don't fit: a branch's length, a length of 0 and one of 2^63, a depth below the path, the root and a number
/// that isn't held as edges, and the one edge of the path taken away or exchanged.
fn refused_marks(alloc: Global) -> Result<Vec<Step>, Memory> {
    let side = Side::Back;
    let changes = [
        (0, TreeChange::Length { length: 51 }),
        (1, TreeChange::Length { length: 0 }),
        (1, TreeChange::Length { length: 1 << 63 }),
        (2, TreeChange::Length { length: 51 }),
        (0, add(alloc, 2)?),
        (0, add(alloc, 0)?),
        (0, TreeChange::Drop { side, count: 1 }),
        (0, TreeChange::Swap { side, number: 1 }),
    ];
    let mut steps = Vec::new(alloc);
    for (depth, one) in changes {
        steps.push(mark(alloc, change(alloc, depth, one)?)?)?;
    }
    Ok(steps)
}

/// A longer flat, and then another flat before it.
fn grow(alloc: Global) -> Result<Step, Memory> {
    let mut changes = change(alloc, 1, TreeChange::Length { length: 51 })?;
    changes.push((0, add(alloc, 1)?))?;
    mark(alloc, changes)
}

#[test]
fn a_lone_path_is_changed_in_place(rt: HostRuntime) {
    let alloc = rt.alloc();
    let mut world = branch_world(alloc).expect(&rt, "a small world");
    let (view, number) = (0, 1);
    let tree = flat(alloc, 1);
    assert_eq!(rt;
        world.apply(alloc, &Step::Take { view, number, tree }),
        Ok(true)
    );
    let grow = grow(alloc).expect(&rt, "two changes");
    assert_eq!(rt;
        world.apply(alloc, &grow),
        Ok(false),
        "the flat is held twice"
    );
    assert_eq!(rt;
        world.apply(alloc, &Step::Leave { view: 0, number: 0 }),
        Ok(true)
    );
    let refused = refused_marks(alloc).expect(&rt, "small steps");
    assert_eq!(rt; all_refused(alloc, &mut world, &refused), Ok(true));
    assert_eq!(rt; world.apply(alloc, &grow), Ok(true));
    let root = world.views.first().and_then(|view| view.holds.first());
    assert_eq!(rt; root.map(|tree| tree.length), Some(71));
    assert_eq!(rt;
        root.and_then(|tree| tree.children.first())
            .map(|tree| tree.number),
        Some(1)
    );
    assert_eq!(rt; world.words.as_slice(), [1, 1, 1].as_slice());
}

/// A random step. A take makes a tree of a view's first direct holds, whose kind fits how many they are.
fn random_step(alloc: Global, world: &World, random: &mut Pcg32) -> Result<Step, Memory> {
    let view = random.next_word() % 4;
    let number = random.next_word() % 8;
    let other = random.next_word() % 4;
    Ok(match random.next_word() % 17 {
        0..=3 => {
            let tree = random_tree(
                alloc,
                world.views.get(view as usize),
                number,
                random.next_word() % 4,
            )?;
            Step::Take { view, number, tree }
        }
        4 | 5 => Step::Share { view, number },
        6 | 7 => Step::Leave { view, number },
        8 => Step::Look { view, number },
        9 => Step::Merge { view, other },
        10 => {
            let mut places = Vec::new(alloc);
            places.push(random.next_word() % 3)?;
            Step::Split { view, places }
        }
        11 => Step::Counted { view },
        12 => Step::Uncounted { view },
        13..=15 => random_mark(alloc, view, number, random)?,
        _ => Step::Home { view },
    })
}

/// A random change at a random depth of a path that is at most one edge long.
fn random_mark(alloc: Global, view: u32, number: u32, random: &mut Pcg32) -> Result<Step, Memory> {
    let mut path = Vec::new(alloc);
    if random.next_word().is_multiple_of(2) {
        path.push((random.next_word() % 3) as u8)?;
    }
    let depth = (random.next_word() % 2) as u8;
    let side = if random.next_word().is_multiple_of(2) {
        Side::Front
    } else {
        Side::Back
    };
    let other = random.next_word() % 8;
    let changes = match random.next_word() % 4 {
        0 => change(alloc, depth, TreeChange::Length { length: 7 })?,
        1 => {
            let mut numbers = Vec::new(alloc);
            numbers.push(other)?;
            change(alloc, depth, TreeChange::Add { side, numbers })?
        }
        2 => change(alloc, depth, TreeChange::Drop { side, count: 1 })?,
        _ => change(
            alloc,
            depth,
            TreeChange::Swap {
                side,
                number: other,
            },
        )?,
    };
    Ok(Step::Mark {
        view,
        number,
        path,
        changes,
    })
}

/// A tree with the number, over at most so many of the view's first direct holds.
fn random_tree(alloc: Global, view: Option<&View>, number: u32, most: u32) -> Result<Tree, Memory> {
    let mut children = Vec::new(alloc);
    if let Some(view) = view {
        for tree in view.holds.iter().take(most as usize) {
            children.push(tree.copied(alloc)?)?;
        }
    }
    let kind = match children.len() {
        0 => Kind::Flat,
        1 if number.is_multiple_of(2) => Kind::Part,
        1 => Kind::Sum,
        _ => Kind::Branch,
    };
    Ok(Tree {
        number,
        kind,
        length: 20,
        children,
    })
}

/// A fifth view, which a split made, goes to one of the first four.
fn gather(alloc: Global, world: &mut World, view: u32) -> Result<(), Memory> {
    if world.views.len() == 5 {
        let _ = world.apply(alloc, &Step::Merge { view, other: 4 })?;
        let _ = world.views.pop();
    }
    Ok(())
}

#[test]
fn words_are_the_holders_along_a_random_walk(rt: HostRuntime) {
    let alloc = rt.alloc();
    let mut world = World::new(alloc, 8, 4).expect(&rt, "a small world");
    let mut random = Pcg32::new(7, 11);
    let mut done = 0u32;
    for i in 0..4000u32 {
        let step = random_step(alloc, &world, &mut random).expect(&rt, "a small step");
        if world.apply(alloc, &step).expect(&rt, "a small step") {
            done = done.saturating_add(1);
        }
        let view = random.next_word() % 4;
        gather(alloc, &mut world, view).expect(&rt, "a small step");
        for n in 0..8u32 {
            assert_eq!(rt;
                world.words.get(n as usize).copied(),
                Some(world.holders(n)),
                "word {n} after step {i}"
            );
        }
    }
    assert!(rt; done > 1000, "only {done} steps were possible");
}
