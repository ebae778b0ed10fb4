//! A session that is being drawn.
ghost use Rattle.std.specs.Prelude.{◌≡◌, ◌+◌, ◌<◌, ◌≤◌, ◌%◌, length};
ghost use Rattle.load_generator.specs.Courses.{fresh, length_at, after, CanFollow};
ghost use Rattle.load_generator.specs.Draws.{draws_of, IsDrawn};
ghost use Rattle.load_generator.specs.Lines.{IsWritable};
ghost use Rattle.load_generator.specs.Table.{added_or_cut, joined_or_cut, part_of, cut_of, size_or_walk, put_or_taken, row_of, first_step, later_step, step};

use crate::command::{LoadCommand, Side};
use crate::draws::{Draws, draw, draw_all};
use rand_pcg::Lcg64Xsh32;

/// The greatest length that a cord of a load grows to, in bytes.
const MOST: u32 = 65536;

/// A session's generator, the lengths of its eight cords and of those in its four cells, and whether it has a snapshot.
#[derive(Drop)]
pub(crate) struct Course {
    random: Lcg64Xsh32,
    lengths: [u32; 8],
    cells: [Option<u32>; 4],
    watches: bool,
}

impl Course {
    pub(crate) fn new(seed: u64, session: u64) -> Course
        ensures { result ≡ fresh seed session }
    {
        Course {
            random: Lcg64Xsh32::new(seed, session),
            lengths: [0; 8],
            cells: [None; 4],
            watches: false,
        }
    }

    fn add_or_cut(&self, side: Side, d: &Draws) -> LoadCommand
        requires { IsDrawn d.now }
        ensures row { result ≡ added_or_cut side self.now d.now }
        ensures follows { CanFollow result self.now }
        ensures writable { IsWritable result }
    {
        if self.lengths[d.a as usize] as u64 + d.k as u64 + 1 <= MOST as u64 {
            LoadCommand::Add {
                side,
                a: d.a,
                letter: d.b,
                times: d.k + 1,
            }
        } else {
            LoadCommand::Cut {
                side,
                a: d.a,
                n: 60000,
            }
        }
    }

    fn join_or_cut(&self, side: Side, d: &Draws) -> LoadCommand
        requires { IsDrawn d.now }
        ensures row { result ≡ joined_or_cut side self.now d.now }
        ensures follows { CanFollow result self.now }
        ensures writable { IsWritable result }
    {
        let length = self.lengths[d.a as usize];
        if length as u64 + self.lengths[d.b as usize] as u64 <= MOST as u64 {
            LoadCommand::Join {
                side,
                a: d.a,
                b: d.b,
            }
        } else {
            LoadCommand::Cut {
                side,
                a: d.a,
                n: length / 2,
            }
        }
    }

    // A place within a cord, or its end.
    fn place(&self, d: &Draws) -> u32
        requires { IsDrawn d.now }
        ensures { result ≡ d.now.k % (length_at self.now d.now.a + 1) }
    {
        (d.k as u64 % (self.lengths[d.a as usize] as u64 + 1)) as u32
    }

    fn size_or_walk(&self, d: &Draws) -> LoadCommand
        ensures row { result ≡ size_or_walk self.now d.now }
        ensures follows { CanFollow result self.now }
        ensures writable { IsWritable result }
    {
        if 200 <= d.k {
            LoadCommand::Size { a: d.a }
        } else if !self.watches {
            LoadCommand::Snap
        } else if d.k < 100 {
            LoadCommand::Walk
        } else {
            LoadCommand::Unsnap
        }
    }

    fn put_or_take(&self, d: &Draws) -> LoadCommand
        requires { IsDrawn d.now }
        ensures row { result ≡ put_or_taken self.now d.now }
        ensures follows { CanFollow result self.now }
        ensures writable { IsWritable result }
    {
        let cell = d.k % 4;
        if self.cells[cell as usize].is_none() {
            LoadCommand::Put { a: d.a, cell }
        } else {
            LoadCommand::Take { cell, a: d.a }
        }
    }

    // The row of the table.
    fn row(&self, d: &Draws) -> LoadCommand
        requires { IsDrawn d.now }
        ensures row { result ≡ row_of self.now d.now }
        ensures follows { CanFollow result self.now }
        ensures writable { IsWritable result }
    {
        match d.row {
            0 => self.add_or_cut(Side::Back, d),
            1 => self.add_or_cut(Side::Front, d),
            2 => self.join_or_cut(Side::Back, d),
            3 => self.join_or_cut(Side::Front, d),
            4 => LoadCommand::Sub {
                a: d.a,
                pos: self.place(d),
                n: 500 * d.b,
                b: d.b,
            },
            5 => LoadCommand::Copy { a: d.a, b: d.b },
            6 => LoadCommand::Cut {
                side: Side::Front,
                a: d.a,
                n: self.place(d),
            },
            7 => LoadCommand::Cut {
                side: Side::Back,
                a: d.a,
                n: self.place(d),
            },
            8 => self.size_or_walk(d),
            9 => LoadCommand::Find { a: d.a },
            10 => LoadCommand::Compare { a: d.a, b: d.b },
            _ => self.put_or_take(d),
        }
    }

    // The lengths as the command changes them.
    fn follow(&mut self, command: LoadCommand)
        requires { CanFollow command self.old }
        ensures { self.new ≡ after command self.old }
    {
        match command {
            LoadCommand::Let { a, times, .. } => self.lengths[a as usize] = times,
            LoadCommand::Add { a, times, .. } => self.lengths[a as usize] += times,
            LoadCommand::Cut { a, n, .. } => {
                self.lengths[a as usize] = self.lengths[a as usize].saturating_sub(n);
            }
            LoadCommand::Join { a, b, .. } => {
                self.lengths[a as usize] += self.lengths[b as usize];
            }
            LoadCommand::Sub { a, pos, n, b } => {
                self.lengths[b as usize] = n.min(self.lengths[a as usize].saturating_sub(pos));
            }
            LoadCommand::Copy { a, b } => self.lengths[b as usize] = self.lengths[a as usize],
            LoadCommand::Put { a, cell } => {
                self.cells[cell as usize] = Some(self.lengths[a as usize]);
                self.lengths[a as usize] = 0;
            }
            LoadCommand::Take { cell, a } => {
                self.lengths[a as usize] = self.cells[cell as usize].unwrap_or(0);
                self.cells[cell as usize] = None;
            }
            LoadCommand::Snap => self.watches = true,
            LoadCommand::Unsnap => self.watches = false,
            _ => {}
        }
    }

    // One of the first commands, which give each name its text.
    fn first_step(&mut self, j: u32) -> LoadCommand
        requires { j < 8 }
        ensures step { (result, self.new) ≡ first_step j self.old }
        ensures writable { IsWritable result }
    {
        let times = draw(&mut self.random, 2000) + 1;
        let command = LoadCommand::Let {
            a: j,
            letter: j,
            times,
        };
        self.follow(command);
        command
    }

    fn later_step(&mut self) -> LoadCommand
        ensures step { (result, self.new) ≡ later_step self.old }
        ensures writable { IsWritable result }
    {
        let d = draw_all(&mut self.random);
        let command = self.row(&d);
        self.follow(command);
        command
    }

    /// The command of this place in the session.
    pub(crate) fn step(&mut self, j: u32) -> LoadCommand
        ensures step { (result, self.new) ≡ step j self.old }
        ensures writable { IsWritable result }
    {
        if j < 8 {
            self.first_step(j)
        } else {
            self.later_step()
        }
    }
}
