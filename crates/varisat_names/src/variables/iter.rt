//! The names in use and the live global variables, one after another.
ghost use Rattle.std.specs.Prelude.{◌≡◌};
ghost use Rattle.std.specs.Iterator.{YieldsFirst, item_count};
ghost use Rattle.varisat_names.specs.promises.VarMap.{mapped_from};
ghost use Rattle.varisat_names.specs.promises.VarData.{live_from};

use super::globals::Globals;
use super::var_map::VarMap;
use std::alloc::Allocator;
use std::marker::Model;
use varisat_literals::Var;

/// The names in use, in increasing order. A contract sees those that are left.
#[derive(Drop)]
pub struct UserVars<'a, A: Allocator + Copy> {
    map: &'a VarMap<A>,
    index: usize,
}

impl<'a, A: Allocator + Copy> Model for UserVars<'a, A> {
    ghost use Rattle.std.specs.Prelude.{ℕ, List, drop};
    ghost use Rattle.varisat_names.specs.promises.VarMap.{mapped_from};

    ghost Value = { List ℕ };

    ghost view = { λ u. mapped_from u.index (drop u.index u.map.now) };
}

impl<'a, A: Allocator + Copy> UserVars<'a, A> {
    /// All variables that the map leads somewhere.
    pub fn new(map: &'a VarMap<A>) -> UserVars<'a, A>
        ensures { result ≡ mapped_from 0 map.now }
    {
        UserVars { map, index: 0 }
    }
}

impl<'a, A: Allocator + Copy> Iterator for UserVars<'a, A> {
    type Item = Var;

    ghost next_gives = { YieldsFirst (λ left. left) };

    ghost remaining = { item_count (λ left. left) };

    fn next(&mut self) -> Option<Var> {
        self.map.prove_small();
        'names: while self.index < self.map.watermark() {
            let user = Var::from_index(self.index);
            self.index += 1;
            if self.map.get(user).is_some() {
                return Some(user);
            }
        }
        None
    }
}

/// The live global variables, in increasing order. A contract sees those that are left.
#[derive(Drop)]
pub struct GlobalVars<'a, A: Allocator + Copy> {
    globals: &'a Globals<A>,
    index: usize,
}

impl<'a, A: Allocator + Copy> Model for GlobalVars<'a, A> {
    ghost use Rattle.std.specs.Prelude.{ℕ, List, drop};
    ghost use Rattle.varisat_names.specs.promises.VarData.{live_from};

    ghost Value = { List ℕ };

    ghost view = { λ v. live_from v.index (drop v.index v.globals.now.kept) };
}

impl<'a, A: Allocator + Copy> GlobalVars<'a, A> {
    /// All live variables.
    pub(super) fn new(globals: &'a Globals<A>) -> GlobalVars<'a, A>
        ensures { result ≡ live_from 0 globals.now.kept }
    {
        GlobalVars { globals, index: 0 }
    }
}

impl<'a, A: Allocator + Copy> Iterator for GlobalVars<'a, A> {
    type Item = Var;

    ghost next_gives = { YieldsFirst (λ left. left) };

    ghost remaining = { item_count (λ left. left) };

    fn next(&mut self) -> Option<Var> {
        self.globals.prove_small();
        'globals: while self.index < self.globals.len() {
            let global = Var::from_index(self.index);
            self.index += 1;
            if !self.globals.data(global).deleted {
                return Some(global);
            }
        }
        None
    }
}
